//! The laws of the crates that are exported here.

pub use llrp_commands::laws::{epc_has_words, show_and_encode_have_flag};
pub use llrp_endpoints::laws::{
    course_is_determined, ends_agree, frames_read_back, one_script, one_serving,
    one_text_of_frames, plan_ends, plan_is_never_refused, plan_sends_its_commands,
    script_or_refused, sent_within_limit, served_within_limit,
};
pub use llrp_listing::laws::{
    lines_are_short, listed_or_refused, one_epc_answer, one_text_of_items, one_text_of_messages,
    prints_back,
};
