//! All that the program `llrp` is made of, under one name: the commands that its words ask for, both ends of a connection, listings,
//! and sources and sinks. It has no code of its own.
#![tactic(auto)]

pub mod laws;

pub use llrp_commands::{
    AccessWords, AskWords, LIMIT, LabelWords, NetworkCommand, PlanWords, SimWords, StopWords,
    USAGE, WatchWords, answer, files_asked, network_command, reads_input, run_command, texts_asked,
};
pub use llrp_endpoints::{
    Action, Endpoint, Entry, Gathering, LineForm, Plan, PlanErr, PlanFault, Script, Serving,
    Sighting, Summary, checked_plan, own_message, run_inventory, run_loop, run_serve,
    standard_plan,
};
pub use llrp_listing::{
    Refusal, ToolErr, Verdict, bytes_of_hex, read_all, run_encode, run_encode_in, run_epc,
    run_show, run_show_in, write_all,
};
pub use llrp_stream::{Input, Output, Sink, Source};
