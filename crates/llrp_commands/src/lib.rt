//! The commands of `llrp`: what its words ask for, and each command over bytes and texts, with its exit
//! status and its error's line. Sockets, files and the process are not part of it, and neither are both ends
//! of a connection, so that this crate is proved beside theirs; `llrp_tool` exports both.
//!
//! Use it to put the commands into a program of your own. [`run_command`] does what the words ask for, as [`run_request`] does what
//! [`asked_of`] found in them;
//! [`network_command`] returns the command over sockets that they ask for, as a [`NetworkCommand`].
//!
//! ```
//! let words = ["epc", "3074257BF7194E4000001A85"];
//! let status = run_command(alloc, &words, &mut input, &mut output, &mut errors)?;  // 0, and the text was written to output
//! ```
#![tactic(auto)]

mod command;
mod digits;
mod encode_json;
mod epc;
mod epc_table;
mod explain;
mod fields;
mod labelled;
pub mod laws;
mod run;
mod show_names;
mod show_segments;

pub use command::{LIMIT, USAGE, answer, write_parts, write_refusal};
pub use epc_table::{prefixes_file, refuse_table, run_epc_by};
pub use llrp_keys::TableErr;
pub use llrp_words::{
    AccessWords, AskWords, LabelWords, NetworkCommand, PlanWords, Request, SimWords, StopWords,
    WatchWords, asked_of, files_asked, network_command, reads_input, texts_asked,
};
pub use run::{run_command, run_request};
