//! What the words of `llrp` ask for: its commands with their arguments, and the request that a list of words is. It stands on the
//! parser of command lines alone, so that no change of another crate proves it again.
//!
//! [`request_of`] returns what is requested, [`asked_of`] with it the files that are named; [`network_command`] the command over sockets, if it is one.
//!
//! ```
//! let words = ["show", "--hex"];
//! let Request::Show(words) = request_of(alloc, &words)? else { .. };  // words.hex is true
//! ```
#![tactic(auto)]

mod arguments;
pub mod laws;

pub use arguments::{
    AccessWords, AskWords, EncodeWords, EpcWords, LabelWords, MOST_OCTETS, NetworkCommand,
    PlanWords, Request, SegmentWords, ShowWords, SimWords, StopWords, WatchWords, asked_of,
    files_asked, network_command, reads_input, request_of, texts_asked,
};
