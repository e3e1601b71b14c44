//! Messages from lines of JSON, as `show --json` writes them, whose members come in any order (RFC 8259; LLRP 1.1, section 17).
//!
//! Use it where a program says messages as objects. White space may stand between the parts of a line, and strings have any of
//! JSON's escapes. [`run_encode_json`] goes from a source to a sink, and [`encode_lines`] from a text in memory; [`encode_line`] appends the frame of a line's message,
//! [`read_line`] and [`read_message`] give the message; a [`Refusal`] says what is wrong, and where.
//!
//! ```
//! let message = read_line(alloc, KindSet::Profile, line, &mut scratch)?;  // {"id":7,"version":2,"message":"KEEPALIVE"}
//! ```
#![tactic(auto)]

mod guess;
mod in_memory;
pub mod laws;
mod line;
mod members;
mod messages;
mod names;
mod nodes;
mod numbers;
mod path;
mod printed;
mod refusal;
mod rules;
mod run;
mod tails;

pub use in_memory::encode_lines;
pub use line::{encode_line, read_line};
pub use messages::read_message;
pub use names::Shape;
pub use path::path_of;
pub use refusal::{ReadErr, Reason, Refusal, RefusedLine};
pub use run::{LinesErr, run_encode_json};
