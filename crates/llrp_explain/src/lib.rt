//! Messages of LLRP with every bit accounted for: a line for each field in the order of a frame's bits. And what the tables say of each
//! kind, as lines for people.
//!
//! Use it where a person asks what a message or parameter is made of: [`line_of`] gives the line of one kind by its name, and [`table`]
//! those of a set.
//!
//! ```
//! let line = line_of(alloc, KindSet::Profile, b"AntennaID")?; // 1 AntennaID: AntennaID 16; -; in TagReportData
//! ```
#![tactic(auto)]

mod asked;
mod explained;
mod fault_texts;
mod form;
mod handed;
mod json;
mod kind_texts;
pub mod laws;
mod lines;
mod missing;
mod nearest;
mod printer;
pub mod push;
mod readings;
mod refusals;
mod refused;
mod rows;
mod sentences;
mod walk;

pub use explained::{Explainer, StreamText, explain_only, explain_stream, explain_stream_in};
pub use form::Form;
pub use json::LineKind;
pub use kind_texts::push_kind;
pub use lines::Lines;
pub use nearest::nearest_names;
pub use rows::{kinds_of, line_of, table};
pub use walk::push_message;
