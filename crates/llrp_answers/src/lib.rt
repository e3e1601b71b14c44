//! Answers to requests that a simulated reader does not know, from a file: messages for the requests of a form (LLRP 1.1, the chapter on
//! custom extensions, is where most of them come from).
//!
//! Use it where a simulated reader is to answer what makers added. A file is pairs, one after another: a line `? FORM`, and the messages to
//! answer with, as `show --all` lists them. A form is the line of a request as `show --all` prints it, where a word may be `*`, which stands
//! for any. [`Answers::read`] reads a file, and [`Answers::answers_to`] gives the messages for a request, under its id.
//!
//! ```
//! let answers = Answers::read(alloc, b"? 0 CUSTOM_MESSAGE * * 25882 21 *\n0 CUSTOM_MESSAGE 1 0 25882 22 x00\n")?;
//! let sent = answers.answers_to(alloc, &request)?; // Some of one message, under the request's id
//! ```
#![tactic(auto)]

mod answers;
mod file;
mod form;
pub mod laws;
mod words;

pub use answers::{Answers, Pair};
