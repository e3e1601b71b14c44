//! A client that sends the messages of a file to a reader, one by one, waits for the response to each, and
//! shows all that comes.
//!
//! Use it to ask a reader for anything that LLRP has a message for, over any transport. [`steps_of`] reads
//! the file: listings as `show --all` prints them, and between two of them lines such as `= 2.5s`, which wait
//! for what comes, or, where they are allowed, as `! 04FE 0000`, whose octets are sent as they are.
//! [`run_ask`] takes these steps over a source and a sink; [`Asking`] is the same without octets that come:
//! it hears messages, and says what to send.
//!
//! ```
//! let steps = steps_of(alloc, b"0 GET_READER_CAPABILITIES 1 1 0\n= 2.5s\n", false)?;
//! let manner = Manner { form: Form::Lines, goes_on: false, patience: 10_000 };
//! let verdict = run_ask(alloc, steps.as_slice(), manner, &mut source, &mut sink, &mut shown)?;
//! ```
#![tactic(auto)]

mod ask;
mod asking;
mod conversation;
mod file;
mod find;
mod form;
mod next;
mod own_line;
mod pause;
mod raw;
mod response;
mod step;

pub use ask::{MOST_TURNS, Manner, TimedSource, is_late, run_ask};
pub use asking::{Asking, Phase};
pub use file::steps_of;
pub use form::Form;
pub use next::{Next, next_in};
pub use step::{Step, Wait};
