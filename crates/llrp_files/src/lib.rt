//! The commands of `llrp` that need no socket, over files, the standard streams and a terminal.
//!
//! Use it for a program that has these commands, alone or beside others: [`words_of`] gives the words of the process, and [`run_offline`]
//! does what they ask for, unless that is a command over sockets. [`run_files`] does what is requested over one input after another, of the
//! process or of your own ([`Inputs`]).
//!
//! ```
//! let Some(words) = words_of(&rt)? else { return Ok(USAGE) };
//! let status = run_offline(&rt, words.as_slice())?;  // None for a command over sockets
//! ```
#![tactic(auto)]

mod ending;
mod files;
mod hints;
mod offline;
mod opened;
mod prefixes;
mod terminal;

pub use ending::{FAILED, end_without_memory};
pub use files::{Inputs, Opening, run_files};
pub use offline::{run_offline, words_of};
