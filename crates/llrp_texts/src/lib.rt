//! The messages of a listing, in memory (LLRP 1.1, section 17).
//!
//! Use it where a file lists messages that are then sent. [`messages_of`] takes a text as `show` prints it, and gives its messages.
//!
//! ```
//! let messages = messages_of(alloc, KindSet::Standard, text, MAX_LIMIT)?;
//! ```
#![tactic(auto)]

mod texts;

pub use texts::{TextErr, messages_of};
