//! What a simulated reader does to a tag by an AccessSpec (LLRP 1.1, sections 12 and 14): which of them it takes, and the results of
//! its operations.
//!
//! Use it to play a reader to a client that reads and writes tags. [`chosen`] finds the AccessSpec of a sighting among those that
//! are enabled, and [`perform`] does its operations on the tag's memory, in order, and gives a result for each.
//!
//! ```
//! if let Some(entry) = chosen(entries, antenna, rospec, &memory) {
//!     let results = perform(alloc, entry.spec.operations.as_slice(), &mut memory)?;
//! }
//! ```
#![tactic(auto)]

mod access_spec;
pub mod laws;
mod operation;

pub use access_spec::{AccessSpec, Entry, Target, chosen};
pub use operation::{Operation, OperationResult, perform};
