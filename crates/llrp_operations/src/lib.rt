//! Operations on one tag: the AccessSpec that asks a reader for them, and whether what it reports says that
//! they were done (LLRP 1.1, sections 12, 14 and 16).
//!
//! Use it to read, write or lock a tag by ADD_ACCESSSPEC. [`access_spec`] makes the AccessSpec of a
//! [`Request`]: it is for the tags with one EPC, or for any tag, and ends after the first. [`has_succeeded`]
//! looks at the TagReportData of a tag: there is one result for each operation, in order, under the id of
//! that AccessSpec and of the operation, and each is 0. [`run_access`] asks a reader for it over a source and
//! a sink, prints the results, and says what came of it.
#![tactic(auto)]

mod access;
mod change;
mod conversation;
mod course;
mod errand;
mod inventory;
pub mod laws;
mod lines;
mod message;
mod names;
mod operation;
mod parameters;
mod request;
mod results;
mod tag_names;
mod talk;
mod verified;
mod word;

pub use access::{Ending, Errand, run_access};
pub use change::{change_tag, epc_write, with_checks};
pub use course::{Course, Demand, Heard, Outcome, Saying, Stage};
pub use errand::{ErrandErr, ErrandWords, OWN_ID, OperationOption, OwnErrand, errand_of};
pub use inventory::inventory_spec;
pub use lines::{result_line, result_object};
pub use message::{epc_of, has_results, hear_message, message_of};
pub use names::result_name;
pub use operation::{LockField, LockManner, Operation};
pub use parameters::SpecErr;
pub use request::{LONGEST_EPC, MOST_OPERATIONS, Request, access_spec};
pub use results::{has_succeeded, is_clear};
pub use tag_names::tag_name;
pub use talk::{AccessErr, Patience, Talked, operate};
pub use verified::{Meant, is_done, is_meant, result_of};
pub use word::{WordErr, lock_of, read_of, write_of};
