//! The memory of a C1G2 tag: four banks of words, and what reading and writing makes of them.
//!
//! Use it to play a tag to a client that reads and writes by AccessSpecs (LLRP 1.1, sections 12 and 14). A [`TagMemory`] has the
//! banks; [`TagMemory::read`] and [`TagMemory::write`] answer as the tag would, or say why it would not ([`Fault`]).
//!
//! ```
//! memory.write(0, Bank::User, 0, &[0x1234])?;
//! let words = memory.read(0, Bank::User, 0, 1)?;
//! ```
#![tactic(auto)]

mod bank;
pub mod laws;
mod memory;

pub use bank::{Bank, Fault};
pub use memory::TagMemory;
