//! The EPCs that a 96-bit word can carry, by the EPC Tag Data Standard 1.13.
//!
//! Use it to read what a tag's word says, or to make the word of a company prefix and its numbers. An [`Epc`] is the numbers of a
//! lawful EPC of one of the schemes that [`Kind`] lists; a [`WordFault`] says which part of a word fails, and at which bit. Texts
//! are in `tag_uri`.
//!
//! ```
//! let epc = Epc::partitioned(Kind::Sgtin, 3, 7, 614141, 812345, 6789)?;
//! let word = epc.to_word();            // 3074257BF7194E4000001A85
//! let again = Epc::from_word(word)?;   // the same EPC
//! ```
#![tactic(auto)]

mod bit_cursor;
mod epc;
mod fault;
mod from_word;
pub mod kind;
mod lawful_parts;
pub mod laws;
pub mod scheme;
mod to_word;

pub use epc::{Epc, Parts};
pub use fault::{EpcFault, WordFault, WordReason};
pub use kind::Kind;
