//! Bit fields of byte lists and of 96-bit words, numbered from the most significant bit on.
//!
//! Use it to read and write fields of protocols that count bits from the first bit sent, as LLRP and EPC words do. [`get`] and
//! [`put`] read and write a number of up to 128 bits anywhere among bytes; a [`Word`] is the twelve octets of an EPC-96.
//!
//! ```
//! let octets = [0x04, 0x3E, 0x00, 0x0A];
//! let kind = get(&octets, 6, 10);  // 0x3E: ten bits from bit 6 on
//! let word = Word::of_bytes([0x30, 0x74, 0x25, 0x7B, 0xF7, 0x19, 0x4E, 0x40, 0x00, 0x00, 0x1A, 0x85]);
//! ```
#![tactic(auto)]

mod fields;
pub mod laws;
mod octets;
mod parts;
mod word;

pub use fields::{get, put};
pub use word::Word;
