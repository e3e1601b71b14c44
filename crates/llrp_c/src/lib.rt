//! The static library for C, and for every language that can call C: tags, their texts and their keys,
//! listings of streams and of their frames, each field of these, what reports say of tags, and streams of
//! listings, on buffers and numbers that the caller passes. No call keeps anything between two calls.
//!
//! Use it from any language but Rattle, whose programs call the crates below. `include/llrp.h` declares the
//! functions, and docs/library.md says how to link them. C passes a slice as a pointer and then a length, and
//! nothing for an allocator. Each function here is thin: it calls the crates below, and says how that ended
//! as a `Status`, whose code it returns.
//!
//! ```c
//! uint8_t word[LLRP_WORD_OCTETS];
//! uint32_t status = llrp_word_of_text(text, text_length, word, sizeof word);
//! ```
#![tactic(auto)]

mod all_keys;
mod all_schemes;
mod explaining;
mod frames;
mod json_lines;
mod keys;
pub mod laws;
mod listings;
mod names;
mod next;
mod reports;
mod room;
mod status;
mod tags;

pub use reports::Tag;
pub use status::{JsonRule, KeyRule, Status};
