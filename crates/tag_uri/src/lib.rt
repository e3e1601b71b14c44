//! The texts of EPCs and of 96-bit words: tag URIs and raw URIs (EPC Tag Data Standard 1.13, section 12).
//!
//! Use it to print the tags that a reader reports, and to read them back: a word has one text, and a text at most one word.
//! [`text_of_word`] and [`word_of_text`] go between words and texts; [`print`] and [`parse`] between EPCs and tag URIs. A
//! [`UriFault`] names the first rule that refuses a text. No call takes memory.
//!
//! The crates above write and read other decimal digits with [`pair`], [`count_of_few`], [`number_of_last`] and [`plain_between`].
//!
//! ```
//! let text = text_of_word(word);       // urn:epc:tag:sgtin-96:3.0614141.812345.6789
//! let word = word_of_text("urn:epc:raw:96.xE20000000000000000000001")?;
//! ```
#![tactic(auto)]

pub mod components;
pub mod decimal;
mod fault;
mod gid;
pub mod laws;
mod parse_fast;
mod parse_uri;
mod partitioned;
mod print_uri;
mod put_digits;
mod raw_uri;
mod read_digits;
pub mod rules;
mod scheme;
mod word_text;

pub use fault::UriFault;
pub use parse_uri::parse;
pub use print_uri::{print, put_tag_uri};
pub use put_digits::{count_of_few, pair};
pub use read_digits::{number_of_last, plain_between};
pub use word_text::{print_raw, put_text_of_word, text_of_word, word_of_octets, word_of_text};
