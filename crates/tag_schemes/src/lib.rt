//! Further schemes of 96-bit EPCs, beside those of `tag_epc`: GIAI-96, GSRNP-96, SGCN-96, CPI-96 and USDoD-96 (EPC Tag Data
//! Standard 1.13).
//!
//! Use it where the words of these schemes are to have their tag URIs; without it they have raw URIs, and stay as they are.
//! [`text_in_all`] and [`word_in_all`] go between words and texts of all schemes, and [`fault_in_all`] says why a word has no tag URI;
//! [`numbers_of`] and [`word_of`] go between words and [`Numbers`], the numbers of an EPC of one of the further schemes with a company
//! prefix, [`supplier_of`] and [`word_of_supplier`] between words and [`Supplier`], those of a USDoD-96. No call takes memory.
//!
//! ```
//! let text = text_in_all(word);        // urn:epc:tag:giai-96:3.0614141.5678
//! let word = word_in_all("urn:epc:tag:giai-96:3.0614141.5678")?;
//! ```
#![tactic(auto)]

mod all_texts;
mod fault;
pub mod laws;
mod numbers;
mod read_text;
mod read_word;
mod rules;
mod scheme;
mod supplier;
mod supplier_text;
mod supplier_word;
mod word_fault;
mod write_text;
mod write_word;

pub use all_texts::{is_further, text_in_all, word_in_all};
pub use fault::{PartFault, PartReason, SchemeFault};
pub use numbers::Numbers;
pub use read_word::numbers_of;
pub use scheme::Scheme;
pub use supplier::Supplier;
pub use supplier_text::print_supplier;
pub use supplier_word::{supplier_of, word_of_supplier};
pub use word_fault::fault_in_all;
pub use write_text::print_further;
pub use write_word::word_of;
