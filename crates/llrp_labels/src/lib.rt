//! Listings with labels: the texts of words in the set of all schemes, and the keys of EPCs after them (EPC Tag Data Standard 1.13,
//! sections 7 and 12).
//!
//! Use it to show what a stock system knows beside a reader's words, and to read such a listing back. [`list_labelled`] and
//! [`run_show_labelled`] write the listing of a stream with labels; [`label_text`] labels a listing, [`plain_text`] takes the labels
//! off, line by line, and [`read_plain`] those of a listing that a source gives. [`label_tags`] labels the lines of tags.
//!
//! ```
//! let labels = Labels { schemes: false, keys: true };
//! let labelled = label_text(alloc, labels, listing)?;  // 2 EPC-96 urn:epc:tag:sgtin-96:3.0614141.812345.6789, a tab, gtin 80614141123458 6789
//! let listing = plain_text(alloc, labels, labelled.as_slice())?;
//! ```
#![tactic(auto)]

mod fault;
mod label;
mod labels;
mod last_word;
pub mod laws;
mod listing;
mod plain;
mod runs;
mod tags;
mod texts;
mod word;

pub use fault::{LabelErr, LabelFault, PlainErr};
pub use labels::Labels;
pub use listing::list_labelled;
pub use runs::{read_plain, run_show_labelled};
pub use tags::label_tags;
pub use texts::{label_text, plain_text};
