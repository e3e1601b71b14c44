//! `llrp epc` with an option, over a source and a sink: the text of a tag's word in another form, all its forms, and a list of texts
//! with a line for each (EPC Tag Data Standard 1.13, sections 6, 7, 12 and 14).
//!
//! Use it to answer texts in a program of your own. [`run_forms`] writes the forms of one text's word, [`run_answer`] the text in one
//! form, and [`run_list`] a line for each text of a list, which may be of any length: what it keeps in memory does not grow with it.
//! [`read_prefixes`] reads a table of how many digits company prefixes have. [`run_epc_in_all`] and [`run_forms_in_all`] are for
//! the set of all schemes, for which `Wanted` has words of its own.
//!
//! ```
//! let verdict = run_answer(alloc, "(01)80614141123458(21)6789", Wanted::Text(Form::Hex), 3, Company::Digits(Some(7)), &mut output)?;
//! ```
#![tactic(auto)]

mod all_forms;
mod all_schemes;
mod list;
mod named_key;
mod prefixes;
mod text;

pub use all_forms::run_forms_in_all;
pub use all_schemes::run_epc_in_all;
pub use list::run_list;
pub use named_key::{NamedKey, named_key_of};
pub use prefixes::{TableErr, read_prefixes};
pub use text::{run_answer, run_forms};
