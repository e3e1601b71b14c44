//! The forms of a tag's word: tag URI, pure identity URI, element string, Digital Link URI, hexadecimal digits, and the key by its
//! name (EPC Tag Data Standard 1.13, sections 6, 7, 12 and 14).
//!
//! Use it to write what a reader reports as a stock system has it, and the other way round. [`text_in`] gives the text of a word in a
//! form, [`form_of`] the form that a text begins as, and [`word_in`] the word of a text; a [`FormFault`] names the first rule that
//! refuses the text. [`push_wanted`] does all of this for one text, also as an object of JSON, and a [`TextList`] for the lines of a list that comes in pieces. A
//! key does not say how many digits its company prefix has: the caller says it, or a table of [`Prefixes`]; [`Company`] is one or the
//! other.
//!
//! [`form_in_all`] and [`read_in_all`] go between words and texts in the set of all schemes, and [`Wanted`] has answers of that set.
//!
//! ```
//! let text = text_in(word, Form::Key); // gtin 80614141123458 6789
//! let word = word_in("(01)80614141123458(21)6789", Form::Element, 3, Some(7))?;
//! ```
#![tactic(auto)]

mod all_answers;
mod all_forms;
mod all_objects;
mod answer;
mod company;
mod fault;
mod form;
mod form_lines;
mod further_text;
mod hexadecimal;
pub mod laws;
mod list;
mod member;
mod object;
mod prefixes;
mod read_form;
mod read_further;
mod wanted;
mod write_form;

pub use all_answers::{push_forms_in_all, push_refusal_in_all};
pub use all_forms::{AllFault, form_in_all, read_in_all};
pub use answer::{push_answer, push_refusal};
pub use company::Company;
pub use fault::FormFault;
pub use form::{FORMS, Form, form_named, form_of};
pub use form_lines::push_forms;
pub use list::{LONGEST_LINE, TextList};
pub use object::push_object_answer;
pub use prefixes::{Entry, PrefixErr, Prefixes};
pub use read_form::word_in;
pub use wanted::{Wanted, push_wanted};
pub use write_form::text_in;
