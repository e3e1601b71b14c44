//! The GS1 keys and pure identity URIs of EPCs: the numbers that a stock system knows (EPC Tag Data Standard 1.13, sections 6 and 7).
//!
//! Use it to go from a tag to the number in a database, and back. [`print_id`] and [`parse_id`] go between EPCs and pure identity
//! URIs, [`print_key`] and [`parse_key`] between EPCs and the element strings, Digital Link URIs or names of GS1 keys, which carry a
//! check digit. A pure identity has no filter value and a key says not how long its company prefix is, so reading takes these as
//! numbers; [`digits_from_company`] gives the digits that begin with that prefix. A [`KeyFault`] names the first rule that refuses a
//! text. No call takes memory.
//!
//! ```
//! let text = print_key(&epc, Spelling::Element);
//! let epc = parse_key("(01)80614141123458(21)6789", Spelling::Element, 3, 7)?;
//! ```
#![tactic(auto)]

mod check_digit;
mod components;
mod digits;
mod fault;
mod form;
mod from_company;
mod id_name;
mod key_pieces;
pub mod laws;
mod read_id_uri;
mod read_key_text;
mod serial;
mod spelling;
mod tag_text;
mod write_id_uri;
mod write_key_text;

pub use fault::KeyFault;
pub use from_company::digits_from_company;
pub use read_id_uri::parse_id;
pub use read_key_text::parse_key;
pub use spelling::Spelling;
pub use write_id_uri::print_id;
pub use write_key_text::print_key;
