//! The GS1 keys and pure identity URIs of EPCs of the further schemes GIAI-96, GSRNP-96, SGCN-96 and CPI-96, and the pure identity URI of
//! USDoD-96 (EPC Tag Data Standard 1.13, sections 6 and 7).
//!
//! Use it beside `tag_keys`, which has the same for the seven schemes. [`print_id_in`] and [`parse_id_in`] go between the numbers of
//! an EPC and its pure identity URI, [`print_key_in`] and [`parse_key_in`] between them and the element strings, Digital Link URIs or
//! names of the keys GIAI, GSRN of a provider, GCN and CPID. Reading takes the filter value and how many digits the company prefix has, and
//! a `KeyFault` of `tag_keys` names the first rule that refuses a text; a text of more than 72 octets is `Long`. [`from_company_in`] gives
//! what begins with the company prefix. USDoD-96 has no key: [`print_supplier_id`] and [`parse_supplier_id`] are for its pure identity URI.
//! No call takes memory.
//!
//! ```
//! let text = print_key_in(epc, Spelling::Element);
//! let epc = parse_key_in("(8004)06141415678", Spelling::Element, 3, 7)?;
//! ```
#![tactic(auto)]

mod asset;
mod components;
mod coupon;
mod digits;
mod from_company;
mod id_name;
mod key_start;
pub mod laws;
mod older;
mod part;
mod part_pieces;
mod read_id_uri;
mod read_key_text;
mod service;
mod supplier_fault;
mod supplier_id;
mod tag_text;
mod write_id_uri;
mod write_key_text;

pub use from_company::from_company_in;
pub use read_id_uri::{id_in_front, parse_id_in};
pub use read_key_text::parse_key_in;
pub use supplier_fault::SupplierFault;
pub use supplier_id::{parse_supplier_id, print_supplier_id, supplier_id_in_front};
pub use write_id_uri::print_id_in;
pub use write_key_text::print_key_in;
