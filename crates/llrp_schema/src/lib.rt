//! The messages and parameters of LLRP 1.1: each kind's number, name, fields, tail
//! and groups of children, one row a kind.
//!
//! Use it where code has to know what LLRP's tables say, and nowhere write them again: the crates above are generic over it. A
//! [`Kind`] is a message's [`MsgKind`] or a parameter's [`ParamKind`]; [`fields`], [`tail`] and [`groups`] give its row, and
//! [`param_of_tlv`] and the like find a kind by its number.
//!
//! ```
//! let kind = Kind::Parameter(ParamKind::AntennaId);
//! let width = fields(kind)[0].width;        // 16 bits
//! let found = param_named("AntennaID");     // Some(ParamKind::AntennaId)
//! ```
#![tactic(auto)]

mod by_name;
mod by_number;
mod kinds;
mod labels;
pub mod laws;
mod messages;
mod parameters;
mod places;
mod required_groups;
mod row_macros;
mod seen;
mod tables;
mod tlv;
mod tv;
mod whole;

pub use by_name::{
    msg_named, msg_with_name, msg_with_name_in, param_named, param_with_name, param_with_name_in,
};
pub use by_number::{
    is_tv, msg_of, msg_of_in, param_of_tlv, param_of_tlv_in, param_of_tv, param_of_tv_in,
};
pub use kinds::{Field, Group, Kind, KindSet, Label, MsgKind, ParamKind, Place, Tail};
pub use labels::label;
pub use places::place;
pub use required_groups::required;
pub use seen::Seen;
pub use tables::{fields, groups, kind_set, name, number, tail};
