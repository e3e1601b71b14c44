//! The names that LLRP 1.1 gives the numbers of fields, as `Upon_N_Tags_Or_End_Of_ROSpec` for the 2 of an ROReportTrigger.
//!
//! Use it where a person reads what stands in a field: [`name_of`] gives the name of a number by the kind of the message or parameter and
//! the field's name. The names are those of the LLRP Toolkits; docs/tables.md says of each how sure it is.
//!
//! ```
//! let kind = Kind::Parameter(ParamKind::RoReportSpec);
//! let name = name_of(kind, b"Trigger", 2); // Some("Upon_N_Tags_Or_End_Of_ROSpec")
//! ```
#![tactic(auto)]

mod enumeration;
mod kinds;
mod names;
mod values;

pub use enumeration::Enumeration;
pub use names::name_of;
