//! Messages of LLRP as lines of JSON: a listener that prints the object of each message as its parts are read.
//!
//! Use it with `Frames` of `llrp_stream`, to hand what a reader sent on to programs that read JSON. A [`JsonPrinter`] holds the objects
//! of the messages so far, each with its LF, under the names that the tables have. [`run_show_json_named`] gives the fields of the
//! profile's messages the names of the whole standard.
//!
//! ```
//! let mut printer = JsonPrinter::new(alloc);
//! let mut frames = Frames::new(65_536);
//! frames.feed(&mut printer, piece)?;
//! let lines = printer.as_slice();  // {"message":"KEEPALIVE","version":2,"id":7}
//! ```
#![tactic(auto)]

mod ends;
pub mod laws;
mod lister;
mod names;
mod nodes;
mod openings;
mod printer;
mod show;
mod standard_printer;
mod values;

pub use lister::{JsonLister, ListerPhase};
pub use names::Names;
pub use nodes::push_parameters;
pub use printer::JsonPrinter;
pub use show::{list_stream_json, list_stream_json_named, run_show_json, run_show_json_named};
pub use values::push_string;
