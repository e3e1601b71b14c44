//! The messages of a capture, each with its time and with the side of its connection that sent it.
//!
//! Use it to list what a reader and its client said in a capture of tshark. [`show_segments`] reads the lines
//! that tshark prints of segments, and lists the frames of each side as `llrp_listing` and `llrp_json` list a
//! stream, in the order of the capture.
//!
//! ```
//! let verdict = show_segments(alloc, form, 5084, &mut source, &mut sink);  // a line for the time and the side, then the frame's
//! ```
#![tactic(auto)]

mod failure;
mod form;
mod framing;
mod line_reader;
mod listing;
mod session;
mod side;
mod stamp;
mod stretch;

pub use failure::{LineFault, ShowErr, StepErr};
pub use form::Form;
pub use line_reader::{LONGEST_LINE, show_segments};
pub use side::Side;
pub use stamp::Stamp;
pub use stretch::Stretch;
