//! The two sides of TCP connections, put together from the segments of a capture.
//!
//! Use it between the lines that tshark prints of a capture and a decoder of octets. [`segment_of`] reads a
//! line, [`Connections`] counts the connections that are open, and a [`Reassembly`] takes the segments of one
//! side in the order of the capture, and hands on its octets in the order in which they were sent: segments
//! that come twice, in another order or one over the other are put right.
//!
//! ```
//! let line = "1700000000.25\t3\t192.0.2.17\t\t5084\t0x0018\t1000\t083e";
//! let segment = segment_of(alloc, 5084, line)?;  // of stream 3, from the reader
//! let mut side = Reassembly::new(alloc, segment.sequence);
//! side.take(1002, b"\0\0", &mut octets)?;        // comes early, so it waits
//! side.take(1000, segment.octets.as_slice(), &mut octets)?;
//! ```
#![tactic(auto)]

mod connections;
pub mod laws;
mod place;
mod reassembly;
mod row;
mod segment;
mod window;

pub use connections::{Connections, MOST_CONNECTIONS, OpenErr};
pub use reassembly::{REACH, Reassembly, TakeErr, Took};
pub use row::{Row, row_of};
pub use segment::{Segment, SegmentErr, Sender, segment_of};
