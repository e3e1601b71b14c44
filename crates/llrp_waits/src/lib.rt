//! How long a client waits for its reader.
//!
//! Use it where a reader may live and yet not answer. [`Waits`] is a pure machine: it takes, each with its moment,
//! what was asked for and what came, and says how long the next read may take. The clock is the caller's: a
//! moment is a number of milliseconds.
//!
//! ```
//! let bounds = Bounds { answer: Some(5_000), report: None, frame: None, silence: Some(30_000), write: None };
//! let waits = Waits::new(bounds, 0).asks(Head { number: 20, id: 1 }, 100).takes(Cut::Between, 2_000);
//! let left = waits.left(4_000); // Some(1_100)
//! ```
#![tactic(auto)]

mod head;
pub mod laws;
mod repeats;
mod wait;
mod waits;

pub use head::Head;
pub use repeats::{MINUTE, Repeats};
pub use wait::{Wait, sooner};
pub use waits::{Awaited, Bounds, Cut, Waits};
