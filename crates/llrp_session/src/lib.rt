//! A simulated LLRP reader and a client, as machines without sockets and without a clock: moments and messages are given to
//! them, and messages come out.
//!
//! Use it to test a client or a reader of your own, message by message, or to build one over a transport of your own. A [`Reader`]
//! takes what happens at a moment (a [`ReaderIn`]); a [`Client`] takes a [`Command`], or a message of its reader, and says what
//! that is (a [`Taken`]). Both append the messages that they send. `llrp_endpoints` puts them over bytes. Beside the machine stands
//! [`answer`], for requests of general clients that are no messages of the profile.
//!
//! ```
//! let mut client = Client::new(alloc, 65_536, 1);
//! let taken = client.take(first_message, &mut sent)?;   // Taken::Connected
//! client.command(Command::GetReport, &mut sent)?;       // sent now ends with GET_REPORT
//! ```
#![tactic(auto)]

mod answers;
mod build;
mod client;
pub mod laws;
mod parse;
mod reader;
mod types;

pub use answers::answer;
pub use client::{Client, CmdFault, CmdRefusal, TakeFault, TakeRefusal};
pub use parse::find::{field, first};
pub use parse::stored_rospec::RoSpec;
pub use reader::Reader;
pub use reader::events::{ReaderIn, StepFault, StepRefusal};
pub use reader::side_events::SideEvent;
pub use reader::table::Entry;
pub use reader::timers::sooner;
pub use types::{
    ClientPhase, Command, ContentSelector, Keepalive, Operation, Pending, ReaderPhase, ReportSpec,
    RoState, Sighting, Taken, Viewed,
};
