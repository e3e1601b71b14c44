//! The two ends of an LLRP connection over bytes: a simulated reader that acts by a script, and a client that follows a plan.
//! Sockets, files and words are not part of it.
//!
//! Use it to test a client against a reader ([`run_serve`]), or to take inventory of a reader ([`run_inventory`]), over any
//! transport. A [`Script`] says what the antennas see, and when; a [`Plan`] says what the client asks for. [`Serving`] and
//! [`Gathering`] are the same without a loop around them: they take pieces of the stream as they come.
//!
//! ```
//! let script = Script::parse(alloc, b"3 1000 seen 1 -60 urn:epc:tag:gid-96:1.2.3\n")?;
//! run_serve(alloc, Reader::new(alloc, MAX_LIMIT, 1), script, &mut source, &mut sink)?;
//! let plan = standard_plan(alloc, 2, 1)?;
//! let summary = run_inventory(alloc, plan, MAX_LIMIT, &mut source, &mut sink, &mut lines)?;
//! ```
#![tactic(auto)]

mod asides;
mod both_ends;
mod course;
mod form;
mod frames;
mod gathering;
mod heard;
mod hearing;
mod inventory;
pub mod laws;
mod marks;
mod moment;
mod plan;
mod reads;
mod script;
mod serve;
mod server;
mod serving;
mod summary;
mod tag_lister;
mod watching;

pub use asides::AsideMessages;
pub use both_ends::{Endpoint, run_loop};
pub use course::{Awaits, Phase, Step};
pub use form::LineForm;
pub use gathering::Gathering;
pub use heard::own_message;
pub use hearing::Hearing;
pub use inventory::{MOST_LASTING_READS, run_inventory, run_lasting};
pub use llrp_session::Sighting;
pub use marks::marked_lines;
pub use plan::{
    LONGEST_ROSPEC_TEXT, Plan, PlanErr, PlanFault, checked_plan, read_rospec, standard_plan,
};
pub use script::{Action, Entry, LONGEST_ENTRY, MOST_ENTRIES, Script};
pub use serve::run_serve;
pub use serving::Serving;
pub use summary::Summary;
pub use tag_lister::TagLister;
pub use watching::{Watcher, run_watching};
