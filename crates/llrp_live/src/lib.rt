//! A simulated reader in real time: each thing that happens to it comes with its moment.
//!
//! Use it where time passes by itself, as in a test bench. A [`LiveReader`] is given the client's octets as they come, and other
//! events ([`llrp_session::ReaderIn`]): that a client connected, that a tag is seen, that time has passed. It appends the messages
//! that the reader sends. It takes the messages of the whole standard. Requests about versions are answered, and a message of another
//! version than that in use is refused ([`llrp_versions::hear`]). Of messages outside the profile some are answered from a file
//! ([`llrp_answers::Answers`]) and some by themselves ([`llrp_session::answer`]); of every other the reader takes what the profile has of it.
//!
//! ```
//! let mut reader = LiveReader::new(alloc, Reader::new(alloc, 65_536, 1), Answers::new(alloc));
//! reader.happen(now, ReaderIn::Connect, &mut sent)?;
//! let has_closed = reader.feed(now, octets, &mut sent)?;
//! ```
//!
//! Beside it stand what a script in real time says ([`line_of`], [`ScriptReader`], [`Schedule`]), the tags of the files that it names
//! ([`words_of_tags`], [`sighting_at`]), what it expects of the client ([`Expectations`]), of which events of antennas and inputs the client
//! asked to hear ([`Notices`]), where a frame or a request is refused ([`fault_place`], [`refused_place`]), and what is said in place of a
//! message ([`with_status`], [`with_place`]).
#![tactic(auto)]

mod doing;
mod expectations;
mod fault_places;
pub mod laws;
mod lines;
mod moments;
mod notices;
mod places;
mod reader;
mod refused_requests;
mod rounds;
mod schedule;
mod script_lines;
mod script_reader;
mod starts;
mod statuses;
mod tag_file;

pub use expectations::{Expectation, Expectations};
pub use fault_places::{FaultPlace, MOST_LEVELS, fault_place};
pub use lines::{Again, Deed, Line, MOST_OCTETS, ShortOctets};
pub use moments::{Stage, When, later, moment_in, moment_of};
pub use notices::Notices;
pub use places::with_place;
pub use reader::{LivePhase, LiveReader};
pub use refused_requests::{RefusedField, refused_place};
pub use rounds::{MOST_NUMBERS, Rounds, ShortNumbers, sighting_at};
pub use schedule::Schedule;
pub use script_lines::line_of;
pub use script_reader::{LONGEST_LINE, LONGEST_LISTING, ScriptReader, Sent, Timetable};
pub use starts::says_start;
pub use statuses::with_status;
pub use tag_file::{TagsErr, words_of_tags};
