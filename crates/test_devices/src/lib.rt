//! What tests share: sources that give little a call, sinks that take little or have little room, each of
//! which can fail in one call, a script of three sightings, and octets as texts.
//!
//! Use it in tests of calls over a source and a sink. [`Pieces`] gives a stream in pieces of one length after
//! a first piece, and [`Room`] takes what fits into a fixed size; [`Dripping`] and [`Taking`] move one octet
//! a call and [`Lines`] a line, and fail in the n-th. [`rows`] has what the programs read and print that make one
//! call of a row of tests.
#![tactic(auto)]

pub mod rows;
mod sightings;
mod sinks;
mod sources;
mod spelled;

pub use sightings::{THREE_LINES, THREE_SIGHTINGS};
pub use sinks::{Failure, Gulping, Room, Taking};
pub use sources::{Dripping, Lines, Pieces};
pub use spelled::{are_spelled, decoded, decoded_in, octets, spell};

/// No call fails.
pub const NEVER: u64 = u64::MAX;
