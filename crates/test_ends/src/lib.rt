//! Tests of the two ends of a connection: the reader and the client, scripts and plans, and both over
//! streams.
//!
//! Rows of exchanges, runs and scripts are below `tests/rows`, and the modules here are named after what they
//! test. Expected values come from the standards, never from this project's own output. No crate uses it.
#![tactic(auto)]

#[cfg(test)]
mod answers;
#[cfg(test)]
mod both_ends;
#[cfg(test)]
mod canned;
#[cfg(test)]
mod examples;
#[cfg(test)]
mod general;
#[cfg(test)]
mod general_client;
#[cfg(test)]
mod inventory;
#[cfg(test)]
mod live;
#[cfg(test)]
mod plans;
#[cfg(test)]
mod renewing;
#[cfg(test)]
mod run;
#[cfg(test)]
mod script;
#[cfg(test)]
mod script_lines;
#[cfg(test)]
mod serve_devices;
#[cfg(test)]
mod served;
#[cfg(test)]
mod timetable;
#[cfg(test)]
mod versions;
#[cfg(test)]
mod watched;
