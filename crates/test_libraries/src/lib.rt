//! Tests of listings and of lines of JSON over sources and sinks that fail or move little a call, of captures,
//! and the example of each library.
//!
//! Rows of texts and octets are below `tests/rows`, and the modules here are named after what they test.
//! Expected values come from the standards, never from this project's own output. No crate uses it.
#![tactic(auto)]

#[cfg(test)]
mod captures;
#[cfg(test)]
mod devices;
#[cfg(test)]
mod encode_cut;
#[cfg(test)]
mod examples;
#[cfg(test)]
mod explain_cut;
#[cfg(test)]
mod json_lines;
#[cfg(test)]
mod json_read;
#[cfg(test)]
mod operations;
#[cfg(test)]
mod sides;
#[cfg(test)]
mod whole;
