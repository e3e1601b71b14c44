//! Tests of words and their texts, of the tables, of frames and of the decoder over pieces of a stream.
//!
//! Add a row here for each word or frame that the standard or a reader gives; the modules are named after
//! what they test. Expected values come from the standards, never from this project's own output. No crate
//! uses it.
#![tactic(auto)]

#[cfg(test)]
mod decoder;
#[cfg(test)]
mod epcs;
#[cfg(test)]
mod fields;
#[cfg(test)]
mod filling;
#[cfg(test)]
mod parts;
#[cfg(test)]
mod reading;
#[cfg(test)]
mod spelling;
#[cfg(test)]
mod tables;
#[cfg(test)]
mod texts;
#[cfg(test)]
mod words;
