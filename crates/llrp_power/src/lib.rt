//! Which entry of a reader's power table a power means, and the RFTransmitter that asks for it (LLRP 1.1,
//! sections 10 and 16).
//!
//! Use it where a person says a power in dBm. A reader lists the powers that it has in the regulatory part of
//! its GET_READER_CAPABILITIES_RESPONSE, and a ROSpec names one of them by its index. [`offer_in`] looks both
//! up: the entry with the greatest power that is not above the one that is wanted, and where to transmit.
//!
//! A power is kept as a level: how many hundredths of a dBm it is above -327.68 dBm, the least that the table
//! can have. So 25.5 dBm are the level 35318.
#![tactic(auto)]

mod capabilities;
mod entries;
pub mod laws;

pub use capabilities::{Offer, Transmitter, offer_in};
pub use entries::{PowerEntry, entry_within, least_level};
