//! The rows and the labels of all of LLRP 1.1, whose kinds stand beside those of the profile.

pub mod air_protocol;
pub mod capabilities;
pub mod labels;
pub mod messages;
pub mod operations;
pub mod reports;
pub mod tv;
