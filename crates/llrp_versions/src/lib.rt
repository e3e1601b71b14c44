//! The version of LLRP that a connection uses, as a simulated reader keeps it (LLRP 1.1, the chapter on version negotiation).
//!
//! Use it where a simulated reader talks to clients that ask for LLRP 1.1. A connection begins in version 1, which is LLRP 1.0.1.
//! [`hear`] takes each message: GET_SUPPORTED_VERSION and SET_PROTOCOL_VERSION are answered, and any other message is of the version
//! in use, or of another and to be refused.
//!
//! ```
//! let heard = hear(alloc, Version::First, &message)?; // its reply, and the version in use then, or whether it is of this one
//! ```
#![tactic(auto)]

mod heard;
mod response;
mod version;

pub use heard::{Heard, hear};
pub use version::Version;
