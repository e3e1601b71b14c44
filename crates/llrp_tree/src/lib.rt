//! Lawful LLRP messages and parameters as trees, and the bytes that each spells.
//!
//! Use it to build messages and to send them, or to read a frame that is whole. A [`Message`] has parameters below it, each a
//! [`Node`]; a value of this type is lawful throughout: fields in their ranges, children where the tables have them, lengths
//! and levels within their bounds. [`encode_into`] writes a message's one spelling, [`decode_frame`] reads it back or names the
//! first fault with its bit.
//!
//! ```
//! let keepalive = Message::new(2, 7, MsgKind::Keepalive, &[], Nodes::new(Vec::new(alloc)))?;
//! encode_into(alloc, &keepalive, &mut bytes, MAX_LIMIT)?;  // 08 3E 00 00 00 0A 00 00 00 07
//! ```
#![tactic(auto)]

mod child_checks;
mod decode;
mod encode;
mod fault;
mod header;
mod heads;
pub mod laws;
mod message;
mod node;
pub mod numbers;
mod own_parts;
mod spelling;

pub use decode::{decode_frame, decode_frame_in};
pub use encode::{EncodeErr, encode_into};
pub use fault::{Fault, FrameErr, Reason};
pub use header::{Header, read_header, read_header_in};
pub use heads::{
    Front, HeadOctets, bare_front, message_front, message_start, parameter_front, parameter_start,
    tv_front, tv_start,
};
pub use llrp_schema::{Kind, KindSet, MsgKind, ParamKind, msg_of};
pub use message::{Message, MsgRefusal};
pub use node::{Node, NodeFault, NodeRefusal, Nodes, Octets};
pub use own_parts::{own_fault, own_octets};
pub use spelling::Spelling;

/// The greatest number of levels of parameters in a message.
pub const MAX_DEPTH: u8 = 16;

/// The same number, for arrays with at most one item for each level.
pub const LEVELS: usize = MAX_DEPTH as usize;

/// How many octets the header of a message has, which is also the length of the shortest message.
pub const HEADER_OCTETS: usize = 10;

/// The greatest number of octets of a message.
pub const MAX_LIMIT: u32 = 1_048_576;

/// The greatest number of octets of a parameter.
pub const MAX_OCTETS: u32 = 65535;
