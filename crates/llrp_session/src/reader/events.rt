//! What happens to a reader, and why a step is refused.

use crate::types::Sighting;
use llrp_tree::{Message, Reason};

/// What happens to a reader.
#[derive(Drop)]
pub enum ReaderIn {
    /// A client connects.
    Connect,
    /// A message of the client is taken.
    Take(Message),
    /// A frame of the client that is not a message is taken: its message id and the reason of its
    /// fault.
    TakeBad { id: u32, reason: Reason },
    /// A tag is sighted.
    Seen(Sighting),
    /// Time has passed.
    Tick,
}

/// Why a step is refused.
#[derive(Clone, Copy, Debug, PartialEq, Eq)]
pub enum StepFault {
    /// The connection is closed.
    Closed,
    /// No client is connected yet.
    NotConnected,
    /// A client is connected already.
    AlreadyUp,
    /// Memory ran out.
    Memory,
}

/// A refused step, with its event handed back.
#[derive(Drop)]
pub struct StepRefusal {
    pub fault: StepFault,
    pub event: ReaderIn,
}
