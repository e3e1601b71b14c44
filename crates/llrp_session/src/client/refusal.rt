//! Why a client refuses a command or a message.

use crate::types::Command;
use llrp_tree::Message;

/// Why a client refuses a command; the first in this order that applies.
#[derive(Clone, Copy, Debug, PartialEq, Eq)]
pub enum CmdFault {
    /// The connection is closed.
    Closed,
    /// The reader has not accepted the connection yet.
    NotReady,
    /// A request waits for its response.
    Busy,
    /// The message would be longer than the limit.
    OverLimit,
    /// The message ids are used up.
    IdsSpent,
    /// Memory ran out.
    Memory,
}

/// A command that was refused, handed back.
#[derive(Drop)]
pub struct CmdRefusal {
    pub fault: CmdFault,
    pub command: Command,
}

/// Why a client refuses a message; the first in this order that applies.
#[derive(Clone, Copy, Debug, PartialEq, Eq)]
pub enum TakeFault {
    /// The connection is closed.
    Closed,
    /// A reader does not send such a message now.
    Unexpected,
    /// Memory ran out.
    Memory,
}

/// A message that was refused, handed back.
#[derive(Drop)]
pub struct TakeRefusal {
    pub fault: TakeFault,
    pub message: Message,
}
