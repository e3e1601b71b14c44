//! The steps of a client that asks.

use llrp_schema::MsgKind;

/// What a client waits for.
#[derive(Clone, Copy, Debug, PartialEq, Eq)]
pub enum Wait {
    /// That the reader accepts the connection: a ConnectionAttemptEvent.
    Acceptance,
    /// The message of this kind, or an ERROR_MESSAGE, with this id.
    Answer { kind: MsgKind, id: u32 },
    /// That this many milliseconds pass.
    Pause { milliseconds: u32 },
}

/// A step of a client: it sends these octets, or none, and then waits, or does not.
#[derive(Drop)]
pub struct Step {
    pub octets: Vec<u8>,
    pub wait: Option<Wait>,
}
