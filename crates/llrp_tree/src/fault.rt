//! Why a frame is not a message.

ghost use Rattle.std.specs.Prelude.{◌≡◌};
ghost use Rattle.llrp_tree.specs.declared.fault.FrameErr.TheVariants.{Memory, Bad};

use std::alloc::{AllocError, AllocFailed};

/// Which check of a frame fails (LLRP 1.1, section 17).
#[derive(Clone, Copy, Debug, PartialEq, Eq)]
pub enum Reason {
    /// Reserved bits that are not zero.
    Reserved,
    /// A version other than 1 or 2.
    Version,
    /// A type that no message of the set has.
    MessageType,
    /// A length above the limit.
    MessageLength,
    /// A field, a count or a head that goes past the end of its node.
    Short,
    /// A field out of its range.
    Value,
    /// A tail that goes past the end of its node.
    Count,
    /// Text that is not UTF-8.
    Utf8,
    /// A type that no parameter of the set has.
    ParamType,
    /// A parameter that its parent never has.
    Misplaced,
    /// More children than a group may have.
    TooMany,
    /// More than `MAX_DEPTH` levels of parameters.
    TooDeep,
    /// A length below 4, or past the end of the parent.
    ParamLength,
    /// Octets after a node that has no children.
    Extra,
    /// Fewer children than a group must have.
    Missing,
}

/// The first check that a frame fails, and where.
#[derive(Clone, Copy, Debug, PartialEq, Eq)]
pub struct Fault {
    /// Counted from the first bit of the frame, which is 0.
    pub bit: u64,
    pub reason: Reason,
}

/// Why `decode_frame` returns no message.
#[derive(Clone, Copy, Debug, PartialEq, Eq)]
pub enum FrameErr {
    /// The frame is not a message, and this is its first fault.
    Bad(Fault),
    /// Memory ran out.
    Memory,
}

/// A fault at a bit.
pub(crate) fn fault_at(bit: usize, reason: Reason) -> Fault
    ensures { result ≡ record { bit = bit; reason = reason } }
{
    Fault {
        bit: bit as u64,
        reason,
    }
}

/// The error for a fault.
pub(crate) fn bad(bit: usize, reason: Reason) -> FrameErr
    ensures { result ≡ Bad (record { bit = bit; reason = reason }) }
{
    FrameErr::Bad(fault_at(bit, reason))
}

impl From<Fault> for FrameErr {
    ghost from_gives = { λ fault e. e ≡ Bad fault };

    fn from(fault: Fault) -> FrameErr {
        FrameErr::Bad(fault)
    }
}

impl From<AllocError> for FrameErr {
    ghost from_gives = { λ _ e. e ≡ Memory };

    fn from(_e: AllocError) -> FrameErr {
        FrameErr::Memory
    }
}

impl<T: Drop> From<AllocFailed<T>> for FrameErr {
    ghost from_gives = { λ _ e. e ≡ Memory };

    fn from(_e: AllocFailed<T>) -> FrameErr {
        FrameErr::Memory
    }
}
