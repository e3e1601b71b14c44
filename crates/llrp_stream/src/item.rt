//! What a stream holds, and what a decoder returns.

ghost use Rattle.std.specs.Prelude.{◌≡◌};
ghost use Rattle.llrp_stream.specs.declared.item.FeedErr.TheVariants.{Memory};

use llrp_tree::{Fault, Message};
use std::alloc::AllocError;

/// What the octets of a frame are.
#[derive(Drop)]
pub enum Item {
    /// This message.
    Msg(Message),
    /// No message: the id in its header (bits 48 to 79), and its first fault.
    Bad { id: u32, fault: Fault },
}

/// How a stream ends.
#[derive(Clone, Copy, Debug, PartialEq, Eq)]
pub enum End {
    /// After a whole frame, or with no frame at all.
    Clean,
    /// With this many bytes of an unfinished frame.
    Rest(u64),
    /// At a length field below 10, which no frame has.
    Broken,
    /// Unknown: memory ran out.
    Dead,
}

/// What a call of `feed` took and found.
#[derive(Drop)]
pub struct Fed {
    /// How many of the piece's bytes it took.
    pub used: usize,
    /// The item of the frame that these bytes ended, if they ended one.
    pub item: Option<Item>,
}

/// Why a decoder takes nothing more.
#[derive(Clone, Copy, Debug, PartialEq, Eq)]
pub enum FeedErr {
    /// A length field below 10, which no frame has.
    Broken,
    /// Memory ran out.
    Memory,
    /// Memory ran out in an earlier call.
    Dead,
}

impl From<AllocError> for FeedErr {
    ghost from_gives = { λ _ e. e ≡ Memory };

    fn from(_e: AllocError) -> FeedErr {
        FeedErr::Memory
    }
}
