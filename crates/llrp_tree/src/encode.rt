//! Appends the octets of messages to a vector.

ghost use Rattle.std.specs.Prelude.{◌≡◌, ◌<◌, ℕ, List, ◌++◌, replicate, OnOk, OnErr, IsErrOf, ◌↔◌};
ghost use Rattle.llrp_tree.specs.Lawful.{message_octets};
ghost use Rattle.llrp_tree.specs.Frame.{Frame};
ghost use Rattle.llrp_tree.specs.declared.encode.EncodeErr.TheVariants.{OverLimit};

use crate::message::Message;
use crate::spelling::Spelling;
use std::alloc::{AllocError, Global};

/// Why a message was not written.
#[derive(Clone, Copy, Debug, PartialEq, Eq)]
pub enum EncodeErr {
    /// The message is longer than the limit.
    OverLimit,
    /// Memory ran out.
    Memory,
}

/// Appends this many zeros.
fn grow(out: &mut Vec<u8>, count: usize) -> Result<(), AllocError>
    ensures ok { OnOk result (out.new.items ≡ out.old.items ++ replicate count 0) }
    ensures err { OnErr result (out.new.items ≡ out.old.items) }
{
    out.reserve(count)?;
    out.resize(out.len() + count, 0)
}

/// Appends the frame of a message (LLRP 1.1, section 17.1).
///
/// The error is `OverLimit` if the message is longer than the limit, or `Memory`; `out` is then
/// unchanged.
pub fn encode_into(
    _alloc: Global,
    message: &Message,
    out: &mut Vec<u8>,
    limit: u32,
) -> Result<(), EncodeErr>
    ensures ok { OnOk result ((bytes : List ℕ) × Frame message.now bytes limit
        × (out.new.items ≡ out.old.items ++ bytes)) }
    ensures over { IsErrOf result OverLimit ↔ (limit < message_octets message.now) }
    ensures err { OnErr result (out.new.items ≡ out.old.items) }
{
    if message.length() > limit {
        return Err(EncodeErr::OverLimit);
    }
    let mut spelling = Spelling::new(message);
    let front = out.as_slice().len();
    match grow(out, spelling.left() as usize) {
        Ok(()) => {
            spelling.fill_from(out.as_mut_slice(), front);
            Ok(())
        }
        Err(_) => Err(EncodeErr::Memory),
    }
}
