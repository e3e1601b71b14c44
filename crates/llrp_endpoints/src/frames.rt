//! The frames of messages.

ghost use Rattle.std.specs.Prelude.{◌≡◌, IfErr, OnOk};
ghost use Rattle.llrp_endpoints.specs.Sending.{Adds};
ghost use Rattle.llrp_endpoints.specs.Calls.Sending.{AddsSome};
ghost use Rattle.llrp_listing.specs.declared.outcome.ToolErr.TheVariants.{Memory};

use llrp_listing::ToolErr;
use llrp_tree::{EncodeErr, MAX_LIMIT, Message, encode_into};
use std::alloc::Global;

/// Appends the frames of messages in order. The only error is `Memory`.
pub(crate) fn append_frames(
    alloc: Global,
    messages: &[Message],
    out: &mut Vec<u8>,
) -> Result<(), ToolErr>
    ensures ok { OnOk result (Adds messages.now out.old.items out.new.items) }
    ensures err { IfErr result (λ e. (e ≡ Memory)
        × AddsSome messages.now out.old.items out.new.items) }
{
    for message in messages {
        message.lawful();
        match encode_into(alloc, message, out, MAX_LIMIT) {
            Ok(()) => {}
            Err(EncodeErr::Memory) => return Err(ToolErr::Memory),
            Err(EncodeErr::OverLimit) => unreachable!(),
        }
    }
    Ok(())
}
