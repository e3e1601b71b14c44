//! Writes the frames of messages.

ghost use Rattle.std.specs.Prelude.{◌≡◌, IfErr, OnOk};
ghost use Rattle.llrp_listing.specs.declared.outcome.ToolErr.TheVariants.{Memory};
ghost use Rattle.llrp_stream.specs.Calls.Device.{CanWrite};
ghost use Rattle.llrp_endpoints.specs.Sending.{Adds};
ghost use Rattle.llrp_general.specs.Private.Standing.{Speaks};

use llrp_listing::{ToolErr, write_all};
use llrp_stream::Sink;
use llrp_tree::{EncodeErr, MAX_LIMIT, Message, encode_into};
use std::alloc::Global;

/// Appends the frames of messages in order. The only error is `Memory`.
fn append_frames(alloc: Global, messages: &[Message], out: &mut Vec<u8>) -> Result<(), ToolErr>
    ensures ok { OnOk result (Adds messages.now out.old.items out.new.items) }
    ensures err { IfErr result (λ e. e ≡ Memory) }
{
    for message in messages {
        message.lawful();
        match encode_into(alloc, message, out, MAX_LIMIT) {
            Ok(()) => {}
            Err(EncodeErr::Memory) => return Err(ToolErr::Memory),
            Err(EncodeErr::OverLimit) => unreachable!(),
        }
    }
    Ok(())
}

/// Writes the frames of messages in order. The errors are `Memory`, before anything was written, and
/// `Write`, after some first part.
pub(crate) fn say<W: Sink>(alloc: Global, messages: &[Message], w: &mut W) -> Result<(), ToolErr>
    requires { CanWrite (W.log w.old) }
    ensures { Speaks messages.now (W.log w.old) (W.log w.new) result }
{
    let mut out = Vec::new(alloc);
    append_frames(alloc, messages, &mut out)?;
    write_all(w, out.as_slice())
}
