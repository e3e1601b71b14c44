//! Writes the octets of closed messages to a sink.

ghost use Rattle.std.specs.Prelude.{◌≤◌, ◌≡◌, IfErr, IsErrAnd, List, OnOk, drop, length, take, ℕ};
ghost use Rattle.llrp_listing.specs.Calls.Copying.{Writes};
ghost use Rattle.llrp_listing.specs.Private.Encoder.{Refusing};
ghost use Rattle.llrp_listing.specs.Private.EncodeBuffer.{Front};
ghost use Rattle.llrp_listing.specs.Private.Flushing.{PassesOn};
ghost use Rattle.llrp_listing.specs.Private.OpenNodes.{OpenNode};
ghost use Rattle.llrp_listing.specs.Private.TakingLines.{Rests};
ghost use Rattle.llrp_stream.specs.Calls.Device.{CanWrite};

use crate::devices::{PIECE_SIZE, write_all};
use crate::encode::buffer::{EncodeBuffer, Refused};
use crate::outcome::ToolErr;
use llrp_stream::Sink;

/// Writes the octets of closed messages.
pub fn write_front<W: Sink>(writer: &EncodeBuffer, w: &mut W) -> Result<(), ToolErr>
    requires sink { CanWrite (W.log w.old) }
    requires front { writer.now.from ≤ length writer.now.room.items }
    ensures { Writes (take writer.now.from writer.now.room.items) (W.log w.old)
        (W.log w.new) result }
{
    let (front, _) = writer.room.as_slice().split_at(writer.from);
    write_all(w, front)
}

/// Refuses a line, after the closed messages are written.
pub fn refuse<W: Sink>(refused: Refused, writer: &EncodeBuffer, w: &mut W) -> Result<(), ToolErr>
    requires sink { CanWrite (W.log w.old) }
    requires front { (out : List ℕ) × Front writer.now out }
    ensures { (out : List ℕ) → Front writer.now out
        → IsErrAnd result (λ e. Refusing refused.number out refused.reason (W.log w.old)
        (W.log w.new) e) }
{
    match write_front(writer, w) {
        Ok(()) => Err(ToolErr::Listing {
            line: refused.number,
            reason: refused.reason,
        }),
        Err(error) => Err(error),
    }
}

/// Drops the first octets.
fn drop_front(room: &mut Vec<u8>, from: usize)
    requires { from ≤ length room.old.items }
    ensures { room.new.items ≡ drop from room.old.items }
{
    let end = room.len();
    room.as_mut_slice().copy_within(from..end, 0);
    room.truncate(end - from);
}

/// Writes the octets of closed messages to the sink, and drops them from the buffer.
pub fn pass_all<W: Sink>(writer: &mut EncodeBuffer, w: &mut W) -> Result<(), ToolErr>
    requires sink { CanWrite (W.log w.old) }
    requires rests { (out : List ℕ) × (ns : List OpenNode) × Rests writer.old out ns }
    ensures passed { OnOk result ((out : List ℕ) (ns : List OpenNode) → Rests writer.old out ns
        → PassesOn writer.new out ns (W.log w.old) (W.log w.new)) }
    ensures none_left { OnOk result (writer.new.from ≡ 0) }
    ensures limit { writer.new.limit ≡ writer.old.limit }
    ensures failed { IfErr result (λ e. (out : List ℕ) (ns : List OpenNode)
        → Rests writer.old out ns → Writes out (W.log w.old) (W.log w.new) result) }
{
    if writer.from == 0 {
        return Ok(());
    }
    write_front(writer, w)?;
    drop_front(&mut writer.room, writer.from);
    writer.from = 0;
    Ok(())
}

/// Writes and drops the octets of closed messages once there are 64 KiB of them.
#[inline(always)]
pub fn pass_on<W: Sink>(writer: &mut EncodeBuffer, w: &mut W) -> Result<(), ToolErr>
    requires sink { CanWrite (W.log w.old) }
    requires rests { (out : List ℕ) × (ns : List OpenNode) × Rests writer.old out ns }
    ensures passed { OnOk result ((out : List ℕ) (ns : List OpenNode) → Rests writer.old out ns
        → PassesOn writer.new out ns (W.log w.old) (W.log w.new)) }
    ensures limit { writer.new.limit ≡ writer.old.limit }
    ensures failed { IfErr result (λ e. (out : List ℕ) (ns : List OpenNode)
        → Rests writer.old out ns → Writes out (W.log w.old) (W.log w.new) result) }
{
    if writer.from < PIECE_SIZE {
        return Ok(());
    }
    pass_all(writer, w)
}
