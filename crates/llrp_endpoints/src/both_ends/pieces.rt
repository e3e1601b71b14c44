//! One write and one read of a connection.

ghost use Rattle.std.specs.Prelude.{◌≡◌, ◌<◌, ◌≤◌, ◌+◌, ◌++◌, [], IfErr, IfOk, List, OnOk, drop, length, take, ℕ};
ghost use Rattle.llrp_stream.specs.Device.{SourceLog, WroteAndFailed};
ghost use Rattle.llrp_listing.specs.Calls.Copying.{Given};
ghost use Rattle.llrp_endpoints.specs.Private.EndsStand.{HasRoom, ReadsNone, WritesPiece};
ghost use Rattle.llrp_listing.specs.declared.outcome.ToolErr.TheVariants.{Write};
ghost use Rattle.llrp_stream.specs.Calls.Device.{CanWrite};

use llrp_listing::{MOST_READS, READ_SIZE, ToolErr};
use llrp_stream::{Sink, Source};

/// Removes the first bytes.
fn take_off(bytes: &mut Vec<u8>, count: usize)
    requires { count ≤ length bytes.old.items }
    ensures { bytes.new.items ≡ drop count bytes.old.items }
{
    let left = bytes.len() - count;
    bytes.rotate_left(count);
    bytes.truncate(left);
}

/// Writes the first bytes, at most 4,096, in one call, removes those that the sink took, and
/// returns how many they were. Nothing is written if there are no bytes. The only error is `Write`.
pub(super) fn write_piece<W: Sink>(said: &mut Vec<u8>, w: &mut W) -> Result<usize, ToolErr>
    requires { CanWrite (W.log w.old) }
    ensures ok { IfOk result (λ n. WritesPiece said.old.items said.new.items (W.log w.old)
        (W.log w.new) n) }
    ensures err { IfErr result (λ e. (e ≡ Write) × WroteAndFailed (W.log w.old) (W.log w.new) []
        × (said.new.items ≡ said.old.items)) }
{
    if said.is_empty() {
        return Ok(0);
    }
    let piece = &said.as_slice()[..said.len().min(READ_SIZE)];
    match w.write(piece) {
        Ok(0) => Err(ToolErr::Write),
        Ok(n) => {
            take_off(said, n);
            Ok(n)
        }
        Err(_) => Err(ToolErr::Write),
    }
}

/// Reads into a buffer, and returns how many bytes came; `reads` counts the reads that gave bytes.
/// The errors are `Bound` if there were already as many reads as are allowed, `Read`, and `Early`
/// if the source is at its end.
pub(super) fn read_piece<R: Source>(
    r: &mut R,
    buffer: &mut [u8],
    reads: &mut u32,
) -> Result<usize, ToolErr>
    requires room { HasRoom (R.log r.old) reads.old }
    requires buffer { 0 < length buffer.old }
    ensures some { IfOk result (λ n. 0 < n) }
    ensures within { IfOk result (λ n. n ≤ length buffer.new) }
    ensures ok { IfOk result (λ n. (r0 : SourceLog) (before : List ℕ)
        → Given r0 (R.log r.old) reads.old before
        → Given r0 (R.log r.new) reads.new (before ++ take n buffer.new)) }
    ensures counted { OnOk result (reads.new ≡ reads.old + 1) }
    ensures room { IfOk result (λ n. HasRoom (R.log r.new) reads.new) }
    ensures err { IfErr result (λ e. (r0 : SourceLog) (before : List ℕ)
        → Given r0 (R.log r.old) reads.old before
        → ReadsNone r0 (R.log r.new) before e) }
{
    if *reads == MOST_READS {
        return Err(ToolErr::Bound);
    }
    match r.read(buffer) {
        Ok(0) => Err(ToolErr::Early),
        Ok(n) => {
            *reads += 1;
            Ok(n)
        }
        Err(_) => Err(ToolErr::Read),
    }
}
