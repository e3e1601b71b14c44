//! Loops over sources and sinks.

ghost use Rattle.std.specs.Prelude.{◌≡◌, ◌+◌, ◌<◌, ◌≤◌, IfErr, IfOk, IfSome, List, OnOk, [], length, ℕ};
ghost use Rattle.std.specs.Borrow.{sem};
ghost use Rattle.std.specs.Io.BufRead.{Rests};
ghost use Rattle.llrp_listing.specs.contracts.devices.Pieces.{the_row};
ghost use Rattle.llrp_listing.specs.Copying.{ReadAll};
ghost use Rattle.llrp_listing.specs.Calls.Copying.{Given, IsNext, ReadStopped, Writes};
ghost use Rattle.llrp_stream.specs.Calls.Device.{CanRead, CanWrite};
ghost use Rattle.llrp_stream.specs.Device.{IsFreshSource, SourceLog};

use crate::outcome::ToolErr;
use llrp_stream::{Sink, Source, WriteFailed};
use std::alloc::Global;

/// The greatest number of reads from one source that return bytes.
pub const MOST_READS: u32 = 1_000_000;

/// How many bytes a read asks for.
pub const READ_SIZE: usize = 4096;

/// How many bytes are gathered before they are written to a sink.
pub(crate) const PIECE_SIZE: usize = 65_536;

/// The bytes of a source, piece by piece.
#[derive(Drop)]
pub struct Pieces {
    buffer: [u8; READ_SIZE],
    reads: u32,
}

impl Pieces {
    /// The pieces of a source that was not read.
    pub fn new() -> Pieces
        ensures { result.reads ≡ 0 }
    {
        Pieces {
            buffer: [0u8; READ_SIZE],
            reads: 0,
        }
    }

    /// Reads the next piece, at most 4,096 bytes; none at the end. The errors are `Read`, and
    /// `Bound` after the greatest number of reads.
    #[inline(never)]
    pub fn next<R: Source>(&mut self, r: &mut R) -> Result<Option<&[u8]>, ToolErr>
        requires room { CanRead (R.log r.old) }
        ensures some { IfOk result (λ next. IfSome next (λ piece. (0 < length piece.now)
            × (length piece.now ≤ READ_SIZE))) }
        ensures next { (r0 : SourceLog) (before : List ℕ)
            → Given r0 (R.log r.old) self.old.reads before
            → IsNext r0 (R.log r.new) self.old.reads before result }
        ensures* counted { sem 𝓛 (Rests the_row self.entry
            (λ new. OnOk result (new.reads ≡ self.old.reads + 1))) }
    {
        if self.reads >= MOST_READS {
            return Err(ToolErr::Bound);
        }
        let Ok(n) = r.read(&mut self.buffer) else {
            return Err(ToolErr::Read);
        };
        self.reads += 1;
        if n == 0 {
            return Ok(None);
        }
        Ok(Some(&self.buffer[..n]))
    }
}

/// Reads all bytes of the source, until a read returns none. The errors are `Read`, `Memory`, and
/// `Bound` after the greatest number of reads.
pub fn read_all<R: Source>(alloc: Global, r: &mut R) -> Result<Vec<u8>, ToolErr>
    requires { IsFreshSource (R.log r.old) }
    ensures ok { IfOk result (λ all. ReadAll (R.log r.old) (R.log r.new) all.items) }
    ensures err { IfErr result (λ e. (bytes : List ℕ)
        × ReadStopped (R.log r.old) (R.log r.new) bytes e) }
{
    let mut all = Vec::new(alloc);
    let mut pieces = Pieces::new();
    while let Some(piece) = pieces.next(r)? {
        all.extend_from_slice(piece)?;
    }
    Ok(all)
}

/// Writes all of the bytes, in as many calls as it takes. The only error is `Write`, after which
/// some first part of the bytes was written.
pub fn write_all<W: Sink>(w: &mut W, bytes: &[u8]) -> Result<(), ToolErr>
    requires { CanWrite (W.log w.old) }
    ensures { Writes bytes.now (W.log w.old) (W.log w.new) result }
{
    match llrp_stream::write_all(w, bytes) {
        Ok(()) => Ok(()),
        Err(WriteFailed) => Err(ToolErr::Write),
    }
}

/// Writes the buffer to the sink and empties it.
pub fn hand_on<W: Sink>(gathered: &mut Vec<u8>, w: &mut W) -> Result<(), ToolErr>
    requires { CanWrite (W.log w.old) }
    ensures written { Writes gathered.old.items (W.log w.old) (W.log w.new) result }
    ensures emptied { OnOk result (gathered.new.items ≡ []) }
{
    write_all(w, gathered.as_slice())?;
    gathered.clear();
    Ok(())
}
