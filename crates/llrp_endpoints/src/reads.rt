//! The bytes of a source, piece by piece, in a bounded number of reads.

ghost use Rattle.std.specs.Prelude.{◌≡◌, ◌+◌, ◌<◌, ◌≤◌, IfOk, IfSome, List, OnOk, length, ℕ};
ghost use Rattle.std.specs.Borrow.{sem};
ghost use Rattle.std.specs.Io.BufRead.{Rests};
ghost use Rattle.llrp_endpoints.specs.contracts.reads.Reads.{the_row};
ghost use Rattle.llrp_endpoints.specs.Private.Reads.{GivenWithin, IsNextWithin};
ghost use Rattle.llrp_stream.specs.Calls.Device.{CanRead};
ghost use Rattle.llrp_stream.specs.Device.{SourceLog};

use llrp_listing::{READ_SIZE, ToolErr};
use llrp_stream::Source;

/// The bytes of a source, piece by piece.
#[derive(Drop)]
pub(crate) struct Reads {
    buffer: [u8; READ_SIZE],
    reads: u64,
}

impl Reads {
    /// The pieces of a source that was not read.
    pub(crate) fn new() -> Reads
        ensures { result.reads ≡ 0 }
    {
        Reads {
            buffer: [0u8; READ_SIZE],
            reads: 0,
        }
    }

    /// Reads the next piece, at most 4,096 bytes; none at the end. The errors are `Read`, and
    /// `Bound` after the greatest number of reads.
    #[inline(never)]
    pub(crate) fn next<R: Source>(&mut self, most: u64, r: &mut R) -> Result<Option<&[u8]>, ToolErr>
        requires room { CanRead (R.log r.old) }
        ensures some { IfOk result (λ next. IfSome next (λ piece. (0 < length piece.now)
            × (length piece.now ≤ READ_SIZE))) }
        ensures next { (r0 : SourceLog) (before : List ℕ)
            → GivenWithin most r0 (R.log r.old) self.old.reads before
            → IsNextWithin most r0 (R.log r.new) self.old.reads before result }
        ensures* counted { sem 𝓛 (Rests the_row self.entry
            (λ new. OnOk result (new.reads ≡ self.old.reads + 1))) }
    {
        if self.reads >= most {
            return Err(ToolErr::Bound);
        }
        let Ok(n) = r.read(&mut self.buffer) else {
            return Err(ToolErr::Read);
        };
        self.reads += 1;
        if n == 0 {
            return Ok(None);
        }
        Ok(Some(&self.buffer[..n]))
    }
}
