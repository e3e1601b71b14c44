//! Follows a plan over a source and two sinks.

ghost use Rattle.std.specs.Prelude.{◌≡◌, ◌<◌, ◌≤◌, ◌^◌, [], List, ℕ};
ghost use Rattle.llrp_stream.specs.Device.{IsFreshSink, IsFreshSource};
ghost use Rattle.llrp_tree.specs.declared.TheConstants.{MAX_LIMIT};
ghost use Rattle.llrp_endpoints.specs.Private.GatheringStands.{GathersFromStart};
ghost use Rattle.llrp_endpoints.specs.RunInventory.{RunsInventory, RunsLasting};

use crate::gathering::Gathering;
use crate::plan::Plan;
use crate::reads::Reads;
use crate::summary::Summary;
use llrp_listing::{MOST_READS, ToolErr, hand_on};
use llrp_stream::{Sink, Source};
use std::alloc::Global;

/// The greatest number of reads of a run that lasts: a million a second for 292,000 years.
pub const MOST_LASTING_READS: u64 = 9_223_372_036_854_775_807;

/// Follows the plan of a client that `Gathering::new` made, in at most `most` reads. What the
/// client sends is gathered in `out`, and the lines in `lines`; both are empty at first.
fn gather<R: Source, W: Sink, T: Sink>(
    most: u64,
    gathering: &mut Gathering,
    out: &mut Vec<u8>,
    lines: &mut Vec<u8>,
    r: &mut R,
    w: &mut W,
    report: &mut T,
) -> Result<Summary, ToolErr>
    requires most { most < 2 ^ 63 }
    requires no_frames { out.old.items ≡ [] }
    requires no_lines { lines.old.items ≡ [] }
    requires source { IsFreshSource (R.log r.old) }
    requires sink { IsFreshSink (W.log w.old) }
    requires report { IsFreshSink (T.log report.old) }
    ensures { GathersFromStart most gathering.old (R.log r.old) (R.log r.new) (W.log w.old)
        (W.log w.new) (T.log report.old) (T.log report.new) result }
{
    let mut pieces = Reads::new();
    while let Some(piece) = pieces.next(most, r)? {
        let fed = gathering.feed(piece, out, lines);
        hand_on(out, w)?;
        hand_on(lines, report)?;
        if fed? {
            return Ok(gathering.summary());
        }
    }
    Err(ToolErr::Early)
}

/// Follows a plan with the reader whose bytes the source gives. What the client sends is written to
/// `w`, and the lines of tags to `report`; both are written for what was read before the next read.
/// `limit` is the greatest length of a frame in octets.
///
/// Returns how many tags and reports there were, once the connection was closed as planned. The
/// error is `Early` if the input or the connection ends before that; `Peer` for a status other than
/// 0; `Strange` for an unexpected message, with a checked plan for a table that differs from the
/// client's view, or a frame with a fault other than an unknown type; `Broken` for a length field
/// below 10. After `Read`, `Write`, `Bound` or `Memory`, some first part of what the client says
/// was written.
pub fn run_inventory<R: Source, W: Sink, T: Sink>(
    alloc: Global,
    plan: Plan,
    limit: u32,
    r: &mut R,
    w: &mut W,
    report: &mut T,
) -> Result<Summary, ToolErr>
    requires least { 4096 ≤ limit }
    requires most { limit ≤ MAX_LIMIT }
    requires source { IsFreshSource (R.log r.old) }
    requires sink { IsFreshSink (W.log w.old) }
    requires report { IsFreshSink (T.log report.old) }
    ensures { (bytes : List ℕ) × RunsInventory limit plan (R.log r.old) (R.log r.new) (W.log w.old)
        (W.log w.new) (T.log report.old) (T.log report.new) bytes result }
{
    let mut gathering = Gathering::new(alloc, plan, limit);
    let mut out = Vec::new(alloc);
    let mut lines = Vec::new(alloc);
    let most = MOST_READS as u64;
    gather(most, &mut gathering, &mut out, &mut lines, r, w, report)
}

/// The same without an end to its reads, for a plan that lasts: it reads until the connection ends,
/// or the plan does. `Bound` comes after 9,223,372,036,854,775,807 reads.
pub fn run_lasting<R: Source, W: Sink, T: Sink>(
    alloc: Global,
    plan: Plan,
    limit: u32,
    r: &mut R,
    w: &mut W,
    report: &mut T,
) -> Result<Summary, ToolErr>
    requires least { 4096 ≤ limit }
    requires most { limit ≤ MAX_LIMIT }
    requires source { IsFreshSource (R.log r.old) }
    requires sink { IsFreshSink (W.log w.old) }
    requires report { IsFreshSink (T.log report.old) }
    ensures { (bytes : List ℕ) × RunsLasting limit plan (R.log r.old) (R.log r.new) (W.log w.old)
        (W.log w.new) (T.log report.old) (T.log report.new) bytes result }
{
    let mut gathering = Gathering::new(alloc, plan, limit);
    let mut out = Vec::new(alloc);
    let mut lines = Vec::new(alloc);
    gather(
        MOST_LASTING_READS,
        &mut gathering,
        &mut out,
        &mut lines,
        r,
        w,
        report,
    )
}
