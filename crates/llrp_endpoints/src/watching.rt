//! Follows a plan over a source and a sink, and reports each read to a watcher.

ghost use Rattle.std.specs.Prelude.{◌≡◌, ◌≤◌, [], List, OnOk, ℕ};
ghost use Rattle.llrp_stream.specs.Calls.Device.{CanWrite};
ghost use Rattle.llrp_stream.specs.Device.{IsFreshSink, IsFreshSource, SinkLog};
ghost use Rattle.llrp_tree.specs.declared.TheConstants.{MAX_LIMIT};
ghost use Rattle.llrp_endpoints.specs.Gathering.{Beginning};
ghost use Rattle.llrp_endpoints.specs.Calls.GatheringStands.{IsOpenFrom};
ghost use Rattle.llrp_endpoints.specs.Private.Watching.{HurriesOn, TakesTurn, WatchesFromStart};
ghost use Rattle.llrp_endpoints.specs.Watching.{IsTold, RunsWatching, Turn};

use crate::gathering::Gathering;
use crate::inventory::MOST_LASTING_READS;
use crate::plan::Plan;
use crate::reads::Reads;
use crate::summary::Summary;
use llrp_listing::{ToolErr, hand_on};
use llrp_stream::{Sink, Source};
use std::alloc::Global;

/// Receives each read of a client that is watched.
pub trait Watcher {
    /// What holds of it after these reads, where it began with a sink that had this log;
    /// one that says nothing of itself has a fact that always holds here.
    ghost has: { Self → SinkLog → List Turn → Type 0 };

    /// A read gave this piece of the reader's octets, and these are the lines of the reports that it
    /// completed. Returns whether the time is up, so that the plan goes on to its end. The errors are
    /// `Write` and `Memory`.
    fn turn(&mut self, piece: &[u8], lines: &[u8]) -> Result<bool, ToolErr>
        ensures { IsTold (has self.old) (has self.new) piece.now lines.now result };
}

/// Awaits no more reports, and writes what the client says then.
fn hurry_on<W: Sink>(gathering: &mut Gathering, out: &mut Vec<u8>, w: &mut W) -> Result<(), ToolErr>
    requires sink { CanWrite (W.log w.old) }
    requires no_frames { out.old.items ≡ [] }
    ensures hurries { (b : Beginning) (rest : List ℕ)
        → IsOpenFrom b rest rest b.course gathering.old
        → HurriesOn b rest gathering.new (W.log w.old) (W.log w.new) result }
    ensures emptied { OnOk result (out.new.items ≡ []) }
    ensures sink { OnOk result ((W.log w.new).failures ≡ (W.log w.old).failures) }
{
    let hurried = gathering.hurry(out);
    hand_on(out, w)?;
    hurried
}

/// Takes a piece, reports it to the watcher, and writes what the client says. Returns whether the
/// connection was closed as planned.
fn take_turn<W: Sink, V: Watcher>(
    gathering: &mut Gathering,
    piece: &[u8],
    out: &mut Vec<u8>,
    lines: &mut Vec<u8>,
    w: &mut W,
    watcher: &mut V,
) -> Result<bool, ToolErr>
    requires sink { IsFreshSink (W.log w.old) }
    requires no_frames { out.old.items ≡ [] }
    requires no_lines { lines.old.items ≡ [] }
    ensures takes { TakesTurn piece.now gathering.old gathering.new (W.log w.old) (W.log w.new)
        (V.has watcher.old) (V.has watcher.new) result }
    ensures no_frames { OnOk result (out.new.items ≡ []) }
    ensures no_lines { OnOk result (lines.new.items ≡ []) }
    ensures sink { OnOk result ((W.log w.new).failures ≡ (W.log w.old).failures) }
{
    let fed = gathering.feed(piece, out, lines);
    let told = watcher.turn(piece, lines.as_slice());
    lines.clear();
    hand_on(out, w)?;
    let late = told?;
    let closed = fed?;
    if closed {
        return Ok(true);
    }
    if !late {
        return Ok(false);
    }
    hurry_on(gathering, out, w)?;
    Ok(false)
}

/// Follows the plan of a client that `Gathering::new` made. What the client sends is gathered in
/// `out`, and the lines in `lines`; both are empty at first.
fn watch<R: Source, W: Sink, V: Watcher>(
    gathering: &mut Gathering,
    out: &mut Vec<u8>,
    lines: &mut Vec<u8>,
    r: &mut R,
    w: &mut W,
    watcher: &mut V,
) -> Result<Summary, ToolErr>
    requires no_frames { out.old.items ≡ [] }
    requires no_lines { lines.old.items ≡ [] }
    requires source { IsFreshSource (R.log r.old) }
    requires sink { IsFreshSink (W.log w.old) }
    ensures { WatchesFromStart gathering.old (R.log r.old) (R.log r.new) (W.log w.old)
        (W.log w.new) (V.has watcher.old) (V.has watcher.new) result }
{
    let mut pieces = Reads::new();
    while let Some(piece) = pieces.next(MOST_LASTING_READS, r)? {
        if take_turn(gathering, piece, out, lines, w, watcher)? {
            return Ok(gathering.summary());
        }
    }
    Err(ToolErr::Early)
}

/// Follows a plan with the reader whose bytes the source gives, as `run_lasting` does, and gives a
/// watcher each read: the octets that it gave, and the lines of the reports that they
/// completed, before what the client says to them is written to `w`, and before the next read. Once
/// the watcher says that the time is up, the plan awaits no more reports and goes on to its end.
///
/// The errors are those of `run_lasting`; after `Write` and `Memory`, which also the watcher may
/// return, all before the last read was done.
pub fn run_watching<R: Source, W: Sink, V: Watcher>(
    alloc: Global,
    plan: Plan,
    limit: u32,
    r: &mut R,
    w: &mut W,
    watcher: &mut V,
) -> Result<Summary, ToolErr>
    requires least { 4096 ≤ limit }
    requires most { limit ≤ MAX_LIMIT }
    requires source { IsFreshSource (R.log r.old) }
    requires sink { IsFreshSink (W.log w.old) }
    ensures { RunsWatching limit plan (R.log r.old) (R.log r.new) (W.log w.old) (W.log w.new)
        (V.has watcher.old) (V.has watcher.new) result }
{
    let mut gathering = Gathering::new(alloc, plan, limit);
    let mut out = Vec::new(alloc);
    let mut lines = Vec::new(alloc);
    watch(&mut gathering, &mut out, &mut lines, r, w, watcher)
}
