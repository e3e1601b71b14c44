//! Lists a stream as lines of JSON.

ghost use Rattle.std.specs.Prelude.{◌≤◌, IfErr, IfOk};
ghost use Rattle.llrp_schema.specs.declared.kinds.KindSet.{KindSet};
ghost use Rattle.llrp_stream.specs.Calls.Device.{CanWrite};
ghost use Rattle.llrp_stream.specs.Device.{IsFreshSink, IsFreshSource};
ghost use Rattle.llrp_tree.specs.declared.TheConstants.{MAX_LIMIT};
ghost use Rattle.llrp_json.specs.Calls.Show.{ListedJson, StoppedJson};
ghost use Rattle.llrp_json.specs.JsonLines.{ShowsJson, end_json};
ghost use Rattle.llrp_json.specs.JsonNames.{IsNamedJson};
ghost use Rattle.llrp_listing.specs.Show.{ListedAs, ShowsAs, StoppedAs};

use crate::names::Names;
use crate::printer::JsonPrinter;
use crate::standard_printer::StandardPrinter;
use llrp_listing::{ToolErr, Verdict, list_stream_with, run_show_with};
use llrp_schema::KindSet;
use llrp_stream::{Sink, Source};
use std::alloc::Global;

/// Writes the lines of JSON of a stream of frames of a set of kinds. The errors are `Write` and
/// `Memory`, after which some first part of the lines was written.
pub fn list_stream_json<W: Sink>(
    alloc: Global,
    set: KindSet,
    stream: &[u8],
    w: &mut W,
    limit: u32,
) -> Result<Verdict, ToolErr>
    requires sink { CanWrite (W.log w.old) }
    requires least { 10 ≤ limit }
    requires most { limit ≤ MAX_LIMIT }
    ensures ok { IfOk result (λ verdict. ListedJson set limit stream.now (W.log w.old)
        (W.log w.new) verdict) }
    ensures err { IfErr result (λ e. StoppedJson set limit stream.now (W.log w.old)
        (W.log w.new) e) }
{
    list_stream_with(JsonPrinter::new(alloc), set, stream, w, limit)
}

/// Writes a line of JSON for each frame that the source gives, and for an end that is not clean;
/// returns whether all of it is lawful. It reads and writes as `llrp_listing::run_show_in` does,
/// with the same errors.
pub fn run_show_json<R: Source, W: Sink>(
    alloc: Global,
    set: KindSet,
    r: &mut R,
    w: &mut W,
    limit: u32,
) -> Result<Verdict, ToolErr>
    requires source { IsFreshSource (R.log r.old) }
    requires sink { IsFreshSink (W.log w.old) }
    requires least { 10 ≤ limit }
    requires most { limit ≤ MAX_LIMIT }
    // After Ok, the source was read to its end or to a break, and the lines were written; after
    // Err, some first part of them.
    ensures { ShowsJson set limit (R.log r.old) (R.log r.new) (W.log w.old) (W.log w.new) result }
{
    run_show_with(JsonPrinter::new(alloc), set, r, w, limit)
}

/// As `list_stream_json` does, with these names of the fields.
pub fn list_stream_json_named<W: Sink>(
    alloc: Global,
    names: Names,
    set: KindSet,
    stream: &[u8],
    w: &mut W,
    limit: u32,
) -> Result<Verdict, ToolErr>
    requires sink { CanWrite (W.log w.old) }
    requires least { 10 ≤ limit }
    requires most { limit ≤ MAX_LIMIT }
    ensures ok { IfOk result (λ verdict. ListedAs (IsNamedJson names) end_json set limit stream.now
        (W.log w.old) (W.log w.new) verdict) }
    ensures err { IfErr result (λ e. StoppedAs (IsNamedJson names) end_json set limit stream.now
        (W.log w.old) (W.log w.new) e) }
{
    match names {
        Names::Own => list_stream_json(alloc, set, stream, w, limit),
        Names::Standard => list_stream_with(StandardPrinter::new(alloc), set, stream, w, limit),
    }
}

/// As `run_show_json` does, with these names of the fields.
pub fn run_show_json_named<R: Source, W: Sink>(
    alloc: Global,
    names: Names,
    set: KindSet,
    r: &mut R,
    w: &mut W,
    limit: u32,
) -> Result<Verdict, ToolErr>
    requires source { IsFreshSource (R.log r.old) }
    requires sink { IsFreshSink (W.log w.old) }
    requires least { 10 ≤ limit }
    requires most { limit ≤ MAX_LIMIT }
    ensures { ShowsAs (IsNamedJson names) end_json set limit (R.log r.old) (R.log r.new)
        (W.log w.old) (W.log w.new) result }
{
    match names {
        Names::Own => run_show_json(alloc, set, r, w, limit),
        Names::Standard => run_show_with(StandardPrinter::new(alloc), set, r, w, limit),
    }
}
