//! The listing of a source with labels, and a listing that a source gives with labels.

ghost use Rattle.std.specs.Prelude.{◌≤◌};
ghost use Rattle.llrp_labels.specs.LabelledRuns.{ReadsPlain, ShowsLabelled};
ghost use Rattle.llrp_stream.specs.Device.{IsFreshSink, IsFreshSource};
ghost use Rattle.llrp_tree.specs.declared.TheConstants.{MAX_LIMIT};

use crate::fault::{LabelErr, PlainErr};
use crate::labels::Labels;
use crate::listing::list_labelled;
use crate::texts::plain_text;
use llrp_listing::{ToolErr, Verdict, bytes_of_hex, read_all};
use llrp_schema::KindSet;
use llrp_stream::{Sink, Source};
use std::alloc::Global;

/// Reads a stream of octets to its end, or of hexadecimal digits, and writes its listing with labels. The errors are `Read`, `Bound`,
/// `Hex` and `Memory`, after which nothing was written, and `Write`, after which some first part of the listing was.
pub fn run_show_labelled<R: Source, W: Sink>(
    alloc: Global,
    labels: Labels,
    hex: bool,
    set: KindSet,
    r: &mut R,
    w: &mut W,
    limit: u32,
) -> Result<Verdict, ToolErr>
    requires source { IsFreshSource (R.log r.old) }
    requires sink { IsFreshSink (W.log w.old) }
    requires least { 10 ≤ limit }
    requires most { limit ≤ MAX_LIMIT }
    ensures { ShowsLabelled labels hex set limit (R.log r.old) (R.log r.new) (W.log w.old) (W.log w.new) result }
{
    let input = read_all(alloc, r)?;
    if !hex {
        return list_labelled(alloc, labels, set, input.as_slice(), w, limit);
    }
    let stream = bytes_of_hex(alloc, input.as_slice())?;
    list_labelled(alloc, labels, set, stream.as_slice(), w, limit)
}

/// Reads a listing with labels to its end, and returns it without them. The errors are the first line that is refused, and `Read`,
/// `Bound` and `Memory`.
pub fn read_plain<R: Source>(alloc: Global, labels: Labels, r: &mut R) -> Result<Vec<u8>, LabelErr>
    requires { IsFreshSource (R.log r.old) }
    ensures { ReadsPlain (λ plain. plain.items) labels (R.log r.old) (R.log r.new) result }
{
    let text = match read_all(alloc, r) {
        Ok(text) => text,
        Err(error) => return Err(LabelErr::Stopped(error)),
    };
    match plain_text(alloc, labels, text.as_slice()) {
        Ok(plain) => Ok(plain),
        Err(PlainErr::Line { line, fault }) => Err(LabelErr::Line { line, fault }),
        Err(PlainErr::Memory) => Err(LabelErr::Stopped(ToolErr::Memory)),
    }
}
