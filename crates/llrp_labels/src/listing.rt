//! The listing of a stream with labels.

ghost use Rattle.std.specs.Prelude.{◌≤◌};
ghost use Rattle.llrp_labels.specs.LabelledTexts.{ListsLabelled};
ghost use Rattle.llrp_stream.specs.Calls.Device.{CanWrite};
ghost use Rattle.llrp_tree.specs.declared.TheConstants.{MAX_LIMIT};

use crate::labels::Labels;
use crate::texts::label_text;
use llrp_listing::{ToolErr, Verdict, list_stream_in, write_all};
use llrp_schema::KindSet;
use llrp_stream::{Output, Sink};
use std::alloc::Global;

/// Writes the listing of a stream of frames of a set of kinds, with labels. The errors are `Memory`, after which nothing was written,
/// and `Write`, after which some first part of it was.
pub fn list_labelled<W: Sink>(
    alloc: Global,
    labels: Labels,
    set: KindSet,
    stream: &[u8],
    w: &mut W,
    limit: u32,
) -> Result<Verdict, ToolErr>
    requires sink { CanWrite (W.log w.old) }
    requires least { 10 ≤ limit }
    requires most { limit ≤ MAX_LIMIT }
    ensures { ListsLabelled labels set limit stream.now (W.log w.old) (W.log w.new) result }
{
    let mut gathered = Output::new(Vec::new(alloc));
    let Ok(verdict) = list_stream_in(alloc, set, stream, &mut gathered, limit) else {
        return Err(ToolErr::Memory);
    };
    let listing = gathered.into_inner();
    let labelled = label_text(alloc, labels, listing.as_slice())?;
    write_all(w, labelled.as_slice())?;
    Ok(verdict)
}
