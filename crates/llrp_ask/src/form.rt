//! How what comes is shown.

ghost use Rattle.std.specs.Prelude.{IfErr, IfOk};
ghost use Rattle.llrp_schema.specs.declared.kinds.KindSet.TheVariants.{Standard};
ghost use Rattle.llrp_tree.specs.declared.TheConstants.{MAX_LIMIT};
ghost use Rattle.llrp_stream.specs.Calls.Device.{CanWrite};
ghost use Rattle.llrp_listing.specs.Show.{ListedAs, StoppedAs};
ghost use Rattle.llrp_ask.specs.Calls.Shown.{IsShown, end_shown};

use llrp_json::list_stream_json;
use llrp_listing::{ToolErr, Verdict, list_stream_in};
use llrp_schema::KindSet;
use llrp_stream::Sink;
use llrp_tree::MAX_LIMIT;
use std::alloc::Global;

/// How messages that come are shown.
#[derive(Clone, Copy, Debug, PartialEq, Eq)]
pub enum Form {
    /// As lines of a listing, one for each message and each parameter.
    Lines,
    /// As lines of JSON, one for each message.
    Json,
}

/// Writes what is shown of a stream.
pub(crate) fn show<W: Sink>(
    alloc: Global,
    form: Form,
    stream: &[u8],
    w: &mut W,
) -> Result<Verdict, ToolErr>
    requires sink { CanWrite (W.log w.old) }
    ensures ok { IfOk result (λ verdict. ListedAs (IsShown form) (end_shown form) Standard MAX_LIMIT
        stream.now (W.log w.old) (W.log w.new) verdict) }
    ensures err { IfErr result (λ e. StoppedAs (IsShown form) (end_shown form) Standard MAX_LIMIT
        stream.now (W.log w.old) (W.log w.new) e) }
{
    match form {
        Form::Lines => list_stream_in(alloc, KindSet::Standard, stream, w, MAX_LIMIT),
        Form::Json => list_stream_json(alloc, KindSet::Standard, stream, w, MAX_LIMIT),
    }
}
