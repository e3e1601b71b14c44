//! The listing of octets.

ghost use Rattle.std.specs.Prelude.{◌≡◌, ◌&&◌, IfOk, IfSome};
ghost use Rattle.llrp_stream.specs.Calls.Device.{CanWrite};
ghost use Rattle.llrp_listing.specs.Show.{ListedAs};
ghost use Rattle.llrp_sides.specs.Calls.Verdicts.{says_lawful};
ghost use Rattle.llrp_sides.specs.Calls.Blocks.{IsShown, end_shown};
ghost use Rattle.llrp_sides.specs.Private.Forms.{HasListing};

use crate::form::Form;
use llrp_json::list_stream_json;
use llrp_listing::{ToolErr, Verdict, list_stream_in};
use llrp_stream::{Output, Sink};
use std::alloc::Global;

/// Writes the listing of a stream.
fn write_listing<W: Sink>(
    alloc: Global,
    form: Form,
    stream: &[u8],
    w: &mut W,
) -> Result<Verdict, ToolErr>
    requires { CanWrite (W.log w.old) }
    ensures { IfOk result (λ verdict. ListedAs (IsShown form.json) (end_shown form.json) form.set form.limit
        stream.now (W.log w.old) (W.log w.new) verdict) }
{
    if form.json {
        list_stream_json(alloc, form.set, stream, w, form.limit)
    } else {
        list_stream_in(alloc, form.set, stream, w, form.limit)
    }
}

/// The listing of a stream, and whether all of it is lawful; `None` if memory ran out.
pub(crate) fn listing_of(alloc: Global, form: Form, stream: &[u8]) -> Option<(Vec<u8>, Verdict)>
    ensures { IfSome result (λ listing. HasListing form stream.now listing.0.items listing.1) }
{
    let mut text = Output::new(Vec::new(alloc));
    match write_listing(alloc, form, stream, &mut text) {
        Ok(verdict) => Some((text.into_inner(), verdict)),
        Err(_) => None,
    }
}

/// Whether all is lawful with a listing that has this verdict.
pub(crate) fn is_lawful_with(before: bool, verdict: Verdict) -> bool
    ensures { result ≡ (before && says_lawful verdict) }
{
    match verdict {
        Verdict::Lawful => before,
        Verdict::Faulty => false,
    }
}
