//! Encodes a listing that is in memory.

ghost use Rattle.std.specs.Prelude.{◌≤◌, MatchResult};
ghost use Rattle.llrp_stream.specs.Device.{IsFreshSink};
ghost use Rattle.llrp_tree.specs.declared.TheConstants.{MAX_LIMIT};
ghost use Rattle.llrp_listing.specs.Calls.MemoryListing.{StoppedAtEnd, WroteEncoding};

use crate::encode::Encoder;
use crate::outcome::ToolErr;
use llrp_schema::KindSet;
use llrp_stream::Sink;
use std::alloc::Global;

/// Writes the octets of the messages of a listing in memory (LLRP 1.1, section 17), each of `limit`
/// octets at most. However long the listing is, it is one piece.
///
/// The errors are `Listing` with the first line that is refused, counted from 1, and the first reason
/// that applies to it, once the messages closed before it were written; `Write` and `Memory`, after
/// which some first part of what the listing spells was written.
pub fn encode_listing<W: Sink>(
    alloc: Global,
    set: KindSet,
    listing: &[u8],
    w: &mut W,
    limit: u32,
) -> Result<(), ToolErr>
    requires sink { IsFreshSink (W.log w.old) }
    requires least { 10 ≤ limit }
    requires most { limit ≤ MAX_LIMIT }
    ensures { MatchResult result
        (λ _. WroteEncoding set limit (W.log w.old) (W.log w.new) listing.now)
        (StoppedAtEnd set limit (W.log w.old) (W.log w.new) listing.now) }
{
    let mut encoder = Encoder::new(alloc, set, limit);
    encoder.feed(alloc, listing, w)?;
    encoder.finish(w)
}
