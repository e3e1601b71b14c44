//! Lists streams and encodes listings.

ghost use Rattle.std.specs.Prelude.{◌≡◌, ◌≤◌, false, if◌then◌else◌, length, true, IfOk, IfSome, MatchResult};
ghost use Rattle.llrp_schema.specs.declared.kinds.KindSet.TheVariants.{Profile, Standard};
ghost use Rattle.llrp_tree.specs.declared.TheConstants.{MAX_LIMIT};
ghost use Rattle.llrp_listing.specs.Encoding.{EncodesIn};
ghost use Rattle.llrp_listing.specs.Show.{ListedAs};
ghost use Rattle.llrp_stream.specs.Calls.Device.{CanWrite};
ghost use Rattle.llrp_c.specs.Private.Parts.{EncodeFails, HasListing, IsPart, Stops, listed_status};
ghost use Rattle.llrp_c.specs.Private.Put.{PutsListed};
ghost use Rattle.llrp_c.specs.Listings.{IsListing, ItemTextIn, ListsIn, end_text_in, WritesOctets, WritesOctetsIn};

use crate::frames::{WholeFrames, whole_frames};
use crate::room::put;
use crate::status::Status;
use llrp_json::list_stream_json;
use llrp_listing::{ToolErr, Verdict, encode_listing, list_stream_in};
use llrp_schema::KindSet;
use llrp_stream::{Output, Sink};
use llrp_tree::MAX_LIMIT;
use std::alloc::Global;

/// The listing of the first octets of a stream.
#[derive(Drop)]
pub(crate) struct Listed {
    text: Vec<u8>,
    used: usize,
    status: Status,
}

/// How many octets are listed of a stream with these whole frames: all of them if the stream
/// breaks.
fn octets_listed(stream: &[u8], frames: WholeFrames) -> usize
    requires { frames.octets ≤ length stream.now }
    ensures { result ≡ (if frames.broken then length stream.now else frames.octets) }
{
    if frames.broken {
        stream.len()
    } else {
        frames.octets
    }
}

/// The status of a listing with this verdict, given whether the stream breaks after it.
fn listed_status(broken: bool, verdict: Verdict) -> Status
    ensures { result ≡ listed_status broken verdict }
{
    match verdict {
        _ if broken => Status::Broken,
        Verdict::Lawful => Status::Done,
        Verdict::Faulty => Status::Faulty,
    }
}

/// Writes the listing of a stream in a set of kinds, or its lines of JSON.
fn write_listing<W: Sink>(
    alloc: Global,
    json: bool,
    set: KindSet,
    stream: &[u8],
    w: &mut W,
) -> Result<Verdict, ToolErr>
    requires { CanWrite (W.log w.old) }
    ensures { IfOk result (λ verdict. ListedAs (ItemTextIn json) (end_text_in json) set MAX_LIMIT
        stream.now (W.log w.old) (W.log w.new) verdict) }
{
    if json {
        list_stream_json(alloc, set, stream, w, MAX_LIMIT)
    } else {
        list_stream_in(alloc, set, stream, w, MAX_LIMIT)
    }
}

/// The listing of a stream in a set of kinds, or its lines of JSON; `None` if memory ran out.
fn listing_of(alloc: Global, json: bool, set: KindSet, stream: &[u8]) -> Option<(Vec<u8>, Verdict)>
    ensures { IfSome result (λ listing. HasListing json set stream.now listing.0.items listing.1) }
{
    let mut text = Output::new(Vec::new(alloc));
    match write_listing(alloc, json, set, stream, &mut text) {
        Ok(verdict) => Some((text.into_inner(), verdict)),
        Err(_) => None,
    }
}

/// The listing of the first octets of a stream, or their lines of JSON: of these whole frames, or of all if
/// it breaks after them; `None` if memory ran out.
pub(crate) fn list_part(
    alloc: Global,
    json: bool,
    set: KindSet,
    stream: &[u8],
    frames: WholeFrames,
) -> Option<Listed>
    requires { frames.octets ≤ length stream.now }
    ensures { IfSome result (λ listed. IsPart json set stream.now frames.broken frames.octets
        listed.used listed.text.items listed.status) }
{
    let used = octets_listed(stream, frames);
    let (text, verdict) = listing_of(alloc, json, set, &stream[..used])?;
    Some(Listed {
        text,
        used,
        status: listed_status(frames.broken, verdict),
    })
}

/// The listing of the whole frames of a stream in a set of kinds, or their lines of JSON; `None` if
/// memory ran out.
fn list_frames(alloc: Global, json: bool, set: KindSet, stream: &[u8]) -> Option<Listed>
    ensures { IfSome result (λ listed. IsListing json set stream.now listed.used listed.text.items
        listed.status) }
{
    list_part(alloc, json, set, stream, whole_frames(stream))
}

/// Writes what is listed, if there is room, and returns the code of that.
pub(crate) fn put_listed(
    listed: Option<Listed>,
    listing: &mut [u8],
    used: &mut usize,
    written: &mut usize,
) -> u32
    ensures { PutsListed listed listing.old listing.new used.new written.new result }
{
    *used = 0;
    *written = 0;
    let Some(listed) = listed else {
        return Status::Memory.code();
    };
    *written = listed.text.len();
    if listing.len() < listed.text.len() {
        return Status::Room.code();
    }
    put(listed.text.as_slice(), listing);
    *used = listed.used;
    listed.status.code()
}

/// The code of `llrp_list` or of `llrp_list_json` in a set of kinds, and what it writes.
fn list_in(
    alloc: Global,
    json: bool,
    set: KindSet,
    stream: &[u8],
    listing: &mut [u8],
    used: &mut usize,
    written: &mut usize,
) -> u32
    ensures { ListsIn json set stream.now listing.old listing.new used.new written.new result }
{
    put_listed(
        list_frames(alloc, json, set, stream),
        listing,
        used,
        written,
    )
}

/// Writes the listing of the whole frames of a stream to `listing`, its length to `written`, and to
/// `used` how many octets the frames have. A stream that breaks after its whole frames is listed to
/// its end.
#[unsafe(no_mangle)]
pub extern "C" fn llrp_list(
    alloc: Global,
    stream: &[u8],
    listing: &mut [u8],
    used: &mut usize,
    written: &mut usize,
) -> u32
    ensures { ListsIn false Profile stream.now listing.old listing.new used.new written.new result }
{
    list_in(
        alloc,
        false,
        KindSet::Profile,
        stream,
        listing,
        used,
        written,
    )
}

/// The same, with every message and parameter of LLRP 1.1 in place of those of the profile.
#[unsafe(no_mangle)]
pub extern "C" fn llrp_list_all(
    alloc: Global,
    stream: &[u8],
    listing: &mut [u8],
    used: &mut usize,
    written: &mut usize,
) -> u32
    ensures { ListsIn false Standard stream.now listing.old listing.new used.new written.new result }
{
    list_in(
        alloc,
        false,
        KindSet::Standard,
        stream,
        listing,
        used,
        written,
    )
}

/// Writes the whole frames of a stream to `lines` as lines of JSON, and what `llrp_list` writes besides.
#[unsafe(no_mangle)]
pub extern "C" fn llrp_list_json(
    alloc: Global,
    stream: &[u8],
    lines: &mut [u8],
    used: &mut usize,
    written: &mut usize,
) -> u32
    ensures { ListsIn true Profile stream.now lines.old lines.new used.new written.new result }
{
    list_in(alloc, true, KindSet::Profile, stream, lines, used, written)
}

/// The same, with every message and parameter of LLRP 1.1 in place of those of the profile.
#[unsafe(no_mangle)]
pub extern "C" fn llrp_list_json_all(
    alloc: Global,
    stream: &[u8],
    lines: &mut [u8],
    used: &mut usize,
    written: &mut usize,
) -> u32
    ensures { ListsIn true Standard stream.now lines.old lines.new used.new written.new result }
{
    list_in(alloc, true, KindSet::Standard, stream, lines, used, written)
}

/// The octets of a listing of a set of kinds, or why it has none.
fn encoded(alloc: Global, set: KindSet, listing: &[u8]) -> Result<Vec<u8>, ToolErr>
    ensures { MatchResult result (λ octets. EncodesIn set MAX_LIMIT listing.now octets.items)
        (EncodeFails set listing.now) }
{
    let mut octets = Output::new(Vec::new(alloc));
    match encode_listing(alloc, set, listing, &mut octets, MAX_LIMIT) {
        Ok(()) => Ok(octets.into_inner()),
        Err(error) => Err(error),
    }
}

/// The line at which a listing is refused, and the status of that.
fn stopped(error: ToolErr) -> (u64, Status)
    ensures { Stops error result.0 result.1 }
{
    match error {
        ToolErr::Listing { line, reason } => (line, Status::of_refusal(reason)),
        _ => (0, Status::Memory),
    }
}

/// The code of `llrp_encode` in a set of kinds, and what it writes.
fn encode_in(
    alloc: Global,
    set: KindSet,
    listing: &[u8],
    octets: &mut [u8],
    written: &mut usize,
    line: &mut u64,
) -> u32
    ensures { WritesOctetsIn set listing.now octets.old octets.new written.new line.new result }
{
    *written = 0;
    *line = 0;
    match encoded(alloc, set, listing) {
        Ok(all) => {
            *written = all.len();
            if octets.len() < all.len() {
                return Status::Room.code();
            }
            put(all.as_slice(), octets);
            Status::Done.code()
        }
        Err(error) => {
            let (refused, status) = stopped(error);
            *line = refused;
            status.code()
        }
    }
}

/// Writes the octets of the messages of a listing to `octets`, how many they are to `written`, and
/// the line at which the listing is refused to `line`, or 0.
#[unsafe(no_mangle)]
pub extern "C" fn llrp_encode(
    alloc: Global,
    listing: &[u8],
    octets: &mut [u8],
    written: &mut usize,
    line: &mut u64,
) -> u32
    ensures { WritesOctets listing.now octets.old octets.new written.new line.new result }
{
    encode_in(alloc, KindSet::Profile, listing, octets, written, line)
}

/// The same, with every message and parameter of LLRP 1.1 in place of those of the profile.
#[unsafe(no_mangle)]
pub extern "C" fn llrp_encode_all(
    alloc: Global,
    listing: &[u8],
    octets: &mut [u8],
    written: &mut usize,
    line: &mut u64,
) -> u32
    ensures { WritesOctetsIn Standard listing.now octets.old octets.new written.new line.new result }
{
    encode_in(alloc, KindSet::Standard, listing, octets, written, line)
}
