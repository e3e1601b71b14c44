//! Lists a stream frame by frame.

ghost use Rattle.std.specs.Prelude.{◌≤◌, IfSome, false, length, true};
ghost use Rattle.llrp_schema.specs.declared.kinds.KindSet.TheVariants.{Profile, Standard};
ghost use Rattle.llrp_c.specs.Next.{IsNext, NextIn};
ghost use Rattle.llrp_c.specs.Private.Frames.{IsFirst};

use crate::frames::{WholeFrames, first_frame};
use crate::listings::{Listed, list_part, put_listed};
use crate::status::Status;
use llrp_schema::KindSet;
use std::alloc::Global;

/// The listing of the first frame of a stream, or its line of JSON; `None` if memory ran out.
fn list_first(
    alloc: Global,
    json: bool,
    set: KindSet,
    stream: &[u8],
    first: WholeFrames,
) -> Option<Listed>
    requires { IsFirst stream.now first.octets first.broken }
    ensures { IfSome result (λ listed. IsNext json set stream.now listed.used listed.text.items
        listed.status) }
{
    list_part(alloc, json, set, stream, first)
}

/// The code of `llrp_next` or of `llrp_next_json` in a set of kinds, and what it writes.
fn next_in(
    alloc: Global,
    json: bool,
    set: KindSet,
    stream: &[u8],
    listing: &mut [u8],
    used: &mut usize,
    written: &mut usize,
) -> u32
    ensures { NextIn json set stream.now listing.old listing.new used.new written.new result }
{
    *used = 0;
    *written = 0;
    match first_frame(stream) {
        Some(first) => put_listed(
            list_first(alloc, json, set, stream, first),
            listing,
            used,
            written,
        ),
        None => Status::More.code(),
    }
}

/// Writes the listing of the first frame of a stream to `listing`, its length to `written`, and to `used` how
/// many octets the frame has. A stream that breaks where a frame should begin is listed to its end.
#[unsafe(no_mangle)]
pub extern "C" fn llrp_next(
    alloc: Global,
    stream: &[u8],
    listing: &mut [u8],
    used: &mut usize,
    written: &mut usize,
) -> u32
    ensures { NextIn false Profile stream.now listing.old listing.new used.new written.new result }
{
    next_in(
        alloc,
        false,
        KindSet::Profile,
        stream,
        listing,
        used,
        written,
    )
}

/// The same, with every message and parameter of LLRP 1.1 in place of those of the profile.
#[unsafe(no_mangle)]
pub extern "C" fn llrp_next_all(
    alloc: Global,
    stream: &[u8],
    listing: &mut [u8],
    used: &mut usize,
    written: &mut usize,
) -> u32
    ensures { NextIn false Standard stream.now listing.old listing.new used.new written.new result }
{
    next_in(
        alloc,
        false,
        KindSet::Standard,
        stream,
        listing,
        used,
        written,
    )
}

/// Writes the first frame of a stream to `lines` as a line of JSON, and what `llrp_next` writes besides.
#[unsafe(no_mangle)]
pub extern "C" fn llrp_next_json(
    alloc: Global,
    stream: &[u8],
    lines: &mut [u8],
    used: &mut usize,
    written: &mut usize,
) -> u32
    ensures { NextIn true Profile stream.now lines.old lines.new used.new written.new result }
{
    next_in(alloc, true, KindSet::Profile, stream, lines, used, written)
}

/// The same, with every message and parameter of LLRP 1.1 in place of those of the profile.
#[unsafe(no_mangle)]
pub extern "C" fn llrp_next_json_all(
    alloc: Global,
    stream: &[u8],
    lines: &mut [u8],
    used: &mut usize,
    written: &mut usize,
) -> u32
    ensures { NextIn true Standard stream.now lines.old lines.new used.new written.new result }
{
    next_in(alloc, true, KindSet::Standard, stream, lines, used, written)
}
