//! Encodes lines of JSON.

ghost use Rattle.std.specs.Prelude.{[], ◌≡◌, MatchResult};
ghost use Rattle.llrp_schema.specs.declared.kinds.KindSet.TheVariants.{Profile, Standard};
ghost use Rattle.llrp_tree.specs.declared.TheConstants.{MAX_LIMIT};
ghost use Rattle.llrp_listing.specs.Lines.{lines_of};
ghost use Rattle.llrp_json_read.specs.LinesRead.{AreLineFrames};
ghost use Rattle.llrp_c.specs.JsonLines.{WritesLinesIn, WritesPath};
ghost use Rattle.llrp_c.specs.Private.Parts.{LinesFail};

use crate::room::put;
use crate::status::Status;
use llrp_json_read::{LinesErr, encode_lines};
use llrp_schema::KindSet;
use llrp_tree::MAX_LIMIT;
use std::alloc::Global;

/// The octets of lines of JSON of a set of kinds, or why they have none.
fn encoded(alloc: Global, set: KindSet, lines: &[u8]) -> Result<Vec<u8>, LinesErr>
    ensures { MatchResult result (λ octets. AreLineFrames set MAX_LIMIT (lines_of lines.now) octets.items)
        (LinesFail set lines.now) }
{
    let mut octets = Vec::new(alloc);
    encode_lines(alloc, set, lines, &mut octets, MAX_LIMIT)?;
    Ok(octets)
}

/// Writes a path to its room, if that is long enough, and returns its length.
fn put_path(path: &[u8], room: &mut [u8]) -> usize
    ensures { WritesPath path.now room.old room.new result }
{
    if path.len() <= room.len() {
        put(path, room);
    }
    path.len()
}

/// The code of `llrp_encode_json` in a set of kinds, and what it writes.
fn encode_in(
    alloc: Global,
    set: KindSet,
    lines: &[u8],
    octets: &mut [u8],
    written: &mut usize,
    line: &mut u64,
    path: &mut [u8],
    path_written: &mut usize,
) -> u32
    ensures { WritesLinesIn set lines.now octets.old octets.new written.new line.new path.old
        path.new path_written.new result }
{
    *written = 0;
    *line = 0;
    *path_written = 0;
    match encoded(alloc, set, lines) {
        Ok(all) => {
            *written = all.len();
            if octets.len() < all.len() {
                return Status::Room.code();
            }
            put(all.as_slice(), octets);
            Status::Done.code()
        }
        Err(LinesErr::Line(refused)) => {
            *line = refused.number;
            *path_written = put_path(refused.path.as_slice(), path);
            Status::of_reason(refused.reason).code()
        }
        Err(LinesErr::Stopped(_)) => Status::Memory.code(),
    }
}

/// Writes the octets of the messages that lines of JSON say to `octets`, how many they are to `written`, and,
/// if a line is refused, its number to `line`, the path of its member to `path` and the path's length to
/// `path_written`; these numbers are 0 if none is.
#[unsafe(no_mangle)]
pub extern "C" fn llrp_encode_json(
    alloc: Global,
    lines: &[u8],
    octets: &mut [u8],
    written: &mut usize,
    line: &mut u64,
    path: &mut [u8],
    path_written: &mut usize,
) -> u32
    ensures { WritesLinesIn Profile lines.now octets.old octets.new written.new line.new path.old
        path.new path_written.new result }
{
    encode_in(
        alloc,
        KindSet::Profile,
        lines,
        octets,
        written,
        line,
        path,
        path_written,
    )
}

/// The same, with every message and parameter of LLRP 1.1 in place of those of the profile.
#[unsafe(no_mangle)]
pub extern "C" fn llrp_encode_json_all(
    alloc: Global,
    lines: &[u8],
    octets: &mut [u8],
    written: &mut usize,
    line: &mut u64,
    path: &mut [u8],
    path_written: &mut usize,
) -> u32
    ensures { WritesLinesIn Standard lines.now octets.old octets.new written.new line.new path.old
        path.new path_written.new result }
{
    encode_in(
        alloc,
        KindSet::Standard,
        lines,
        octets,
        written,
        line,
        path,
        path_written,
    )
}
