//! The frames in the octets of a side.

ghost use Rattle.std.specs.Prelude.{◌+◌, ◌<◌, ◌≤◌, length};
ghost use Rattle.llrp_sides.specs.Private.Fits.{IsFit, IsNextIn};

use llrp_schema::KindSet;
use llrp_stream::{Front, front_of};
use llrp_tree::{HEADER_OCTETS, read_header_in};

/// What stands first in octets.
#[derive(Clone, Copy, Debug, PartialEq, Eq)]
pub(crate) enum Next {
    /// Less than a frame.
    Partial,
    /// A frame of this many octets.
    Frame(usize),
    /// A frame that is longer than a message may be, or a part of it.
    Long,
    /// A length field below 10, after which no frame is found.
    Broken,
}

/// What stands first in octets, where a message may have `limit` octets.
pub(crate) fn next_in(octets: &[u8], limit: u32) -> Next
    ensures { IsNextIn limit octets.now result }
{
    match front_of(octets) {
        Front::Short => Next::Partial,
        Front::Broken => Next::Broken,
        Front::Frame(count) if count > limit => Next::Long,
        Front::Frame(count) if octets.len() < count as usize => Next::Partial,
        Front::Frame(count) => Next::Frame(count as usize),
    }
}

/// How many octets the frame has whose header stands first and fits; 0 where it does not, or where less than
/// a header came.
fn fitting(set: KindSet, limit: u32, octets: &[u8]) -> usize
    ensures { result < 4294967296 }
{
    if octets.len() < HEADER_OCTETS || read_header_in(set, octets, limit).is_err() {
        return 0;
    }
    match front_of(octets) {
        Front::Frame(count) => count as usize,
        _ => 0,
    }
}

/// Whether a frame and the header of another stand first.
#[derive(Clone, Copy, Debug, PartialEq, Eq)]
enum Fit {
    /// They do, and the frame has this many octets.
    Fits(usize),
    /// They do not.
    Differs,
    /// More octets have to come.
    Open,
}

/// Whether octets begin with a frame and the header of another.
fn fit_of(set: KindSet, limit: u32, octets: &[u8]) -> Fit
    ensures { IsFit octets.now result }
{
    if octets.len() < HEADER_OCTETS {
        return Fit::Open;
    }
    let count = fitting(set, limit, octets);
    if count == 0 {
        return Fit::Differs;
    }
    if octets.len() < count + HEADER_OCTETS {
        return Fit::Open;
    }
    if fitting(set, limit, octets.split_at(count).1) == 0 {
        return Fit::Differs;
    }
    Fit::Fits(count)
}

/// Where a frame begins.
#[derive(Clone, Copy, Debug, PartialEq, Eq)]
pub(crate) struct Found {
    /// No frame begins before this place.
    pub at: usize,
    /// How many octets the frame has that begins there; 0 where that is not known yet.
    pub octets: usize,
}

/// The first place at which two headers in a row fit, or the first at which that is not known yet.
pub(crate) fn find_front(set: KindSet, limit: u32, octets: &[u8]) -> Found
    ensures { result.at + result.octets ≤ length octets.now }
{
    for at in 0..octets.len() {
        match fit_of(set, limit, octets.split_at(at).1) {
            Fit::Fits(count) => return Found { at, octets: count },
            Fit::Open => return Found { at, octets: 0 },
            Fit::Differs => {}
        }
    }
    Found {
        at: octets.len(),
        octets: 0,
    }
}
