//! The whole frames of octets that come in pieces.

ghost use Rattle.std.specs.Prelude.{◌≡◌, ◌++◌, ◌<◌, ◌≤◌, IfNone, IfSome, List, length, ℕ};
ghost use Rattle.llrp_stream.specs.Cuts.{IsFrame};
ghost use Rattle.llrp.specs.Calls.WholeFrames.{BeginsWithFrames, HasNoFrame};

use llrp_stream::{Front, front_of};
use std::alloc::{AllocError, Global};
use std::mem;

/// What follows the frame at the front, if there is a whole one of at most `limit` octets.
fn after_frame(octets: &[u8], limit: u32) -> Option<&[u8]>
    ensures some { IfSome result (λ after. (frame : List ℕ) × IsFrame frame
        × (length frame ≤ limit) × (octets.now ≡ frame ++ after.now)) }
    ensures none { IfNone result (HasNoFrame limit octets.now) }
{
    match front_of(octets) {
        Front::Frame(count) if count <= limit && count as usize <= octets.len() => {
            Some(octets.split_at(count as usize).1)
        }
        _ => None,
    }
}

/// How many octets at the front are whole frames, each of at most `limit` octets.
pub fn whole_octets(octets: &[u8], limit: u32) -> usize
    ensures frames { BeginsWithFrames limit octets.now result }
    ensures within { result ≤ length octets.now }
{
    let mut rest = octets;
    while let Some(after) = after_frame(rest, limit) {
        rest = after;
    }
    octets.len() - rest.len()
}

/// A frame that is longer than the limit, as far as it is there.
#[derive(Clone, Copy)]
struct LongFrame<'a> {
    /// What follows it.
    after: &'a [u8],
    /// How many of its octets are still to come.
    missing: u32,
}

/// The frame at the front, if it is longer than `limit` octets.
fn long_frame(octets: &[u8], limit: u32) -> Option<LongFrame<'_>>
    ensures { IfSome result (λ long. length long.after.now < length octets.now) }
{
    match front_of(octets) {
        Front::Frame(count) if count > limit => {
            let there = octets.len().min(count as usize);
            Some(LongFrame {
                after: octets.split_at(there).1,
                missing: count - there as u32,
            })
        }
        _ => None,
    }
}

/// Cuts octets that come in pieces at the ends of frames. A frame that is longer than its limit is
/// left out.
#[derive(Drop)]
pub struct FrameCutter {
    alloc: Global,
    limit: u32,
    /// The octets of which no frame was made yet.
    held: Vec<u8>,
    /// How many octets are still to be left out.
    missing: u32,
}

impl FrameCutter {
    /// A cutter to which no octet came.
    pub fn new(alloc: Global, limit: u32) -> FrameCutter {
        FrameCutter {
            alloc,
            limit,
            held: Vec::new(alloc),
            missing: 0,
        }
    }

    /// Whether what came ends within a frame.
    pub fn is_cut(&self) -> bool {
        self.missing > 0 || !self.held.is_empty()
    }

    /// Leaves out of a piece what belongs to a frame that is too long.
    fn shorten<'a>(&mut self, piece: &'a [u8]) -> &'a [u8] {
        let skipped = piece.len().min(self.missing as usize);
        self.missing = self.missing.saturating_sub(skipped as u32);
        piece.split_at(skipped).1
    }

    /// Takes the next piece, and returns the frames that are whole with it.
    pub fn take(&mut self, piece: &[u8]) -> Result<Vec<u8>, AllocError> {
        let piece = self.shorten(piece);
        let mut held = mem::replace(&mut self.held, Vec::new(self.alloc));
        held.extend_from_slice(piece)?;
        let (frames, mut rest) = split_whole(held.as_slice(), self.limit);
        let mut whole = frames.to_vec(self.alloc)?;
        while let Some(long) = long_frame(rest, self.limit) {
            self.missing = long.missing;
            let (frames, others) = split_whole(long.after, self.limit);
            whole.extend_from_slice(frames)?;
            rest = others;
        }
        self.held = rest.to_vec(self.alloc)?;
        Ok(whole)
    }
}

/// The whole frames at the front, and what follows them.
fn split_whole(octets: &[u8], limit: u32) -> (&[u8], &[u8])
    ensures { length result.1.now ≤ length octets.now }
{
    octets.split_at(whole_octets(octets, limit))
}
