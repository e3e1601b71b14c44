//! The two ends of a connection, each of which is handed the other's bytes in pieces.

ghost use Rattle.llrp_endpoints.specs.Calls.ServingStands.{HasStarted};

use crate::tally::Tally;
use llrp_session::Reader;
use llrp_tool::{Gathering, LIMIT, Script, Serving, ToolErr, standard_plan};
use std::alloc::Global;
use test_devices::{THREE_LINES, THREE_SIGHTINGS};

/// The bytes of one way, and how many of them were handed over.
#[derive(Drop)]
pub struct Way {
    bytes: Vec<u8>,
    handed: usize,
}

impl Way {
    pub fn new(alloc: Global) -> Way {
        Way {
            bytes: Vec::new(alloc),
            handed: 0,
        }
    }

    /// Returns the next bytes: this many, or all that are left where there are fewer.
    pub fn next(&mut self, size: usize) -> &[u8] {
        let (_, rest) = self.bytes.split_at(self.handed.min(self.bytes.len()));
        let piece = rest.split_at(size.min(rest.len())).0;
        self.handed = self.handed.saturating_add(piece.len());
        piece
    }

    /// The bytes of the way, to which an end appends.
    pub fn bytes(&mut self) -> &mut Vec<u8> {
        &mut self.bytes
    }

    /// How many bytes there are on the way so far.
    pub fn count(&self) -> usize {
        self.bytes.len()
    }

    /// The bytes from a place on.
    pub fn from(&self, place: usize) -> &[u8] {
        self.bytes.split_at(place.min(self.bytes.len())).1
    }
}

/// Hands each end a piece of the other's bytes; the answer is whether the client came to its end.
fn hand_over(
    serving: &mut Serving,
    gathering: &mut Gathering,
    up: &mut Way,
    down: &mut Way,
    lines: &mut Vec<u8>,
    size: usize,
) -> Result<bool, ToolErr>
    requires { HasStarted serving.old }
    ensures { HasStarted serving.new }
{
    if gathering.feed(down.next(size), &mut up.bytes, lines)? {
        return Ok(true);
    }
    serving.feed(up.next(size), &mut down.bytes)?;
    Ok(false)
}

/// The lines that a client prints whose reader acts by the script, where each reads pieces of this many
/// bytes.
fn told(alloc: Global, size: usize) -> Result<Vec<u8>, ToolErr> {
    let core = Reader::new(alloc, LIMIT, 1);
    let mut serving = Serving::new(alloc, core, Script::parse(alloc, THREE_SIGHTINGS)?);
    let mut gathering = Gathering::new(alloc, standard_plan(alloc, 2, 1)?, LIMIT);
    let (mut up, mut down) = (Way::new(alloc), Way::new(alloc));
    let mut lines = Vec::new(alloc);
    serving.start(&mut down.bytes)?;
    for _ in 0..1000 {
        if hand_over(
            &mut serving,
            &mut gathering,
            &mut up,
            &mut down,
            &mut lines,
            size,
        )? {
            return Ok(lines);
        }
    }
    Err(ToolErr::Bound)
}

/// An octet at a time, 7, and all that there are.
pub fn in_pieces(alloc: Global) -> Tally {
    let mut tally = Tally::new();
    for size in [1, 7, usize::MAX] {
        let told = told(alloc, size);
        tally.count(matches!(&told, Ok(lines) if lines.as_slice() == THREE_LINES));
    }
    tally
}
