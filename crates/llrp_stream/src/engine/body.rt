//! The body of a frame, which comes in pieces.

ghost use Rattle.llrp_tree.specs.declared.TheConstants.{MAX_LIMIT};
ghost use Rattle.std.specs.Prelude.{◌+◌, ◌≡◌, ◌<◌, ◌≤◌, ◌++◌, [], ◌∷◌, length};
ghost use Rattle.llrp_stream.specs.Private.Pieces.{FeedsFrom, HasRoomFor};

use crate::engine::body_reader::BodyReader;
use crate::engine::listener::Listener;
use arrayvec::ArrayVec;
use llrp_schema::KindSet;
use llrp_tree::FrameErr;

/// How far the body of a frame was read, and the octets of the part that is not whole yet.
#[derive(Drop)]
pub(crate) struct Body {
    pub reader: BodyReader,
    pub raw: ArrayVec<u8, 16>,
}

/// Copies a few octets into an array.
fn kept(octets: &[u8]) -> ArrayVec<u8, 16>
    requires { length octets.now ≤ 16 }
    ensures { result.items ≡ octets.now }
{
    let mut kept = ArrayVec::new();
    for octet in octets {
        kept.push(*octet);
    }
    kept
}

impl Body {
    /// A body of a frame of a set of kinds, of which nothing was read.
    pub(crate) fn new(set: KindSet) -> Body
        ensures raw { result.raw.items ≡ [] }
        ensures set { result.reader.set ≡ set }
    {
        Body {
            reader: BodyReader::new(set),
            raw: ArrayVec::new(),
        }
    }

    /// How many octets of the frame were fed.
    #[inline(always)]
    pub(crate) fn taken(&self) -> u32
        requires { self.now.reader.at ≤ MAX_LIMIT }
        ensures { result ≡ self.now.reader.at + length self.now.raw.items }
    {
        self.reader.at + self.raw.len() as u32
    }

    /// Keeps these octets of a header.
    #[inline(always)]
    pub(crate) fn keep(&mut self, octets: &[u8])
        requires { length self.old.raw.items + length octets.now ≤ 16 }
        ensures raw { self.new.raw.items ≡ self.old.raw.items ++ octets.now }
        ensures reader { self.new.reader ≡ self.old.reader }
    {
        let _ = self.raw.try_extend_from_slice(octets);
    }

    /// Takes one octet of a part that has begun. Returns whether the message is whole.
    fn feed_octet<L: Listener>(&mut self, listener: &mut L, octet: u8) -> Result<bool, FrameErr>
        requires few { length self.old.raw.items < 16 }
        requires some { HasRoomFor (L.begins listener.old) (L.stands listener.old) self.old
            (octet ∷ []) }
        ensures { FeedsFrom (L.begins listener.old) (L.stands listener.old) (L.begins listener.new)
            (L.stands listener.new) (L.faulty listener.new) self.old self.new (octet ∷ []) result }
    {
        self.raw.push(octet);
        let read = self.reader.read(listener, self.raw.as_slice())?;
        if read.whole {
            return Ok(true);
        }
        let left = kept(self.raw.as_slice().split_at(read.used).1);
        self.raw = left;
        Ok(false)
    }

    /// Takes the octets of a piece that begins with a new part. Returns whether the message is
    /// whole.
    #[inline(always)]
    fn feed_piece<L: Listener>(&mut self, listener: &mut L, piece: &[u8]) -> Result<bool, FrameErr>
        requires fresh { self.old.raw.items ≡ [] }
        requires some { HasRoomFor (L.begins listener.old) (L.stands listener.old) self.old
            piece.now }
        ensures { FeedsFrom (L.begins listener.old) (L.stands listener.old) (L.begins listener.new)
            (L.stands listener.new) (L.faulty listener.new) self.old self.new piece.now result }
    {
        let read = self.reader.read(listener, piece)?;
        if read.whole {
            return Ok(true);
        }
        let left = kept(piece.split_at(read.used).1);
        self.raw = left;
        Ok(false)
    }

    /// Takes the octets of a piece that goes no further than the frame. Returns whether the message
    /// is whole.
    #[inline(always)]
    pub(crate) fn feed<L: Listener>(
        &mut self,
        listener: &mut L,
        piece: &[u8],
    ) -> Result<bool, FrameErr>
        requires { HasRoomFor (L.begins listener.old) (L.stands listener.old) self.old piece.now }
        ensures { FeedsFrom (L.begins listener.old) (L.stands listener.old) (L.begins listener.new)
            (L.stands listener.new) (L.faulty listener.new) self.old self.new piece.now result }
    {
        let mut rest = piece;
        'raw: while !self.raw.is_empty() {
            if rest.is_empty() {
                return Ok(false);
            }
            let (first, others) = rest.split_at(1);
            let whole = self.feed_octet(listener, first[0])?;
            if whole {
                return Ok(true);
            }
            rest = others;
        }
        self.feed_piece(listener, rest)
    }
}
