//! The decoder.

ghost use Rattle.std.specs.Prelude.{◌≡◌, ◌<◌, ◌≤◌, List, ℕ, [], IfOk, Err, None, Some, length, IsSome};
ghost use Rattle.llrp_schema.specs.declared.kinds.KindSet.{KindSet};
ghost use Rattle.llrp_tree.specs.declared.TheConstants.{MAX_LIMIT};
ghost use Rattle.llrp_tree.specs.declared.fault.Fault.{Fault};
ghost use Rattle.llrp_tree.specs.Tree.{MessageTree};
ghost use Rattle.llrp_stream.specs.declared.item.Item.TheVariants as item;
ghost use Rattle.llrp_stream.specs.declared.engine.frames.Outcome.TheVariants.{Whole, Bad};

use crate::engine::{Builder, Frames, Outcome};
use crate::item::{End, Fed, FeedErr, Item};
use crate::state::State;
use llrp_schema::KindSet;
use std::alloc::Global;
use std::marker::Model;

/// Reads a stream of LLRP frames piece by piece, and returns the item of each frame at its last
/// byte (LLRP 1.1, section 17). It keeps no frame: of an unfinished one it holds the nodes that
/// were read and at most 16 raw bytes, and of a faulty one only its id, its fault and how many
/// bytes are left.
#[derive(Drop)]
pub struct Decoder {
    frames: Frames,
    builder: Builder,
}

impl Model for Decoder {
    ghost use Rattle.std.specs.Coded.{codes};
    ghost use Rattle.llrp_tree.specs.Private.Stored.{forest_code};
    ghost use Rattle.llrp_stream.specs.Decoding.{DecoderState};
    ghost use Rattle.llrp_stream.specs.Private.Keeping.{decoder, IsKept};

    ghost Value = { DecoderState };

    ghost coded = { Prim.hlevel (codes, forest_code) };

    ghost view = { λ d. decoder d.frames d.builder };

    ghost invariant = { λ d. IsKept d.frames d.builder };
}

/// The item of a frame that ended. If the frame has no fault, the builder has its message.
fn item_of(outcome: Option<Outcome>, builder: &mut Builder) -> Option<Item>
    ensures same { outcome ≡ None → builder.new ≡ builder.old }
    ensures nodes { builder.new.nodes ≡ builder.old.nodes }
    ensures done { builder.new.version ≡ builder.old.version }
    ensures id { builder.new.id ≡ builder.old.id }
    ensures none { outcome ≡ None → result ≡ None }
    ensures bad { (id : ℕ) (fault : Fault) → outcome ≡ Some (Bad id fault)
        → result ≡ Some (item.Bad id fault) }
    ensures whole { (m : MessageTree) → outcome ≡ Some Whole → builder.old.done ≡ Some m
        → result ≡ Some (item.Msg m) }
{
    match outcome? {
        Outcome::Whole => Some(Item::Msg(builder.take()?)),
        Outcome::Bad { id, fault } => Some(Item::Bad { id, fault }),
    }
}

impl Decoder {
    ghost use Rattle.llrp_tree.specs.declared.TheConstants.{MAX_LIMIT};
    ghost use Rattle.llrp_stream.specs.declared.item.End.TheVariants as at_end;
    ghost use Rattle.llrp_stream.specs.declared.item.FeedErr.TheVariants.{Broken, Dead};
    ghost use Rattle.llrp_stream.specs.Cuts.{EndsStream};
    ghost use Rattle.llrp_stream.specs.Decoding.{IsBroken, IsDead, raw_octets, held_weight};
    ghost use Rattle.llrp_stream.specs.Calls.Decoding.{IsDecidedIn, Stands, StandsIn};
    ghost use Rattle.llrp_stream.specs.Feeding.{Feeds, FeedsIn};
    ghost use Rattle.llrp_stream.specs.Calls.Items.{HasHeaderFaultIn};

    /// A decoder of the profile that was fed nothing; it takes no memory. A frame of more than
    /// `limit` octets is faulty.
    pub fn new(alloc: Global, limit: u32) -> Decoder
        requires least { 10 ≤ limit }
        requires most { limit ≤ MAX_LIMIT }
        ensures stands { Stands result [] }
        ensures limit { result.limit ≡ limit }
    {
        Decoder::new_in(alloc, KindSet::Profile, limit)
    }

    /// A decoder of a set of kinds that was fed nothing; it takes no memory. A frame of more than
    /// `limit` octets is faulty.
    pub fn new_in(alloc: Global, set: KindSet, limit: u32) -> Decoder
        requires least { 10 ≤ limit }
        requires most { limit ≤ MAX_LIMIT }
        ensures stands { StandsIn set result [] }
        ensures limit { result.limit ≡ limit }
    {
        Decoder {
            frames: Frames::new_in(set, limit),
            builder: Builder::new(alloc),
        }
    }

    /// Takes the bytes of a piece up to the end of the next frame, and returns that frame's item;
    /// if there is no item, it took the whole piece. The error is `Broken` at the sixth byte of a
    /// frame whose length field is below 10, and from then on; it is `Memory` if memory ran out,
    /// and `Dead` from then on.
    pub fn feed(&mut self, piece: &[u8]) -> Result<Fed, FeedErr>
        // For any bytes that it may have been fed of an unfinished frame, it goes on from them.
        ensures stands { (front : List ℕ) → Stands self.old front
            → Feeds self.old front piece.now self.new result }
        // The same in the set of kinds that it knows.
        ensures stands_in { (p : KindSet) (front : List ℕ) → StandsIn p self.old front
            → FeedsIn p self.old front piece.now self.new result }
        ensures broken { IsBroken self.old → (result ≡ Err Broken) × IsBroken self.new }
        ensures dead { IsDead self.old → (result ≡ Err Dead) × IsDead self.new }

        ensures set { self.new.set ≡ self.old.set }
        ensures limit { self.new.limit ≡ self.old.limit }
        ensures within { IfOk result (λ fed. fed.used ≤ length piece.now) }
        ensures progress { IfOk result (λ fed. IsSome fed.item → 0 < fed.used) }
    {
        match self.frames.feed(&mut self.builder, piece) {
            Ok(came) => Ok(Fed {
                used: came.used,
                item: item_of(came.outcome, &mut self.builder),
            }),
            Err(error) => {
                self.builder.clear();
                Err(error)
            }
        }
    }

    /// How the stream ends if no more bytes follow; `Rest` counts those after the last whole frame.
    pub fn finish(&self) -> End
        ensures stands { (front : List ℕ) → Stands self.now front → EndsStream front result }
        ensures stands_in { (p : KindSet) (front : List ℕ) → StandsIn p self.now front
            → EndsStream front result }
        ensures broken { IsBroken self.now → result ≡ at_end.Broken }
        ensures dead { IsDead self.now → result ≡ at_end.Dead }
    {
        self.frames.finish()
    }

    /// How much it keeps: its raw bytes, two for each node (the message and open parents included),
    /// and the bytes of their tails. This is at most what was fed since the last frame ended, and 0
    /// from the byte on that decides a fault of the frame.
    pub fn held(&self) -> u32
        ensures weight { result ≡ held_weight self.now }
        ensures within { result ≤ self.now.limit }
        ensures front { (p : KindSet) (front : List ℕ) → StandsIn p self.now front
            → result ≤ length front }
        ensures raw { raw_octets self.now.kept ≤ 16 }
        ensures skipped { (p : KindSet) (front : List ℕ) → StandsIn p self.now front
            → HasHeaderFaultIn p self.now.limit front → result ≡ 0 }
        ensures decided { (p : KindSet) (front : List ℕ) → StandsIn p self.now front
            → IsDecidedIn p self.now.limit front → result ≡ 0 }
    {
        match self.frames.state {
            State::Header => self.frames.raw_octets(),
            State::Reading { .. } => self.frames.raw_octets() + self.builder.weight(),
            State::Between | State::Skipping { .. } | State::Broken | State::Dead => 0,
        }
    }
}
