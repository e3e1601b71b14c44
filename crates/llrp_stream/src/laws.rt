//! Laws of frames and streams, and of a decoder that is fed one.

ghost use Rattle.std.specs.Prelude.{List, ◌≤◌, ℕ};
ghost use Rattle.llrp_schema.specs.declared.kinds.KindSet.{KindSet};
ghost use Rattle.llrp_tree.specs.Lawful.{AreOctets};
ghost use Rattle.llrp_tree.specs.declared.TheConstants.{MAX_LIMIT};
ghost use Rattle.llrp_stream.specs.Cuts.{IsFrame};
ghost use Rattle.llrp_stream.specs.Calls.StreamLaws.{HasOneItemIn, IsCutInOneWay, ItemsGrowIn, PrefixOfFrames};
ghost use Rattle.llrp_stream.specs.StreamLaws.{HasOneListingIn, PiecesAreTheStream};

/// Each frame has one message or exactly one first fault, and never both.
#[tactic(auto, using(crate::proofs::ItemLemmas::has_one_item))]
pub fn one_item()
    ensures { (p : KindSet) (limit : ℕ) (frame : List ℕ) → limit ≤ MAX_LIMIT → AreOctets frame
        → IsFrame frame → HasOneItemIn p limit frame }
{}

/// Each stream is cut into frames in one way.
pub fn one_cut()
    ensures { (stream : List ℕ) → IsCutInOneWay stream }
{}

/// Each stream of octets has one list of items, and one end.
#[tactic(auto, using(crate::proofs::ItemLemmas::has_one_listing))]
pub fn one_listing()
    ensures { (p : KindSet) (limit : ℕ) (stream : List ℕ) → limit ≤ MAX_LIMIT → AreOctets stream
        → HasOneListingIn p limit stream }
{}

/// However a stream is cut into pieces, the items that a new decoder returns are those of the
/// stream.
#[tactic(auto, using(crate::proofs::RunLemmas::of_the_stream))]
pub fn pieces_are_the_stream()
    ensures { PiecesAreTheStream }
{}

/// The first bytes of a row of frames have the items of the frames that are whole in them, and end
/// after a whole frame or within the next one.
pub fn prefix_of_frames()
    ensures { PrefixOfFrames }
{}

/// More bytes only add items after those so far, for a caller that feeds them as they come.
pub fn items_grow()
    ensures { (p : KindSet) (limit : ℕ) → ItemsGrowIn p limit }
{}
