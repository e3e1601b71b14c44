//! Laws of what lines say.

ghost use Rattle.std.specs.Prelude.{◌≡◌, ◌*◌, ◌<◌, List, length, map, ℕ};
ghost use Rattle.llrp_schema.specs.declared.kinds.Kind.TheVariants.{Message};
ghost use Rattle.llrp_schema.specs.declared.kinds.KindSet.{KindSet};
ghost use Rattle.llrp_schema.specs.Schema.{set_of_kind};
ghost use Rattle.llrp_tree.specs.Lawful.{IsLawfulMessage, message_octets};
ghost use Rattle.llrp_tree.specs.Tree.{MessageTree};
ghost use Rattle.llrp_stream.specs.declared.item.End.TheVariants.{Clean};
ghost use Rattle.llrp_stream.specs.declared.item.Item.TheVariants.{Msg};
ghost use Rattle.llrp_listing.specs.Encoding.{AreSpelled};
ghost use Rattle.llrp_listing.specs.Lines.{lines_of};
ghost use Rattle.llrp_listing.specs.StreamListing.{IsStreamText};
ghost use Rattle.llrp_json.specs.JsonLines.{IsItemJson, IsMessageJson, end_json};
ghost use Rattle.llrp_json_read.specs.JsonLine.{RefusesLine, SaysLine};
ghost use Rattle.llrp_json_read.specs.LinesRead.{AreLineFrames};
ghost use Rattle.llrp_json_read.specs.ObjectRefused.{Refused};

/// A line says one message at most.
pub fn one_message()
    ensures { (p : KindSet) (line : List ℕ) (m n : MessageTree)
        → SaysLine p line m → SaysLine p line n → m ≡ n }
{}

/// A line that is refused, for whatever reason and at whatever member, says no message.
pub fn refused_says_none()
    ensures { (p : KindSet) (line : List ℕ) (r : Refused) (m : MessageTree)
        → RefusesLine p line r → SaysLine p line m → ⊥ }
{}

/// The line that `show --json` prints for a lawful message says that message.
#[tactic(auto, using(crate::proofs::PrintedMessages::printed_line_says))]
pub fn printed_line_says()
    ensures { (p : KindSet) (m : MessageTree) (text : List ℕ) → IsLawfulMessage m
        → set_of_kind (Message m.kind) ≡ p → IsMessageJson m text → SaysLine p text m }
{}

/// That line has, with its LF, at most 64 octets for each octet of the message's frame.
pub fn printed_line_is_short()
    ensures { (m : MessageTree) (text : List ℕ) → IsLawfulMessage m → IsMessageJson m text
        → length text < 64 * message_octets m }
{}

/// `encode --json` makes of what `show --json` prints of a stream of messages that stream again: each
/// of the lines is accepted, and its frame is that of the message.
pub fn prints_back()
    ensures { (p : KindSet) (limit : ℕ) (ms : List MessageTree) (text bytes : List ℕ)
        → AreSpelled p limit ms bytes → IsStreamText IsItemJson end_json (map Msg ms) Clean text
        → AreLineFrames p limit (lines_of text) bytes }
{}
