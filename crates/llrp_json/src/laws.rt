//! Laws of lines of JSON.

ghost use Rattle.std.specs.Prelude.{◌≡◌, ◌⊎◌, ◌^◌, ◌<◌, [], List, ℕ, All};
ghost use Rattle.llrp_schema.specs.declared.kinds.Kind.{Kind};
ghost use Rattle.llrp_schema.specs.Schema.{fields_of, name_of};
ghost use Rattle.llrp_tree.specs.declared.fault.Fault.{Fault};
ghost use Rattle.llrp_tree.specs.Lawful.{IsLawfulMessage};
ghost use Rattle.llrp_tree.specs.Tree.{MessageTree};
ghost use Rattle.llrp_stream.specs.declared.item.End.TheVariants.{Broken, Rest};
ghost use Rattle.llrp_stream.specs.declared.item.Item.TheVariants.{Bad, Msg};
ghost use Rattle.llrp_listing.specs.Calls.ItemPrinter.{HasOneText};
ghost use Rattle.tag_uri.specs.TagText.{IsTextOf};
ghost use Rattle.llrp_json.specs.Calls.JsonLaws.{EachHasLine, LinesAreApart, NamesAreApart, StreamsAreApart};
ghost use Rattle.llrp_json.specs.JsonLines.{IsItemJson, end_json};
ghost use Rattle.llrp_json.specs.JsonValues.{inside};
ghost use Rattle.llrp_json.specs.Calls.JsonTexts.{IsLineOfJson};

/// The line of a lawful message, of a fault, of a rest and of a break is one text of JSON and LF.
pub fn lines_are_json()
    ensures message { (m : MessageTree) (line : List ℕ) → IsLawfulMessage m → IsItemJson (Msg m) line
        → IsLineOfJson line }
    ensures fault { (id : ℕ) (fault : Fault) (line : List ℕ) → id < 2 ^ 32 → fault.bit < 2 ^ 64
        → IsItemJson (Bad id fault) line → IsLineOfJson line }
    ensures rest { (octets : ℕ) → octets < 2 ^ 64 → IsLineOfJson (end_json (Rest octets)) }
    ensures broken { IsLineOfJson (end_json Broken) }
{}

/// Each lawful message and each fault has a line.
#[tactic(auto, using(crate::proofs::EachLine::each_has_line))]
pub fn each_has_line()
    ensures { EachHasLine }
{}

/// An item has one line.
pub fn one_line()
    ensures { HasOneText IsItemJson }
{}

/// From its line an item of a set of kinds is known, and from the lines of a stream its items are
/// known, and the line of its end.
pub fn lines_are_apart()
    ensures line { LinesAreApart }
    ensures stream { StreamsAreApart }
{}

/// No octet of an EPC's text, or of the name of a kind or of a field, needs an escape in a string.
pub fn texts_need_no_escape()
    ensures epc { (word : ℕ) (text : List ℕ) → IsTextOf word text → inside text ≡ text }
    ensures kind { (kind : Kind) → inside (name_of kind) ≡ name_of kind }
    ensures field { (kind : Kind) → All (λ field. inside field.name ≡ field.name) (fields_of kind) }
{}

/// The members of an object have different names (RFC 8259, section 4), whichever of them it has.
#[tactic(auto, using(crate::proofs::MemberNames::names_are_apart))]
pub fn names_are_apart()
    ensures { NamesAreApart }
{}
