//! Laws of listings, and of what `epc` prints.

ghost use Rattle.std.specs.Prelude.{List, ◌≡◌, ℕ};
ghost use Rattle.llrp_schema.specs.declared.kinds.KindSet.{KindSet};
ghost use Rattle.llrp_tree.specs.Tree.{MessageTree};
ghost use Rattle.llrp_listing.specs.declared.outcome.Verdict.{Verdict};
ghost use Rattle.llrp_listing.specs.Calls.EpcLines.{Prints};
ghost use Rattle.llrp_listing.specs.Calls.ListingLaws.{HasShortLines, ListedOrRefused};
ghost use Rattle.llrp_listing.specs.Calls.PrintingLaws.{OneTextOfItems, OneTextOfMessages};
ghost use Rattle.llrp_listing.specs.PrintingLaws.{PrintsBack};

/// In either set of kinds, a text is the listing of at most one list of messages within the limit, or
/// has at most one first refusal, and never both.
pub fn listed_or_refused()
    ensures { (p : KindSet) (limit : ℕ) (text : List ℕ) → ListedOrRefused p limit text }
{}

/// No line of a lawful message is longer than a line may be, and its listing has at most 2,001 octets
/// for each octet of its frame.
pub fn lines_are_short()
    ensures { (m : MessageTree) → HasShortLines m }
{}

/// A list of messages has one listing.
pub fn one_text_of_messages()
    ensures { OneTextOfMessages }
{}

/// The items of a stream have one listing.
pub fn one_text_of_items()
    ensures { OneTextOfItems }
{}

/// Where a text is the listing of messages of either set of kinds, the stream of their octets has
/// that text as its listing, and no other.
pub fn prints_back()
    ensures { PrintsBack }
{}

/// For each text, `epc` has one answer: the same lines and the same verdict.
pub fn one_epc_answer()
    ensures verdict { (text a b : List ℕ) (v w : Verdict) → Prints text v a
        → Prints text w b → v ≡ w }
    ensures lines { (text a b : List ℕ) (v w : Verdict) → Prints text v a
        → Prints text w b → a ≡ b }
{}
