//! Printers of the items of a stream.

ghost use Rattle.std.specs.Prelude.{◌≡◌, ◌++◌, ◌⊎◌, ℕ, List, [], OnOk};
ghost use Rattle.llrp_tree.specs.OpenTree.{Begun};
ghost use Rattle.llrp_tree.specs.Tree.{MessageTree};
ghost use Rattle.llrp_stream.specs.declared.item.End.{End as Ending};
ghost use Rattle.llrp_stream.specs.declared.item.Item.{Item};
ghost use Rattle.llrp_stream.specs.declared.item.Item.TheVariants.{Msg, Bad};
ghost use Rattle.llrp_listing.specs.Calls.ItemPrinter.{HasText};

use llrp_stream::{End, Listener};
use llrp_tree::Fault;
use std::alloc::AllocError;

/// A listener that prints: it holds the texts of a stream's items, one after another, and after them
/// what it has of an unfinished message.
pub trait ItemPrinter: Listener {
    /// This item has this text.
    ghost is_text: { Item → List ℕ → Type 0 };

    /// The text of a stream's end.
    ghost text_of_end: { Ending → List ℕ };

    /// Appends the text of a faulty frame.
    fn push_fault(&mut self, id: u32, fault: Fault) -> Result<(), AllocError>
        ensures { OnOk result ((was : List ℕ) → Self.stands self.old was []
            → (text : List ℕ) × is_text (Bad id fault) text
            × Self.stands self.new (was ++ text) []) };

    /// Appends the text of a stream's end.
    fn push_end(&mut self, end: End) -> Result<(), AllocError>
        ensures { OnOk result ((was : List ℕ) → Self.stands self.old was []
            → Self.stands self.new (was ++ text_of_end end) []) };

    /// The texts of whole items.
    fn whole(&self) -> &[u8]
        requires { (was : List ℕ) × HasText (Self.begins self.now) (Self.stands self.now) was }
        ensures { (was : List ℕ) → HasText (Self.begins self.now) (Self.stands self.now) was
            → result.now ≡ was };

    /// Removes the texts of whole items.
    fn drop_whole(&mut self)
        requires { (was : List ℕ) × HasText (Self.begins self.old) (Self.stands self.old) was }
        ensures begins { (was : List ℕ) (t : List Begun) → Self.begins self.old was t
            → Self.begins self.new [] t }
        ensures stands { (was : List ℕ) (t : List Begun) → Self.stands self.old was t
            → Self.stands self.new [] t };

    /// A message that it received has its text.
    ghost message_text: { (printer : Self) (was : List ℕ) (m : MessageTree) (now : List ℕ)
        → Self.ends printer was m now
        → (text : List ℕ) × (now ≡ was ++ text) × is_text (Msg m) text };
}
