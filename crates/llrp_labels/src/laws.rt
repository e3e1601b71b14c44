//! Laws of this crate's definitions.

ghost use Rattle.std.specs.Prelude.{◌≡◌, ◌⊎◌, ◌++◌, ◌∷◌, false, true, List, ℕ};
ghost use Rattle.llrp_labels.specs.declared.labels.Labels.{Labels};
ghost use Rattle.llrp_labels.specs.LabelledLines.{IsLabelled, IsListed, ReadsLine};

/// A line has one line with labels.
pub fn one_labelled_line()
    ensures { (labels : Labels) (line s t : List ℕ) → IsLabelled labels line s
        → IsLabelled labels line t → s ≡ t }
{}

/// With keys alone a line stays, and a tab (9) and a key may follow it: what stands before the tab is the line.
pub fn keys_follow_lines()
    ensures { (line labelled : List ℕ) → IsLabelled (record { schemes = false; keys = true }) line labelled
        → (labelled ≡ line) ⊎ ((key : List ℕ) × (labelled ≡ line ++ 9 ∷ key)) }
{}

/// A line of a listing that is labelled is read back as itself.
pub fn labels_come_off()
    ensures { (labels : Labels) (line labelled : List ℕ) → IsListed line
        → IsLabelled labels line labelled → ReadsLine labels labelled line }
{}
