//! Laws of a tag's memory.

ghost use Rattle.tag_memory.specs.Calls.Laws.{KeepsLengths, KeepsOthers, ReadsBack};

/// What is written to the user's bank is read back.
pub fn reads_back()
    ensures { ReadsBack }
{}

/// Writing changes one bank, and the length of none.
pub fn writes_one_bank()
    ensures others { KeepsOthers }
    ensures lengths { KeepsLengths }
{}
