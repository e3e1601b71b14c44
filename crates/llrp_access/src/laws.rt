//! Laws of operations.

ghost use Rattle.llrp_access.specs.Calls.Laws.{GoesOn, KeepsLengths, OneResultEach};

/// Each operation has one result, in order, under its own OpSpecID.
pub fn one_result_each()
    ensures each { OneResultEach }
    ensures goes_on { GoesOn }
{}

/// No operation changes how many words a bank has.
pub fn banks_keep_their_lengths()
    ensures { KeepsLengths }
{}
