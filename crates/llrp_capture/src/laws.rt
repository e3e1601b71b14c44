//! Laws of pieces and of places.

ghost use Rattle.llrp_capture.specs.Calls.Laws.{HasOnePlace, HasOneRun};

/// What pieces have from a place on without a gap is determined.
pub fn has_one_run()
    ensures { HasOneRun }
{}

/// A sequence number means one place.
pub fn has_one_place()
    ensures { HasOnePlace }
{}
