//! Laws of waits.

ghost use Rattle.llrp_waits.specs.Calls.Repeats.{OneAMinute};
ghost use Rattle.llrp_waits.specs.Calls.WaitLaws.{EachWaitBounds, NoAnswerInTime, NoCourseWaitsLonger, OverIsOver, WholeInTime, WritesInTime};

/// A read may last no longer than is left of each wait that is open, and not at all once one is over.
pub fn each_wait_bounds()
    ensures bounds { EachWaitBounds }
    ensures over { OverIsOver }
{}

/// Whatever comes meanwhile, no course in which reads keep to their time goes on after a wait that stays
/// open is over.
pub fn no_course_waits_longer()
    ensures { NoCourseWaitsLonger }
{}

/// Without an answer to a request no course goes on after its wait, whatever else comes.
pub fn no_answer_in_time()
    ensures { NoAnswerInTime }
{}

/// No course goes on after the wait as a whole.
pub fn whole_in_time()
    ensures { WholeInTime }
{}

/// A write may last no longer than is left of its wait.
pub fn writes_in_time()
    ensures { WritesInTime }
{}

/// However many notes of one kind come, a minute passes between two that are written.
pub fn one_a_minute()
    ensures { OneAMinute }
{}
