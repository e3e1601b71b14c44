//! With one mistake in the reader or in the client, some list of events leads to two ends that do not agree.

ghost use Rattle.std.specs.Prelude.{◌≡◌, List};
ghost use Rattle.llrp_session.specs.Calls.World.{World, run};
ghost use Rattle.llrp_session.specs.World.{WorldEvent};
ghost use Rattle.llrp_session.specs.Calls.Agreement.{OneActive, ReportsArrive, ViewIsTable};
ghost use Rattle.llrp_counterexamples.specs.Calls.WrongMachines.{AfterAllBy, hands_out_first, moves_on_failure, right, run_by, starts_beside, tells_end_last};

/// With the machines without a mistake it is the world of `ends_agree_whole`.
pub fn same_world()
    ensures { (events : List WorldEvent) (w : World) → run_by right events w ≡ run events w }
{}

/// Where the client moves its view on a status other than 0, its view is not always the reader's table.
pub fn view_moves_on_failure()
    ensures { AfterAllBy moves_on_failure ViewIsTable → ⊥ }
{}

/// Where the client delivers the first tag of a report alone, not all reports arrive.
pub fn hands_out_first_tag_only()
    ensures { AfterAllBy hands_out_first ReportsArrive → ⊥ }
{}

/// Where the reader reports the end of a ROSpec after the response, the client's view is not always the reader's table.
pub fn end_event_after_response()
    ensures { AfterAllBy tells_end_last ViewIsTable → ⊥ }
{}

/// Where the reader starts a ROSpec beside an active one, more than one is active.
pub fn starts_second()
    ensures { AfterAllBy starts_beside OneActive → ⊥ }
{}
