//! What becomes of a reader whose client has left.

ghost use Rattle.std.specs.Prelude.{◌≡◌};
ghost use Rattle.llrp_session.specs.Calls.NextClient.{for_next_client};

use super::table::StateChange;
use super::{FACTORY_REPORT, Reader};
use crate::types::ReaderPhase;

impl Reader {
    /// Lets the client leave, whatever became of its connection: the reader is as new for the next
    /// one, but it has its ROSpecs, of which an Active one becomes Inactive, and its own ids go on.
    pub fn leave(&mut self)
        ensures { self.new ≡ for_next_client self.old }
    {
        self.change(StateChange::Rest);
        self.held.clear();
        self.phase = ReaderPhase::Waiting;
        self.started = 0;
        self.keepalive = None;
        self.report = FACTORY_REPORT;
        self.version = 1;
    }
}
