//! What a reader does when it sees a tag.

ghost use Rattle.std.specs.Prelude.{◌≡◌, ◌<◌, ◌≤◌, ◌+◌, ◌⊎◌, OnOk, OnErr, length, vec_len, vec_capacity};
ghost use Rattle.std.specs.Option.{option_copied};
ghost use Rattle.llrp_session.specs.Calls.LawfulWords.{IsReport};
ghost use Rattle.llrp_session.specs.Table.{active as the_active};
ghost use Rattle.llrp_session.specs.Contents.{Overflowed};
ghost use Rattle.llrp_session.specs.ReaderMachine.{turn_begun, tell as the_tell, see, counting as the_counting, is_report_due as the_test, most_held, is_full as the_is_full, send_if_enough as the_sending, hold as the_hold};
ghost use Rattle.llrp_session.specs.Calls.ReaderSteps.{Stands};

use super::{Reader, table};
use crate::build::reader as build;
use crate::build::tag_report::tag_report;
use crate::parse::stored_rospec::RoSpec;
use crate::types::{ReportSpec, Sighting};
use llrp_tree::{Message, Node};
use std::alloc::AllocError;

/// The greatest number of reports that are held.
const MOST_HELD: usize = 64;

/// Whether this many held reports are enough to be sent.
fn is_enough(report: &ReportSpec, count: usize) -> bool
    ensures { result ≡ the_test report.now count }
{
    (report.trigger == 1 || report.trigger == 2) && report.n > 0 && report.n as usize <= count
}

impl Reader {
    /// The active ROSpec, if it lists the antenna of the sighting or lists 0.
    fn counting(&self, sighting: &Sighting) -> Option<&RoSpec>
        ensures { option_copied result ≡ the_counting sighting.now (the_active self.now.table) }
    {
        match table::active(self.table()) {
            Some(rospec) if rospec.lists_antenna(sighting.antenna) => Some(rospec),
            _ => None,
        }
    }

    /// Whether no further report can be held.
    fn is_full(&self) -> bool
        ensures { result ≡ the_is_full self.now }
    {
        self.held.len() >= MOST_HELD
    }

    /// Drops a sighting for which there is no room, and sends an overflow event.
    fn overflow(&mut self, now: u64, out: &mut Vec<Message>) -> Result<(), AllocError>
        requires { vec_len out.old < vec_capacity out.old }
        ensures ok { OnOk result (Stands out.old.items (the_tell (Overflowed now) (turn_begun self.old))
            out.new.items self.new) }
        ensures reader_unchanged { OnErr result (self.new ≡ self.old) }
        ensures out_unchanged { OnErr result (out.new.items ≡ out.old.items) }
    {
        let event = build::overflowed(self.alloc(), self.version(), self.next_id(), now)?;
        self.tell(event, out);
        Ok(())
    }

    /// Holds one more report.
    fn hold(&mut self, tag: Node) -> Result<(), AllocError>
        requires report { IsReport tag }
        requires room { length self.old.held < most_held }
        ensures ok { OnOk result (self.new ≡ (the_hold tag (turn_begun self.old)).reader) }
        ensures err { OnErr result (self.new ≡ self.old) }
    {
        self.held.push(tag)?;
        Ok(())
    }

    /// Sends the held reports if they are enough.
    fn send_if_enough(&mut self, report: &ReportSpec, out: &mut Vec<Message>)
        requires { vec_len out.old < vec_capacity out.old }
        ensures { Stands out.old.items (the_sending report.now (turn_begun self.old))
            out.new.items self.new }
    {
        if is_enough(report, self.held.len()) {
            self.send_held(out);
        }
    }

    /// Takes the sighting of a tag.
    #[tactic(auto, unfolding(crate::specs::ReaderMachine::see))]
    pub(crate) fn seen(
        &mut self,
        now: u64,
        sighting: &Sighting,
        out: &mut Vec<Message>,
    ) -> Result<(), AllocError>
        requires { vec_len out.old + 3 ≤ vec_capacity out.old }
        ensures ok { OnOk result (Stands out.old.items (see now sighting.now
            (the_counting sighting.now (the_active self.old.table)) (turn_begun self.old))
            out.new.items self.new) }
        ensures reader_unchanged { OnErr result (self.new ≡ self.old) }
        ensures out_unchanged { OnErr result (out.new.items ≡ out.old.items) }
    {
        let Some(rospec) = self.counting(sighting) else {
            return Ok(());
        };
        if self.is_full() {
            return self.overflow(now, out);
        }
        let report = self.effective_report(rospec.settings());
        let tag = tag_report(self.alloc(), now, rospec, &report.selector, sighting)?;
        self.hold(tag)?;
        self.send_if_enough(&report, out);
        Ok(())
    }
}
