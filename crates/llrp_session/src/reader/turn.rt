//! What every step is made of: sending messages for which there is room, and changes that cannot
//! fail.

ghost use Rattle.std.specs.Prelude.{◌≡◌, ◌<◌, ◌≤◌, ◌+◌, ◌++◌, ◌∷◌, [], ◌⊎◌, vec_len, vec_capacity};
ghost use Rattle.llrp_tree.specs.declared.TheConstants.{MAX_LIMIT};
ghost use Rattle.llrp_session.specs.Table.{change as the_change};
ghost use Rattle.llrp_session.specs.ReaderMachine.{following, turn_begun, send_held as the_sending, effective_report as the_effective_report};
ghost use Rattle.llrp_session.specs.RoSpec.{RoSpec};
ghost use Rattle.llrp_session.specs.Private.Settings.{settings_of};
ghost use Rattle.llrp_session.specs.Calls.LawfulWords.{FitsLimit};
ghost use Rattle.llrp_session.specs.Private.ReaderParts.{changing};
ghost use Rattle.llrp_session.specs.Calls.ReaderSteps.{Stands};

use super::Reader;
use super::table::{self, Entry, StateChange};
use crate::build::reader as build;
use crate::parse::parsed::Settings;
use crate::types::{ReaderPhase, ReportSpec};
use llrp_tree::Message;
use std::alloc::Global;
use std::mem;

/// Appends a message; there is room for it.
pub(crate) fn push_within(out: &mut Vec<Message>, message: Message)
    requires { vec_len out.old < vec_capacity out.old }
    ensures items { out.new.items ≡ out.old.items ++ message ∷ [] }
    ensures len { vec_len out.new ≡ vec_len out.old + 1 }
    ensures capacity { vec_capacity out.old ≤ vec_capacity out.new }
{
    match out.push(message) {
        Ok(()) => {}
        Err(_) => unreachable!(),
    }
}

/// The reader's own message id after this one; after the greatest comes 1.
pub(crate) fn following_id(id: u32) -> u32
    ensures { result ≡ following id }
{
    if id == u32::MAX { 1 } else { id + 1 }
}

impl Reader {
    /// The state of the connection.
    pub(crate) fn phase(&self) -> ReaderPhase
        ensures { result ≡ self.now.phase }
    {
        self.phase
    }

    /// The allocator.
    pub(crate) fn alloc(&self) -> Global {
        self.alloc
    }

    /// The id of the next message that it starts itself.
    pub(crate) fn next_id(&self) -> u32
        ensures { result ≡ self.now.next_id }
    {
        self.next_id
    }

    /// The version of the last message that it took.
    pub(crate) fn version(&self) -> u8
        ensures version { result ≡ self.now.version }
        ensures known { (result ≡ 1) ⊎ (result ≡ 2) }
    {
        self.version
    }

    /// The ROSpecs and their states.
    pub(crate) fn table(&self) -> &[Entry]
        ensures entries { result.now ≡ self.now.table }
        ensures fits { FitsLimit MAX_LIMIT result.now }
    {
        self.table.as_slice()
    }

    /// The ROReportSpec in force for a ROSpec: its own or, if it has none, the default.
    pub(crate) fn effective_report(&self, settings: &Settings) -> ReportSpec
        ensures { (s : RoSpec) → settings.now ≡ settings_of s
            → result ≡ the_effective_report self.now s }
    {
        match settings.report {
            Some(own) => own,
            None => self.report,
        }
    }

    /// Notes the version of a message that it takes.
    pub(crate) fn take_version(&mut self, version: u8)
        requires { (version ≡ 1) ⊎ (version ≡ 2) }
        ensures { self.new ≡ record self.old { version = version } }
    {
        self.version = version;
    }

    /// Changes states of ROSpecs.
    pub(crate) fn change(&mut self, change: StateChange)
        ensures { self.new ≡ record self.old {
          table = the_change (changing change)
              self.old.table;
        } }
    {
        table::change(&mut self.table, change);
    }

    /// Sends a message that has the reader's own next id.
    pub(crate) fn tell(&mut self, message: Message, out: &mut Vec<Message>)
        requires { vec_len out.old < vec_capacity out.old }
        ensures reader { self.new ≡ record self.old { next_id = following self.old.next_id } }
        ensures items { out.new.items ≡ out.old.items ++ message ∷ [] }
        ensures len { vec_len out.new ≡ vec_len out.old + 1 }
        ensures capacity { vec_capacity out.old ≤ vec_capacity out.new }
    {
        push_within(out, message);
        self.next_id = following_id(self.next_id);
    }

    /// Sends all held reports in one message, even if there are none.
    pub(crate) fn send_held(&mut self, out: &mut Vec<Message>)
        requires { vec_len out.old < vec_capacity out.old }
        ensures stands { Stands out.old.items (the_sending (turn_begun self.old))
            out.new.items self.new }
        ensures len { vec_len out.new ≡ vec_len out.old + 1 }
        ensures capacity { vec_capacity out.old ≤ vec_capacity out.new }
    {
        let held = mem::replace(&mut self.held, Vec::new(self.alloc));
        let message = build::report(self.version, self.next_id, held);
        self.tell(message, out);
    }
}
