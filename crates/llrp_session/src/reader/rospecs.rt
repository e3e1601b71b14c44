//! How a reader serves requests about ROSpecs.

ghost use Rattle.std.specs.Prelude.{◌≡◌, ◌<◌, ◌≤◌, ◌+◌, ◌⊎◌, ◌++◌, ◌∷◌, [], ◌&&◌, OnOk, OnErr, IfOk, IfErr, is_none, vec_len, vec_capacity};
ghost use Rattle.std.specs.Option.{option_map};
ghost use Rattle.llrp_tree.specs.Tree.{Tree};
ghost use Rattle.llrp_session.specs.RoSpec.{RoSpec as TheRoSpec, rospec_of};
ghost use Rattle.llrp_session.specs.Table.{is_inactive, is_active, without as the_without, state_of as the_state_of, active as the_active, octets_of};
ghost use Rattle.llrp_session.specs.Contents as words;
ghost use Rattle.llrp_session.specs.Contents.{Started};
ghost use Rattle.llrp_session.specs.Reading.{request_of as the_request};
ghost use Rattle.llrp_session.specs.Private.Settings.{settings_of};
ghost use Rattle.llrp_session.specs.ReaderMessages.{reader_message};
ghost use Rattle.llrp_session.specs.ReaderMachine as machine;
ghost use Rattle.llrp_session.specs.ReaderMachine.{turn_begun};
ghost use Rattle.llrp_session.specs.Private.ReaderParts.{started_by_enabling, taken};
ghost use Rattle.llrp_session.specs.Calls.ReaderSteps.{Stands};

use super::Reader;
use super::requests::Head;
use super::settings::is_bad_report;
use super::status::{FIELD_ERROR, PARAMETER_ERROR, SUCCESS};
use super::table::{self, Entry, StateChange};
use super::turn::push_within;
use crate::build::reader as build;
use crate::parse::parsed::Settings;
use crate::parse::stored_rospec::RoSpec;
use crate::types::{Operation, RoState};
use llrp_tree::Message;
use std::alloc::AllocError;

/// Whether a field of a new ROSpec has a value that this reader does not take.
fn has_bad_field(table: &[Entry], settings: &Settings) -> bool
    ensures { (s : TheRoSpec) → settings.now ≡ settings_of s
        → result ≡ machine.has_bad_field table.now s }
{
    settings.id == 0
        || table::state_of(table, settings.id).is_some()
        || settings.current_state != 0
        || settings.start_trigger == 2
        || settings.start_trigger == 3
        || settings.stop_trigger == 2
        || settings.has_ai_stop
        || is_bad_report(settings.report)
}

/// Whether the ROSpecs of the table and a new one are too long for one message.
fn is_too_long(limit: u32, table: &[Entry], octets: u32) -> bool
    requires least { 18 ≤ limit }
    requires within { octets_of table.now ≤ limit }
    ensures { (s : TheRoSpec) → octets ≡ s.octets → result ≡ machine.is_too_long limit table.now s }
{
    let together = table::octets_of(table) as u64 + octets as u64;
    together > (limit - 18) as u64
}

impl Reader {
    /// The status that answers an addition.
    fn add_status(&self, settings: &Settings) -> u16
        ensures { (s : TheRoSpec) → settings.now ≡ settings_of s
            → result ≡ machine.add_status self.now.limit self.now.table s }
    {
        if has_bad_field(self.table.as_slice(), settings) {
            FIELD_ERROR
        } else if is_too_long(self.limit, self.table.as_slice(), settings.octets) {
            PARAMETER_ERROR
        } else {
            SUCCESS
        }
    }

    /// Serves ADD_ROSPEC: adds the ROSpec, Disabled. The message is handed back if memory runs out.
    pub(crate) fn add(
        &mut self,
        head: Head,
        message: Message,
        settings: &Settings,
        out: &mut Vec<Message>,
    ) -> Result<(), Message>
        requires version { (head.version ≡ 1) ⊎ (head.version ≡ 2) }
        requires room { vec_len out.old + 3 ≤ vec_capacity out.old }
        requires adds { (rospec : Tree) × (the_request message ≡ words.AddRoSpec rospec)
            × (settings.now ≡ settings_of (rospec_of rospec)) }
        ensures ok { (rospec : Tree) → the_request message ≡ words.AddRoSpec rospec
            → OnOk result (Stands out.old.items (machine.add_rospec head.version head.id
            (rospec_of rospec) (taken head.version self.old)) out.new.items self.new) }
        ensures handed_back { IfErr result (λ m. m ≡ message) }
        ensures reader_unchanged { OnErr result (self.new ≡ self.old) }
        ensures out_unchanged { OnErr result (out.new.items ≡ out.old.items) }
    {
        let status = self.add_status(settings);
        if status != SUCCESS {
            return match self.respond(head, Operation::Adding, status, out) {
                Ok(()) => Ok(()),
                Err(_) => Err(message),
            };
        }
        let Ok(response) = build::response(
            self.alloc(),
            head.version,
            head.id,
            Operation::Adding,
            SUCCESS,
        ) else {
            return Err(message);
        };
        if self.table.reserve(1).is_err() {
            return Err(message);
        }
        table::enter(&mut self.table, RoSpec::taken(message));
        self.take_version(head.version);
        push_within(out, response);
        Ok(())
    }

    /// Removes the ROSpecs that an id means.
    fn remove(&mut self, n: u32)
        ensures { self.new ≡ record self.old { table = the_without n self.old.table } }
    {
        table::remove(&mut self.table, n);
    }

    /// Serves DELETE_ROSPEC: removes the ROSpecs that its id means; if the active one is among
    /// them, it ends first.
    pub(crate) fn delete(
        &mut self,
        head: Head,
        n: u32,
        out: &mut Vec<Message>,
    ) -> Result<(), AllocError>
        requires version { (head.version ≡ 1) ⊎ (head.version ≡ 2) }
        requires room { vec_len out.old + 3 ≤ vec_capacity out.old }
        ensures ok { OnOk result (Stands out.old.items (machine.delete_rospec head.moment
            head.version head.id n (taken head.version self.old)) out.new.items self.new) }
        ensures reader_unchanged { OnErr result (self.new ≡ self.old) }
        ensures out_unchanged { OnErr result (out.new.items ≡ out.old.items) }
    {
        if !table::is_known(self.table(), n) {
            return self.respond(head, Operation::Deleting, FIELD_ERROR, out);
        }
        let ending = self.ending(head.moment, head.version, self.active_named(n))?;
        self.end_and_respond(head, Operation::Deleting, ending, out)?;
        self.remove(n);
        Ok(())
    }

    /// Serves DISABLE_ROSPEC: the ROSpecs that its id means become Disabled; if the active one is
    /// among them, it ends first.
    pub(crate) fn disable(
        &mut self,
        head: Head,
        n: u32,
        out: &mut Vec<Message>,
    ) -> Result<(), AllocError>
        requires version { (head.version ≡ 1) ⊎ (head.version ≡ 2) }
        requires room { vec_len out.old + 3 ≤ vec_capacity out.old }
        ensures ok { OnOk result (Stands out.old.items (machine.disable_rospec head.moment
            head.version head.id n (taken head.version self.old)) out.new.items self.new) }
        ensures reader_unchanged { OnErr result (self.new ≡ self.old) }
        ensures out_unchanged { OnErr result (out.new.items ≡ out.old.items) }
    {
        if !table::is_known(self.table(), n) {
            return self.respond(head, Operation::Disabling, FIELD_ERROR, out);
        }
        let ending = self.ending(head.moment, head.version, self.active_named(n))?;
        self.end_and_respond(head, Operation::Disabling, ending, out)?;
        self.change(StateChange::Disable(n));
        Ok(())
    }

    /// Starts a ROSpec, which is Active from now on, and sends its event.
    fn start(&mut self, now: u64, rospec: u32, event: Message, out: &mut Vec<Message>)
        requires { vec_len out.old < vec_capacity out.old }
        ensures reader { self.new ≡ (machine.start now rospec (turn_begun self.old)).reader }
        ensures items { out.new.items ≡ out.old.items ++ event ∷ [] }
    {
        self.change(StateChange::Set(rospec, RoState::Active));
        self.started = now;
        self.tell(event, out);
    }

    /// The event of a start, in a message of this version.
    fn start_event(&self, head: Head, rospec: u32) -> Result<Message, AllocError>
        requires { (head.version ≡ 1) ⊎ (head.version ≡ 2) }
        ensures { IfOk result (λ m. m ≡ reader_message (record
            { version = head.version; id = self.now.next_id; word = Started head.moment rospec })) }
    {
        build::started(
            self.alloc(),
            head.version,
            self.next_id(),
            head.moment,
            rospec,
        )
    }

    /// The ROSpec that starts when these are enabled, if there is one; none starts while one is
    /// active.
    fn started_by_enabling(&self, n: u32) -> Option<u32>
        ensures { result ≡ option_map (λ s. s.id) (started_by_enabling n self.now.table) }
    {
        match table::active(self.table()) {
            Some(_) => None,
            None => table::first_immediate(self.table(), n),
        }
    }

    /// Serves ENABLE_ROSPEC: of the ROSpecs that its id means, the Disabled ones become Inactive,
    /// and after the response one may start.
    pub(crate) fn enable(
        &mut self,
        head: Head,
        n: u32,
        out: &mut Vec<Message>,
    ) -> Result<(), AllocError>
        requires version { (head.version ≡ 1) ⊎ (head.version ≡ 2) }
        requires room { vec_len out.old + 3 ≤ vec_capacity out.old }
        ensures ok { OnOk result (Stands out.old.items (machine.enable_rospec head.moment
            head.version head.id n (taken head.version self.old)) out.new.items self.new) }
        ensures reader_unchanged { OnErr result (self.new ≡ self.old) }
        ensures out_unchanged { OnErr result (out.new.items ≡ out.old.items) }
    {
        if !table::is_known(self.table(), n) {
            return self.respond(head, Operation::Enabling, FIELD_ERROR, out);
        }
        match self.started_by_enabling(n) {
            None => {
                self.respond(head, Operation::Enabling, SUCCESS, out)?;
                self.change(StateChange::Enable(n));
            }
            Some(rospec) => {
                let event = self.start_event(head, rospec)?;
                self.respond(head, Operation::Enabling, SUCCESS, out)?;
                self.change(StateChange::Enable(n));
                self.start(head.moment, rospec, event, out);
            }
        }
        Ok(())
    }

    /// Whether a ROSpec may start: it is Inactive and no other is active.
    fn may_start(&self, id: u32) -> bool
        ensures { result ≡ machine.has_state is_inactive (the_state_of id self.now.table) && is_none
            (the_active self.now.table) }
    {
        table::state_of(self.table(), id) == Some(RoState::Inactive)
            && table::active(self.table()).is_none()
    }

    /// Serves START_ROSPEC: an Inactive ROSpec starts after the response, if no other is active.
    pub(crate) fn start_rospec(
        &mut self,
        head: Head,
        n: u32,
        out: &mut Vec<Message>,
    ) -> Result<(), AllocError>
        requires version { (head.version ≡ 1) ⊎ (head.version ≡ 2) }
        requires room { vec_len out.old + 3 ≤ vec_capacity out.old }
        ensures ok { OnOk result (Stands out.old.items (machine.start_rospec head.moment
            head.version head.id n (taken head.version self.old)) out.new.items self.new) }
        ensures reader_unchanged { OnErr result (self.new ≡ self.old) }
        ensures out_unchanged { OnErr result (out.new.items ≡ out.old.items) }
    {
        if !self.may_start(n) {
            return self.respond(head, Operation::Starting, FIELD_ERROR, out);
        }
        let event = self.start_event(head, n)?;
        self.respond(head, Operation::Starting, SUCCESS, out)?;
        self.start(head.moment, n, event, out);
        Ok(())
    }

    /// Whether a ROSpec is Active.
    fn is_active(&self, id: u32) -> bool
        ensures { result ≡ machine.has_state is_active (the_state_of id self.now.table) }
    {
        table::state_of(self.table(), id) == Some(RoState::Active)
    }

    /// Serves STOP_ROSPEC: an Active ROSpec ends before the response.
    pub(crate) fn stop(
        &mut self,
        head: Head,
        n: u32,
        out: &mut Vec<Message>,
    ) -> Result<(), AllocError>
        requires version { (head.version ≡ 1) ⊎ (head.version ≡ 2) }
        requires room { vec_len out.old + 3 ≤ vec_capacity out.old }
        ensures ok { OnOk result (Stands out.old.items (machine.stop_rospec head.moment head.version
            head.id n (taken head.version self.old)) out.new.items self.new) }
        ensures reader_unchanged { OnErr result (self.new ≡ self.old) }
        ensures out_unchanged { OnErr result (out.new.items ≡ out.old.items) }
    {
        if !self.is_active(n) {
            return self.respond(head, Operation::Stopping, FIELD_ERROR, out);
        }
        let ending = self.ending(head.moment, head.version, self.active_of(n))?;
        self.end_and_respond(head, Operation::Stopping, ending, out)
    }
}
