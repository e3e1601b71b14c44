//! How a client takes the messages of its reader.

ghost use Rattle.std.specs.Prelude.{◌≡◌, false, ◌++◌, ◌∷◌, [], map, Ok, Err, Some, OnOk, OnErr, IfOk, IfErr, MatchResult};
ghost use Rattle.llrp_session.specs.Contents.{Acknowledges};
ghost use Rattle.llrp_session.specs.ClientMessages.{client_message};
ghost use Rattle.llrp_session.specs.Reading.{heard_of, rospecs_in};
ghost use Rattle.llrp_session.specs.Private.ReadWords.{change_by, notification_by};
ghost use Rattle.llrp_session.specs.ClientMachine as machine;
ghost use Rattle.llrp_session.specs.Calls.ClientSteps.{IsTakeFault, sent_by};

use super::compare_tables::{compared, rospecs_of};
use super::{Client, TakeFault, TakeRefusal, view};
use crate::build;
use crate::parse::for_client;
use crate::parse::parsed::{Heard, Notification, RoSpecChange};
use crate::types::{ClientPhase, Operation, Pending, RoState, Taken, Viewed};
use llrp_tree::Message;
use std::alloc::{AllocError, Global};

impl Client {
    /// Takes the first message, which says whether the reader accepts the connection.
    pub(super) fn take_first(&mut self, message: Message) -> Result<Taken, TakeRefusal>
        ensures step { IfOk result (λ taken. machine.take_fresh self.old (heard_of message)
            ≡ machine.takes taken self.new) }
        ensures refused { IfErr result (λ e. IsTakeFault (machine.take_fresh self.old
            (heard_of message)) e.fault) }
        ensures handed_back { IfErr result (λ e. e.message ≡ message) }
        ensures unchanged { OnErr result (self.new ≡ self.old) }
    {
        match for_client::heard_of(&message) {
            Heard::Notified(notification) => handed_back(
                self.attempted(notification.attempt),
                message,
            ),
            _ => handed_back(Err(TakeFault::Unexpected), message),
        }
    }

    /// Takes the status of a ConnectionAttemptEvent: 0 accepts the connection, any other refuses
    /// it.
    fn attempted(&mut self, attempt: Option<u16>) -> Result<Taken, TakeFault>
        ensures step { IfOk result (λ taken. machine.attempted self.old attempt
            ≡ machine.takes taken self.new) }
        ensures refused { IfErr result (λ fault. IsTakeFault
            (machine.attempted self.old attempt) fault) }
        ensures unchanged { OnErr result (self.new ≡ self.old) }
    {
        match attempt {
            None => Err(TakeFault::Unexpected),
            Some(0) => {
                self.phase = ClientPhase::Ready;
                Ok(Taken::Connected)
            }
            Some(status) => {
                self.phase = ClientPhase::Closed;
                Ok(Taken::Refused(status))
            }
        }
    }

    /// Takes a message after the reader accepted the connection.
    pub(super) fn take_next(
        &mut self,
        message: Message,
        out: &mut Vec<Message>,
    ) -> Result<Taken, TakeRefusal>
        ensures step { IfOk result (λ taken. let step = machine.take_ready self.old message.id
            (heard_of message) in
            step ≡ Ok (record { taken = taken; sent = sent_by step; client = self.new })) }
        ensures sent { OnOk result (out.new.items ≡ out.old.items
            ++ map client_message (sent_by (machine.take_ready self.old message.id
            (heard_of message)))) }
        ensures refused { IfErr result (λ e. IsTakeFault (machine.take_ready self.old message.id
            (heard_of message)) e.fault) }
        ensures handed_back { IfErr result (λ e. e.message ≡ message) }
        ensures unchanged { OnErr result (self.new ≡ self.old) }
        ensures unsent { OnErr result (out.new.items ≡ out.old.items) }
    {
        let id = message.id();
        match for_client::heard_of(&message) {
            Heard::Response(operation, status) => self.answered(operation, status, message),
            Heard::Error(status) => handed_back(self.failed(id, status), message),
            Heard::Report => Ok(Taken::Tags(message.into_children())),
            Heard::Keepalive => handed_back(acknowledged(self.alloc, id, out), message),
            Heard::Notified(notification) => Ok(self.notified(notification)),
            Heard::Other => handed_back(Err(TakeFault::Unexpected), message),
        }
    }

    /// Takes a response, which has to answer the pending request.
    fn answered(
        &mut self,
        operation: Operation,
        status: u16,
        message: Message,
    ) -> Result<Taken, TakeRefusal>
        ensures step { IfOk result (λ taken. machine.answered self.old.pending self.old message.id
            operation status (rospecs_in message.children) ≡ machine.takes taken self.new) }
        ensures refused { IfErr result (λ e. IsTakeFault (machine.answered self.old.pending self.old
            message.id operation status (rospecs_in message.children)) e.fault) }
        ensures handed_back { IfErr result (λ e. e.message ≡ message) }
        ensures unchanged { OnErr result (self.new ≡ self.old) }
    {
        match self.pending {
            Some(pending) if is_response_to(pending, message.id(), operation) => {
                self.take_response(operation, pending, status, message)
            }
            _ => handed_back(Err(TakeFault::Unexpected), message),
        }
    }

    /// Takes the response to the pending request. That to CLOSE_CONNECTION closes the connection,
    /// whatever its status is.
    fn take_response(
        &mut self,
        operation: Operation,
        pending: Pending,
        status: u16,
        message: Message,
    ) -> Result<Taken, TakeRefusal>
        ensures step { IfOk result (λ taken. machine.take_response operation self.old pending status
            (rospecs_in message.children) ≡ machine.takes taken self.new) }
        ensures refused { IfErr result (λ e. IsTakeFault (machine.take_response operation self.old
            pending status (rospecs_in message.children)) e.fault) }
        ensures handed_back { IfErr result (λ e. e.message ≡ message) }
        ensures unchanged { OnErr result (self.new ≡ self.old) }
    {
        match operation {
            Operation::Closing => {
                self.pending = None;
                self.phase = ClientPhase::Closed;
                Ok(Taken::Closed)
            }
            Operation::Listing => Ok(self.listed(status, message)),
            _ => handed_back(self.replied(pending, status), message),
        }
    }

    /// Takes the response to GET_ROSPECS. If its status is 0, its ROSpecs are compared with the
    /// view; the view stays as it is.
    fn listed(&mut self, status: u16, message: Message) -> Taken
        ensures { machine.listed self.old status (rospecs_in message.children)
            ≡ machine.takes result self.new }
    {
        self.pending = None;
        if status == 0 {
            compared(rospecs_of(message), self.view.as_slice())
        } else {
            Taken::Reply(status)
        }
    }

    /// Takes the status that answers the pending request; 0 grants it.
    fn replied(&mut self, pending: Pending, status: u16) -> Result<Taken, TakeFault>
        ensures step { IfOk result (λ taken. machine.replied self.old pending status
            ≡ machine.takes taken self.new) }
        ensures memory { IfErr result (λ fault. fault ≡ TakeFault.Memory) }
        ensures unchanged { OnErr result (self.new ≡ self.old) }
    {
        if status != 0 {
            self.pending = None;
            return Ok(Taken::Reply(status));
        }
        match grant(&mut self.view, pending) {
            Ok(()) => {
                self.pending = None;
                Ok(Taken::Reply(status))
            }
            Err(_) => Err(TakeFault::Memory),
        }
    }

    /// Takes an ERROR_MESSAGE; with the pending id it means that the request failed. The view stays
    /// as it is.
    fn failed(&mut self, id: u32, status: u16) -> Result<Taken, TakeFault>
        ensures step { IfOk result (λ taken. machine.failed self.old.pending self.old id status
            ≡ machine.takes taken self.new) }
        ensures refused { IfErr result (λ fault. IsTakeFault
            (machine.failed self.old.pending self.old id status) fault) }
        ensures unchanged { OnErr result (self.new ≡ self.old) }
    {
        match self.pending {
            Some(pending) if pending.id == id => {
                self.pending = None;
                Ok(Taken::Reply(status))
            }
            _ => Err(TakeFault::Unexpected),
        }
    }

    /// Takes READER_EVENT_NOTIFICATION.
    fn notified(&mut self, notification: Notification) -> Taken
        ensures { machine.notified self.old notification.closes (change_by notification.rospec)
            ≡ machine.takes result self.new }
    {
        if notification.closes {
            self.phase = ClientPhase::Closed;
            return Taken::Closed;
        }
        match notification.rospec {
            None => Taken::Note,
            Some(change) => self.moved(change),
        }
    }

    /// Takes a ROSpecEvent; one of a ROSpec that is not in the view is only noted.
    fn moved(&mut self, change: RoSpecChange) -> Taken
        ensures { machine.notified self.old false (change_by (Some change))
            ≡ machine.takes result self.new }
    {
        let to = state_after(change.event);
        let before = view::state(self.view.as_slice(), change.id);
        view::set(&mut self.view, change.id, to);
        match before {
            Some(_) => Taken::Event(change.id, to),
            None => Taken::Note,
        }
    }
}

/// What a message means, or a refusal that hands it back.
fn handed_back(taken: Result<Taken, TakeFault>, message: Message) -> Result<Taken, TakeRefusal>
    ensures { MatchResult taken (λ taken. result ≡ Ok taken) (λ fault. result
        ≡ Err (record { fault = fault; message = message })) }
{
    match taken {
        Ok(taken) => Ok(taken),
        Err(fault) => Err(TakeRefusal { fault, message }),
    }
}

/// Acknowledges KEEPALIVE.
fn acknowledged(alloc: Global, id: u32, out: &mut Vec<Message>) -> Result<Taken, TakeFault>
    ensures kept { IfOk result (λ taken. taken ≡ Taken.Kept) }
    ensures sent { OnOk result (out.new.items ≡ out.old.items
        ++ client_message (record { id = id; word = Acknowledges }) ∷ []) }
    ensures memory { IfErr result (λ fault. fault ≡ TakeFault.Memory) }
    ensures unsent { OnErr result (out.new.items ≡ out.old.items) }
{
    match out.push(build::client::acknowledgement(alloc, id)) {
        Ok(()) => Ok(Taken::Kept),
        Err(_) => Err(TakeFault::Memory),
    }
}

/// Whether a response belongs to this request: it has its id and its kind.
fn is_response_to(pending: Pending, id: u32, operation: Operation) -> bool
    ensures { result ≡ machine.is_response_to pending id operation }
{
    pending.id == id && pending.operation == operation
}

/// Changes the view as the granted request does. If memory runs out, nothing changes.
fn grant(view: &mut Vec<Viewed>, pending: Pending) -> Result<(), AllocError>
    ensures granted { OnOk result (view.new.items
        ≡ machine.granted pending.operation pending.rospec view.old.items) }
    ensures unchanged { OnErr result (view.new.items ≡ view.old.items) }
{
    match pending.operation {
        Operation::Adding => view::enter(view, pending.rospec),
        Operation::Deleting => {
            view::remove(view, pending.rospec);
            Ok(())
        }
        Operation::Enabling => {
            view::enable(view, pending.rospec);
            Ok(())
        }
        Operation::Disabling => {
            view::disable(view, pending.rospec);
            Ok(())
        }
        Operation::Starting
        | Operation::Stopping
        | Operation::Configuring
        | Operation::Closing
        | Operation::Listing => Ok(()),
    }
}

/// The state after a ROSpecEvent: type 0 is a start, any other an end.
fn state_after(event: u8) -> RoState
    ensures { result ≡ machine.state_after event }
{
    if event == 0 {
        RoState::Active
    } else {
        RoState::Inactive
    }
}
