//! The client: the requests that it sends, and the messages that it takes from its reader.

ghost use Rattle.std.specs.Prelude.{◌≡◌, ◌≤◌, ◌++◌, ◌∷◌, [], map, Ok, OnOk, OnErr, IfOk, IfErr};
ghost use Rattle.llrp_session.specs.Contents.{Asks};
ghost use Rattle.llrp_session.specs.Table.{viewed_state};
ghost use Rattle.llrp_session.specs.Calls.LawfulWords.{AddsRoSpec};
ghost use Rattle.llrp_session.specs.ClientMessages.{client_message};
ghost use Rattle.llrp_session.specs.Reading.{heard_of};
ghost use Rattle.llrp_session.specs.ClientMachine as machine;
ghost use Rattle.llrp_session.specs.Calls.ClientSteps.{IsCmdFault, IsTakeFault, sent_by};

mod commands;
mod compare_tables;
mod refusal;
mod take;
mod view;

use crate::types::{ClientPhase, Command, Pending, RoState, Taken, Viewed};
use llrp_tree::{MAX_LIMIT, Message};
pub use refusal::{CmdFault, CmdRefusal, TakeFault, TakeRefusal};
use std::alloc::Global;
use std::marker::Model;

/// A client of one reader. Contracts see it as the client that the definitions describe.
#[derive(Drop)]
pub struct Client {
    alloc: Global,
    /// The greatest length of a message, in octets.
    limit: u32,
    phase: ClientPhase,
    pending: Option<Pending>,
    /// The ROSpecs that it added, ordered by id.
    view: Vec<Viewed>,
    /// The next message id; above 4,294,967,295 once all ids are used up.
    next_id: u64,
}

impl Model for Client {
    ghost use Rattle.std.specs.Prelude.{◌≤◌};
    ghost use Rattle.llrp_tree.specs.declared.TheConstants.{MAX_LIMIT};
    ghost use Rattle.llrp_session.specs.ClientMachine.{Client as ClientValue};

    ghost Value = { ClientValue };

    ghost view = { λ a. record {
      limit = a.limit;
      phase = a.phase;
      pending = a.pending;
      view = a.view.items;
      next_id = a.next_id;
    } };

    ghost invariant = { λ a. a.limit ≤ MAX_LIMIT };
}

impl Client {
    /// A new client, which waits for its reader to accept the connection. It takes no memory. No
    /// message that it sends is longer than `limit` octets, from 4,096 to `MAX_LIMIT`, and its
    /// requests have the ids `first_id`, at least 1, and the following ones.
    pub fn new(alloc: Global, limit: u32, first_id: u32) -> Client
        requires least { 4096 ≤ limit }
        requires greatest { limit ≤ MAX_LIMIT }
        requires first { 1 ≤ first_id }
        ensures { result ≡ machine.new_client limit first_id }
    {
        Client {
            alloc,
            limit,
            phase: ClientPhase::Fresh,
            pending: None,
            view: Vec::new(alloc),
            next_id: first_id as u64,
        }
    }

    /// Appends the request of a command to `out`; the parameter that `Add` adds has to be a ROSpec.
    /// A refused command is handed back, and nothing changes (LLRP 1.1, sections 11, 13 and 14).
    pub fn command(&mut self, command: Command, out: &mut Vec<Message>) -> Result<(), CmdRefusal>
        requires { AddsRoSpec command }

        // The client's step: the message with the next id is sent.
        ensures step { OnOk result (machine.command self.old command
            ≡ Ok (record {
              message = record { id = self.old.next_id; word = Asks command };
              client = self.new;
            })) }
        ensures sent { OnOk result (out.new.items ≡ out.old.items
            ++ client_message (record { id = self.old.next_id; word = Asks command }) ∷ []) }

        // The client's refusal, or `Memory`; nothing changes.
        ensures refused { IfErr result (λ e. IsCmdFault (machine.command self.old
            command) e.fault) }
        ensures handed_back { IfErr result (λ e. e.command ≡ command) }
        ensures unchanged { OnErr result (self.new ≡ self.old) }
        ensures unsent { OnErr result (out.new.items ≡ out.old.items) }
    {
        match self.refusal(&command) {
            Some(fault) => Err(CmdRefusal { fault, command }),
            None => self.send(command, out),
        }
    }

    /// Takes a message of the reader, and appends the client's answer, if there is one, to `out`. A
    /// refused message is handed back, and nothing changes (LLRP 1.1, sections 11 and 13 to 15).
    #[tactic(auto, unfolding(crate::specs::ClientMachine::take))]
    pub fn take(&mut self, message: Message, out: &mut Vec<Message>) -> Result<Taken, TakeRefusal>
        // The client's step, with the messages that it sends.
        ensures step { IfOk result (λ taken. let step = machine.take self.old message.id
            (heard_of message) in
            step ≡ Ok (record { taken = taken; sent = sent_by step; client = self.new })) }
        ensures sent { OnOk result (out.new.items ≡ out.old.items
            ++ map client_message (sent_by (machine.take self.old message.id (heard_of message)))) }

        // The client's refusal, or `Memory`; nothing changes.
        ensures refused { IfErr result (λ e. IsTakeFault (machine.take self.old message.id
            (heard_of message)) e.fault) }
        ensures handed_back { IfErr result (λ e. e.message ≡ message) }
        ensures unchanged { OnErr result (self.new ≡ self.old) }
        ensures unsent { OnErr result (out.new.items ≡ out.old.items) }
    {
        match self.phase {
            ClientPhase::Fresh => self.take_first(message),
            ClientPhase::Ready => self.take_next(message, out),
            ClientPhase::Closed => Err(TakeRefusal {
                fault: TakeFault::Closed,
                message,
            }),
        }
    }

    /// The state of the connection.
    pub fn phase(&self) -> ClientPhase
        ensures { result ≡ self.now.phase }
    {
        self.phase
    }

    /// The request that waits for its response, if there is one.
    pub fn pending(&self) -> Option<Pending>
        ensures { result ≡ self.now.pending }
    {
        self.pending
    }

    /// The state of a ROSpec that this client added, by its ROSpecID.
    pub fn view(&self, id: u32) -> Option<RoState>
        ensures { result ≡ viewed_state id self.now.view }
    {
        view::state(self.view.as_slice(), id)
    }
}
