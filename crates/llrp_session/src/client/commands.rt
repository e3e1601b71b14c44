//! The requests that a client sends.

ghost use Rattle.std.specs.Prelude.{◌≡◌, ◌<◌, ◌^◌, ◌++◌, ◌∷◌, [], Ok, OnOk, OnErr, IfNone, IfSome, IfErr, vec_len, vec_capacity};
ghost use Rattle.llrp_session.specs.Contents.{Asks};
ghost use Rattle.llrp_session.specs.RoSpec.{rospec_of};
ghost use Rattle.llrp_session.specs.Calls.LawfulWords.{AddsRoSpec};
ghost use Rattle.llrp_session.specs.Private.LawfulWords.{FitsMessage};
ghost use Rattle.llrp_session.specs.ClientMessages.{client_message};
ghost use Rattle.llrp_session.specs.ClientMachine as machine;
ghost use Rattle.llrp_session.specs.Calls.ClientSteps.{IsCmdFault};

use super::{Client, CmdFault, CmdRefusal};
use crate::build;
use crate::parse::find::field;
use crate::types::{ClientPhase, Command, Operation, Pending};
use llrp_tree::{HEADER_OCTETS, Message, Node, ParamKind};

impl Client {
    /// Why a command is refused, apart from a lack of memory, which is found later.
    #[tactic(auto, unfolding(crate::specs::ClientMachine::command))]
    pub(super) fn refusal(&self, command: &Command) -> Option<CmdFault>
        requires { AddsRoSpec command.now }
        ensures refused { IfSome result (λ fault. IsCmdFault
            (machine.command self.now command.now) fault) }
        ensures step { IfNone result (machine.command self.now command.now
            ≡ Ok (machine.sending self.now command.now)) }
        ensures fits { IfNone result (FitsMessage command.now) }
        ensures id { IfNone result (self.now.next_id < 2 ^ 32) }
    {
        match self.phase {
            ClientPhase::Closed => Some(CmdFault::Closed),
            ClientPhase::Fresh => Some(CmdFault::NotReady),
            ClientPhase::Ready => self.refusal_when_ready(command),
        }
    }

    /// Why a command is refused while the reader takes requests.
    #[tactic(auto, using(crate::proofs::CommandLemmas::fits_within))]
    fn refusal_when_ready(&self, command: &Command) -> Option<CmdFault>
        requires { AddsRoSpec command.now }
        ensures refused { IfSome result (λ fault. IsCmdFault
            (machine.sent_unless (machine.refused_when_ready self.now command.now) self.now
            command.now) fault) }
        ensures step { IfNone result (machine.sent_unless (machine.refused_when_ready self.now
            command.now) self.now command.now ≡ Ok (machine.sending self.now command.now)) }
        ensures fits { IfNone result (FitsMessage command.now) }
        ensures id { IfNone result (self.now.next_id < 2 ^ 32) }
    {
        if self.pending.is_some() {
            return Some(CmdFault::Busy);
        }
        if is_over_limit(self.limit, command) {
            return Some(CmdFault::OverLimit);
        }
        if self.next_id > 4_294_967_295 {
            return Some(CmdFault::IdsSpent);
        }
        None
    }

    /// Sends the request of a command that is not refused.
    pub(super) fn send(
        &mut self,
        command: Command,
        out: &mut Vec<Message>,
    ) -> Result<(), CmdRefusal>
        requires fits { FitsMessage command }
        requires id { self.old.next_id < 2 ^ 32 }
        ensures sent { OnOk result (self.new ≡ (machine.sending self.old command).client) }
        ensures appended { OnOk result (out.new.items ≡ out.old.items
            ++ client_message (record { id = self.old.next_id; word = Asks command }) ∷ []) }
        ensures memory { IfErr result (λ e. e.fault ≡ CmdFault.Memory) }
        ensures handed_back { IfErr result (λ e. e.command ≡ command) }
        ensures unchanged { OnErr result (self.new ≡ self.old) }
        ensures unsent { OnErr result (out.new.items ≡ out.old.items) }
    {
        if out.reserve(1).is_err() {
            return Err(out_of_memory(command));
        }
        let id = self.next_id as u32;
        let pending = awaited(id, &command);
        match build::client::command(self.alloc, id, command) {
            Ok(message) => {
                append(out, message);
                self.pending = pending;
                self.next_id += 1;
                Ok(())
            }
            Err(command) => Err(out_of_memory(command)),
        }
    }
}

/// The refusal of a command for lack of memory.
fn out_of_memory(command: Command) -> CmdRefusal
    ensures { result ≡ record { fault = CmdFault.Memory; command = command } }
{
    CmdRefusal {
        fault: CmdFault::Memory,
        command,
    }
}

/// Appends a message; there is room for it.
fn append(out: &mut Vec<Message>, message: Message)
    requires { vec_len out.old < vec_capacity out.old }
    ensures { out.new.items ≡ out.old.items ++ message ∷ [] }
{
    match out.push(message) {
        Ok(()) => {}
        Err(_) => unreachable!(),
    }
}

/// Whether the message of a command is longer than the limit, which only ADD_ROSPEC can be.
#[tactic(auto, unfolding(crate::specs::RoSpec::rospec_of))]
fn is_over_limit(limit: u32, command: &Command) -> bool
    ensures { result ≡ machine.is_over_limit limit command.now }
{
    match command {
        Command::Add { spec } => (limit as u64) < HEADER_OCTETS as u64 + spec.length() as u64,
        _ => false,
    }
}

/// The pending request once a command was sent under this id; `None` for GET_REPORT, which has no
/// response.
fn awaited(id: u32, command: &Command) -> Option<Pending>
    requires { AddsRoSpec command.now }
    ensures { result ≡ machine.awaited id command.now }
{
    match command {
        Command::Add { spec } => waits_for(id, Operation::Adding, rospec_id(spec)),
        Command::Delete { id: rospec } => waits_for(id, Operation::Deleting, *rospec),
        Command::Start { id: rospec } => waits_for(id, Operation::Starting, *rospec),
        Command::Stop { id: rospec } => waits_for(id, Operation::Stopping, *rospec),
        Command::Enable { id: rospec } => waits_for(id, Operation::Enabling, *rospec),
        Command::Disable { id: rospec } => waits_for(id, Operation::Disabling, *rospec),
        Command::GetRospecs => waits_for(id, Operation::Listing, 0),
        Command::SetKeepalive { .. } => waits_for(id, Operation::Configuring, 0),
        Command::GetReport => None,
        Command::Close => waits_for(id, Operation::Closing, 0),
    }
}

/// A request that waits for its response.
fn waits_for(id: u32, operation: Operation, rospec: u32) -> Option<Pending>
    ensures { result ≡ machine.waits_for id operation rospec }
{
    Some(Pending {
        id,
        operation,
        rospec,
    })
}

/// The ROSpecID of a ROSpec.
#[tactic(auto, unfolding(crate::specs::RoSpec::rospec_of, llrp_schema::specs::Schema::fields_of, llrp_schema::specs::Schema::rule_of, llrp_schema::specs::Schema::param_rule))]
fn rospec_id(spec: &Node) -> u32
    requires { spec.now.kind ≡ ParamKind.RoSpec }
    ensures { result ≡ (rospec_of spec.now).id }
{
    spec.lawful();
    field(ParamKind::RoSpec, Some(spec), 0) as u32
}
