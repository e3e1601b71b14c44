//! The messages of a client. They have version 1 and the id that is given.

ghost use Rattle.std.specs.Prelude.{◌≡◌, IfOk, IfErr, [], ◌∷◌};
ghost use Rattle.llrp_tree.specs.Tree.{forest};
ghost use Rattle.llrp_tree.specs.Lawful.{IsLawfulMessage};
ghost use Rattle.llrp_session.specs.Contents.{Asks, Acknowledges, keepalive_each};
ghost use Rattle.llrp_session.specs.ClientMessages.{client_message};
ghost use Rattle.llrp_session.specs.Private.LawfulWords.{FitsMessage};

use super::{leaf, message, only};
use crate::types::Command;
use llrp_tree::{Message, MsgKind, Node, ParamKind};
use std::alloc::Global;

/// KEEPALIVE_ACK. It takes no memory.
pub(crate) fn acknowledgement(alloc: Global, id: u32) -> Message
    ensures { result ≡ client_message (record { id = id; word = Acknowledges }) }
{
    message(1, id, MsgKind::KeepaliveAck, &[], Vec::new(alloc))
}

/// ADD_ROSPEC. The ROSpec is handed back if memory runs out.
fn add(alloc: Global, id: u32, spec: Node) -> Result<Message, Command>
    requires { FitsMessage (Command.Add spec) }
    ensures ok { IfOk result (λ m. m ≡ client_message (record
        { id = id; word = Asks (Command.Add spec) })) }
    ensures handed_back { IfErr result (λ k. k ≡ Command.Add spec) }
{
    spec.lawful();
    let Ok(mut children) = Vec::with_capacity(alloc, 1) else {
        return Err(Command::Add { spec });
    };
    match children.push(spec) {
        Ok(()) => Ok(message(1, id, MsgKind::AddRoSpec, &[], children)),
        Err(failed) => Err(Command::Add { spec: failed.value }),
    }
}

/// A message whose only field is a ROSpecID.
fn about(alloc: Global, id: u32, kind: MsgKind, rospec: u32) -> Message
    requires { IsLawfulMessage (record {
      version = 1;
      id = id;
      kind = kind;
      fields = rospec
          ∷ [];
      tail = [];
      children = forest [];
    }) }
    ensures { result ≡ record {
      version = 1;
      id = id;
      kind = kind;
      fields = rospec
          ∷ [];
      tail = [];
      children = forest [];
    } }
{
    message(1, id, kind, &[rospec as u128], Vec::new(alloc))
}

/// The type of a KeepaliveSpec: 1 for a period, 0 for none.
fn keepalive_type(ms: u32) -> u128
    ensures trigger { result ≡ (keepalive_each ms).trigger }
    ensures period { ms ≡ (keepalive_each ms).period }
{
    if ms == 0 { 0 } else { 1 }
}

/// SET_READER_CONFIG with a keepalive every `ms` milliseconds, or none if it is 0.
fn set_keepalive(alloc: Global, id: u32, ms: u32) -> Result<Message, Command>
    ensures ok { IfOk result (λ m. m ≡ client_message (record
        { id = id; word = Asks (Command.SetKeepalive ms) })) }
    ensures handed_back { IfErr result (λ k. k ≡ Command.SetKeepalive ms) }
{
    let fields = [keepalive_type(ms), ms as u128];
    let spec = leaf(alloc, ParamKind::KeepaliveSpec, &fields);
    match only(alloc, spec) {
        Ok(children) => Ok(message(1, id, MsgKind::SetReaderConfig, &[0], children)),
        Err(_) => Err(Command::SetKeepalive { ms }),
    }
}

/// The message of a command. The command is handed back if memory runs out.
pub(crate) fn command(alloc: Global, id: u32, command: Command) -> Result<Message, Command>
    requires { FitsMessage command }
    ensures ok { IfOk result (λ m. m ≡ client_message (record { id = id; word = Asks command })) }
    ensures handed_back { IfErr result (λ k. k ≡ command) }
{
    match command {
        Command::Add { spec } => add(alloc, id, spec),
        Command::Delete { id: rospec } => Ok(about(alloc, id, MsgKind::DeleteRoSpec, rospec)),
        Command::Start { id: rospec } => Ok(about(alloc, id, MsgKind::StartRoSpec, rospec)),
        Command::Stop { id: rospec } => Ok(about(alloc, id, MsgKind::StopRoSpec, rospec)),
        Command::Enable { id: rospec } => Ok(about(alloc, id, MsgKind::EnableRoSpec, rospec)),
        Command::Disable { id: rospec } => Ok(about(alloc, id, MsgKind::DisableRoSpec, rospec)),
        Command::GetRospecs => Ok(message(1, id, MsgKind::GetRoSpecs, &[], Vec::new(alloc))),
        Command::SetKeepalive { ms } => set_keepalive(alloc, id, ms),
        Command::GetReport => Ok(message(1, id, MsgKind::GetReport, &[], Vec::new(alloc))),
        Command::Close => Ok(message(1, id, MsgKind::CloseConnection, &[], Vec::new(alloc))),
    }
}
