//! The requests of a client, and the messages that it takes.

ghost use Rattle.std.specs.Prelude.{IfOk};
ghost use Rattle.llrp_session.specs.Calls.LawfulWords.{AddsRoSpec};

use anyhow::{Context, Result, bail};
use llrp_session::{Client, CmdFault, Command, TakeFault, Taken};
use llrp_tree::{MAX_LIMIT, Message, Node, ParamKind};
use std::alloc::Global;
use test_devices::rows::{
    allow_growths, message_of, octets_of, print_octets, refuse_growths, spelled,
};

/// Makes the call of this module, and returns whether it has this name.
pub fn make(rt: &HostRuntime, call: &str, row: &[String]) -> Result<bool> {
    if call != "client" {
        return Ok(false);
    }
    client(rt, row)?;
    Ok(true)
}

/// The ROSpec of an ADD_ROSPEC: its last child.
fn rospec_of(message: Message) -> Option<Node> {
    let mut children = message.into_children().into_vec();
    children.pop()
}

/// The command that a word names: `add:` and a frame of ADD_ROSPEC, or a name, with a number after a colon.
fn command_of(alloc: Global, name: &str, rest: &str) -> Result<Command>
    ensures { IfOk result (λ command. AddsRoSpec command) }
{
    if name == "add" {
        let message = message_of(alloc, octets_of(alloc, rest)?.as_slice())?;
        let spec = rospec_of(message).context("no ROSpec")?;
        return match spec.kind() {
            ParamKind::RoSpec => Ok(Command::Add { spec }),
            _ => bail!("no ROSpec"),
        };
    }
    let id: u32 = if rest.is_empty() { 0 } else { rest.parse()? };
    match name {
        "delete" => Ok(Command::Delete { id }),
        "start" => Ok(Command::Start { id }),
        "stop" => Ok(Command::Stop { id }),
        "enable" => Ok(Command::Enable { id }),
        "disable" => Ok(Command::Disable { id }),
        "rospecs" => Ok(Command::GetRospecs),
        "keepalive" => Ok(Command::SetKeepalive { ms: id }),
        "report" => Ok(Command::GetReport),
        "close" => Ok(Command::Close),
        _ => bail!("no such command"),
    }
}

/// Prints what the client took a message for.
fn print_taken(rt: &HostRuntime, taken: &Taken) -> Result<()> {
    match taken {
        Taken::Connected => print!(rt; "Connected")?,
        Taken::Refused(status) => print!(rt; "Refused {status}")?,
        Taken::Reply(status) => print!(rt; "Reply {status}")?,
        Taken::Tags(tags) => {
            let count = tags.as_slice().len();
            print!(rt; "Tags {count}")?;
        }
        Taken::Table(rospecs) => {
            let count = rospecs.as_slice().len();
            print!(rt; "Table {count}")?;
        }
        Taken::Differs(rospecs) => {
            let count = rospecs.as_slice().len();
            print!(rt; "Differs {count}")?;
        }
        Taken::Event(id, state) => print!(rt; "Event {id} {state:?}")?,
        Taken::Note => print!(rt; "Note")?,
        Taken::Kept => print!(rt; "Kept")?,
        Taken::Closed => print!(rt; "Closed")?,
    }
    Ok(())
}

/// Prints what a message was taken for, and the octets of the messages that answer it.
fn print_answer(rt: &HostRuntime, what: &str, taken: &Taken, out: &[Message]) -> Result<()> {
    print!(rt; "{what} ")?;
    print_taken(rt, taken)?;
    print_octets(rt, "", spelled(rt.alloc(), out)?.as_slice())
}

/// Prints why a message is refused, and the octets of the message that is handed back.
fn print_refused(rt: &HostRuntime, fault: TakeFault, message: Message) -> Result<()> {
    let octets = spelled(rt.alloc(), &[message])?;
    let digits = hex::encode(rt.alloc(), octets.as_slice())?;
    println!(rt; "answer {fault:?} {digits}")?;
    Ok(())
}

/// Calls `Client::take`; where `is_last`, memory may be refused.
fn take(rt: &HostRuntime, client: &mut Client, frame: &str, is_last: bool) -> Result<()> {
    let alloc = rt.alloc();
    let message = message_of(alloc, octets_of(alloc, frame)?.as_slice())?;
    let mut out = Vec::new(alloc);
    if is_last {
        refuse_growths(rt)?;
    }
    let taken = client.take(message, &mut out);
    if is_last {
        allow_growths(rt)?;
    }
    match taken {
        Ok(taken) => print_answer(rt, "answer", &taken, out.as_slice()),
        Err(refusal) if refusal.fault == TakeFault::Memory => {
            let sent = out.len();
            println!(rt; "answer Memory")?;
            println!(rt; "after sent {sent}")?;
            match client.take(refusal.message, &mut out) {
                Ok(taken) => print_answer(rt, "again", &taken, out.as_slice()),
                Err(_) => bail!("the message is refused again"),
            }
        }
        Err(refusal) => print_refused(rt, refusal.fault, refusal.message),
    }
}

/// Calls `Client::command`; where `is_last`, memory may be refused.
fn send(rt: &HostRuntime, client: &mut Client, command: Command, is_last: bool) -> Result<()>
    requires { AddsRoSpec command }
{
    let alloc = rt.alloc();
    let mut out = Vec::new(alloc);
    if is_last {
        refuse_growths(rt)?;
    }
    let sent = client.command(command, &mut out);
    if is_last {
        allow_growths(rt)?;
    }
    match sent {
        Ok(()) => print_octets(rt, "answer", spelled(alloc, out.as_slice())?.as_slice()),
        Err(refusal) => {
            let fault = refusal.fault;
            println!(rt; "answer {fault:?}")?;
            if fault == CmdFault::Memory {
                let sent = out.len();
                println!(rt; "after sent {sent}")?;
                if client.command(refusal.command, &mut out).is_err() {
                    bail!("the command is refused again");
                }
                print_octets(rt, "again", spelled(alloc, out.as_slice())?.as_slice())?;
            }
            Ok(())
        }
    }
}

/// Makes the call that a word names, or prints the client's view of ROSpec 1 for `view`.
fn act(rt: &HostRuntime, client: &mut Client, word: &str, is_last: bool) -> Result<()> {
    let (name, rest) = word.split_once(":").unwrap_or((word, ""));
    match name {
        "take" => take(rt, client, rest, is_last),
        "view" => {
            let state = client.view(1);
            println!(rt; "answer {state:?}")?;
            Ok(())
        }
        _ => send(rt, client, command_of(rt.alloc(), name, rest)?, is_last),
    }
}

/// Calls `Client::take` or `Client::command` for each word after the first, which is the client's first id.
fn client(rt: &HostRuntime, row: &[String]) -> Result<()> {
    let [first_id, before @ .., last] = row else {
        bail!("the words are the first id and the calls");
    };
    let first_id: u32 = first_id.as_str().parse()?;
    if first_id == 0 {
        bail!("the first id is at least 1");
    }
    let mut client = Client::new(rt.alloc(), MAX_LIMIT, first_id);
    for word in before {
        act(rt, &mut client, word.as_str(), false)?;
    }
    act(rt, &mut client, last.as_str(), true)
}
