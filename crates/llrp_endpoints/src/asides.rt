//! What a client says besides its plan, and in place of its ADD_ROSPEC.

ghost use Rattle.std.specs.Prelude.{◌≡◌, ◌==◌, IfOk, Some, filter, map, not};
ghost use Rattle.llrp_schema.specs.declared.kinds.Kind.TheVariants.{Message as MessageKind};
ghost use Rattle.llrp_schema.specs.Schema.{number_of};
ghost use Rattle.llrp_endpoints.specs.Asides.{Asides, before_command, instead};
ghost use Rattle.llrp_endpoints.specs.Calls.Asides.{asides_in, deletes_one};
ghost use Rattle.llrp_endpoints.specs.Private.Asides.{aside_of};

use crate::heard::copied;
use llrp_schema::{Kind, number};
use llrp_session::Command;
use llrp_tree::{Message, MsgKind};
use std::alloc::{AllocError, Global};

/// Messages that a client says besides its plan, each before a command.
#[derive(Drop)]
pub struct AsideMessages {
    /// Before it enables its ROSpec.
    pub enabling: Vec<Message>,
    /// Before it deletes that one.
    pub deleting: Vec<Message>,
}

/// Which of them are said.
#[derive(Clone, Copy)]
pub(crate) enum Aside {
    Nothing,
    Enabling,
    Deleting,
}

/// Which of them are said before a command.
pub(crate) fn aside_before(command: &Command) -> Aside
    ensures { (a : Asides) → before_command a command.now ≡ aside_of result a }
{
    match command {
        Command::Enable { .. } => Aside::Enabling,
        Command::Delete { id: 0 } => Aside::Nothing,
        Command::Delete { .. } => Aside::Deleting,
        _ => Aside::Nothing,
    }
}

/// These of them, if there are any.
pub(crate) fn aside_messages(asides: &Option<AsideMessages>, aside: Aside) -> &[Message]
    ensures { result.now ≡ aside_of aside (asides_in asides.now) }
{
    let Some(messages) = asides else {
        return &[];
    };
    match aside {
        Aside::Nothing => &[],
        Aside::Enabling => messages.enabling.as_slice(),
        Aside::Deleting => messages.deleting.as_slice(),
    }
}

/// A copy of a message, with another id.
fn with_id(alloc: Global, message: &Message, id: u32) -> Result<Message, AllocError>
    ensures { IfOk result (λ copy. copy ≡ record message.now { id = id }) }
{
    message.lawful();
    let tail = copied(alloc, message.tail())?;
    let children = message.try_clone(alloc)?.into_children();
    let (version, kind) = (message.version(), message.kind());
    Ok(Message::of_lawful(version, id, kind, message.fields(), tail, children))
}

/// Whether a message is ADD_ROSPEC.
fn adds_rospec(message: &Message) -> bool
    ensures { result ≡ (number_of (MessageKind message.now.kind)
        == number_of (MessageKind MsgKind.AddRoSpec)) }
{
    number(Kind::Message(message.kind())) == number(Kind::Message(MsgKind::AddRoSpec))
}

/// What is said for each of these messages of a client, if this one is said in place of its
/// ADD_ROSPEC.
fn each_said(
    alloc: Global,
    whole: &Message,
    messages: Vec<Message>,
) -> Result<Vec<Message>, AllocError>
    ensures { IfOk result (λ said. said.items
        ≡ map (instead (Some whole.now)) messages.items) }
{
    let mut said = Vec::new(alloc);
    for message in messages {
        if adds_rospec(&message) {
            said.push(with_id(alloc, whole, message.id())?)?;
        } else {
            said.push(message)?;
        }
    }
    Ok(said)
}

/// The same, if there is one.
pub(crate) fn said_for(
    alloc: Global,
    whole: &Option<Message>,
    messages: Vec<Message>,
) -> Result<Vec<Message>, AllocError>
    ensures { IfOk result (λ said. said.items ≡ map (instead whole.now) messages.items) }
{
    match whole {
        Some(whole) => each_said(alloc, whole, messages),
        None => Ok(messages),
    }
}

/// Whether a message deletes one AccessSpec: a DELETE_ACCESSSPEC with the id 0 deletes all of them (LLRP
/// 1.1, section 12).
fn deletes_one(message: &Message) -> bool
    ensures { result ≡ deletes_one message.now }
{
    let kind = number(Kind::Message(message.kind()));
    let id = message.fields().first().copied().unwrap_or(0);
    kind == number(Kind::Message(MsgKind::WholeDeleteAccessSpec)) && id != 0
}

impl AsideMessages {
    /// Messages on AccessSpecs, parted: those that delete one are for before the client deletes its
    /// ROSpec, and all others for before it enables that, each in their order.
    pub fn of(alloc: Global, messages: Vec<Message>) -> Result<AsideMessages, AllocError>
        ensures enabling { IfOk result (λ a. a.enabling.items
            ≡ filter (λ m. not (deletes_one m)) messages.items) }
        ensures deleting { IfOk result (λ a. a.deleting.items ≡ filter deletes_one messages.items) }
    {
        let mut enabling = Vec::new(alloc);
        let mut deleting = Vec::new(alloc);
        for message in messages {
            if deletes_one(&message) {
                deleting.push(message)?;
            } else {
                enabling.push(message)?;
            }
        }
        Ok(AsideMessages { enabling, deleting })
    }
}
