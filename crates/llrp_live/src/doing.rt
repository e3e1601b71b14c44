//! What is done for an item of a client.

ghost use Rattle.std.specs.Prelude.{◌∷◌, ◌≡◌, [], IfOk};
ghost use Rattle.llrp_endpoints.specs.Heard.{own_message as the_own_message};
ghost use Rattle.llrp_live.specs.Calls.Doings as doings;
ghost use Rattle.llrp_live.specs.Private.Doings.{IsDoing};
ghost use Rattle.llrp_session.specs.Calls.Answers.{answer_of};
ghost use Rattle.llrp_session.specs.Calls.ReaderSteps.{event_of};

use llrp_answers::Answers;
use llrp_endpoints::own_message;
use llrp_schema::{Kind, msg_of, number};
use llrp_session::{ReaderIn, answer};
use llrp_stream::Item;
use llrp_tree::{Message, MsgKind, Reason};
use llrp_versions::{Heard, Version, hear};
use std::alloc::{AllocError, Global};

/// Messages are sent, or an event happens to the reader.
#[derive(Drop)]
pub(crate) enum Doing {
    Answer(Vec<Message>),
    Happen(ReaderIn),
}

/// Whether the profile has the kind.
fn is_inside(kind: MsgKind) -> bool
    ensures { result ≡ doings.is_inside kind }
{
    msg_of(number(Kind::Message(kind))).is_some()
}

/// Why the reader takes nothing of a message of this kind.
fn lack_of(kind: MsgKind) -> Reason
    ensures { result ≡ doings.lack_of kind }
{
    if is_inside(kind) {
        Reason::Missing
    } else {
        Reason::MessageType
    }
}

/// One message.
fn only(alloc: Global, message: Message) -> Result<Vec<Message>, AllocError>
    ensures { IfOk result (λ messages. messages.items ≡ message ∷ []) }
{
    let mut messages = Vec::with_capacity(alloc, 1)?;
    messages.push(message)?;
    Ok(messages)
}

/// The reader takes what the profile has of a message.
fn part_taken(alloc: Global, message: &Message) -> Result<ReaderIn, AllocError>
    ensures { IfOk result (λ event. event_of event
        ≡ doings.part_taken message.now (the_own_message message.now)) }
{
    match own_message(alloc, message)? {
        Some(own) => Ok(ReaderIn::Take(own)),
        None => Ok(ReaderIn::TakeBad {
            id: message.id(),
            reason: lack_of(message.kind()),
        }),
    }
}

/// A message is answered, where it has an answer, or the reader takes what the profile has of it.
fn answered_or_taken(alloc: Global, message: &Message) -> Result<Doing, AllocError>
    ensures { IfOk result (λ doing. IsDoing doing (doings.answered_or_taken message.now
        (answer_of message.now))) }
{
    match answer(alloc, message)? {
        Some(reply) => Ok(Doing::Answer(only(alloc, reply)?)),
        None => Ok(Doing::Happen(part_taken(alloc, message)?)),
    }
}

/// What is done for a message of the version in use.
fn of_this_version(alloc: Global, answers: &Answers, message: &Message) -> Result<Doing, AllocError>
    ensures { IfOk result (λ doing. IsDoing doing (doings.of_this_version answers.now.pairs.items
        message.now)) }
{
    if is_inside(message.kind()) {
        return answered_or_taken(alloc, message);
    }
    match answers.answers_to(alloc, message)? {
        Some(replies) => Ok(Doing::Answer(replies)),
        None => answered_or_taken(alloc, message),
    }
}

/// What is done for an item, where this version is in use, and which version is in use then.
pub(crate) fn doing_of(
    alloc: Global,
    answers: &Answers,
    version: Version,
    item: &Item,
) -> Result<(Doing, Version), AllocError>
    ensures doing { IfOk result (λ done. IsDoing done.0 (doings.doing answers.now.pairs.items
        version item.now)) }
    ensures version { IfOk result (λ done. done.1 ≡ doings.next_version version item.now) }
{
    let message = match item {
        Item::Msg(message) => message,
        Item::Bad { id, fault } => {
            let reason = fault.reason;
            return Ok((
                Doing::Happen(ReaderIn::TakeBad { id: *id, reason }),
                version,
            ));
        }
    };
    match hear(alloc, version, message)? {
        Heard::InUse => Ok((of_this_version(alloc, answers, message)?, version)),
        Heard::Other => {
            let (id, reason) = (message.id(), Reason::Version);
            Ok((Doing::Happen(ReaderIn::TakeBad { id, reason }), version))
        }
        Heard::Answered { reply, version } => Ok((Doing::Answer(only(alloc, reply)?), version)),
    }
}

/// Whether an item is CLOSE_CONNECTION.
pub(crate) fn closes(item: &Item) -> bool
    ensures { result ≡ doings.closes item.now }
{
    match item {
        Item::Msg(message) => {
            number(Kind::Message(message.kind())) == number(Kind::Message(MsgKind::CloseConnection))
        }
        Item::Bad { .. } => false,
    }
}
