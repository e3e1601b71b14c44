//! How a client hears its reader's messages.

ghost use Rattle.std.specs.Prelude.{◌≡◌, [], IfOk};
ghost use Rattle.llrp_tree.specs.Tree.{forest};
ghost use Rattle.llrp_tree.specs.Lawful.{IsLawfulMessage};
ghost use Rattle.llrp_endpoints.specs.Heard.{answers_first, granted, heard_message, is_numbered, part_in};

use crate::heard::own_message;
use crate::plan::leaf;
use llrp_schema::{Kind, KindSet, number};
use llrp_tree::{Message, MsgKind, Node, Nodes, ParamKind};
use std::alloc::{AllocError, Global};

/// How a client hears its reader.
#[derive(Clone, Copy, Debug, PartialEq, Eq)]
pub struct Hearing {
    /// The set of kinds that messages are read in.
    pub set: KindSet,
    /// The answer to the first request, which deletes a ROSpec, counts as a grant.
    pub excuses: bool,
    /// What is odd is passed over once the reader has accepted the client: a frame with a fault,
    /// unless it has the id of the pending request, and a message that answers nothing and that no
    /// reader says by itself.
    pub passes: bool,
}

/// What a set of kinds has of a message.
fn part_in(alloc: Global, set: KindSet, message: Message) -> Result<Option<Message>, AllocError>
    ensures { IfOk result (λ part. part ≡ part_in set message) }
{
    match set {
        KindSet::Profile => Ok(Some(message)),
        KindSet::Standard => own_message(alloc, &message),
    }
}

/// Whether a message has the number of this kind.
fn is_numbered(message: &Message, kind: MsgKind) -> bool
    ensures { result ≡ is_numbered message.now kind }
{
    number(Kind::Message(message.kind())) == number(Kind::Message(kind))
}

/// Whether a message may answer the first request, where that is a DELETE_ROSPEC.
fn answers_first(message: &Message) -> bool
    ensures { result ≡ answers_first message.now }
{
    let responds = is_numbered(message, MsgKind::DeleteRoSpecResponse);
    message.id() == 1 && (responds || is_numbered(message, MsgKind::ErrorMessage))
}

/// DELETE_ROSPEC_RESPONSE of parts that are lawful.
fn deletion_response(version: u8, id: u32, children: Vec<Node>) -> Message
    requires { IsLawfulMessage (record {
      version = version;
      id = id;
      kind = MsgKind.DeleteRoSpecResponse;
      fields = [];
      tail = [];
      children = forest children.items;
    }) }
    ensures { result ≡ record {
      version = version;
      id = id;
      kind = MsgKind.DeleteRoSpecResponse;
      fields = [];
      tail = [];
      children = forest children.items;
    } }
{
    let kind = MsgKind::DeleteRoSpecResponse;
    match Message::new(version, id, kind, &[], Nodes::new(children)) {
        Ok(message) => message,
        Err(_) => unreachable!(),
    }
}

/// DELETE_ROSPEC_RESPONSE with M_Success, of the version and the id of a message.
fn granted(alloc: Global, message: &Message) -> Result<Message, AllocError>
    ensures { IfOk result (λ grant. grant ≡ granted message.now) }
{
    message.lawful();
    let status = leaf(alloc, ParamKind::LlrpStatus, &[0]);
    let children = Vec::from_array(alloc, [status])?;
    Ok(deletion_response(message.version(), message.id(), children))
}

/// What a client hears of a message. `None` means that the set of kinds has nothing of it.
pub(crate) fn heard_message(
    alloc: Global,
    hearing: Hearing,
    message: Message,
) -> Result<Option<Message>, AllocError>
    ensures { IfOk result (λ heard. heard ≡ heard_message hearing message) }
{
    let Some(part) = part_in(alloc, hearing.set, message)? else {
        return Ok(None);
    };
    if hearing.excuses && answers_first(&part) {
        return Ok(Some(granted(alloc, &part)?));
    }
    Ok(Some(part))
}
