//! A message of a reader that says another status.

ghost use Rattle.std.specs.Prelude.{◌≡◌, IfOk, IfSome};
ghost use Rattle.llrp_live.specs.Calls.Statuses.{IsStatusKind, SaysStatus};

use crate::starts::is_parameter;
use llrp_tree::{Message, Node, Nodes, Octets, ParamKind};
use std::alloc::{AllocError, Global};

/// The kind of the LLRPStatus with which a message begins, if it does.
fn status_kind(message: &Message) -> Option<ParamKind>
    ensures { IfSome result IsStatusKind }
{
    match message.children().as_slice() {
        [first, ..] if is_parameter(first, ParamKind::LlrpStatus) => Some(first.kind()),
        _ => None,
    }
}

/// A message with this status and text, which is all that it has beside its fields. Returns `None` if
/// it has no LLRPStatus, or would be no message then. The only error is that memory ran out.
pub fn with_status(
    alloc: Global,
    message: &Message,
    status: u16,
    text: &[u8],
) -> Result<Option<Message>, AllocError>
    ensures { IfOk result (λ said. IfSome said (SaysStatus message.now status text.now)) }
{
    let Some(kind) = status_kind(message) else {
        return Ok(None);
    };
    let tail = Octets::new(text.to_vec(alloc)?);
    let none = Nodes::new(Vec::new(alloc));
    let Ok(status) = Node::new(kind, &[status as u128], tail, none) else {
        return Ok(None);
    };
    let parts = Vec::from_array(alloc, [status])?;
    let (version, id, fields) = (message.version(), message.id(), message.fields());
    match Message::new(version, id, message.kind(), fields, Nodes::new(parts)) {
        Ok(said) => Ok(Some(said)),
        Err(_) => Ok(None),
    }
}
