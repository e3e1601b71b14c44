//! What a client reads in a message.

ghost use Rattle.std.specs.Prelude.{◌≡◌, min, slice_index};
ghost use Rattle.llrp_tree.specs.Tree.{trees};
ghost use Rattle.llrp_ask.specs.Calls.Answers.{attempt_in as the_attempt, is_message as is_of, is_parameter as is_below, status_below as the_status, status_field as the_field};

use llrp_schema::{Kind, number};
use llrp_tree::{Message, MsgKind, Node, ParamKind};

/// Whether a message is of a kind.
pub(crate) fn is_message(message: &Message, kind: MsgKind) -> bool
    ensures { result ≡ is_of message.now kind }
{
    number(Kind::Message(message.kind())) == number(Kind::Message(kind))
}

/// Whether a parameter is of a kind.
fn is_parameter(node: &Node, kind: ParamKind) -> bool
    ensures { result ≡ is_below node.now kind }
{
    number(Kind::Parameter(node.kind())) == number(Kind::Parameter(kind))
}

/// The first field of a parameter, which is a status.
fn status_field(node: &Node) -> u16
    ensures { result ≡ the_field node.now }
{
    let field = node.fields().get(0).copied().unwrap_or(0);
    field.min(65_535) as u16
}

/// The status of the first of these parameters that is of a kind.
pub(crate) fn status_below(nodes: &[Node], kind: ParamKind) -> Option<u16>
    ensures { result ≡ the_status kind nodes.now }
{
    for node in nodes {
        if is_parameter(node, kind) {
            return Some(status_field(node));
        }
    }
    None
}

/// The status of a ConnectionAttemptEvent below these parameters.
pub(crate) fn attempt_in(nodes: &[Node]) -> Option<u16>
    ensures { result ≡ the_attempt nodes.now }
{
    for node in nodes {
        if is_parameter(node, ParamKind::WholeReaderEventNotificationData) {
            let below = node.children().as_slice();
            return status_below(below, ParamKind::WholeConnectionAttemptEvent);
        }
    }
    None
}
