//! Whether a message says that a ROSpec became active.

ghost use Rattle.std.specs.Prelude.{◌≡◌};
ghost use Rattle.llrp_tree.specs.Tree.{trees};
ghost use Rattle.llrp_live.specs.Calls.Starts as starts;

use llrp_schema::{Kind, number};
use llrp_tree::{Message, Node, ParamKind};

/// Whether a parameter is of a kind.
pub(crate) fn is_parameter(node: &Node, kind: ParamKind) -> bool
    ensures { result ≡ starts.is_parameter node.now kind }
{
    number(Kind::Parameter(node.kind())) == number(Kind::Parameter(kind))
}

/// Whether a parameter is the ROSpecEvent of a start.
fn is_start(node: &Node) -> bool
    ensures { result ≡ starts.is_start node.now }
{
    let event = node.fields().get(0).copied().unwrap_or(0);
    is_parameter(node, ParamKind::RoSpecEvent) && event == 0
}

/// Whether the ROSpecEvent of a start is among these parameters.
fn has_start(nodes: &[Node]) -> bool
    ensures { result ≡ starts.has_start nodes.now }
{
    for node in nodes {
        if is_start(node) {
            return true;
        }
    }
    false
}

/// Whether it is below one of these parameters, which are of an event of the reader.
fn starts_below(nodes: &[Node]) -> bool
    ensures { result ≡ starts.starts_below nodes.now }
{
    for node in nodes {
        if is_parameter(node, ParamKind::ReaderEventNotificationData)
            && has_start(node.children().as_slice())
        {
            return true;
        }
    }
    false
}

/// Whether a message says that a ROSpec became active: a READER_EVENT_NOTIFICATION with a ROSpecEvent
/// that says Start (LLRP 1.1, section 14.2.3.2).
pub fn says_start(message: &Message) -> bool
    ensures { result ≡ starts.says_start message.now }
{
    starts_below(message.children().as_slice())
}
