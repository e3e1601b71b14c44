//! Builds the messages that reader and client send.

ghost use Rattle.std.specs.Prelude.{◌≡◌, IfOk, [], ◌∷◌};
ghost use Rattle.llrp_tree.specs.Tree.{forest};
ghost use Rattle.llrp_tree.specs.Lawful.{AreLawful, IsLawfulMessage};
ghost use Rattle.llrp_session.specs.ReaderMessages.{parameter as the_parameter};

pub(crate) mod client;
pub(crate) mod reader;
pub(crate) mod tag_report;

use llrp_tree::{Message, MsgKind, Node, Nodes, Octets, ParamKind};
use std::alloc::{AllocError, Global};

/// A parameter with these fields and children, and an empty tail.
pub(crate) fn parameter(
    alloc: Global,
    kind: ParamKind,
    fields: &[u128],
    children: Vec<Node>,
) -> Node
    requires { AreLawful kind fields.now [] (forest children.items) }
    ensures { result ≡ the_parameter kind fields.now children.items }
{
    let tail = Octets::new(Vec::new(alloc));
    match Node::new(kind, fields, tail, Nodes::new(children)) {
        Ok(node) => node,
        Err(_) => unreachable!(),
    }
}

/// A parameter with these fields, an empty tail and no children.
pub(crate) fn leaf(alloc: Global, kind: ParamKind, fields: &[u128]) -> Node
    requires { AreLawful kind fields.now [] (forest []) }
    ensures { result ≡ the_parameter kind fields.now [] }
{
    parameter(alloc, kind, fields, Vec::new(alloc))
}

/// A vector with one parameter.
pub(crate) fn only(alloc: Global, node: Node) -> Result<Vec<Node>, AllocError>
    ensures { IfOk result (λ nodes. nodes.items ≡ node ∷ []) }
{
    let mut nodes = Vec::with_capacity(alloc, 1)?;
    nodes.push(node)?;
    Ok(nodes)
}

/// A vector with two parameters.
fn pair(alloc: Global, first: Node, second: Node) -> Result<Vec<Node>, AllocError>
    ensures { IfOk result (λ nodes. nodes.items ≡ first ∷ second ∷ []) }
{
    let mut nodes = Vec::with_capacity(alloc, 2)?;
    nodes.push(first)?;
    nodes.push(second)?;
    Ok(nodes)
}

/// The message with these parts.
pub(crate) fn message(
    version: u8,
    id: u32,
    kind: MsgKind,
    fields: &[u128],
    children: Vec<Node>,
) -> Message
    requires { IsLawfulMessage (record {
      version = version;
      id = id;
      kind = kind;
      fields = fields.now;
      tail = [];
      children = forest children.items;
    }) }
    ensures { result ≡ record {
      version = version;
      id = id;
      kind = kind;
      fields = fields.now;
      tail = [];
      children = forest children.items;
    } }
{
    match Message::new(version, id, kind, fields, Nodes::new(children)) {
        Ok(message) => message,
        Err(_) => unreachable!(),
    }
}
