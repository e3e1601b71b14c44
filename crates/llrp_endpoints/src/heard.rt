//! What the profile has of a message of the whole standard.

ghost use Rattle.std.specs.Prelude.{◌≡◌, ◌==◌, [], IfOk};
ghost use Rattle.llrp_schema.specs.Schema.{groups_of, key_of};
ghost use Rattle.llrp_tree.specs.Tree.{forest};
ghost use Rattle.llrp_endpoints.specs.Heard.{kept_where, lawful_where, message_where, own_kind, own_message as the_own_message, own_row, own_tree};

use crate::plan::{antenna_inventory, boundary};
use llrp_schema::{Kind, is_tv, msg_of, number, param_of_tlv, param_of_tv, place};
use llrp_tree::{Message, MsgKind, Node, Nodes, Octets, ParamKind};
use std::alloc::{AllocError, Global};

/// The profile's kind of a parameter with the same number.
fn own_kind(kind: ParamKind) -> Option<ParamKind>
    ensures { result ≡ own_kind kind }
{
    let number = number(Kind::Parameter(kind));
    if is_tv(kind) {
        param_of_tv(number as u8)
    } else {
        param_of_tlv(number)
    }
}

/// A copy of octets.
pub(crate) fn copied(alloc: Global, octets: &[u8]) -> Result<Octets, AllocError>
    ensures { IfOk result (λ copy. copy ≡ octets.now) }
{
    Ok(Octets::new(octets.to_vec(alloc)?))
}

/// A parameter of these parts, if they are lawful.
#[tactic(auto, using(llrp_tree::proofs::LawLemmas::lawful_to))]
fn lawful_node(kind: ParamKind, fields: &[u128], tail: Octets, children: Nodes) -> Option<Node>
    ensures { result ≡ lawful_where kind fields.now tail (forest children) }
{
    match Node::new(kind, fields, tail, children) {
        Ok(node) => Some(node),
        Err(_) => None,
    }
}

/// Whether a kind is that of a ROSpec.
#[tactic(auto, using(llrp_tree::proofs::KindLemmas::same_by_number))]
fn is_rospec(kind: ParamKind) -> bool
    ensures { result ≡ (key_of ParamKind.RoSpec == key_of kind) }
{
    ParamKind::RoSpec == kind
}

/// The ROSpec that is kept of one that is not lawful without what the profile does not have.
pub(crate) fn kept_rospec(
    alloc: Global,
    kind: ParamKind,
    fields: &[u128],
) -> Result<Option<Node>, AllocError>
    ensures { IfOk result (λ kept. kept ≡ kept_where kind fields.now) }
{
    if !is_rospec(kind) {
        return Ok(None);
    }
    let boundary = boundary(alloc)?;
    let inventory = antenna_inventory(alloc)?;
    let children = Nodes::new(Vec::from_array(alloc, [boundary, inventory])?);
    let tail = Octets::new(Vec::new(alloc));
    Ok(lawful_node(ParamKind::RoSpec, fields, tail, children))
}

/// A message of these parts, if they are lawful.
#[tactic(auto, using(llrp_tree::proofs::LawLemmas::message_to))]
fn lawful_message(
    version: u8,
    id: u32,
    kind: MsgKind,
    fields: &[u128],
    children: Nodes,
) -> Option<Message>
    ensures { result ≡ message_where (record {
      version = version;
      id = id;
      kind = kind;
      fields = fields.now;
      tail = [];
      children = forest children;
    }) }
{
    match Message::new(version, id, kind, fields, children) {
        Ok(message) => Some(message),
        Err(_) => None,
    }
}

/// What the profile has of a parameter below such a parent, if it has it there.
#[cycle(own)]
pub(crate) fn own_node(alloc: Global, parent: Kind, node: &Node) -> Result<Option<Node>, AllocError>
    ensures { IfOk result (λ own. own ≡ own_tree (groups_of parent) node.now) }
{
    let Some(kind) = own_kind(node.kind()) else {
        return Ok(None);
    };
    if place(parent, kind).is_none() {
        return Ok(None);
    }
    let children = own_nodes(alloc, Kind::Parameter(kind), node.children().as_slice())?;
    let tail = copied(alloc, node.tail().as_slice())?;
    match lawful_node(kind, node.fields(), tail, Nodes::new(children)) {
        Some(own) => Ok(Some(own)),
        None => kept_rospec(alloc, kind, node.fields()),
    }
}

/// Of parameters in a row those that the profile has below such a parent, with what it has of each.
#[cycle(own)]
fn own_nodes(alloc: Global, parent: Kind, nodes: &[Node]) -> Result<Vec<Node>, AllocError>
    ensures { IfOk result (λ row. forest row.items ≡ own_row (groups_of parent)
        (forest nodes.now)) }
{
    let mut row = Vec::new(alloc);
    for node in nodes {
        if let Some(own) = own_node(alloc, parent, node)? {
            row.push(own)?;
        }
    }
    Ok(row)
}

/// What the profile has of a message of the whole standard: parameters that it does not have, or
/// not there, are left out with all below them, and so is one that is not lawful without them. But
/// of such a ROSpec its ROSpecID, Priority and CurrentState are kept, with the parts of a standard
/// plan's in place of its own.
/// `None` means that the profile does not have the message, or that it is not lawful without them.
pub fn own_message(alloc: Global, message: &Message) -> Result<Option<Message>, AllocError>
    ensures { IfOk result (λ own. own ≡ the_own_message message.now) }
{
    let Some(kind) = msg_of(number(Kind::Message(message.kind()))) else {
        return Ok(None);
    };
    let children = own_nodes(alloc, Kind::Message(kind), message.children().as_slice())?;
    Ok(lawful_message(
        message.version(),
        message.id(),
        kind,
        message.fields(),
        Nodes::new(children),
    ))
}
