//! Reads what follows the head of a node.

ghost use Rattle.std.specs.Prelude.{◌≡◌, ◌*◌, ◌≤◌, ℕ, [], length, false, true, MatchResult, unwrap_or};
ghost use Rattle.llrp_schema.specs.Schema.{plain_fields_of, tail_of, is_tv};
ghost use Rattle.llrp_tree.specs.declared.TheConstants.{MAX_DEPTH, MAX_LIMIT};
ghost use Rattle.llrp_tree.specs.Tree.{forest};
ghost use Rattle.llrp_tree.specs.Calls.OpenTree.{as_read};
ghost use Rattle.llrp_tree.specs.Private.Reading.{AddsChild, AddsChildAt, ReadsBody};
ghost use Rattle.llrp_tree.specs.Private.Standing.{Begins, BeginsBehind, is_tv_kind};

use super::children::{Child, begin_child};
use super::fields::{read_fields, read_value};
use super::tail::read_tail;
use crate::child_checks::none_missing;
use crate::fault::bad;
use crate::{FrameErr, Kind, Node, Nodes, Octets, Reason};
use arrayvec::ArrayVec;
use std::alloc::Global;

/// What a node has after its fields, and the octet after it.
#[derive(Drop)]
pub(crate) struct Body {
    pub tail: Octets,
    pub children: Nodes,
    pub at: usize,
}

/// Reads a child that ends after its field, appends it to its siblings, and returns the octet after
/// it.
fn read_tv(
    alloc: Global,
    frame: &[u8],
    child: Child,
    siblings: &mut Vec<Node>,
) -> Result<usize, FrameErr>
    requires short { is_tv child.kind ≡ true }
    requires before { child.at ≤ child.stop }
    requires small { length frame.now ≤ MAX_LIMIT }
    requires inside { child.stop ≤ length frame.now }
    requires begins { (level : ℕ) × BeginsBehind frame.now child.kind (forest siblings.old.items)
        level child.at child.stop }
    ensures within { MatchResult result (λ at. (child.at ≤ at)
        × (at ≤ child.stop)) (λ _. Unit {0}) }
    ensures read { AddsChild frame.now child (forest siblings.old.items) (forest siblings.new.items)
        result }
{
    let (value, at) = read_value(frame, child.at, child.stop, child.kind)?;
    let tail = Octets::new(Vec::new(alloc));
    let children = Nodes::new(Vec::new(alloc));
    let octets = (1 + at - child.at) as u32;
    let mut fields = ArrayVec::new();
    fields.push(value);
    siblings.reserve(1)?;
    siblings.push_reserved(Node::of_octets(child.kind, fields, tail, children, octets));
    Ok(at)
}

/// Reads a child with a length, this many levels below the message, appends it to its siblings, and
/// returns the octet after it.
#[cycle(read)]
fn read_tlv(
    alloc: Global,
    frame: &[u8],
    level: u8,
    child: Child,
    siblings: &mut Vec<Node>,
) -> Result<usize, FrameErr>
    requires long { is_tv child.kind ≡ false }
    requires behind { 2 ≤ child.at }
    requires before { child.at ≤ child.stop }
    requires small { length frame.now ≤ MAX_LIMIT }
    requires inside { child.stop ≤ length frame.now }
    requires shallow { level ≤ MAX_DEPTH }
    requires begins { BeginsBehind frame.now child.kind (forest siblings.old.items) level
        child.at child.stop }
    ensures within { MatchResult result (λ at. (child.at ≤ at)
        × (at ≤ child.stop)) (λ _. Unit {0}) }
    ensures read { AddsChildAt level frame.now child (forest siblings.old.items)
        (forest siblings.new.items) result }
{
    let mut fields = ArrayVec::new();
    let kind = Kind::Parameter(child.kind);
    let body = read_body(alloc, frame, level, child.at, child.stop, kind, &mut fields)?;
    let at = body.at;
    let octets = (4 + at - child.at) as u32;
    siblings.push(Node::of_octets(child.kind, fields, body.tail, body.children, octets))?;
    Ok(at)
}

/// For how many children room is made at first: for short bodies one for each four octets, at most
/// 16; for longer bodies one for each 32 octets.
fn room_for(octets: usize) -> usize
    requires { octets ≤ MAX_LIMIT }
    ensures { 32 * result ≤ MAX_LIMIT }
{
    (octets / 4).min(16).max(octets / 32)
}

/// Reads what follows the head of a node of a kind, from one octet to another, this many levels
/// below the message. The fields that are not reserved are put into `fields`.
#[cycle(read)]
pub(crate) fn read_body(
    alloc: Global,
    frame: &[u8],
    level: u8,
    from: usize,
    stop: usize,
    kind: Kind,
    fields: &mut ArrayVec<u128, 12>,
) -> Result<Body, FrameErr>
    requires behind { 2 ≤ from }
    requires before { from ≤ stop }
    requires small { length frame.now ≤ MAX_LIMIT }
    requires inside { stop ≤ length frame.now }
    requires shallow { level ≤ MAX_DEPTH }
    requires has_length { is_tv_kind kind ≡ false }
    requires fresh { fields.old.items ≡ [] }
    requires begins { Begins frame.now kind level from stop }
    ensures within { MatchResult result (λ x. (from ≤ x.at) × (x.at ≤ stop)) (λ _. Unit {0}) }
    ensures count { MatchResult result (λ _. length fields.new.items
        ≡ length (plain_fields_of kind)) (λ _. Unit {0}) }
    ensures whole { MatchResult result (λ x. unwrap_or (as_read (tail_of kind) x.tail) []
        ≡ x.tail) (λ _. Unit {0}) }
    ensures read { ReadsBody frame.now kind level from stop fields.new.items result }
{
    let behind = read_fields(frame, from, stop, kind, fields)?;
    let tail = read_tail(alloc, frame, behind, stop, kind, fields.as_slice())?;
    let mut children = Vec::with_capacity(alloc, room_for(stop - tail.at))?;
    let mut at = tail.at;
    'children: while at < stop {
        let child = begin_child(frame, level, at, stop, kind, children.as_slice())?;
        at = if llrp_schema::is_tv(child.kind) {
            read_tv(alloc, frame, child, &mut children)?
        } else {
            read_tlv(alloc, frame, level + 1, child, &mut children)?
        };
    }
    let enough = none_missing(llrp_schema::groups(kind), children.as_slice());
    if !enough {
        return Err(bad(8 * stop, Reason::Missing));
    }
    Ok(Body {
        tail: tail.octets,
        children: Nodes::new(children),
        at,
    })
}
