//! Closes a line: its tests, and what the line above keeps of it.

ghost use Rattle.std.specs.Prelude.{◌≡◌, ◌<◌, ◌+◌, ◌∷◌, None, Some, [], nat_le};
ghost use Rattle.llrp_schema.specs.declared.kinds.Kind.TheVariants.{Parameter};
ghost use Rattle.llrp_schema.specs.declared.kinds.ParamKind.{ParamKind};
ghost use Rattle.llrp_schema.specs.Schema.{groups_of};
ghost use Rattle.llrp_tree.specs.declared.node.NodeFault.TheVariants.{TooDeep, TooLong};
ghost use Rattle.llrp_tree.specs.declared.TheConstants.{MAX_DEPTH, MAX_LIMIT, MAX_OCTETS};
ghost use Rattle.llrp_tree.specs.Checks.{first_failed, none_missing};
ghost use Rattle.llrp_tree.specs.Tree.{Forest, and, trees};
ghost use Rattle.llrp_listing.specs.Private.OpenNodes.{AddsChild, CountsAt, CountsChild, IsHeld, OpenNode, after_misplaced, after_too_many, node_fault};
ghost use Rattle.llrp_stream.specs.Calls.Reading.{AreSeen};

use crate::encode::open_lines::LineRecord;
use llrp_schema::{Kind, ParamKind, Place, place, required};
use llrp_tree::{MAX_DEPTH, MAX_LIMIT, MAX_OCTETS, NodeFault};

/// The fault of a parameter with too many levels below it, or with too many octets.
#[inline(always)]
fn size_fault(levels: u8, octets: u32) -> Option<NodeFault>
    ensures { result ≡ first_failed ((nat_le (levels + 1) MAX_DEPTH, TooDeep)
        ∷ (nat_le octets MAX_OCTETS, TooLong) ∷ []) }
{
    if levels >= MAX_DEPTH {
        return Some(NodeFault::TooDeep);
    }
    if octets > MAX_OCTETS {
        return Some(NodeFault::TooLong);
    }
    None
}

/// The fault of a message with too many octets.
fn message_size_fault(octets: u32) -> Option<NodeFault>
    ensures { result ≡ first_failed ((nat_le octets MAX_LIMIT, TooLong) ∷ []) }
{
    if octets > MAX_LIMIT {
        return Some(NodeFault::TooLong);
    }
    None
}

/// Whether each group of a kind has as many children as it needs.
#[inline(always)]
fn is_enough(kind: Kind, seen: u32) -> bool
    ensures { (children : Forest) → AreSeen (groups_of kind) children seen
        → result ≡ none_missing (groups_of kind) (trees children) }
{
    let bits = required(kind);
    seen & bits == bits
}

/// The first test that fails of those that come after the children.
#[inline(always)]
fn late_fault(held: &LineRecord) -> Option<NodeFault>
    ensures { (n : OpenNode) → IsHeld held.now n → held.now.fault ≡ None
        → result ≡ node_fault n.line n.children }
{
    if !is_enough(held.kind, held.seen) {
        return Some(NodeFault::Missing);
    }
    match held.kind {
        Kind::Message(_) => message_size_fault(held.octets),
        Kind::Parameter(_) => size_fault(held.levels, held.octets),
    }
}

/// The first test that fails of a parameter or message that has all its children.
#[inline(always)]
pub fn fault_of(held: &LineRecord) -> Option<NodeFault>
    ensures { (n : OpenNode) → IsHeld held.now n → result ≡ node_fault n.line n.children }
{
    match held.fault {
        Some(fault) => Some(fault),
        None => late_fault(held),
    }
}

/// The first fault, given that a child belongs to no group.
#[inline(always)]
fn misplaced(fault: Option<NodeFault>) -> NodeFault
    ensures { result ≡ after_misplaced fault }
{
    match fault {
        None => NodeFault::Misplaced,
        Some(NodeFault::TooMany) => NodeFault::Misplaced,
        Some(fault) => fault,
    }
}

/// The first fault, given that a group has too many children.
#[inline(always)]
fn too_many(fault: Option<NodeFault>) -> NodeFault
    ensures { result ≡ after_too_many fault }
{
    match fault {
        None => NodeFault::TooMany,
        Some(fault) => fault,
    }
}

/// The first fault, and the groups that have a child, after some children.
#[derive(Clone, Copy)]
pub struct Count {
    pub fault: Option<NodeFault>,
    pub seen: u32,
}

/// Counts one more child of the group at a place.
#[inline(always)]
fn count_at(place: Place, fault: Option<NodeFault>, seen: u32) -> Count
    requires { place.index < 32 }
    ensures { CountsAt place fault seen result }
{
    let has = (seen >> place.index) & 1 == 1;
    if has && place.once {
        let fault = Some(too_many(fault));
        return Count { fault, seen };
    }
    let seen = seen | (1u32 << place.index);
    Count { fault, seen }
}

/// Counts one more child of a kind.
#[inline(always)]
fn count_child(kind: Kind, fault: Option<NodeFault>, seen: u32, child: ParamKind) -> Count
    ensures { CountsChild kind child fault seen result }
{
    match place(kind, child) {
        None => {
            let fault = Some(misplaced(fault));
            Count { fault, seen }
        }
        Some(place) => count_at(place, fault, seen),
    }
}

/// Returns the record of the line above, with a closed parameter as its last child.
#[inline(always)]
pub fn add_child(parent: &LineRecord, child: &LineRecord, kind: ParamKind) -> LineRecord
    requires { child.now.levels < 255 }
    ensures same { (result.kind ≡ parent.now.kind) × (result.number ≡ parent.now.number) }
    ensures held { AddsChild kind parent.now child.now result }
{
    let count = count_child(parent.kind, parent.fault, parent.seen, kind);
    LineRecord {
        kind: parent.kind,
        number: parent.number,
        fault: count.fault,
        seen: count.seen,
        levels: parent.levels.max(child.levels + 1),
        octets: parent.octets.saturating_add(child.octets),
    }
}
