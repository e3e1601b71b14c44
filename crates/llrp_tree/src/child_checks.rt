//! The tests of a parameter's and a message's children, lengths and levels, in their order. The
//! tests of its own fields and tail are in `parts`.

ghost use Rattle.std.specs.Prelude.{◌≡◌, ◌≤◌, ◌+◌, ◌*◌, ◌==◌, ◌||◌, length, map, []};
ghost use Rattle.llrp_schema.specs.Calls.Schema.{field_rule, group_rule};
ghost use Rattle.llrp_schema.specs.declared.kinds.Kind.TheVariants.{Message, Parameter};
ghost use Rattle.llrp_tree.specs.Tree.{forest};
ghost use Rattle.llrp_tree.specs.Lawful as law;
ghost use Rattle.llrp_tree.specs.Checks as checks;

use crate::own_parts::own_fault;
use crate::{HEADER_OCTETS, MAX_DEPTH, MAX_LIMIT, MAX_OCTETS, Node, NodeFault};
use arrayvec::ArrayVec;
use llrp_schema::{Field, Group, Kind, MsgKind, ParamKind};

/// Copies the fields into an array.
pub(crate) fn kept(fields: &[u128]) -> ArrayVec<u128, 12>
    requires { length fields.now ≤ 12 }
    ensures { result.items ≡ fields.now }
{
    let mut kept = ArrayVec::new();
    for field in fields {
        kept.push(*field);
    }
    kept
}

/// How many octets and levels nodes have together.
#[derive(Clone, Copy, Debug)]
pub(crate) struct Extent {
    pub octets: u128,
    pub levels: u8,
}

/// The octets and the levels of nodes. Each node is lawful by its type.
pub(crate) fn extent_of(nodes: &[Node]) -> Extent
    ensures octets { result.octets ≡ law.octets (forest nodes.now) }
    ensures bound { result.octets ≤ MAX_OCTETS * length nodes.now }
    ensures levels { result.levels ≡ law.levels (forest nodes.now) }
    ensures few { result.levels ≤ MAX_DEPTH }
    ensures lawful { law.AllLawful (forest nodes.now) }
{
    let mut octets: u128 = 0;
    let mut levels: u8 = 0;
    for node in nodes {
        node.lawful();
        octets += node.length() as u128;
        levels = levels.max(node.levels());
    }
    Extent { octets, levels }
}

fn count_fits(rules: &[Field], values: &[u128]) -> bool
    ensures { result ≡ checks.count_fits (map field_rule rules.now) values.now }
{
    let mut count: usize = 0;
    for rule in rules {
        if !rule.reserved {
            count += 1;
        }
    }
    values.len() == count
}

/// Whether a group has this kind.
#[inline(always)]
pub(crate) fn is_member(group: &Group, kind: ParamKind) -> bool
    ensures { result ≡ law.is_member (group_rule group.now) kind }
{
    for member in group.members {
        if *member == kind {
            return true;
        }
    }
    false
}

pub(crate) fn has_place(groups: &[Group], kind: ParamKind) -> bool
    ensures { result ≡ law.has_place (map group_rule groups.now) kind }
{
    for group in groups {
        if is_member(group, kind) {
            return true;
        }
    }
    false
}

#[tactic(auto, unfolding(crate::specs::Checks::all_placed))]
fn all_placed(groups: &[Group], nodes: &[Node]) -> bool
    ensures { result ≡ checks.all_placed (map group_rule groups.now) nodes.now }
{
    for node in nodes {
        if !has_place(groups, node.kind()) {
            return false;
        }
    }
    true
}

/// How many of the nodes belong to a group.
pub(crate) fn members(group: &Group, nodes: &[Node]) -> usize
    ensures value { result ≡ checks.members (group_rule group.now) nodes.now }
{
    let mut count: usize = 0;
    for node in nodes {
        if is_member(group, node.kind()) {
            count += 1;
        }
    }
    count
}

#[tactic(auto, unfolding(crate::specs::Checks::none_too_many))]
fn none_too_many(groups: &[Group], nodes: &[Node]) -> bool
    ensures { result ≡ checks.none_too_many (map group_rule groups.now) nodes.now }
{
    for group in groups {
        if let Some(most) = group.most {
            if members(group, nodes) > most as usize {
                return false;
            }
        }
    }
    true
}

/// Whether each group has as many nodes as it needs.
#[tactic(auto, unfolding(crate::specs::Checks::none_missing))]
pub(crate) fn none_missing(groups: &[Group], nodes: &[Node]) -> bool
    ensures { result ≡ checks.none_missing (map group_rule groups.now) nodes.now }
{
    for group in groups {
        if group.least > 0 && members(group, nodes) < group.least as usize {
            return false;
        }
    }
    true
}

/// The first test of the parts that fails by the tables.
#[tactic(auto, unfolding(crate::specs::Checks::table_tests))]
fn table_fault(
    kind: Kind,
    version: bool,
    values: &[u128],
    tail: &[u8],
    nodes: &[Node],
) -> Option<NodeFault>
    ensures { result ≡ checks.first_failed (checks.table_tests kind version values.now
        tail.now nodes.now) }
{
    let rules = llrp_schema::fields(kind);
    let groups = llrp_schema::groups(kind);
    if !count_fits(rules, values) {
        return Some(NodeFault::FieldCount);
    }
    if !version {
        return Some(NodeFault::Value);
    }
    if let Some(fault) = own_fault(kind, values, tail) {
        return Some(fault);
    }
    if !all_placed(groups, nodes) {
        return Some(NodeFault::Misplaced);
    }
    if !none_too_many(groups, nodes) {
        return Some(NodeFault::TooMany);
    }
    if !none_missing(groups, nodes) {
        return Some(NodeFault::Missing);
    }
    None
}

/// The first test of a parameter's parts that fails, given the levels of its children.
#[tactic(auto, unfolding(crate::specs::Checks::first_fault))]
pub(crate) fn first_fault(
    kind: ParamKind,
    values: &[u128],
    tail: &[u8],
    nodes: &[Node],
    levels: u8,
    octets: u128,
) -> Option<NodeFault>
    requires few { levels ≡ law.levels (forest nodes.now) }
    requires long { octets ≡ law.head_octets kind + law.body_octets (Parameter kind) tail.now +
        law.octets (forest nodes.now) }
    ensures { result ≡ checks.first_fault kind values.now tail.now (forest nodes.now) }
{
    if let Some(fault) = table_fault(Kind::Parameter(kind), true, values, tail, nodes) {
        return Some(fault);
    }
    if levels >= MAX_DEPTH {
        return Some(NodeFault::TooDeep);
    }
    if octets > MAX_OCTETS as u128 {
        return Some(NodeFault::TooLong);
    }
    None
}

/// Whether a version is that of LLRP 1.0.1 or that of LLRP 1.1.
pub(crate) fn is_known_version(version: u8) -> bool
    ensures { result ≡ ((version == 1) || (version == 2)) }
{
    version == 1 || version == 2
}

/// The first test of a message's parts that fails, given its octets.
pub(crate) fn first_message_fault(
    version: u8,
    kind: MsgKind,
    values: &[u128],
    tail: &[u8],
    nodes: &[Node],
    octets: u128,
) -> Option<NodeFault>
    requires { octets ≡ HEADER_OCTETS + law.body_octets (Message kind) tail.now
        + law.octets (forest nodes.now) }
    ensures { result ≡ checks.first_message_fault version kind values.now tail.now
        (forest nodes.now) }
{
    let known = is_known_version(version);
    if let Some(fault) = table_fault(Kind::Message(kind), known, values, tail, nodes) {
        return Some(fault);
    }
    if octets > MAX_LIMIT as u128 {
        return Some(NodeFault::TooLong);
    }
    None
}
