//! Decides whether a child may begin in a node.

ghost use Rattle.std.specs.Prelude.{◌≡◌, ◌+◌, ◌↔◌, false, not, IsNone, IfSome, Option};
ghost use Rattle.llrp_schema.specs.Calls.Schema.{group_rule};
ghost use Rattle.llrp_schema.specs.Schema.{groups_of};
ghost use Rattle.llrp_tree.specs.Tree.{Forest, forest};
ghost use Rattle.llrp_tree.specs.Lawful.{count, has_place};
ghost use Rattle.llrp_tree.specs.Lawful.{at_most};
ghost use Rattle.llrp_tree.specs.OpenTree.{takes_more};
ghost use Rattle.llrp_tree.specs.Private.Reading.{ChecksKind};

use crate::child_checks::{is_member, members};
use crate::fault::bad;
use crate::{FrameErr, MAX_DEPTH, Node, ParamKind, Reason};
use llrp_schema::{Group, Kind};

/// Whether a group can take no more nodes.
pub(crate) fn is_full(group: &Group, nodes: &[Node]) -> bool
    ensures { result ≡ not (at_most group.now.most (count (group_rule group.now)
        (forest nodes.now) + 1)) }
{
    match group.most {
        Some(most) => members(group, nodes) >= most as usize,
        None => false,
    }
}

/// The only group of a parent that has this kind. It is looked for from the first group on: in short
/// nodes that is quicker than `place` and a look at the group.
#[tactic(auto, unfolding(crate::specs::OpenTree::takes_more))]
fn group_of(parent: Kind, kind: ParamKind) -> Option<&'static Group>
    ensures none { IsNone result ↔ (has_place (groups_of parent) kind ≡ false) }
    ensures some { IfSome result (λ group. (children : Forest)
        → takes_more (groups_of parent) kind children
        ≡ at_most group.now.most (count (group_rule group.now) children + 1)) }
{
    let groups = llrp_schema::groups(parent);
    for group in groups {
        if is_member(group, kind) {
            return Some(group);
        }
    }
    None
}

/// Checks a child at bit `at`, this many levels below the message, whose type is at another bit.
/// Returns its kind, or the first check that it fails.
pub(crate) fn child_kind(
    found: Option<ParamKind>,
    parent: Kind,
    siblings: &[Node],
    level: u8,
    at: usize,
    type_at: usize,
) -> Result<ParamKind, FrameErr>
    ensures { ChecksKind found parent (forest siblings.now) level at type_at result }
{
    let Some(kind) = found else {
        return Err(bad(type_at, Reason::ParamType));
    };
    let Some(group) = group_of(parent, kind) else {
        return Err(bad(at, Reason::Misplaced));
    };
    if is_full(group, siblings) {
        return Err(bad(at, Reason::TooMany));
    }
    if level > MAX_DEPTH {
        return Err(bad(at, Reason::TooDeep));
    }
    Ok(kind)
}
