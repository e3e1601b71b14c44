//! Finds parameters among others by their kind.

ghost use Rattle.std.specs.Prelude.{◌≡◌, ◌≤◌, Some, find as find_first};
ghost use Rattle.llrp_session.specs.RoSpec.{is_kind as the_test, first_below as the_first_below, field_of as the_field};
ghost use Rattle.llrp_session.specs.Calls.ReadWords.{behind, IsOfKind, greatest};

use llrp_tree::{Node, Nodes, ParamKind};

/// Whether a parameter is of a kind.
#[tactic(auto, using(llrp_tree::proofs::KindLemmas::same_by_number))]
pub(crate) fn is_kind(kind: ParamKind, node: &Node) -> bool
    ensures { result ≡ the_test kind node.now }
{
    kind == node.kind()
}

/// The first parameter of a kind.
pub fn first(kind: ParamKind, nodes: &Nodes) -> Option<&Node>
    ensures first { behind result ≡ find_first (the_test kind) nodes.now }
    ensures lawful { IsOfKind kind (behind result) }
{
    for node in nodes.as_slice() {
        if is_kind(kind, node) {
            node.lawful();
            return Some(node);
        }
    }
    None
}

/// The first child of a kind below a parameter, which may be absent.
pub(crate) fn first_below<'a>(kind: ParamKind, parent: Option<&'a Node>) -> Option<&'a Node>
    ensures first { behind result ≡ the_first_below kind (behind parent.entry) }
    ensures lawful { IsOfKind kind (behind result) }
{
    match parent {
        Some(node) => first(kind, node.children()),
        None => None,
    }
}

/// The field with this index, reserved ones not counted; 0 if there is none.
pub(crate) fn field_at(node: &Node, i: usize) -> u128
    ensures { result ≡ the_field i (Some node.now) }
{
    node.fields().get(i).copied().unwrap_or(0)
}

/// The field with this index of a parameter of a kind, reserved ones not counted; 0 if the
/// parameter is absent.
pub fn field(kind: ParamKind, node: Option<&Node>, i: usize) -> u128
    requires { IsOfKind kind (behind node) }
    ensures value { result ≡ the_field i (behind node.entry) }
    ensures fits { result ≤ greatest kind i }
{
    match node {
        Some(node) => node.fields().get(i).copied().unwrap_or(0),
        None => 0,
    }
}
