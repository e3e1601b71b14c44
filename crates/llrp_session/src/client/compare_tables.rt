//! Compares the ROSpecs that a reader lists with a client's view.

ghost use Rattle.std.specs.Prelude.{◌≡◌};
ghost use Rattle.std.specs.List.{list_any, list_all};
ghost use Rattle.llrp_session.specs.Reading.{rospecs_in};
ghost use Rattle.llrp_session.specs.ClientMachine as machine;

use crate::parse::find::{field_at, is_kind};
use crate::parse::rospec::state_number;
use crate::types::{Taken, Viewed};
use llrp_tree::{Message, Node, Nodes, ParamKind};

/// The ROSpecs that a message lists. It takes no memory.
pub(super) fn rospecs_of(message: Message) -> Nodes
    ensures { result ≡ rospecs_in message.children }
{
    let mut nodes = message.into_children().into_vec();
    nodes.retain(|node| is_kind(ParamKind::RoSpec, node));
    Nodes::new(nodes)
}

/// What the ROSpecs that a reader lists mean: `Table` if they are those of the view, and `Differs`
/// otherwise.
pub(super) fn compared(rospecs: Nodes, view: &[Viewed]) -> Taken
    ensures { result ≡ machine.compared rospecs view.now }
{
    if is_view(rospecs.as_slice(), view) {
        Taken::Table(rospecs)
    } else {
        Taken::Differs(rospecs)
    }
}

/// Whether ROSpecs have no id twice, and have exactly the ids and states of a view.
fn is_view(rospecs: &[Node], view: &[Viewed]) -> bool
    ensures { result ≡ machine.is_view rospecs.now view.now }
{
    names_none_twice(rospecs) && are_seen(rospecs, view) && are_listed(view, rospecs)
}

/// Whether no two ROSpecs have the same id.
fn names_none_twice(rospecs: &[Node]) -> bool
    ensures { result ≡ machine.names_none_twice rospecs.now }
{
    let mut rest = rospecs;
    while let [rospec, others @ ..] = rest {
        if is_named(rospec, others) {
            return false;
        }
        rest = others;
    }
    true
}

/// Whether a ROSpec has the same id as one of the others.
fn is_named(rospec: &Node, others: &[Node]) -> bool
    ensures { result ≡ list_any (machine.names_same rospec.now) others.now }
{
    others
        .iter()
        .any(|other| field_at(rospec, 0) == field_at(other, 0))
}

/// Whether each of these ROSpecs is in a view.
fn are_seen(rospecs: &[Node], view: &[Viewed]) -> bool
    ensures { result ≡ list_all (λ t. list_any (machine.shows t) view.now) rospecs.now }
{
    rospecs.iter().all(|rospec| is_seen(rospec, view))
}

/// Whether a ROSpec is in a view, in the same state.
fn is_seen(rospec: &Node, view: &[Viewed]) -> bool
    ensures { result ≡ list_any (machine.shows rospec.now) view.now }
{
    view.iter().any(|viewed| shows(rospec, viewed))
}

/// Whether each ROSpec of a view is listed.
fn are_listed(view: &[Viewed], rospecs: &[Node]) -> bool
    ensures { result ≡ list_all (λ v. list_any (λ t. machine.shows t v) rospecs.now) view.now }
{
    view.iter().all(|viewed| is_listed(viewed, rospecs))
}

/// Whether a ROSpec of a view is listed, in the same state.
fn is_listed(viewed: &Viewed, rospecs: &[Node]) -> bool
    ensures { result ≡ list_any (λ t. machine.shows t viewed.now) rospecs.now }
{
    rospecs.iter().any(|rospec| shows(rospec, viewed))
}

/// Whether a listed ROSpec has the id and the state of this one of a view.
fn shows(rospec: &Node, viewed: &Viewed) -> bool
    ensures { result ≡ machine.shows rospec.now viewed.now }
{
    field_at(rospec, 0) == viewed.id as u128 && field_at(rospec, 2) == state_number(viewed.state)
}
