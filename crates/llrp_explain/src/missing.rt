//! The sentence for a node that ends without a parameter that it needs.

ghost use Rattle.std.specs.Prelude.{◌≡◌, ◌≤◌, ◌%◌, ◌⊎◌, ◌++◌, true, false, All, OnOk, map};
ghost use Rattle.llrp_schema.specs.Calls.Schema.{group_rule};
ghost use Rattle.llrp_schema.specs.Schema.{groups_of};
ghost use Rattle.llrp_tree.specs.Tree.{Forest};
ghost use Rattle.llrp_stream.specs.Calls.Reading.{AreSeen};
ghost use Rattle.llrp_explain.specs.Calls.FaultSentences.{first_missing, missing_sentence};

use crate::kind_texts::push_choice;
use llrp_schema::laws::groups_are_narrow;
use llrp_schema::{Group, Kind, groups, name};
use std::alloc::AllocError;

/// Whether a group needs a child and has none; the lowest of the bits is set if it has one.
fn lacks(group: &Group, seen: u32) -> bool
    ensures yes { result ≡ true → (1 ≤ group.now.least) × (seen % 2 ≡ 0) }
    ensures no { result ≡ false → (group.now.least ≡ 0) ⊎ (seen % 2 ≡ 1) }
{
    group.least > 0 && seen % 2 == 0
}

/// Appends the members of the first group that needs a child and has none. Bit k, from the lowest on,
/// is set if the group with index k has one.
fn push_first_missing(text: &mut Vec<u8>, groups: &[Group], seen: u32) -> Result<(), AllocError>
    requires { All (λ group. group.least ≤ 1) groups.now }
    ensures { OnOk result ((children : Forest) → AreSeen (map group_rule groups.now) children seen
        → text.new.items ≡ text.old.items ++ first_missing (map group_rule groups.now) children) }
{
    let [group, rest @ ..] = groups else {
        return Ok(());
    };
    let here = lacks(group, seen);
    if here {
        return push_choice(text, group.members);
    }
    push_first_missing(text, rest, seen / 2)
}

/// The groups of a kind, each of which needs one child at most.
fn narrow_groups(kind: Kind) -> &'static [Group]
    ensures rules { map group_rule result.now ≡ groups_of kind }
    ensures narrow { All (λ group. group.least ≤ 1) result.now }
{
    groups_are_narrow();
    groups(kind)
}

/// Appends the sentence for a node that ends without a parameter that it needs.
pub(crate) fn push_missing_sentence(
    text: &mut Vec<u8>,
    kind: Kind,
    seen: u32,
) -> Result<(), AllocError>
    ensures { OnOk result ((children : Forest) → AreSeen (groups_of kind) children seen
        → text.new.items ≡ text.old.items
        ++ missing_sentence kind (first_missing (groups_of kind) children)) }
{
    text.extend_from_slice(b"Missing: ")?;
    text.extend_from_slice(name(kind).as_bytes())?;
    text.extend_from_slice(b" ends without ")?;
    push_first_missing(text, narrow_groups(kind), seen)
}
