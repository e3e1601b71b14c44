//! What the tables say about a kind; one function serves messages and parameters.

ghost use Rattle.std.specs.Prelude.{◌≡◌, map};
ghost use Rattle.llrp_schema.specs.Calls.Schema.{field_rule, group_rule};
ghost use Rattle.llrp_schema.specs.Private.Schema.{kind_rule};
ghost use Rattle.llrp_schema.specs.Schema.{rule_of, number_of, name_of, fields_of, tail_of, groups_of, set_of_kind};

use crate::kinds::{Definition, Field, Group, Kind, KindSet, MsgKind, ParamKind, Tail};
use crate::messages::message;
use crate::parameters::parameter;

/// The row of a kind.
#[tactic(auto, unfolding(crate::specs::Schema::rule_of))]
fn definition(kind: Kind) -> &'static Definition
    ensures { kind_rule result.now ≡ rule_of kind }
{
    match kind {
        Kind::Message(kind) => message(kind),
        Kind::Parameter(kind) => parameter(kind),
    }
}

/// Whether a kind is of the profile or of the whole standard.
#[inline(always)]
pub fn kind_set(kind: Kind) -> KindSet
    ensures { result ≡ set_of_kind kind }
{
    match kind {
        Kind::Message(kind) => message_set(kind),
        Kind::Parameter(kind) => parameter_set(kind),
    }
}

/// Whether a message is of the profile, whose messages come first.
#[inline(always)]
#[tactic(auto, unfolding(crate::specs::Schema::set_of_kind, crate::specs::Schema::rule_of, crate::specs::Schema::message_rule))]
fn message_set(kind: MsgKind) -> KindSet
    ensures { result ≡ set_of_kind (Kind.Message kind) }
{
    let index = kind as usize;
    if index < 25 {
        KindSet::Profile
    } else {
        KindSet::Standard
    }
}

/// Whether a parameter is of the profile, whose parameters come first.
#[inline(always)]
#[tactic(auto, unfolding(crate::specs::Schema::set_of_kind, crate::specs::Schema::rule_of, crate::specs::Schema::param_rule))]
fn parameter_set(kind: ParamKind) -> KindSet
    ensures { result ≡ set_of_kind (Kind.Parameter kind) }
{
    let index = kind as usize;
    if index < 54 {
        KindSet::Profile
    } else {
        KindSet::Standard
    }
}

/// The number that a kind has in the header of a message or parameter.
#[tactic(auto, unfolding(crate::specs::Schema::number_of))]
pub fn number(kind: Kind) -> u16
    ensures { result ≡ number_of kind }
{
    definition(kind).number
}

/// The name of a kind, as LLRP 1.1 spells it.
#[tactic(auto, unfolding(crate::specs::Schema::name_of))]
pub fn name(kind: Kind) -> &'static str
    ensures { result.now ≡ name_of kind }
{
    definition(kind).name
}

/// The fields of a kind in the order in which they are sent, reserved ones included.
#[tactic(auto, unfolding(crate::specs::Schema::fields_of))]
pub fn fields(kind: Kind) -> &'static [Field]
    ensures { map field_rule result.now ≡ fields_of kind }
{
    definition(kind).fields
}

/// What a kind has between its fields and its children. Of messages only CUSTOM_MESSAGE has something there: its data.
#[tactic(auto, unfolding(crate::specs::Schema::tail_of))]
pub fn tail(kind: Kind) -> Tail
    ensures { result ≡ tail_of kind }
{
    definition(kind).tail
}

/// The groups of children of a kind, in the order in which a missing child is looked for.
#[tactic(auto, unfolding(crate::specs::Schema::groups_of))]
pub fn groups(kind: Kind) -> &'static [Group]
    ensures { map group_rule result.now ≡ groups_of kind }
{
    definition(kind).groups
}
