//! The members that an object of a kind has.

ghost use Rattle.std.specs.Prelude.{◌≡◌, ◌+◌, ◌≤◌, ◌∷◌, ◌++◌, [], length, map};
ghost use Rattle.arrayvec.specs.ArrayVec.{array_vec_len};
ghost use Rattle.llrp_schema.specs.Calls.Schema.{field_rule};
ghost use Rattle.llrp_json.specs.JsonItems.{field_name};
ghost use Rattle.llrp_json_read.specs.MemberRules.{field_member, first_rules, member_rules, needed, tail_rules};
ghost use Rattle.llrp_json_read.specs.Private.Words.{field_members};
ghost use Rattle.llrp_json_read.specs.Private.Words.{member_rule};
ghost use Rattle.llrp_json_read.specs.ObjectRefused.{tail_member};

use crate::names::{ObjectMember, Shape};
use arrayvec::ArrayVec;
use llrp_schema::{Field, Kind, Tail};

/// How many bits the field of an EPC-96 has; no other field has as many.
pub(crate) const EPC_BITS: u32 = 96;

/// The name of the member of a field.
pub(crate) fn field_name(rule: &Field) -> &'static str
    ensures { result.now ≡ field_name (field_rule rule.now) }
{
    if rule.width == EPC_BITS {
        "EPC"
    } else {
        rule.name
    }
}

/// What the value of a field is.
fn field_shape(rule: &Field) -> Shape
    ensures { result ≡ (field_member (field_rule rule.now)).shape }
{
    if rule.width == EPC_BITS {
        Shape::Text
    } else {
        Shape::Integer
    }
}

/// A member that is always there.
fn needed(name: &'static str, shape: Shape) -> ObjectMember
    ensures { member_rule result ≡ needed name.now shape }
{
    ObjectMember {
        name,
        shape,
        optional: false,
    }
}

/// The members before the fields.
fn first_members(kind: Kind) -> ArrayVec<ObjectMember, 17>
    ensures rules { map member_rule result.items ≡ first_rules kind }
    ensures few { array_vec_len result ≤ 3 }
{
    let mut rules = ArrayVec::new();
    match kind {
        Kind::Message(_) => {
            rules.push(needed("message", Shape::Text));
            rules.push(needed("version", Shape::Integer));
            rules.push(needed("id", Shape::Integer));
        }
        Kind::Parameter(_) => rules.push(needed("parameter", Shape::Text)),
    }
    rules
}

/// Appends the members of plain fields.
fn push_fields(rules: &mut ArrayVec<ObjectMember, 17>, fields: &[Field])
    requires room { array_vec_len rules.old + length (field_members (map field_rule fields.now)) ≤ 15 }
    ensures rules { map member_rule rules.new.items ≡ map member_rule rules.old.items ++ field_members (map field_rule fields.now) }
    ensures few { array_vec_len rules.new ≤ 15 }
{
    for field in fields {
        if !field.reserved {
            rules.push(needed(field_name(field), field_shape(field)));
        }
    }
}

/// Appends the member of a tail, if there is one.
fn push_tail(rules: &mut ArrayVec<ObjectMember, 17>, form: Tail)
    requires room { array_vec_len rules.old ≤ 15 }
    ensures rules { map member_rule rules.new.items ≡ map member_rule rules.old.items ++ tail_rules form }
    ensures few { array_vec_len rules.new ≤ 16 }
{
    match form {
        Tail::Absent => {}
        Tail::Words => rules.push(needed("words", Shape::Integers)),
        Tail::Text => rules.push(needed("text", Shape::Text)),
        Tail::Bits => rules.push(needed("bits", Shape::Text)),
        Tail::Data => rules.push(needed("octets", Shape::Text)),
    }
}

/// The members of an object of a kind, in the order in which `show` writes them.
#[tactic(auto, unfolding(crate::specs::MemberRules::member_rules))]
pub(crate) fn member_rules(kind: Kind) -> ArrayVec<ObjectMember, 17>
    ensures { map member_rule result.items ≡ member_rules kind }
{
    let mut rules = first_members(kind);
    push_fields(&mut rules, llrp_schema::fields(kind));
    push_tail(&mut rules, llrp_schema::tail(kind));
    rules.push(ObjectMember {
        name: "parameters",
        shape: Shape::Array,
        optional: true,
    });
    rules
}

/// The name of the member of a tail; empty where there is no tail.
pub(crate) fn tail_name(form: Tail) -> &'static str
    ensures { result.now ≡ tail_member form }
{
    match form {
        Tail::Absent => "",
        Tail::Words => "words",
        Tail::Text => "text",
        Tail::Bits => "bits",
        Tail::Data => "octets",
    }
}
