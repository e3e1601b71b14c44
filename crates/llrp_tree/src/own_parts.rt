//! A node's own fields and tail: their tests, and their octets.

ghost use Rattle.std.specs.Prelude.{◌≡◌, ◌≤◌, ◌<◌, ◌*◌, ◌^◌, length, map, [], ◌∷◌, true};
ghost use Rattle.std.specs.Str.{is_utf8};
ghost use Rattle.llrp_schema.specs.Schema.{bits_of, fields_of, tail_of};
ghost use Rattle.llrp_schema.specs.Calls.Schema.{field_rule};
ghost use Rattle.llrp_tree.specs.declared.node.NodeFault.TheVariants.{Tail as BadTail, Value};
ghost use Rattle.llrp_tree.specs.Calls.Lawful as law_calls;
ghost use Rattle.llrp_tree.specs.Lawful as law;
ghost use Rattle.llrp_tree.specs.Calls.Checks as checks_calls;
ghost use Rattle.llrp_tree.specs.Checks as checks;

use crate::{HEADER_OCTETS, NodeFault};
use llrp_schema::{Field, Kind, ParamKind, Tail};

/// Whether there is a value for each field that is not reserved, and none is above the field's
/// greatest.
fn values_fit(rules: &[Field], values: &[u128]) -> bool
    ensures { result ≡ checks.values_fit (map field_rule rules.now) values.now }
{
    match rules {
        [] => true,
        [rule, rules @ ..] => {
            if rule.reserved {
                return values_fit(rules, values);
            }
            match values {
                [] => false,
                [value, values @ ..] => *value <= rule.greatest && values_fit(rules, values),
            }
        }
    }
}

/// Whether octets are well-formed UTF-8.
fn is_utf8(octets: &[u8]) -> bool
    ensures { result ≡ is_utf8 octets.now }
{
    match std::str::from_utf8(octets) {
        Ok(_) => true,
        Err(_) => false,
    }
}

/// Whether a tail has its form, and as many octets as that allows.
fn tail_fits(form: Tail, values: &[u128], tail: &[u8]) -> bool
    ensures { result ≡ checks.tail_fits form values.now tail.now }
{
    match form {
        Tail::Absent => tail.len() == 0,
        Tail::Words => tail.len() % 2 == 0 && tail.len() / 2 <= 65535,
        Tail::Text => tail.len() <= 65535 && is_utf8(tail),
        Tail::Bits => match values {
            [] => tail.len() == 0,
            [bits, ..] => tail.len() as u128 == bits / 8 + (bits % 8 + 7) / 8,
        },
        Tail::Data => true,
    }
}

/// The first test that fails of a node's own values and tail: `Value`, then `Tail`. The tests of its
/// children and of its length come after these.
pub fn own_fault(kind: Kind, values: &[u128], tail: &[u8]) -> Option<NodeFault>
    ensures { result ≡ checks.first_failed (checks_calls.own_tests kind values.now tail.now) }
{
    if !values_fit(llrp_schema::fields(kind), values) {
        return Some(NodeFault::Value);
    }
    if !tail_fits(llrp_schema::tail(kind), values, tail) {
        return Some(NodeFault::Tail);
    }
    None
}

#[inline(always)]
fn field_bits(rules: &[Field]) -> u128
    ensures value { result ≡ bits_of (map field_rule rules.now) }
    ensures bound { result ≤ 4294967295 * length rules.now }
{
    let mut bits: u128 = 0;
    for rule in rules {
        bits += rule.width as u128;
    }
    bits
}

/// How many octets the fields and the tail of a kind have.
#[inline(always)]
#[tactic(auto, unfolding(crate::specs::Lawful::body_octets))]
pub(crate) fn body_octets(kind: Kind, tail: &[u8]) -> u128
    ensures value { result ≡ law.body_octets kind tail.now }
    ensures bound { result < 2 ^ 100 }
{
    let count: u128 = match llrp_schema::tail(kind) {
        Tail::Words | Tail::Text => 2,
        Tail::Absent | Tail::Bits | Tail::Data => 0,
    };
    field_bits(llrp_schema::fields(kind)) / 8 + count + tail.len() as u128
}

/// How many octets a parameter's head has.
#[inline(always)]
pub(crate) fn head_octets(kind: ParamKind) -> u128
    ensures value { result ≡ law.head_octets kind }
    ensures few { result ≤ 4 }
{
    if llrp_schema::is_tv(kind) { 1 } else { 4 }
}

/// How many octets a node has without its children: its head or header, its fields, the count of
/// its tail, and the tail.
#[inline(always)]
pub fn own_octets(kind: Kind, tail: &[u8]) -> u128
    ensures value { result ≡ law_calls.own_octets kind tail.now }
    ensures bound { result < 2 ^ 101 }
{
    match kind {
        Kind::Message(_) => HEADER_OCTETS as u128 + body_octets(kind, tail),
        Kind::Parameter(parameter) => head_octets(parameter) + body_octets(kind, tail),
    }
}
