//! The octets of a node before its tail: its head, its fields and the count of its tail.

ghost use Rattle.std.specs.Prelude.{◌≡◌, ◌≤◌, ◌<◌, ◌+◌, ◌-◌, ◌*◌, ◌/◌, ◌%◌, ◌^◌, ◌++◌, ◌∷◌, [], drop, length, map, true};
ghost use Rattle.tag_bits.specs.Digits.{digits};
ghost use Rattle.llrp_schema.specs.declared.kinds.Kind.TheVariants.{Message as AsMessage, Parameter};
ghost use Rattle.llrp_schema.specs.declared.kinds.Tail.TheVariants.{Absent, Text, Words};
ghost use Rattle.llrp_schema.specs.Schema.{bits_of, fields_of, tail_of};
ghost use Rattle.llrp_schema.specs.Calls.Schema.{field_rule};
ghost use Rattle.llrp_tree.specs.Lawful.{count_octets, head_octets};
ghost use Rattle.llrp_tree.specs.Calls.Lawful.{own_octets};
ghost use Rattle.llrp_tree.specs.Checks.{values_fit};
ghost use Rattle.llrp_tree.specs.Spelling.{head_of, head_digits, count_digits, message as message_head};
ghost use Rattle.llrp_tree.specs.Calls.HeadOctets.{Holds, IsInFront, IsOnlyField, all_fields, leading_digits, message_start, parameter_start};
ghost use Rattle.llrp_tree.specs.Private.HeadOctets.{message_start_digits, start_digits};
ghost use Rattle.llrp_tree.specs.Private.Writing.{is_sound};

use crate::MAX_OCTETS;
use crate::message::Message;
use crate::node::Node;
use llrp_schema::{Field, Kind, MsgKind, ParamKind, Tail};

/// What comes before the tail of a node: the octets of `octets` from the place `from` on.
#[derive(Clone, Copy)]
pub struct HeadOctets {
    pub octets: [u8; 24],
    pub from: usize,
}

/// What comes before the tail of a node, as the first octets of sixteen: eight of them are those of
/// `upper`, and the others those of `lower`, each with its most significant octet first.
#[derive(Clone, Copy)]
pub struct Front {
    pub upper: u64,
    pub lower: u64,
    /// How many of the octets come before the tail.
    pub count: usize,
}

/// The number that the bits of fields spell, and how many bits there are.
#[derive(Clone, Copy, Debug)]
struct Packed {
    number: u128,
    bits: u32,
}

/// Joins the fields of a kind to one number.
#[inline(always)]
fn pack(rules: &[Field], values: &[u128]) -> Packed
    requires sound { is_sound (map field_rule rules.now) ≡ true }
    requires small { bits_of (map field_rule rules.now) ≤ 120 }
    requires fit { values_fit (map field_rule rules.now) values.now ≡ true }
    ensures spelled { digits (bits_of (map field_rule rules.now)) result.number
        ≡ all_fields (map field_rule rules.now) values.now }
    ensures below { result.number < 2 ^ result.bits }
    ensures bits { result.bits ≡ bits_of (map field_rule rules.now) }
{
    match rules {
        [] => Packed { number: 0, bits: 0 },
        [rule, rules @ ..] => {
            if rule.reserved {
                let rest = pack(rules, values);
                return joined(rule.width, 0, rest);
            }
            match values {
                [] => unreachable!(),
                [value, values @ ..] => {
                    let rest = pack(rules, values);
                    joined(rule.width, *value, rest)
                }
            }
        }
    }
}

/// Puts a field in front of others.
#[inline(always)]
fn joined(width: u32, value: u128, rest: Packed) -> Packed
    requires below { rest.number < 2 ^ rest.bits }
    requires value { value < 2 ^ width }
    requires few { rest.bits ≤ 120 }
    requires small { width + rest.bits ≤ 128 }
    ensures spelled { digits (width + rest.bits) result.number ≡ digits width value
        ++ digits rest.bits rest.number }
    ensures below { result.number < 2 ^ result.bits }
    ensures bits { result.bits ≡ width + rest.bits }
{
    Packed {
        number: (value << rest.bits) + rest.number,
        bits: width + rest.bits,
    }
}

/// The head of a parameter of this length.
#[inline(always)]
fn head(kind: ParamKind, octets: u32) -> Packed
    requires long { octets ≤ MAX_OCTETS }
    ensures spelled { digits result.bits result.number ≡ head_digits (head_of kind octets) }
    ensures below { result.number < 2 ^ result.bits }
    ensures bits { result.bits ≡ 8 * head_octets kind }
{
    let number = llrp_schema::number(Kind::Parameter(kind)) as u128;
    if llrp_schema::is_tv(kind) {
        return Packed {
            number: 128 + number,
            bits: 8,
        };
    }
    joined(
        16,
        number,
        Packed {
            number: octets as u128,
            bits: 16,
        },
    )
}

/// The count of a tail, if its form has one.
fn count(form: Tail, tail: &[u8]) -> Packed
    requires words { form ≡ Words → length tail.now / 2 ≤ 65535 }
    requires text { form ≡ Text → length tail.now ≤ 65535 }
    ensures spelled { digits result.bits result.number ≡ count_digits form tail.now }
    ensures below { result.number < 2 ^ result.bits }
    ensures bits { result.bits ≡ 8 * count_octets form }
{
    match form {
        Tail::Words => Packed {
            number: tail.len() as u128 / 2,
            bits: 16,
        },
        Tail::Text => Packed {
            number: tail.len() as u128,
            bits: 16,
        },
        Tail::Absent | Tail::Bits | Tail::Data => Packed { number: 0, bits: 0 },
    }
}

/// A message's header: its version, kind, length and id.
fn header(version: u8, kind: MsgKind, octets: u32, id: u32) -> Packed
    requires version { version < 8 }
    ensures spelled { digits 80 result.number ≡ head_digits (message_head version kind octets id) }
    ensures below { result.number < 2 ^ 80 }
    ensures bits { result.bits ≡ 80 }
{
    let number = llrp_schema::number(Kind::Message(kind)) as u128;
    let id = Packed {
        number: id as u128,
        bits: 32,
    };
    let rest = joined(32, octets as u128, id);
    joined(16, version as u128 * 1024 + number, rest)
}

/// Sixteen octets after eight others.
#[inline(always)]
fn behind_eight(octets: [u8; 16]) -> [u8; 24]
    ensures { drop 8 result ≡ octets }
{
    let mut all = [0; 24];
    all[8..24].copy_from_slice(&octets);
    all
}

/// Puts the last `count` of sixteen octets in front of a place.
fn put_last(all: [u8; 24], to: usize, octets: [u8; 16], count: usize) -> [u8; 24]
    requires few { count ≤ 16 }
    requires room { count ≤ to }
    requires within { to ≤ 24 }
    ensures { drop (to - count) result ≡ drop (16 - count) octets ++ drop to all }
{
    let mut filled = all;
    filled[to - count..to].copy_from_slice(&octets[16 - count..16]);
    filled
}

/// The octets of a number's bits.
#[inline(always)]
fn as_octets(packed: Packed) -> HeadOctets
    requires below { packed.number < 2 ^ packed.bits }
    requires few { packed.bits ≤ 128 }
    requires whole { packed.bits % 8 ≡ 0 }
    ensures spelled { Holds result (digits packed.bits packed.number) }
    ensures from { result.from + packed.bits / 8 ≡ length result.octets }
{
    HeadOctets {
        octets: behind_eight(packed.number.to_be_bytes()),
        from: 24 - packed.bits as usize / 8,
    }
}

/// The octets of two numbers' bits, one after the other.
fn as_more_octets(head: Packed, rest: Packed) -> HeadOctets
    requires below { head.number < 2 ^ head.bits }
    requires few { head.bits ≤ 128 }
    requires whole { head.bits % 8 ≡ 0 }
    requires rest_below { rest.number < 2 ^ rest.bits }
    requires rest_few { rest.bits ≤ 128 }
    requires rest_whole { rest.bits % 8 ≡ 0 }
    requires fits { head.bits + rest.bits ≤ 192 }
    ensures spelled { Holds result (digits head.bits head.number ++ digits rest.bits rest.number) }
    ensures from { result.from + head.bits / 8 + rest.bits / 8 ≡ length result.octets }
{
    let behind = 24 - rest.bits as usize / 8;
    let count = head.bits as usize / 8;
    let octets = behind_eight(rest.number.to_be_bytes());
    HeadOctets {
        octets: put_last(octets, behind, head.number.to_be_bytes(), count),
        from: behind - count,
    }
}

/// The octets of a head and of what comes after it.
#[inline(always)]
fn both_octets(head: Packed, rest: Packed) -> HeadOctets
    requires below { head.number < 2 ^ head.bits }
    requires some { 8 ≤ head.bits }
    requires few { head.bits ≤ 128 }
    requires whole { head.bits % 8 ≡ 0 }
    requires rest_below { rest.number < 2 ^ rest.bits }
    requires rest_few { rest.bits ≤ 128 }
    requires rest_whole { rest.bits % 8 ≡ 0 }
    requires fits { head.bits + rest.bits ≤ 192 }
    ensures spelled { Holds result (digits head.bits head.number ++ digits rest.bits rest.number) }
    ensures some { result.from < length result.octets }
{
    if head.bits + rest.bits <= 128 {
        return as_octets(joined(head.bits, head.number, rest));
    }
    as_more_octets(head, rest)
}

/// The octets of a number's bits, in front.
#[inline(always)]
fn in_front(packed: Packed) -> Front
    requires below { packed.number < 2 ^ packed.bits }
    requires some { 8 ≤ packed.bits }
    requires few { packed.bits ≤ 128 }
    requires whole { packed.bits % 8 ≡ 0 }
    ensures spelled { IsInFront result (digits packed.bits packed.number) }
    ensures few { result.count ≤ 16 }
    ensures count { result.count ≡ packed.bits / 8 }
{
    let count = packed.bits as usize / 8;
    if packed.bits <= 64 {
        let upper = (packed.number as u64) << (64 - packed.bits);
        return Front {
            upper,
            lower: 0,
            count,
        };
    }
    let all = packed.number << (128 - packed.bits);
    Front {
        upper: (all >> 64) as u64,
        lower: (all % 0x1_0000_0000_0000_0000) as u64,
        count,
    }
}

/// The bits of a parameter's fields and of the count of its tail.
#[inline(always)]
fn leading_bits(kind: ParamKind, values: &[u128], tail: &[u8]) -> Packed
    requires values { values_fit (fields_of (Parameter kind)) values.now ≡ true }
    requires words { tail_of (Parameter kind) ≡ Words → length tail.now / 2 ≤ 65535 }
    requires text { tail_of (Parameter kind) ≡ Text → length tail.now ≤ 65535 }
    ensures spelled { digits result.bits result.number ≡ leading_digits (Parameter kind) values.now
        tail.now }
    ensures below { result.number < 2 ^ result.bits }
    ensures bits { result.bits ≡ bits_of (fields_of (Parameter kind))
        + 8 * count_octets (tail_of (Parameter kind)) }
{
    let whole = Kind::Parameter(kind);
    let count = count(llrp_schema::tail(whole), tail);
    let fields = pack(llrp_schema::fields(whole), values);
    joined(fields.bits, fields.number, count)
}

/// The bits of a parameter before its tail, with this length.
#[inline(always)]
fn parameter_bits(kind: ParamKind, octets: u32, values: &[u128], tail: &[u8]) -> Packed
    requires long { octets ≤ MAX_OCTETS }
    requires short { own_octets (Parameter kind) [] ≤ 16 }
    requires values { values_fit (fields_of (Parameter kind)) values.now ≡ true }
    requires words { tail_of (Parameter kind) ≡ Words → length tail.now / 2 ≤ 65535 }
    requires text { tail_of (Parameter kind) ≡ Text → length tail.now ≤ 65535 }
    ensures spelled { digits result.bits result.number ≡ parameter_start kind octets values.now
        tail.now }
    ensures below { result.number < 2 ^ result.bits }
    ensures some { 8 ≤ result.bits }
    ensures few { result.bits ≤ 128 }
    ensures whole { result.bits % 8 ≡ 0 }
{
    let leading = leading_bits(kind, values, tail);
    let head = head(kind, octets);
    joined(head.bits, head.number, leading)
}

/// The octets of a parameter before its tail, with this length. A length of 0 leaves room for one
/// that is not known yet.
pub fn parameter_start(kind: ParamKind, octets: u32, values: &[u128], tail: &[u8]) -> HeadOctets
    requires long { octets ≤ MAX_OCTETS }
    requires values { values_fit (fields_of (Parameter kind)) values.now ≡ true }
    requires words { tail_of (Parameter kind) ≡ Words → length tail.now / 2 ≤ 65535 }
    requires text { tail_of (Parameter kind) ≡ Text → length tail.now ≤ 65535 }
    ensures spelled { Holds result (parameter_start kind octets values.now tail.now) }
    ensures some { result.from < length result.octets }
{
    both_octets(head(kind, octets), leading_bits(kind, values, tail))
}

/// The octets of a parameter before its tail, in two numbers of 64 bits, with a length of 0: it
/// leaves room for one that is not known yet.
#[inline(always)]
pub fn parameter_front(kind: ParamKind, values: &[u128], tail: &[u8]) -> Front
    requires short { own_octets (Parameter kind) [] ≤ 16 }
    requires values { values_fit (fields_of (Parameter kind)) values.now ≡ true }
    requires words { tail_of (Parameter kind) ≡ Words → length tail.now / 2 ≤ 65535 }
    requires text { tail_of (Parameter kind) ≡ Text → length tail.now ≤ 65535 }
    ensures spelled { IsInFront result (parameter_start kind 0 values.now tail.now) }
    ensures few { result.count ≤ 16 }
{
    in_front(parameter_bits(kind, 0, values, tail))
}

/// All octets of a parameter that has neither fields nor a tail, in two numbers of 64 bits, with a
/// length of 0.
#[inline(always)]
pub fn bare_front(kind: ParamKind) -> Front
    requires fields { fields_of (Parameter kind) ≡ [] }
    requires tail { tail_of (Parameter kind) ≡ Absent }
    ensures spelled { IsInFront result (parameter_start kind 0 [] []) }
    ensures few { result.count ≤ 16 }
    ensures all { result.count ≡ own_octets (Parameter kind) [] }
{
    in_front(head(kind, 0))
}

/// The bits of a parameter with type and value (TV), by the rule of its one field.
#[inline(always)]
fn tv_bits(kind: ParamKind, rule: &Field, value: u128) -> Packed
    requires rule { IsOnlyField kind (field_rule rule.now) }
    requires value { value < 2 ^ rule.now.width }
    ensures spelled { digits result.bits result.number ≡ parameter_start kind 0 (value ∷ []) [] }
    ensures below { result.number < 2 ^ result.bits }
    ensures some { 8 ≤ result.bits }
    ensures few { result.bits ≤ 104 }
    ensures whole { result.bits % 8 ≡ 0 }
{
    let head = head(kind, 0);
    let value = Packed {
        number: value,
        bits: rule.width,
    };
    joined(head.bits, head.number, value)
}

/// The octets of a parameter with type and value (TV), by the rule of its one field.
#[inline(always)]
pub fn tv_start(kind: ParamKind, rule: &Field, value: u128) -> HeadOctets
    requires rule { IsOnlyField kind (field_rule rule.now) }
    requires value { value < 2 ^ rule.now.width }
    ensures spelled { Holds result (parameter_start kind 0 (value ∷ []) []) }
    ensures some { result.from < length result.octets }
{
    as_octets(tv_bits(kind, rule, value))
}

/// The octets of a parameter with type and value (TV), in two numbers of 64 bits.
#[inline(always)]
pub fn tv_front(kind: ParamKind, rule: &Field, value: u128) -> Front
    requires rule { IsOnlyField kind (field_rule rule.now) }
    requires value { value < 2 ^ rule.now.width }
    ensures spelled { IsInFront result (parameter_start kind 0 (value ∷ []) []) }
    ensures few { result.count ≤ 16 }
{
    in_front(tv_bits(kind, rule, value))
}

/// The bits of a message before its parameters: its header, with this length, and its fields.
#[inline(always)]
fn message_bits(version: u8, kind: MsgKind, octets: u32, id: u32, values: &[u128]) -> Packed
    requires short { own_octets (AsMessage kind) [] ≤ 16 }
    requires version { version < 8 }
    requires values { values_fit (fields_of (AsMessage kind)) values.now ≡ true }
    ensures spelled { digits result.bits result.number ≡ message_start version kind octets id
        values.now }
    ensures below { result.number < 2 ^ result.bits }
    ensures some { 8 ≤ result.bits }
    ensures few { result.bits ≤ 128 }
    ensures whole { result.bits % 8 ≡ 0 }
{
    let fields = pack(llrp_schema::fields(Kind::Message(kind)), values);
    let header = header(version, kind, octets, id);
    joined(80, header.number, fields)
}

/// The octets of a message before its parameters: its header, with this length, and its fields. A
/// length of 0 leaves room for one that is not known yet.
pub fn message_start(
    version: u8,
    kind: MsgKind,
    octets: u32,
    id: u32,
    values: &[u128],
) -> HeadOctets
    requires version { version < 8 }
    requires values { values_fit (fields_of (AsMessage kind)) values.now ≡ true }
    ensures spelled { Holds result (message_start version kind octets id values.now) }
    ensures from { result.from ≤ length result.octets }
{
    let fields = pack(llrp_schema::fields(Kind::Message(kind)), values);
    both_octets(header(version, kind, octets, id), fields)
}

/// The octets of a message before its parameters, in two numbers of 64 bits, with a length of 0: it
/// leaves room for one that is not known yet.
#[inline(always)]
pub fn message_front(version: u8, kind: MsgKind, id: u32, values: &[u128]) -> Front
    requires short { own_octets (AsMessage kind) [] ≤ 16 }
    requires version { version < 8 }
    requires values { values_fit (fields_of (AsMessage kind)) values.now ≡ true }
    ensures spelled { IsInFront result (message_start version kind 0 id values.now) }
    ensures few { result.count ≤ 16 }
{
    in_front(message_bits(version, kind, 0, id, values))
}

/// The octets of a parameter before its tail.
pub(crate) fn start_of(node: &Node) -> HeadOctets
    ensures spelled { Holds result (start_digits node.now) }
    ensures some { result.from < length result.octets }
{
    node.lawful();
    parameter_start(
        node.kind(),
        node.length(),
        node.fields(),
        node.tail().as_slice(),
    )
}

/// The octets of a message before its parameters.
pub(crate) fn start_of_message(message: &Message) -> HeadOctets
    ensures spelled { Holds result (message_start_digits message.now) }
    ensures from { result.from ≤ length result.octets }
{
    message.lawful();
    message_start(
        message.version(),
        message.kind(),
        message.length(),
        message.id(),
        message.fields(),
    )
}
