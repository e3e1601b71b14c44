//! The sentences of faults.

ghost use Rattle.std.specs.Prelude.{◌≡◌, ◌+◌, ◌*◌, ◌<◌, ◌^◌, ◌++◌, ℕ, OnOk, codes, decimal};
ghost use Rattle.llrp_tree.specs.declared.TheConstants.{MAX_DEPTH};
ghost use Rattle.llrp_schema.specs.Schema.{name_of, set_of_kind};
ghost use Rattle.llrp_schema.specs.Calls.Schema.{field_rule};
ghost use Rattle.llrp_explain.specs.Calls.FaultSentences.{child_name, counted_octets, counted_words, extra_sentence, field_sentence, kind_sentence, length_sentence, tail_sentence, tlv_sentence};
ghost use Rattle.llrp_tree.specs.Lawful.{count_octets};
ghost use Rattle.llrp_explain.specs.Calls.FaultText.{above, not_zero, past_end};
ghost use Rattle.llrp_explain.specs.Calls.HeaderFaults.{set_words};

use crate::push::push_digits;
use llrp_schema::{Field, Kind, KindSet, ParamKind, Tail, kind_set, name};
use llrp_tree::{MAX_DEPTH, Reason};
use std::alloc::AllocError;

/// The words for a set of kinds.
pub(crate) fn set_words(set: KindSet) -> &'static str
    ensures { result.now ≡ set_words set }
{
    match set {
        KindSet::Profile => "the profile",
        KindSet::Standard => "the standard",
    }
}

/// Appends that something ends at a bit past the end of a node, which is at the second.
fn push_past_end(
    text: &mut Vec<u8>,
    what: &[u8],
    end: u128,
    kind: Kind,
    stop: u64,
) -> Result<(), AllocError>
    ensures { OnOk result (text.new.items ≡ text.old.items ++ past_end what.now end kind stop) }
{
    text.extend_from_slice(what)?;
    text.extend_from_slice(b" at bit ")?;
    push_digits(text, end)?;
    text.extend_from_slice(b", ")?;
    text.extend_from_slice(name(kind).as_bytes())?;
    text.extend_from_slice(b" at bit ")?;
    push_digits(text, stop as u128)
}

/// Appends the sentence for reserved bits that are not zero.
pub(crate) fn push_not_zero(text: &mut Vec<u8>, width: u32, value: u128) -> Result<(), AllocError>
    ensures { OnOk result (text.new.items ≡ text.old.items ++ not_zero width value) }
{
    text.extend_from_slice(b"Reserved: ")?;
    push_digits(text, width as u128)?;
    text.extend_from_slice(b" bits are ")?;
    push_digits(text, value)?;
    text.extend_from_slice(b", not 0")
}

/// Appends the sentence for a value above the greatest of its field.
fn push_above(
    text: &mut Vec<u8>,
    name: &[u8],
    value: u128,
    greatest: u128,
) -> Result<(), AllocError>
    ensures { OnOk result (text.new.items ≡ text.old.items ++ above name.now value greatest) }
{
    text.extend_from_slice(b"Value: ")?;
    text.extend_from_slice(name)?;
    text.extend_from_slice(b" is ")?;
    push_digits(text, value)?;
    text.extend_from_slice(b", at most ")?;
    push_digits(text, greatest)
}

/// Appends the sentence for a field that ends after its node.
fn push_short_field(
    text: &mut Vec<u8>,
    rule: &Field,
    kind: Kind,
    stop: u64,
    at: u32,
) -> Result<(), AllocError>
    ensures { OnOk result (text.new.items ≡ text.old.items ++ past_end (codes "Short: "
        ++ ((field_rule rule.now).name ++ codes " ends")) (at + (field_rule rule.now).width) kind stop) }
{
    text.extend_from_slice(b"Short: ")?;
    text.extend_from_slice(rule.name.as_bytes())?;
    push_past_end(text, b" ends", at as u128 + rule.width as u128, kind, stop)
}

/// Appends the sentence for a field that fails, where this number stands.
#[tactic(auto, unfolding(crate::specs::Calls::FaultSentences::field_sentence))]
pub(crate) fn push_field_sentence(
    text: &mut Vec<u8>,
    rule: &Field,
    kind: Kind,
    stop: u64,
    at: u32,
    reason: Reason,
    value: u128,
) -> Result<(), AllocError>
    ensures { OnOk result (text.new.items ≡ text.old.items
        ++ field_sentence (field_rule rule.now) kind stop at reason value) }
{
    match reason {
        Reason::Short => push_short_field(text, rule, kind, stop, at),
        Reason::Reserved => push_not_zero(text, rule.width, value),
        _ => push_above(text, rule.name.as_bytes(), value, rule.greatest),
    }
}

/// What a tail counts.
fn counted_words(form: Tail) -> &'static str
    ensures { (n : ℕ) → counted_words form n ≡ decimal n ++ result.now }
{
    match form {
        Tail::Words => " words end",
        Tail::Text => " octets of text end",
        Tail::Absent | Tail::Bits | Tail::Data => " bits end",
    }
}

/// The bit after a tail that begins at a bit and counts this number of words, octets or bits.
fn counted_end(form: Tail, at: u32, count: u128) -> u128
    requires { count < 2 ^ 100 }
    ensures { result ≡ at + 8 * (count_octets form + counted_octets form count) }
{
    let from = at as u128;
    match form {
        Tail::Words => from + 8 * (2 + 2 * count),
        Tail::Text => from + 8 * (2 + count),
        Tail::Absent | Tail::Bits | Tail::Data => from + 8 * ((count + 7) / 8),
    }
}

/// Appends the sentence for a tail that counts more than there is room for.
fn push_too_many(
    text: &mut Vec<u8>,
    form: Tail,
    kind: Kind,
    stop: u64,
    at: u32,
    count: u128,
) -> Result<(), AllocError>
    requires { count < 2 ^ 100 }
    ensures { OnOk result (text.new.items ≡ text.old.items
        ++ past_end (codes "Count: " ++ counted_words form count)
        (at + 8 * (count_octets form + counted_octets form count)) kind stop) }
{
    text.extend_from_slice(b"Count: ")?;
    push_digits(text, count)?;
    let end = counted_end(form, at, count);
    push_past_end(text, counted_words(form).as_bytes(), end, kind, stop)
}

/// Appends the sentence for a tail that fails.
#[tactic(auto, unfolding(crate::specs::Calls::FaultSentences::tail_sentence))]
pub(crate) fn push_tail_sentence(
    text: &mut Vec<u8>,
    form: Tail,
    kind: Kind,
    stop: u64,
    at: u32,
    reason: Reason,
    count: u128,
) -> Result<(), AllocError>
    requires { count < 2 ^ 100 }
    ensures { OnOk result (text.new.items ≡ text.old.items
        ++ tail_sentence form kind stop at reason count) }
{
    match reason {
        Reason::Short => push_past_end(text, b"Short: the count ends", at as u128 + 16, kind, stop),
        Reason::Count => push_too_many(text, form, kind, stop, at, count),
        _ => text.extend_from_slice(b"Utf8: no character begins here"),
    }
}

/// Appends the sentence for octets after a node that has no parameters.
pub(crate) fn push_extra_sentence(
    text: &mut Vec<u8>,
    kind: Kind,
    stop: u64,
) -> Result<(), AllocError>
    ensures { OnOk result (text.new.items ≡ text.old.items ++ extra_sentence kind stop) }
{
    text.extend_from_slice(b"Extra: ")?;
    text.extend_from_slice(name(kind).as_bytes())?;
    text.extend_from_slice(b" has no parameters and ends at bit ")?;
    push_digits(text, stop as u128)
}

/// The name of a child, if its type is one of the set.
fn child_name(kind: Option<ParamKind>) -> &'static str
    ensures { result.now ≡ child_name kind }
{
    match kind {
        Some(kind) => name(Kind::Parameter(kind)),
        None => "",
    }
}

/// Appends the sentence for a child of a kind that its parent never has.
fn push_misplaced(text: &mut Vec<u8>, child: &[u8], parent: Kind) -> Result<(), AllocError>
    ensures { OnOk result (text.new.items ≡ text.old.items ++ (codes "Misplaced: " ++ (child.now
        ++ (codes " is no parameter of " ++ name_of parent)))) }
{
    text.extend_from_slice(b"Misplaced: ")?;
    text.extend_from_slice(child)?;
    text.extend_from_slice(b" is no parameter of ")?;
    text.extend_from_slice(name(parent).as_bytes())
}

/// Appends the sentence for one child more than its parent may have.
fn push_one_more(text: &mut Vec<u8>, child: &[u8], parent: Kind) -> Result<(), AllocError>
    ensures { OnOk result (text.new.items ≡ text.old.items ++ (codes "TooMany: " ++ (name_of parent
        ++ (codes " has no place for one more " ++ child.now)))) }
{
    text.extend_from_slice(b"TooMany: ")?;
    text.extend_from_slice(name(parent).as_bytes())?;
    text.extend_from_slice(b" has no place for one more ")?;
    text.extend_from_slice(child)
}

/// Appends the sentence for a child at a level that is too deep.
fn push_too_deep(text: &mut Vec<u8>, child: &[u8], level: u8) -> Result<(), AllocError>
    ensures { OnOk result (text.new.items ≡ text.old.items ++ (codes "TooDeep: " ++ (child.now
        ++ (codes " is at level " ++ (decimal level ++ (codes ", the deepest is " ++ decimal MAX_DEPTH)))))) }
{
    text.extend_from_slice(b"TooDeep: ")?;
    text.extend_from_slice(child)?;
    text.extend_from_slice(b" is at level ")?;
    push_digits(text, level as u128)?;
    text.extend_from_slice(b", the deepest is ")?;
    push_digits(text, MAX_DEPTH as u128)
}

/// Appends the sentence for a child whose type is of no parameter.
fn push_no_kind(text: &mut Vec<u8>, type_number: u128, parent: Kind) -> Result<(), AllocError>
    ensures { OnOk result (text.new.items ≡ text.old.items ++ (codes "ParamType: " ++ (decimal type_number
        ++ (codes " is of no parameter of " ++ set_words (set_of_kind parent))))) }
{
    text.extend_from_slice(b"ParamType: ")?;
    push_digits(text, type_number)?;
    text.extend_from_slice(b" is of no parameter of ")?;
    text.extend_from_slice(set_words(kind_set(parent)).as_bytes())
}

/// Appends the sentence for a child whose kind fails.
#[tactic(auto, unfolding(crate::specs::Calls::FaultSentences::kind_sentence))]
pub(crate) fn push_kind_sentence(
    text: &mut Vec<u8>,
    kind: Option<ParamKind>,
    type_number: u128,
    level: u8,
    parent: Kind,
    reason: Reason,
) -> Result<(), AllocError>
    ensures { OnOk result (text.new.items ≡ text.old.items
        ++ kind_sentence kind type_number level parent reason) }
{
    let child = child_name(kind).as_bytes();
    match reason {
        Reason::Misplaced => push_misplaced(text, child, parent),
        Reason::TooMany => push_one_more(text, child, parent),
        Reason::TooDeep => push_too_deep(text, child, level),
        _ => push_no_kind(text, type_number, parent),
    }
}

/// Appends the sentence for a child that is too short.
fn push_no_length(text: &mut Vec<u8>, octets: u128) -> Result<(), AllocError>
    ensures { OnOk result (text.new.items ≡ text.old.items ++ (codes "ParamLength: " ++ (decimal octets
        ++ codes " octets, at least 4"))) }
{
    text.extend_from_slice(b"ParamLength: ")?;
    push_digits(text, octets)?;
    text.extend_from_slice(b" octets, at least 4")
}

/// Appends the sentence for a child that is too long.
fn push_too_long(
    text: &mut Vec<u8>,
    at: u32,
    octets: u128,
    kind: Kind,
    stop: u64,
) -> Result<(), AllocError>
    requires { octets < 65536 }
    ensures { OnOk result (text.new.items ≡ text.old.items ++ past_end (codes "ParamLength: "
        ++ (decimal octets ++ (codes " octets from bit " ++ (decimal at ++ codes " end"))))
        (at + 8 * octets) kind stop) }
{
    text.extend_from_slice(b"ParamLength: ")?;
    push_digits(text, octets)?;
    text.extend_from_slice(b" octets from bit ")?;
    push_digits(text, at as u128)?;
    push_past_end(text, b" end", at as u128 + 8 * octets, kind, stop)
}

/// Appends the sentence for a child whose length fails.
#[tactic(auto, unfolding(crate::specs::Calls::FaultSentences::length_sentence))]
fn push_length_sentence(
    text: &mut Vec<u8>,
    at: u32,
    octets: u128,
    kind: Kind,
    stop: u64,
) -> Result<(), AllocError>
    requires { octets < 65536 }
    ensures { OnOk result (text.new.items ≡ text.old.items ++ length_sentence at octets kind stop) }
{
    if octets < 4 {
        return push_no_length(text, octets);
    }
    push_too_long(text, at, octets, kind, stop)
}

/// What the head of a child with type, length and value has.
#[derive(Clone, Copy)]
pub(crate) struct LongHead {
    pub(crate) reserved: u128,
    pub(crate) type_number: u128,
    pub(crate) octets: u128,
}

/// Appends the sentence for a child with type, length and value whose head fails.
#[tactic(auto, unfolding(crate::specs::Calls::FaultSentences::tlv_sentence))]
pub(crate) fn push_tlv_sentence(
    text: &mut Vec<u8>,
    found: Option<ParamKind>,
    parent: Kind,
    stop: u64,
    at: u32,
    level: u8,
    reason: Reason,
    head: LongHead,
) -> Result<(), AllocError>
    requires { head.octets < 65536 }
    ensures { OnOk result (text.new.items ≡ text.old.items ++ tlv_sentence found parent stop at level
        reason head.reserved head.type_number head.octets) }
{
    match reason {
        Reason::Short => push_past_end(
            text,
            b"Short: the head of a parameter ends",
            at as u128 + 32,
            parent,
            stop,
        ),
        Reason::Reserved => push_not_zero(text, 6, head.reserved),
        Reason::ParamLength => push_length_sentence(text, at, head.octets, parent, stop),
        _ => push_kind_sentence(text, found, head.type_number, level, parent, reason),
    }
}
