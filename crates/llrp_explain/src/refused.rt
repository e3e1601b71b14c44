//! The lines of the part of a frame that is refused.

ghost use Rattle.std.specs.Prelude.{◌≡◌, ◌⊎◌, ◌+◌, ◌*◌, ◌≤◌, ◌++◌, ◌∷◌, [], ℕ, Bool, List, OnOk, codes, length, take};
ghost use Rattle.tag_bits.specs.Digits.{digits_of_bytes};
ghost use Rattle.llrp_schema.specs.Calls.Schema.{field_rule};
ghost use Rattle.llrp_tree.specs.FirstFault.{number};
ghost use Rattle.llrp_explain.specs.Calls.ExplainLines.{line};
ghost use Rattle.llrp_explain.specs.Calls.ExplainText.{line_text, lines_text};
ghost use Rattle.llrp_tree.specs.declared.fault.Reason.TheVariants.{Count, Short};
ghost use Rattle.llrp_explain.specs.Calls.FaultLines.{count_fields, field_fields, header_fields, taken_lines, tlv_fields, tv_fields};
ghost use Rattle.llrp_explain.specs.Calls.FaultSentences.{counted};
ghost use Rattle.llrp_explain.specs.Private.RefusedHeads.{header_head, is_counted, tlv_head};
ghost use Rattle.llrp_explain.specs.Calls.HeaderFaults.{refused_text};

use crate::push::push_line;
use llrp_schema::{Field, Tail};
use llrp_tree::Reason;
use llrp_tree::numbers::from_bit;
use std::alloc::AllocError;

/// Appends the line of a field that stands in the octets from this bit of them on.
fn push_read(
    text: &mut Vec<u8>,
    bit: u32,
    level: u8,
    name: &[u8],
    octets: &[u8],
    from: usize,
    width: u32,
) -> Result<(), AllocError>
    requires some { 1 ≤ width }
    requires narrow { width ≤ 128 }
    requires within { from + width ≤ 8 * length octets.now }
    ensures { OnOk result ((later : List Bool) → text.new.items ≡ text.old.items ++ line_text bit
        (line level name.now width (number (digits_of_bytes octets.now ++ later) from width))) }
{
    push_line(text, bit, width, level, name, from_bit(octets, from, width))
}

/// Appends the lines of the head of a parameter with type and value.
fn push_tv(text: &mut Vec<u8>, bit: u32, level: u8, octets: &[u8]) -> Result<(), AllocError>
    requires place { bit ≤ 4294967000 }
    requires whole { 1 ≤ length octets.now }
    ensures { OnOk result ((later : List Bool) → text.new.items ≡ text.old.items ++ lines_text bit
        (taken_lines level tv_fields 0 (digits_of_bytes octets.now ++ later))) }
{
    push_read(text, bit, level, b"type and value", octets, 0, 1)?;
    push_read(text, bit + 1, level, b"ParameterType", octets, 1, 7)
}

/// Appends the lines of the first fields of a head of a parameter with type, length and value.
fn push_tlv(
    text: &mut Vec<u8>,
    bit: u32,
    level: u8,
    octets: &[u8],
    fields: usize,
) -> Result<(), AllocError>
    requires place { bit ≤ 4294967000 }
    requires few { fields ≤ 3 }
    requires whole { 4 ≤ length octets.now }
    ensures { OnOk result ((later : List Bool) → text.new.items ≡ text.old.items ++ lines_text bit
        (taken_lines level (take fields tlv_head) 0 (digits_of_bytes octets.now ++ later))) }
{
    if fields == 0 {
        return Ok(());
    }
    push_read(text, bit, level, b"reserved", octets, 0, 6)?;
    if fields == 1 {
        return Ok(());
    }
    push_read(text, bit + 6, level, b"ParameterType", octets, 6, 10)?;
    if fields == 2 {
        return Ok(());
    }
    push_read(text, bit + 16, level, b"ParameterLength", octets, 16, 16)
}

/// Appends the lines of the first fields of a header.
pub(crate) fn push_header(
    text: &mut Vec<u8>,
    octets: &[u8],
    fields: usize,
) -> Result<(), AllocError>
    requires few { fields ≤ 4 }
    requires whole { 10 ≤ length octets.now }
    ensures { OnOk result ((later : List Bool) → text.new.items ≡ text.old.items ++ lines_text 0
        (taken_lines 0 (take fields header_head) 0 (digits_of_bytes octets.now ++ later))) }
{
    if fields == 0 {
        return Ok(());
    }
    push_read(text, 0, 0, b"reserved", octets, 0, 3)?;
    if fields == 1 {
        return Ok(());
    }
    push_read(text, 3, 0, b"Version", octets, 3, 3)?;
    if fields == 2 {
        return Ok(());
    }
    push_read(text, 6, 0, b"MessageType", octets, 6, 10)?;
    if fields == 3 {
        return Ok(());
    }
    push_read(text, 16, 0, b"MessageLength", octets, 16, 32)
}

/// Appends the words before the lines of what is refused.
pub(crate) fn push_heading(text: &mut Vec<u8>) -> Result<(), AllocError>
    ensures { OnOk result (text.new.items ≡ text.old.items ++ codes "then, refused:\n") }
{
    text.extend_from_slice(b"then, refused:\n")
}

/// Appends the line of the one field that is refused.
fn push_refused(
    text: &mut Vec<u8>,
    bit: u32,
    level: u8,
    name: &[u8],
    width: u32,
    value: u128,
) -> Result<(), AllocError>
    requires some { 1 ≤ width }
    ensures { OnOk result (text.new.items ≡ text.old.items
        ++ refused_text bit (line level name.now width value ∷ [])) }
{
    push_heading(text)?;
    push_line(text, bit, width, level, name, value)
}

/// Appends the line of a field that fails, if it does not end after its node.
pub(crate) fn push_refused_field(
    text: &mut Vec<u8>,
    bit: u32,
    level: u8,
    reason: Reason,
    rule: &Field,
    value: u128,
) -> Result<(), AllocError>
    requires some { 1 ≤ rule.now.width }
    ensures { OnOk result ((rest : List Bool)
        → (reason ≡ Short) ⊎ (value ≡ number rest 0 rule.now.width)
        → text.new.items ≡ text.old.items ++ refused_text bit
        (taken_lines level (field_fields reason (field_rule rule.now)) 0 rest)) }
{
    match reason {
        Reason::Short => Ok(()),
        _ => push_refused(text, bit, level, rule.name.as_bytes(), rule.width, value),
    }
}

/// Whether a tail begins with a count.
pub(crate) fn is_counted(form: Tail) -> bool
    ensures { result ≡ is_counted form }
{
    match form {
        Tail::Words | Tail::Text => true,
        Tail::Absent | Tail::Bits | Tail::Data => false,
    }
}

/// Appends the line of the count of a tail that counts too many words or octets.
pub(crate) fn push_refused_count(
    text: &mut Vec<u8>,
    bit: u32,
    level: u8,
    reason: Reason,
    form: Tail,
    count: u128,
) -> Result<(), AllocError>
    ensures { OnOk result ((fields : List ℕ) (rest : List Bool)
        → (reason ≡ Count → count ≡ counted form fields rest)
        → text.new.items ≡ text.old.items ++ refused_text bit
        (taken_lines level (count_fields reason form) 0 rest)) }
{
    match reason {
        Reason::Count => {
            let counts = is_counted(form);
            if counts {
                return push_refused(text, bit, level, b"count", 16, count);
            }
            Ok(())
        }
        _ => Ok(()),
    }
}

/// Appends the lines of the head of a parameter with type and value.
pub(crate) fn push_refused_tv(
    text: &mut Vec<u8>,
    bit: u32,
    level: u8,
    octets: &[u8],
) -> Result<(), AllocError>
    requires place { bit ≤ 4294967000 }
    requires whole { 1 ≤ length octets.now }
    ensures { OnOk result ((later : List Bool) → text.new.items ≡ text.old.items ++ refused_text bit
        (taken_lines level tv_fields 0 (digits_of_bytes octets.now ++ later))) }
{
    push_heading(text)?;
    push_tv(text, bit, level, octets)
}

/// Appends the lines of the head of a parameter with type, length and value up to the field that fails.
pub(crate) fn push_refused_tlv(
    text: &mut Vec<u8>,
    bit: u32,
    level: u8,
    reason: Reason,
    octets: &[u8],
) -> Result<(), AllocError>
    requires place { bit ≤ 4294967000 }
    ensures { OnOk result ((later : List Bool) → (reason ≡ Short) ⊎ (4 ≤ length octets.now)
        → text.new.items ≡ text.old.items ++ refused_text bit
        (taken_lines level (tlv_fields reason) 0 (digits_of_bytes octets.now ++ later))) }
{
    let count = tlv_count(reason);
    if count == 0 {
        return Ok(());
    }
    if octets.len() < 4 {
        return Ok(());
    }
    push_heading(text)?;
    push_tlv(text, bit, level, octets, count)
}

/// How many fields of a header come up to the one that fails.
#[tactic(auto, unfolding(crate::specs::Calls::FaultLines::header_fields))]
pub(crate) fn header_count(reason: Reason) -> usize
    ensures fields { take result header_head ≡ header_fields reason }
    ensures few { result ≤ 4 }
{
    match reason {
        Reason::Reserved => 1,
        Reason::Version => 2,
        Reason::MessageType => 3,
        Reason::MessageLength => 4,
        _ => 0,
    }
}

/// How many fields of the head of a parameter with a length come up to the one that fails.
#[tactic(auto, unfolding(crate::specs::Calls::FaultLines::tlv_fields))]
fn tlv_count(reason: Reason) -> usize
    ensures fields { take result tlv_head ≡ tlv_fields reason }
    ensures few { result ≤ 3 }
{
    match reason {
        Reason::Short => 0,
        Reason::Reserved => 1,
        Reason::ParamLength => 3,
        _ => 2,
    }
}
