//! What is refused of a frame after its header, and the line of its fault.

ghost use Rattle.std.specs.Prelude.{◌≡◌, ◌≢◌, ◌⊎◌, ◌+◌, ◌*◌, ◌-◌, ◌^◌, ◌<◌, ◌≤◌, ◌++◌, ◌∷◌, ◌/◌, ◌%◌, ℕ, Bool, true, false, not, List, Some, OnOk, codes, length};
ghost use Rattle.tag_bits.specs.Digits.{digits_of_bytes};
ghost use Rattle.llrp_schema.specs.Calls.Schema.{field_rule};
ghost use Rattle.llrp_schema.specs.Schema.{groups_of, set_of_kind, tlv_in, tv_in};
ghost use Rattle.llrp_tree.specs.declared.fault.Reason.TheVariants.{Count, Extra, Missing, Short, Utf8};
ghost use Rattle.llrp_tree.specs.Tree.{Forest};
ghost use Rattle.llrp_tree.specs.Lawful.{first as first_value};
ghost use Rattle.llrp_tree.specs.OpenTree.{AField, ATail, Begun, Rest, due, form as form_of, has_tail};
ghost use Rattle.llrp_tree.specs.FirstFault.{next_fault, number, tlv_kind, tv_kind};
ghost use Rattle.llrp_stream.specs.Calls.Reading.{AreSeen, IsDueAt, MayFailFor};
ghost use Rattle.llrp_stream.specs.declared.engine.body_reader.Stage.TheVariants.{Leading};
ghost use Rattle.llrp_explain.specs.Calls.ExplainText.{fault_place};
ghost use Rattle.llrp_explain.specs.Calls.FaultLines.{count_fields, field_fields, taken_lines, tlv_fields, tv_fields};
ghost use Rattle.llrp_explain.specs.Calls.FaultSentences.{counted, extra_sentence, field_sentence, first_missing, kind_sentence, missing_sentence, refusal_text, tail_sentence, tlv_sentence};
ghost use Rattle.llrp_explain.specs.Private.RefusedHeads.{is_counted};
ghost use Rattle.llrp_explain.specs.Calls.HeaderFaults.{fault_line, refused_text};
ghost use Rattle.llrp_explain.specs.Private.RefusedNodes.{IsRefusedNode};

use crate::handed::handed;
use crate::missing::push_missing_sentence;
use crate::push::push_digits;
use crate::refused::{
    is_counted, push_refused_count, push_refused_field, push_refused_tlv, push_refused_tv,
};
use crate::sentences::{
    LongHead, push_extra_sentence, push_field_sentence, push_kind_sentence, push_tail_sentence,
    push_tlv_sentence,
};
use llrp_schema::{Field, Tail, fields, kind_set, param_of_tlv_in, param_of_tv_in, tail};
use llrp_stream::{StackNode, Stage, Stopped};
use llrp_tree::{Fault, Reason};
use std::alloc::AllocError;

/// Where a frame is refused: after this bit of it, in a node at this depth, which is 1 for the message.
#[derive(Clone, Copy)]
pub(crate) struct RefusedAt {
    pub(crate) node: StackNode,
    pub(crate) depth: u8,
    pub(crate) at: u32,
}

/// The bit at which the node of a refusal stops.
fn stop_of(place: RefusedAt) -> u64
    ensures { result ≡ 8 * place.node.stop }
{
    8 * place.node.stop as u64
}

/// Appends the bit of a fault, and the octet that has it.
pub(crate) fn push_place(text: &mut Vec<u8>, bit: u64) -> Result<(), AllocError>
    ensures { OnOk result (text.new.items ≡ text.old.items ++ fault_place bit (bit / 8)) }
{
    text.extend_from_slice(b"fault at bit ")?;
    push_digits(text, bit as u128)?;
    text.extend_from_slice(b", octet ")?;
    push_digits(text, (bit / 8) as u128)?;
    text.extend_from_slice(b": ")
}

/// Appends the text of a field that fails, where this number stands.
fn push_field_fault(
    text: &mut Vec<u8>,
    fault: Fault,
    place: RefusedAt,
    rule: &Field,
    value: u128,
) -> Result<(), AllocError>
    requires { 1 ≤ rule.now.width }
    ensures { OnOk result ((rest : List Bool)
        → (fault.reason ≡ Short) ⊎ (value ≡ number rest 0 rule.now.width)
        → text.new.items ≡ text.old.items ++ (refused_text place.at (taken_lines (place.depth - 1)
        (field_fields fault.reason (field_rule rule.now)) 0 rest) ++ fault_line fault.bit
        (field_sentence (field_rule rule.now) place.node.kind (8 * place.node.stop) place.at
        fault.reason (number rest 0 rule.now.width)))) }
{
    let level = place.depth.saturating_sub(1);
    push_refused_field(text, place.at, level, fault.reason, rule, value)?;
    push_place(text, fault.bit)?;
    let stop = stop_of(place);
    push_field_sentence(
        text,
        rule,
        place.node.kind,
        stop,
        place.at,
        fault.reason,
        value,
    )?;
    text.extend_from_slice(b"\n")
}

/// Appends the text of a tail that fails, with the number that it counts.
fn push_tail_fault(
    text: &mut Vec<u8>,
    fault: Fault,
    place: RefusedAt,
    form: Tail,
    count: u128,
) -> Result<(), AllocError>
    requires { count < 2 ^ 100 }
    ensures { OnOk result ((fields : List ℕ) (rest : List Bool)
        → (fault.reason ≡ Count → count ≡ counted form fields rest)
        → text.new.items ≡ text.old.items ++ (refused_text place.at (taken_lines (place.depth - 1)
        (count_fields fault.reason form) 0 rest) ++ fault_line fault.bit (tail_sentence form
        place.node.kind (8 * place.node.stop) place.at fault.reason (counted form fields rest)))) }
{
    let level = place.depth.saturating_sub(1);
    push_refused_count(text, place.at, level, fault.reason, form, count)?;
    push_place(text, fault.bit)?;
    let stop = stop_of(place);
    push_tail_sentence(
        text,
        form,
        place.node.kind,
        stop,
        place.at,
        fault.reason,
        count,
    )?;
    text.extend_from_slice(b"\n")
}

/// Appends the text of a node that ends without a parameter that it needs.
fn push_missing_fault(text: &mut Vec<u8>, fault: Fault, place: RefusedAt) -> Result<(), AllocError>
    ensures { OnOk result ((children : Forest)
        → AreSeen (groups_of place.node.kind) children place.node.seen.bits
        → text.new.items ≡ text.old.items ++ fault_line fault.bit (missing_sentence place.node.kind
        (first_missing (groups_of place.node.kind) children))) }
{
    push_place(text, fault.bit)?;
    push_missing_sentence(text, place.node.kind, place.node.seen.bits)?;
    text.extend_from_slice(b"\n")
}

/// Appends the text of octets after a node that has no parameters.
fn push_extra_fault(text: &mut Vec<u8>, fault: Fault, place: RefusedAt) -> Result<(), AllocError>
    ensures { OnOk result (text.new.items ≡ text.old.items ++ fault_line fault.bit
        (extra_sentence place.node.kind (8 * place.node.stop))) }
{
    push_place(text, fault.bit)?;
    push_extra_sentence(text, place.node.kind, stop_of(place))?;
    text.extend_from_slice(b"\n")
}

/// Appends the text of a child with type and value that fails.
fn push_tv_fault(
    text: &mut Vec<u8>,
    fault: Fault,
    place: RefusedAt,
    octets: &[u8],
) -> Result<(), AllocError>
    requires place { place.at ≤ 4294967000 }
    requires whole { 1 ≤ length octets.now }
    ensures { OnOk result ((rest : List Bool) (later : List Bool)
        → rest ≡ digits_of_bytes octets.now ++ later
        → text.new.items ≡ text.old.items ++ (refused_text place.at (taken_lines place.depth
        tv_fields 0 rest) ++ fault_line fault.bit (kind_sentence (tv_kind
        (set_of_kind place.node.kind) rest) (number rest 1 7) place.depth place.node.kind
        fault.reason))) }
{
    let number = handed(octets, 1, 7);
    let found = param_of_tv_in(kind_set(place.node.kind), number as u8);
    push_refused_tv(text, place.at, place.depth, octets)?;
    push_place(text, fault.bit)?;
    push_kind_sentence(
        text,
        found,
        number,
        place.depth,
        place.node.kind,
        fault.reason,
    )?;
    text.extend_from_slice(b"\n")
}

/// The head of a child with type, length and value that octets begin with.
fn long_head(octets: &[u8]) -> LongHead
    ensures reserved { 4 ≤ length octets.now → (later : List Bool)
        → result.reserved ≡ number (digits_of_bytes octets.now ++ later) 0 6 }
    ensures type_number { 4 ≤ length octets.now → (later : List Bool)
        → result.type_number ≡ number (digits_of_bytes octets.now ++ later) 6 10 }
    ensures octets { 4 ≤ length octets.now → (later : List Bool)
        → result.octets ≡ number (digits_of_bytes octets.now ++ later) 16 16 }
    ensures type_below { result.type_number < 1024 }
    ensures octets_below { result.octets < 65536 }
{
    let reserved = handed(octets, 0, 6);
    let type_number = handed(octets, 6, 10);
    let size = handed(octets, 16, 16);
    LongHead {
        reserved,
        type_number,
        octets: size,
    }
}

/// Appends the text of a child with type, length and value whose head fails.
fn push_tlv_fault(
    text: &mut Vec<u8>,
    fault: Fault,
    place: RefusedAt,
    octets: &[u8],
) -> Result<(), AllocError>
    requires place { place.at ≤ 4294967000 }
    ensures { OnOk result ((rest : List Bool) (later : List Bool)
        → rest ≡ digits_of_bytes octets.now ++ later
        → (fault.reason ≡ Short) ⊎ (4 ≤ length octets.now)
        → text.new.items ≡ text.old.items ++ (refused_text place.at (taken_lines place.depth
        (tlv_fields fault.reason) 0 rest) ++ fault_line fault.bit (tlv_sentence (tlv_kind
        (set_of_kind place.node.kind) rest) place.node.kind (8 * place.node.stop) place.at
        place.depth fault.reason (number rest 0 6) (number rest 6 10) (number rest 16 16)))) }
{
    let head = long_head(octets);
    let found = param_of_tlv_in(kind_set(place.node.kind), head.type_number as u16);
    push_refused_tlv(text, place.at, place.depth, fault.reason, octets)?;
    push_place(text, fault.bit)?;
    let stop = stop_of(place);
    push_tlv_sentence(
        text,
        found,
        place.node.kind,
        stop,
        place.at,
        place.depth,
        fault.reason,
        head,
    )?;
    text.extend_from_slice(b"\n")
}

/// Whether a bit is one that no frame has, since all its bits have 32 bits.
fn is_far(at: u32) -> bool
    ensures yes { result ≡ true → 4294967000 < at }
    ensures no { result ≡ false → at ≤ 4294967000 }
{
    at > 4294967000
}

/// Appends the text of a child whose head fails.
fn push_child_fault(
    text: &mut Vec<u8>,
    fault: Fault,
    place: RefusedAt,
    octets: &[u8],
) -> Result<(), AllocError>
    ensures { OnOk result ((b : Begun) (outer : List Begun) (rest : List Bool)
        → IsRefusedNode place.node place.depth place.at octets.now fault b outer rest
        → due b ≡ Rest → fault.reason ≢ Missing → fault.reason ≢ Extra
        → text.new.items ≡ text.old.items
        ++ refusal_text (b ∷ outer) fault.bit fault.reason rest) }
{
    let far = is_far(place.at);
    if far {
        return Ok(());
    }
    if octets.is_empty() {
        return Ok(());
    }
    let digit = handed(octets, 0, 1);
    if digit == 0 {
        return push_tlv_fault(text, fault, place, octets);
    }
    push_tv_fault(text, fault, place, octets)
}

/// Appends the text of a fault at the end of a node, or of the child that comes next in it.
fn push_below(
    text: &mut Vec<u8>,
    fault: Fault,
    place: RefusedAt,
    octets: &[u8],
) -> Result<(), AllocError>
    ensures { OnOk result ((b : Begun) (outer : List Begun) (rest : List Bool)
        → IsRefusedNode place.node place.depth place.at octets.now fault b outer rest
        → due b ≡ Rest → text.new.items ≡ text.old.items
        ++ refusal_text (b ∷ outer) fault.bit fault.reason rest) }
{
    match fault.reason {
        Reason::Missing => push_missing_fault(text, fault, place),
        Reason::Extra => push_extra_fault(text, fault, place),
        _ => push_child_fault(text, fault, place, octets),
    }
}

/// Appends the text of a field that comes next and fails.
fn push_next_field(
    text: &mut Vec<u8>,
    fault: Fault,
    place: RefusedAt,
    rule: &Field,
    octets: &[u8],
) -> Result<(), AllocError>
    requires some { 1 ≤ rule.now.width }
    requires narrow { rule.now.width ≤ 96 }
    ensures { OnOk result ((b : Begun) (outer : List Begun) (rest : List Bool)
        → IsRefusedNode place.node place.depth place.at octets.now fault b outer rest
        → due b ≡ AField (field_rule rule.now) → text.new.items ≡ text.old.items
        ++ refusal_text (b ∷ outer) fault.bit fault.reason rest) }
{
    let value = handed(octets, (place.at % 8) as usize, rule.width);
    push_field_fault(text, fault, place, rule, value)
}

/// Whether a kind has no tail.
fn is_absent(form: Tail) -> bool
    ensures { result ≡ not (has_tail form) }
{
    match form {
        Tail::Absent => true,
        Tail::Words | Tail::Text | Tail::Bits | Tail::Data => false,
    }
}

/// What the tail that comes next counts: words and octets in its first two octets, bits in the field
/// before it.
fn tail_count(form: Tail, at: u32, first: u128, octets: &[u8]) -> u128
    ensures read { is_counted form ≡ true → at % 8 + 16 ≤ 8 * length octets.now
        → (later : List Bool) → result ≡ number (digits_of_bytes octets.now ++ later) (at % 8) 16 }
    ensures field { is_counted form ≡ false → result ≡ first }
    ensures below { first < 2 ^ 100 → result < 2 ^ 100 }
{
    let count = is_counted(form);
    if count {
        return handed(octets, (at % 8) as usize, 16);
    }
    first
}

/// Whether a number is one that no field has, since each has 96 bits at most.
fn is_great(number: u128) -> bool
    ensures yes { result ≡ true → 2 ^ 100 ≤ number }
    ensures no { result ≡ false → number < 2 ^ 100 }
{
    number >= 1 << 100
}

/// Appends the text of a tail that comes next and fails.
fn push_next_tail(
    text: &mut Vec<u8>,
    fault: Fault,
    place: RefusedAt,
    form: Tail,
    first: u128,
    octets: &[u8],
) -> Result<(), AllocError>
    ensures { OnOk result ((b : Begun) (outer : List Begun) (rest : List Bool)
        → IsRefusedNode place.node place.depth place.at octets.now fault b outer rest
        → due b ≡ ATail → form_of b ≡ form → first ≡ first_value b.fields
        → text.new.items ≡ text.old.items
        ++ refusal_text (b ∷ outer) fault.bit fault.reason rest) }
{
    let count = tail_count(form, place.at, first, octets);
    let great = is_great(count);
    if great {
        return Ok(());
    }
    push_tail_fault(text, fault, place, form, count)
}

/// Appends the text of a fault of a node that awaits the field with this index, or what is after its
/// fields.
fn push_leading(
    text: &mut Vec<u8>,
    fault: Fault,
    place: RefusedAt,
    next: u32,
    first: u128,
    octets: &[u8],
) -> Result<(), AllocError>
    ensures { OnOk result ((b : Begun) (outer : List Begun) (rest : List Bool)
        → IsRefusedNode place.node place.depth place.at octets.now fault b outer rest
        → IsDueAt (Leading next) first b → text.new.items ≡ text.old.items
        ++ refusal_text (b ∷ outer) fault.bit fault.reason rest) }
{
    let rules = fields(place.node.kind);
    if (next as usize) < rules.len() {
        return push_next_field(text, fault, place, &rules[next as usize], octets);
    }
    let form = tail(place.node.kind);
    let absent = is_absent(form);
    if absent {
        return push_below(text, fault, place, octets);
    }
    push_next_tail(text, fault, place, form, first, octets)
}

/// Appends the text of a fault that is not one of text, by how far the innermost node is read.
fn push_stopped(
    text: &mut Vec<u8>,
    fault: Fault,
    place: RefusedAt,
    stage: Stage,
    first: u128,
    octets: &[u8],
) -> Result<(), AllocError>
    ensures { OnOk result ((b : Begun) (outer : List Begun) (rest : List Bool)
        → IsRefusedNode place.node place.depth place.at octets.now fault b outer rest
        → IsDueAt stage first b → MayFailFor stage fault.reason → fault.reason ≢ Utf8
        → text.new.items ≡ text.old.items
        ++ refusal_text (b ∷ outer) fault.bit fault.reason rest) }
{
    match stage {
        Stage::Leading(next) => push_leading(text, fault, place, next, first, octets),
        Stage::Tail(_) => Ok(()),
        Stage::Children => push_below(text, fault, place, octets),
    }
}

/// Appends the text of octets that are no character.
fn push_utf8_fault(text: &mut Vec<u8>, fault: Fault) -> Result<(), AllocError>
    ensures { OnOk result (text.new.items ≡ text.old.items ++ fault_line fault.bit
        (codes "Utf8: no character begins here")) }
{
    push_place(text, fault.bit)?;
    text.extend_from_slice(b"Utf8: no character begins here")?;
    text.extend_from_slice(b"\n")
}

/// Appends the text of what is refused after an open tree of this many nodes that covers the frame up
/// to this bit, and of its fault.
pub(crate) fn push_refusal(
    text: &mut Vec<u8>,
    fault: Fault,
    stopped: Stopped,
    depth: u8,
    at: u32,
    octets: &[u8],
) -> Result<(), AllocError>
    ensures utf8 { OnOk result (fault.reason ≡ Utf8 → (b : Begun) (outer : List Begun)
        (rest : List Bool) → next_fault (b ∷ outer) rest ≡ Some (fault.bit, fault.reason)
        → text.new.items ≡ text.old.items
        ++ refusal_text (b ∷ outer) fault.bit fault.reason rest) }
    ensures other { OnOk result (fault.reason ≢ Utf8 → (b : Begun) (outer : List Begun)
        (rest : List Bool)
        → IsRefusedNode stopped.node depth at octets.now fault b outer rest
        → IsDueAt stopped.stage stopped.first b → MayFailFor stopped.stage fault.reason
        → text.new.items ≡ text.old.items
        ++ refusal_text (b ∷ outer) fault.bit fault.reason rest) }
{
    let place = RefusedAt {
        node: stopped.node,
        depth,
        at,
    };
    match fault.reason {
        Reason::Utf8 => push_utf8_fault(text, fault),
        _ => push_stopped(text, fault, place, stopped.stage, stopped.first, octets),
    }
}
