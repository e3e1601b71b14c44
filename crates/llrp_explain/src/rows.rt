//! The kinds of a set by their numbers, and the lines of the table.

ghost use Rattle.std.specs.Prelude.{◌≡◌, ◌++◌, IfOk, OnOk};
ghost use Rattle.std.specs.List.{flat_map};
ghost use Rattle.llrp_explain.specs.Calls.KindTexts.{by_number, kind_text, kinds_named, kinds_of, messages_at, parameters_at, short_at, table_text, texts_named};

use crate::kind_texts::push_kind;
use llrp_schema::{
    Kind, KindSet, msg_of_in, msg_with_name_in, param_of_tlv_in, param_of_tv_in, param_with_name_in,
};
use std::alloc::{AllocError, Global};

/// The numbers of messages, and of parameters with a length, are below this: they have 10 bits.
const NUMBERS: u16 = 1024;

/// The numbers of parameters with a type and a value alone are below this: they have 7 bits.
const SHORT_NUMBERS: u8 = 128;

/// Appends the message of a set that has this number, if there is one.
fn push_message_at(kinds: &mut Vec<Kind>, set: KindSet, number: u16) -> Result<(), AllocError>
    ensures { OnOk result (kinds.new.items ≡ kinds.old.items ++ messages_at set number) }
{
    if let Some(kind) = msg_of_in(set, number) {
        kinds.push(Kind::Message(kind))?;
    }
    Ok(())
}

/// Appends the messages of a set by their numbers.
fn push_messages(kinds: &mut Vec<Kind>, set: KindSet) -> Result<(), AllocError>
    ensures { OnOk result (kinds.new.items ≡ kinds.old.items
        ++ by_number (messages_at set) 1024) }
{
    for number in 0..NUMBERS {
        push_message_at(kinds, set, number)?;
    }
    Ok(())
}

/// Appends the parameter with a type and a value alone of a set that has this number, if there is one.
fn push_short_at(kinds: &mut Vec<Kind>, set: KindSet, number: u8) -> Result<(), AllocError>
    ensures { OnOk result (kinds.new.items ≡ kinds.old.items ++ short_at set number) }
{
    if let Some(kind) = param_of_tv_in(set, number) {
        kinds.push(Kind::Parameter(kind))?;
    }
    Ok(())
}

/// Appends the parameters of a set with a type and a value alone by their numbers.
fn push_short(kinds: &mut Vec<Kind>, set: KindSet) -> Result<(), AllocError>
    ensures { OnOk result (kinds.new.items ≡ kinds.old.items
        ++ by_number (short_at set) 128) }
{
    for number in 0..SHORT_NUMBERS {
        push_short_at(kinds, set, number)?;
    }
    Ok(())
}

/// Appends the parameter with a length of a set that has this number, if there is one.
fn push_parameter_at(kinds: &mut Vec<Kind>, set: KindSet, number: u16) -> Result<(), AllocError>
    ensures { OnOk result (kinds.new.items ≡ kinds.old.items ++ parameters_at set number) }
{
    if let Some(kind) = param_of_tlv_in(set, number) {
        kinds.push(Kind::Parameter(kind))?;
    }
    Ok(())
}

/// Appends the parameters of a set with a length by their numbers.
fn push_parameters(kinds: &mut Vec<Kind>, set: KindSet) -> Result<(), AllocError>
    ensures { OnOk result (kinds.new.items ≡ kinds.old.items
        ++ by_number (parameters_at set) 1024) }
{
    for number in 0..NUMBERS {
        push_parameter_at(kinds, set, number)?;
    }
    Ok(())
}

/// The kinds of a set by their numbers: its messages, its parameters with a type and a value alone,
/// and its parameters with a length.
#[tactic(auto, unfolding(crate::specs::Calls::KindTexts::kinds_of))]
pub fn kinds_of(alloc: Global, set: KindSet) -> Result<Vec<Kind>, AllocError>
    ensures { IfOk result (λ kinds. kinds.items ≡ kinds_of set) }
{
    let mut kinds = Vec::new(alloc);
    push_messages(&mut kinds, set)?;
    push_short(&mut kinds, set)?;
    push_parameters(&mut kinds, set)?;
    Ok(kinds)
}

/// Appends the lines of kinds.
fn push_lines(
    alloc: Global,
    text: &mut Vec<u8>,
    kinds: &[Kind],
    of: &[Kind],
) -> Result<(), AllocError>
    ensures { OnOk result (text.new.items ≡ text.old.items ++ flat_map (kind_text kinds.now) of.now) }
{
    for kind in of {
        push_kind(alloc, text, kinds, *kind)?;
    }
    Ok(())
}

/// The table of a set of kinds: a line for each (LLRP 1.1, sections 17.1 and 17.2).
#[tactic(auto, unfolding(crate::specs::Calls::KindTexts::table_text))]
pub fn table(alloc: Global, set: KindSet) -> Result<Vec<u8>, AllocError>
    ensures { IfOk result (λ text. text.items ≡ table_text set) }
{
    let kinds = kinds_of(alloc, set)?;
    let mut text = Vec::new(alloc);
    push_lines(alloc, &mut text, kinds.as_slice(), kinds.as_slice())?;
    Ok(text)
}

/// The kinds of a set with this name: one or none.
fn kinds_named(alloc: Global, set: KindSet, name: &[u8]) -> Result<Vec<Kind>, AllocError>
    ensures { IfOk result (λ kinds. kinds.items ≡ kinds_named set name.now) }
{
    let mut kinds = Vec::new(alloc);
    if let Some(kind) = msg_with_name_in(set, name) {
        kinds.push(Kind::Message(kind))?;
    }
    if let Some(kind) = param_with_name_in(set, name) {
        kinds.push(Kind::Parameter(kind))?;
    }
    Ok(kinds)
}

/// The line of the kind with this name; no octet where the set has no such kind.
pub fn line_of(alloc: Global, set: KindSet, name: &[u8]) -> Result<Vec<u8>, AllocError>
    ensures { IfOk result (λ text. text.items ≡ texts_named set name.now) }
{
    let kinds = kinds_of(alloc, set)?;
    let found = kinds_named(alloc, set, name)?;
    let mut text = Vec::new(alloc);
    push_lines(alloc, &mut text, kinds.as_slice(), found.as_slice())?;
    Ok(text)
}
