//! The steps of a file of messages.

ghost use Rattle.std.specs.Prelude.{◌≡◌, ◌≤◌, ◌++◌, IfErr, IfOk, List, OnOk, drop, length, take, true};
ghost use Rattle.std.specs.List.{AllZip};
ghost use Rattle.llrp_schema.specs.declared.kinds.KindSet.TheVariants.{Standard};
ghost use Rattle.llrp_ask.specs.Calls.Files.{RefusesFile};
ghost use Rattle.llrp_ask.specs.Private.Refusals.{later_by};
ghost use Rattle.llrp_ask.specs.Calls.File.{IsFile, IsStepOf, ListsSteps, from_own, lines_in, listed};
ghost use Rattle.llrp_ask.specs.declared.step.Step.{Step as TheStep};
ghost use Rattle.llrp_texts.specs.Calls.Texts.{RefusesText};
ghost use Rattle.llrp_texts.specs.declared.texts.TextErr.TheVariants.{Memory};
ghost use Rattle.llrp_tree.specs.declared.TheConstants.{MAX_LIMIT};

use crate::own_line::{begins_own, own_step};
use crate::response::awaited;
use crate::step::Step;
use llrp_listing::{Refusal, split_once};
use llrp_schema::KindSet;
use llrp_texts::{TextErr, messages_of};
use llrp_tree::{EncodeErr, MAX_LIMIT, Message, encode_into};
use std::alloc::Global;

/// The step that sends a message.
fn step_of(alloc: Global, message: &Message) -> Result<Step, TextErr>
    ensures step { IfOk result (IsStepOf message.now) }
    ensures err { IfErr result (λ e. e ≡ Memory) }
{
    message.lawful();
    let mut octets = Vec::new(alloc);
    match encode_into(alloc, message, &mut octets, MAX_LIMIT) {
        Ok(()) => Ok(Step {
            octets,
            wait: awaited(message),
        }),
        Err(EncodeErr::Memory) => Err(TextErr::Memory),
        Err(EncodeErr::OverLimit) => unreachable!(),
    }
}

/// Appends the steps of messages.
fn push_steps(alloc: Global, messages: &[Message], steps: &mut Vec<Step>) -> Result<(), TextErr>
    ensures steps { OnOk result ((more : List TheStep) × AllZip IsStepOf messages.now more
        × (steps.new.items ≡ steps.old.items ++ more)) }
    ensures err { IfErr result (λ e. e ≡ Memory) }
{
    for message in messages {
        steps.push(step_of(alloc, message)?)?;
    }
    Ok(())
}

/// Appends the steps of a listing.
fn push_listing(alloc: Global, text: &[u8], steps: &mut Vec<Step>) -> Result<(), TextErr>
    ensures steps { OnOk result ((more : List TheStep) × ListsSteps text.now more
        × (steps.new.items ≡ steps.old.items ++ more)) }
    ensures refused { IfErr result (λ e. RefusesText Standard MAX_LIMIT text.now e) }
{
    let messages = messages_of(alloc, KindSet::Standard, text, MAX_LIMIT)?;
    match push_steps(alloc, messages.as_slice(), steps) {
        Ok(()) => Ok(()),
        Err(_) => Err(TextErr::Memory),
    }
}

/// How many octets stand before the first line of the file's own.
fn listed_octets(raw: bool, text: &[u8]) -> usize
    ensures within { result ≤ length text.now }
    ensures before { take result text.now ≡ listed raw text.now }
    ensures after { drop result text.now ≡ from_own raw true text.now }
{
    let mut starts = true;
    for (i, octet) in text.iter().enumerate() {
        if starts && begins_own(raw, *octet) {
            return i;
        }
        starts = *octet == b'\n';
    }
    text.len()
}

/// How many LFs there are.
fn count_lines(text: &[u8]) -> usize
    ensures count { result ≡ lines_in text.now }
    ensures within { result ≤ length text.now }
{
    text.iter().filter(|octet| **octet == b'\n').count()
}

/// An error at a line that comes after this many.
fn later_error(error: TextErr, lines: usize) -> TextErr
    ensures { result ≡ later_by lines error }
{
    match error {
        TextErr::Line { line, reason } => TextErr::Line {
            line: line.saturating_add(lines as u64),
            reason,
        },
        TextErr::Memory => TextErr::Memory,
    }
}

/// The steps of a file of messages, each of which waits for the response that the tables have. With
/// `raw`, lines of octets may stand in it too; nothing is waited for after one. The error is the first
/// line that is refused, with the reason, or `Memory`.
pub fn steps_of(alloc: Global, text: &[u8], raw: bool) -> Result<Vec<Step>, TextErr>
    ensures steps { IfOk result (λ steps. IsFile raw text.now steps.items) }
    ensures refused { IfErr result (RefusesFile raw text.now) }
{
    let mut steps = Vec::new(alloc);
    let mut lines = 0;
    let mut rest = text;
    'parts: loop {
        let (listing, later) = rest.split_at(listed_octets(raw, rest));
        match push_listing(alloc, listing, &mut steps) {
            Ok(()) => {}
            Err(error) => return Err(later_error(error, lines)),
        }
        if later.is_empty() {
            return Ok(steps);
        }
        lines += count_lines(listing) + 1;
        let Some((line, after)) = split_once(later, b'\n') else {
            return Err(TextErr::Line {
                line: lines as u64,
                reason: Refusal::Line,
            });
        };
        steps.push(own_step(alloc, line, lines as u64)?)?;
        rest = after;
    }
}
