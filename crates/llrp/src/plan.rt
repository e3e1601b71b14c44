//! The plan that the words of `inventory` and `loop` ask for.

ghost use Rattle.std.specs.Prelude.{◌≡◌, ◌&&◌, IfErr, IfOk, is_some, true};
ghost use Rattle.llrp_stream.specs.Calls.Device.{CanWrite};
ghost use Rattle.llrp_stream.specs.Device.{IsFreshSource};
ghost use Rattle.llrp.specs.Calls.Plan.{OpensPlan, ReadsPlan, Refuses, asked_form, asked_plan, asked_polls, asked_set, never_reports, with_options};
ghost use Rattle.llrp.specs.declared.plan.NoPlan.TheVariants.{Memory};

use llrp_commands::{PlanWords, answer, write_refusal};
use llrp_endpoints::{LineForm, Plan, PlanErr, checked_plan, read_rospec, standard_plan};
use llrp_files::FAILED;
use llrp_listing::{Refusal, ToolErr, write_all};
use llrp_schema::KindSet;
use llrp_stream::{Input, Sink, Source};
use std::alloc::Global;
use std::fs::File;
use std::io::ErrorKind;
use std::rt::Files;

/// The exit status if the file of a ROSpec is refused.
const REFUSED: u8 = 1;

/// Why the words have no plan.
#[derive(Clone, Copy, Debug, PartialEq, Eq)]
pub enum NoPlan {
    /// The file of the ROSpec cannot be opened or read.
    Unread,
    /// A line of it, counted from 1, is refused.
    Line { line: u64, reason: Refusal },
    /// Memory ran out.
    Memory,
}

/// Whether the reader of this plan would report at the end of the ROSpec alone, although reports are
/// awaited before.
pub fn never_reports(words: PlanWords<'_>) -> bool
    ensures { result ≡ never_reports words.entry }
{
    words.reports.is_some() && words.every == Some(0)
}

/// Whether the words say after how many tags the reader reports, although their ROSpec says it.
pub fn has_every_twice(words: PlanWords<'_>) -> bool
    ensures { result ≡ is_some words.entry.rospec && is_some words.entry.every }
{
    words.rospec.is_some() && words.every.is_some()
}

/// How often reports are asked for.
fn asked_polls(words: PlanWords<'_>) -> u16
    ensures { result ≡ asked_polls words.entry }
{
    match words.reports {
        Some(_) => words.polls.unwrap_or(0),
        None => words.polls.unwrap_or(1),
    }
}

/// In what form the lines of a plan are printed.
fn asked_form(words: PlanWords<'_>) -> LineForm
    ensures { result ≡ asked_form words.entry }
{
    if words.json {
        LineForm::Json
    } else {
        LineForm::Words
    }
}

/// In which set of kinds the reader's messages are read.
fn asked_set(words: PlanWords<'_>) -> KindSet
    ensures { result ≡ asked_set words.entry }
{
    if words.all {
        KindSet::Standard
    } else {
        KindSet::Profile
    }
}

/// The plan with what the words ask of every plan.
fn with_options(words: PlanWords<'_>, plan: Plan) -> Plan
    ensures { result ≡ with_options words.entry plan }
{
    let plan = plan
        .awaiting(words.reports.unwrap_or(0) as u64)
        .in_form(asked_form(words))
        .in_set(asked_set(words));
    if words.clean { plan.cleaning() } else { plan }
}

/// The plan of words without a file, whose ROSpec has all antennas. The only error is `Memory`.
pub fn plan_of(alloc: Global, words: PlanWords<'_>) -> Result<Plan, NoPlan>
    ensures plan { IfOk result (λ p. p ≡ asked_plan words.entry) }
    ensures memory { IfErr result (λ e. e ≡ Memory) }
{
    let every = match words.reports {
        Some(_) => words.every.unwrap_or(1),
        None => words.every.unwrap_or(0),
    };
    let polls = asked_polls(words);
    let made = if words.check {
        checked_plan(alloc, every, polls)
    } else {
        standard_plan(alloc, every, polls)
    };
    match made {
        Ok(plan) => Ok(with_options(words, plan)),
        Err(_) => Err(NoPlan::Memory),
    }
}

/// The plan of words whose ROSpec this source has, with `all` one of the whole standard. It is read to its
/// end, or until no plan has a text that begins so.
pub fn read_plan<R: Source>(alloc: Global, words: PlanWords<'_>, r: &mut R) -> Result<Plan, NoPlan>
    requires { IsFreshSource (R.log r.old) }
    ensures { ReadsPlan words.entry (R.log r.old) (R.log r.new) result }
{
    let text = match read_rospec(alloc, r) {
        Ok(text) => text,
        Err(ToolErr::Memory) => return Err(NoPlan::Memory),
        Err(_) => return Err(NoPlan::Unread),
    };
    let (set, polls) = (asked_set(words), asked_polls(words));
    match Plan::parse_in(alloc, set, text.as_slice(), polls, words.check) {
        Ok(plan) => Ok(with_options(words, plan)),
        Err(PlanErr::Line { line, reason }) => Err(NoPlan::Line { line, reason }),
        Err(PlanErr::Memory) => Err(NoPlan::Memory),
    }
}

/// The plan that the words ask for, with the ROSpec of the file that they name, if they name one.
pub fn open_plan<F: Files>(files: &F, alloc: Global, words: PlanWords<'_>) -> Result<Plan, NoPlan>
    ensures { OpensPlan words.entry result }
{
    let Some(path) = words.rospec else {
        return plan_of(alloc, words);
    };
    match File::open(files, path) {
        Ok(file) => read_plan(alloc, words, &mut Input::new(file)),
        Err(error) => match error.kind() {
            ErrorKind::OutOfMemory => Err(NoPlan::Memory),
            _ => Err(NoPlan::Unread),
        },
    }
}

/// Writes why there is no plan as a line, and returns the exit status: 1 if a line of the file is
/// refused, 3 if it cannot be read or memory ran out.
pub fn refuse<E: Sink>(no_plan: NoPlan, e: &mut E) -> Result<u8, ToolErr>
    requires { CanWrite (E.log e.old) }
    ensures { Refuses no_plan (E.log e.old) (E.log e.new) result }
{
    match no_plan {
        NoPlan::Unread => {
            write_all(e, b"llrp: rospec\n")?;
            Ok(FAILED)
        }
        NoPlan::Line { line, reason } => {
            write_refusal(e, b"llrp: rospec line ", line, reason)?;
            Ok(REFUSED)
        }
        NoPlan::Memory => answer(Err(ToolErr::Memory), e),
    }
}
