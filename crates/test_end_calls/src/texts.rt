//! Scripts and plans, and the texts that they are made of.

use anyhow::{Context, Result, bail};
use llrp_endpoints::{Action, LineForm, Plan, PlanErr, Script, checked_plan, standard_plan};
use llrp_listing::ToolErr;
use llrp_tree::KindSet;
use std::alloc::Global;
use test_devices::Pieces;
use test_devices::rows::{allow_growths, octets_of, only_octets, refuse_growths};

/// Makes a call of this module, and returns whether it has one of this name.
pub fn make(rt: &HostRuntime, call: &str, row: &[String]) -> Result<bool> {
    match call {
        "script" => script(rt, row)?,
        "script-read" => script_read(rt, row)?,
        "rospec" => rospec(rt, row)?,
        "plan" => plan(rt, row)?,
        _ => return Ok(false),
    }
    Ok(true)
}

/// The script of a text.
pub fn script_of(alloc: Global, word: &str) -> Result<Script> {
    Script::parse(alloc, octets_of(alloc, word)?.as_slice())
        .ok()
        .context("no script")
}

/// Prints what a script is read as: its entries, or why it is refused.
fn print_script(rt: &HostRuntime, what: &str, script: &Result<Script, ToolErr>) -> Result<()> {
    let script = match script {
        Ok(script) => script,
        Err(error) => {
            println!(rt; "{what} {error:?}")?;
            return Ok(());
        }
    };
    let count = script.entries().len();
    println!(rt; "{what} {count} entries")?;
    Ok(())
}

/// Prints the entries of a script, a line each.
fn print_entries(rt: &HostRuntime, script: &Script) -> Result<()> {
    for entry in script.entries() {
        let (after, now) = (entry.after, entry.now);
        match entry.action {
            Action::Tick => println!(rt; "entry {after} {now} tick")?,
            Action::Seen(seen) => {
                let digits = hex::encode(rt.alloc(), seen.epc.to_bytes().as_slice())?;
                let (antenna, rssi) = (seen.antenna, seen.rssi);
                println!(rt; "entry {after} {now} {antenna} {rssi} {digits}")?;
            }
        }
    }
    Ok(())
}

/// Calls `Script::parse` on a text.
fn script(rt: &HostRuntime, row: &[String]) -> Result<()> {
    let alloc = rt.alloc();
    let text = only_octets(alloc, row)?;
    refuse_growths(rt)?;
    let parsed = Script::parse(alloc, text.as_slice());
    allow_growths(rt)?;
    if matches!(parsed, Err(ToolErr::Memory)) {
        println!(rt; "answer Memory")?;
        println!(rt; "after same")?;
        return print_script(rt, "again", &Script::parse(alloc, text.as_slice()));
    }
    print_script(rt, "answer", &parsed)?;
    match parsed {
        Ok(script) => print_entries(rt, &script),
        Err(_) => Ok(()),
    }
}

/// Calls `Script::read` on a text: how many octets its first piece has, where each later one has one, and the text.
fn script_read(rt: &HostRuntime, row: &[String]) -> Result<()> {
    let alloc = rt.alloc();
    let [size, text] = row else {
        bail!("the words are a number of octets and a text");
    };
    let size: usize = size.as_str().parse()?;
    let text = octets_of(alloc, text.as_str())?;
    let read = Script::read(alloc, &mut Pieces::new(text.as_slice(), size, 1));
    print_script(rt, "answer", &read)?;
    match read {
        Ok(script) => print_entries(rt, &script),
        Err(_) => Ok(()),
    }
}

/// The lines of a ROSpec that the reader starts.
const ROSPEC: &[u8] =
    b"1 ROSpec 7 0 0\n2 ROBoundarySpec\n3 ROSpecStartTrigger 1\n3 ROSpecStopTrigger 0 0\n\
2 AISpec w1,2\n3 AISpecStopTrigger 0 0\n3 InventoryParameterSpec 1 1\n2 ROReportSpec 2 1\n\
3 TagReportContentSelector 0 0 0 1 0 1 0 0 0 0\n";

/// The checked plan with that ROSpec, which cleans and awaits a report.
fn own_plan(alloc: Global, polls: u16) -> Result<Result<Plan, ToolErr>> {
    match Plan::parse(alloc, ROSPEC, polls, true) {
        Ok(plan) => Ok(Ok(plan.awaiting(1).cleaning())),
        Err(PlanErr::Memory) => Ok(Err(ToolErr::Memory)),
        Err(PlanErr::Line { .. }) => bail!("no ROSpec"),
    }
}

/// Calls `Plan::parse` on the text of a ROSpec.
fn rospec(rt: &HostRuntime, row: &[String]) -> Result<()> {
    let alloc = rt.alloc();
    let text = only_octets(alloc, row)?;
    refuse_growths(rt)?;
    let parsed = Plan::parse(alloc, text.as_slice(), 1, false).err();
    allow_growths(rt)?;
    match parsed {
        Some(PlanErr::Memory) => {
            println!(rt; "answer Memory")?;
            println!(rt; "after same")?;
            let again = Plan::parse(alloc, text.as_slice(), 1, false).err();
            println!(rt; "again {again:?}")?;
        }
        parsed => println!(rt; "answer {parsed:?}")?,
    }
    Ok(())
}

/// The plan of two numbers, or the checked one, which has a `c` before the first; or with `own` in place of
/// the first, that of a ROSpec of one's own.
fn made_plan(alloc: Global, every: &str, polls: u16) -> Result<Result<Plan, ToolErr>> {
    if every == "own" {
        return own_plan(alloc, polls);
    }
    Ok(match every.strip_prefix("c") {
        Some(every) => checked_plan(alloc, every.parse()?, polls),
        None => standard_plan(alloc, every.parse()?, polls),
    })
}

/// A plan as a word says further: the form of its lines, `whole` for all of LLRP 1.1, or `lasting` for KEEPALIVEs each
/// 1,000 milliseconds and reports without end.
fn changed_plan(plan: Plan, word: &str) -> Result<Plan> {
    Ok(match word {
        "json" => plan.in_form(LineForm::Json),
        "full" => plan.in_form(LineForm::Full),
        "tags" => plan.in_form(LineForm::Tags),
        "whole" => plan.in_set(KindSet::Standard),
        "lasting" => plan.keeping(1_000).awaiting(u64::MAX),
        _ => bail!("no such plan"),
    })
}

/// The plan of a word, whose parts are split by colons: how many tags a report has, how many polls there are, and what else it says.
pub fn plan_of(alloc: Global, word: &str) -> Result<Plan> {
    let (every, rest) = word.split_once(":").context("no polls")?;
    let (polls, more) = rest.split_once(":").unwrap_or((rest, ""));
    let plan = made_plan(alloc, every, polls.parse()?)?
        .ok()
        .context("no plan")?;
    if more.is_empty() {
        return Ok(plan);
    }
    changed_plan(plan, more)
}

/// Prints the numbers of a plan, whether it is checked and how many octets its ROSpec has, or why there is none;
/// returns whether the answer was Memory.
fn print_plan(rt: &HostRuntime, what: &str, plan: &Result<Plan, ToolErr>) -> Result<bool> {
    match plan {
        Ok(plan) => {
            let (every, polls, checked) = (plan.every(), plan.polls(), plan.is_checked());
            let octets = plan.rospec().length();
            println!(rt; "{what} {every} {polls} {checked} {octets}")?;
            Ok(false)
        }
        Err(error) => {
            println!(rt; "{what} {error:?}")?;
            Ok(*error == ToolErr::Memory)
        }
    }
}

/// Calls `standard_plan` or `checked_plan` on two numbers, or `Plan::parse`.
fn plan(rt: &HostRuntime, row: &[String]) -> Result<()> {
    let alloc = rt.alloc();
    let [word] = row else {
        bail!("no plan");
    };
    let (every, polls) = word.as_str().split_once(":").context("no polls")?;
    let polls: u16 = polls.parse()?;
    refuse_growths(rt)?;
    let made = made_plan(alloc, every, polls)?;
    allow_growths(rt)?;
    if print_plan(rt, "answer", &made)? {
        println!(rt; "after same")?;
        print_plan(rt, "again", &made_plan(alloc, every, polls)?)?;
    }
    Ok(())
}
