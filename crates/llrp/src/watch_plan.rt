//! The plans that the words of `watch` and `stop` ask for.

ghost use Rattle.std.specs.Prelude.{◌≡◌, ◌++◌, IfOk, OnOk, Some};
ghost use Rattle.llrp.specs.Calls.Watch.{MakesRoSpec, rospec_text, stop_plan, transmitter_text, watch_form, watch_plan};

use crate::plan::{NoPlan, read_plan};
use llrp_commands::{PlanWords, WatchWords};
use llrp_endpoints::{LineForm, Plan, PlanErr};
use llrp_listing::Text;
use llrp_power::Transmitter;
use llrp_schema::KindSet;
use llrp_stream::Input;
use std::alloc::{AllocError, Global};
use std::fs::File;
use std::io::ErrorKind;
use std::rt::Files;

/// The id of the ROSpec where none is given: LLRP's port, since most clients begin with 1.
pub const OWN_ID: u32 = 5084;

/// The antennas where none are said.
pub const ALL_ANTENNAS: &str = "0";

/// How many seconds pass between two KEEPALIVEs where nothing is said of them.
pub const KEEPALIVE: u16 = 10;

/// What the words of `inventory` would say of a ROSpec of the whole standard in a file, and nothing else.
const NO_OPTIONS: PlanWords<'static> = PlanWords {
    rospec: None,
    every: None,
    polls: Some(0),
    reports: None,
    check: false,
    clean: false,
    json: false,
    all: true,
};

/// A ROSpec that is made where no file has one.
#[derive(Clone, Copy, Debug, PartialEq, Eq)]
pub struct MadeRoSpec<'a> {
    pub id: u32,
    /// The numbers of its antennas, with commas between them; 0 stands for all (LLRP 1.1, section
    /// 11).
    pub antennas: &'a str,
    /// After how many tags the reader reports.
    pub every: u16,
    /// How its antennas transmit, if that is said.
    pub transmitter: Option<Transmitter>,
}

/// Appends the lines of an AntennaConfiguration of all antennas with this RFTransmitter (LLRP 1.1,
/// section 16).
fn push_transmitter(text: &mut Text, transmitter: Transmitter) -> Result<(), AllocError>
    ensures { OnOk result (text.new ≡ text.old ++ transmitter_text (Some transmitter)) }
{
    text.push_text(b"4 AntennaConfiguration 0\n5 RFTransmitter ")?;
    text.push_number(transmitter.hop_table_id as u128)?;
    text.push_text(b" ")?;
    text.push_number(transmitter.channel_index as u128)?;
    text.push_text(b" ")?;
    text.push_number(transmitter.transmit_power as u128)?;
    text.push_text(b"\n")?;
    Ok(())
}

/// The same, if there is one.
fn push_configuration(text: &mut Text, transmitter: Option<Transmitter>) -> Result<(), AllocError>
    ensures { OnOk result (text.new ≡ text.old ++ transmitter_text transmitter) }
{
    match transmitter {
        Some(transmitter) => push_transmitter(text, transmitter),
        None => Ok(()),
    }
}

/// The lines of a ROSpec with these antennas and this RFTransmitter, which starts and stops on commands. It
/// reports after this many tags, of each tag its antenna, channel, strength, both times and its count.
fn rospec_text(alloc: Global, made: MadeRoSpec<'_>) -> Result<Text, AllocError>
    ensures { IfOk result (λ text. text ≡ rospec_text made.entry) }
{
    let mut text = Text::new(alloc);
    text.push_text(b"1 ROSpec ")?;
    text.push_number(made.id as u128)?;
    text.push_text(
        b" 0 0\n2 ROBoundarySpec\n3 ROSpecStartTrigger 0\n3 ROSpecStopTrigger 0 0\n2 AISpec w",
    )?;
    text.push_text(made.antennas.as_bytes())?;
    text.push_text(b"\n3 AISpecStopTrigger 0 0\n3 InventoryParameterSpec 1 1\n")?;
    push_configuration(&mut text, made.transmitter)?;
    text.push_text(b"2 ROReportSpec 2 ")?;
    text.push_number(made.every as u128)?;
    text.push_text(b"\n3 TagReportContentSelector 0 0 0 1 1 1 1 1 1 0\n")?;
    Ok(text)
}

/// The plan with a ROSpec that is made.
pub fn made_plan(alloc: Global, made: MadeRoSpec<'_>) -> Result<Plan, NoPlan>
    ensures { MakesRoSpec made.entry result }
{
    let Ok(text) = rospec_text(alloc, made) else {
        return Err(NoPlan::Memory);
    };
    match Plan::parse(alloc, text.as_slice(), 0, false) {
        Ok(plan) => Ok(plan),
        Err(PlanErr::Line { line, reason }) => Err(NoPlan::Line { line, reason }),
        Err(PlanErr::Memory) => Err(NoPlan::Memory),
    }
}

/// The plan with the ROSpec of the file with this path, or with one that is made.
pub fn open_rospec<F: Files>(
    files: &F,
    alloc: Global,
    path: Option<&str>,
    made: MadeRoSpec<'_>,
) -> Result<Plan, NoPlan> {
    let Some(path) = path else {
        return made_plan(alloc, made);
    };
    match File::open(files, path) {
        Ok(file) => read_plan(alloc, NO_OPTIONS, &mut Input::new(file)),
        Err(error) => match error.kind() {
            ErrorKind::OutOfMemory => Err(NoPlan::Memory),
            _ => Err(NoPlan::Unread),
        },
    }
}

/// In what form the lines of tags are printed.
pub fn watch_form(words: WatchWords<'_>) -> LineForm
    ensures { result ≡ watch_form words.entry }
{
    if words.text {
        LineForm::Tags
    } else {
        LineForm::Full
    }
}

/// The plan with all else that the words ask for: it renews its ROSpec, passes over what is odd, lasts,
/// and takes all of LLRP 1.1.
pub fn watch_plan(words: WatchWords<'_>, plan: Plan) -> Plan
    ensures { result ≡ watch_plan words.entry plan }
{
    let seconds = words.keepalive.unwrap_or(KEEPALIVE) as u32;
    plan.renewing()
        .passing_over()
        .keeping(seconds * 1_000)
        .awaiting(u64::MAX)
        .in_form(watch_form(words))
        .in_set(KindSet::Standard)
}

/// The plan that only deletes the ROSpec of this one, and takes all of LLRP 1.1.
pub fn stop_plan(plan: Plan) -> Plan
    ensures { result ≡ stop_plan plan }
{
    plan.removing()
        .in_form(LineForm::Full)
        .in_set(KindSet::Standard)
}
