//! A client that lasts and transmits with a power of its own, which its reader has.

ghost use Rattle.llrp_words.specs.Calls.Arguments.{IsLongest};
ghost use Rattle.llrp_stream.specs.Calls.Device.{CanWrite, new_source};
ghost use Rattle.llrp_stream.specs.Device.{IsFreshSink};
ghost use Rattle.std.specs.Prelude.{◌≡◌, None};

use crate::access::{Access, saying};
use crate::decibels::power_text;
use crate::plan::NoPlan;
use crate::powers::ask_offer;
use crate::printing::Printing;
use crate::replayed::Replayed;
use crate::watch_plan::{MadeRoSpec, made_plan, watch_plan};
use llrp_commands::{WatchWords, answer};
use llrp_endpoints::Plan;
use llrp_listing::{Text, ToolErr, write_all};
use llrp_power::Offer;
use llrp_stream::{Sink, Source};
use std::alloc::{AllocError, Global};

/// The exit status if the reader has no power that low.
const REFUSED: u8 = 1;

/// Why a client that lasts ended.
#[derive(Clone, Copy, Debug, PartialEq, Eq)]
pub enum Stopped {
    /// By an error of its run.
    Run(ToolErr),
    /// The reader has no power that low: this level is its least, if it names any.
    Power(Option<u16>),
}

/// The ROSpec that a client makes, and the most power that it wants, as a level.
#[derive(Clone, Copy)]
pub struct Wanted<'a> {
    pub words: WatchWords<'a>,
    /// What is sent beside the plan.
    pub access: Option<&'a Access>,
    pub made: MadeRoSpec<'a>,
    pub most: u16,
}

/// The plan with the RFTransmitter that the reader offers.
fn offered_plan(alloc: Global, wanted: Wanted<'_>, offer: Offer) -> Result<Plan, Stopped> {
    let transmitter = match offer {
        Offer::Transmits(transmitter) => Some(transmitter),
        Offer::TooLow(least) => return Err(Stopped::Power(least)),
    };
    let made = MadeRoSpec {
        transmitter,
        ..wanted.made
    };
    let plan = match made_plan(alloc, made) {
        Ok(plan) => saying(alloc, watch_plan(wanted.words, plan), wanted.access),
        Err(no_plan) => Err(no_plan),
    };
    match plan {
        Ok(plan) => Ok(plan),
        Err(NoPlan::Memory) => Err(Stopped::Run(ToolErr::Memory)),
        Err(_) => Err(Stopped::Run(ToolErr::Strange)),
    }
}

/// Asks the reader whose octets the source gives, of whose messages none may be longer than `limit`, for
/// the powers that it has, and follows the plan with the greatest that is not above the one that is
/// wanted. Returns how that ended, and the source.
pub fn take_powered<R: Source + Drop, S: Sink, P: Printing>(
    alloc: Global,
    wanted: Wanted<'_>,
    limit: u32,
    source: R,
    sink: &mut S,
    printer: &mut P,
) -> (Result<(), Stopped>, R)
    requires limit { IsLongest limit }
    requires source { R.log source ≡ new_source None }
    requires sink { IsFreshSink (S.log sink.old) }
{
    let mut source = source;
    let asked = match ask_offer(alloc, limit, wanted.most, &mut source, sink) {
        Ok(asked) => asked,
        Err(error) => return (Err(Stopped::Run(error)), source),
    };
    let plan = match offered_plan(alloc, wanted, asked.offer) {
        Ok(plan) => plan,
        Err(stopped) => return (Err(stopped), source),
    };
    let mut source = Replayed::new(asked.octets.as_slice(), source);
    let outcome = match printer.follow(alloc, plan, limit, &mut source, sink) {
        Ok(()) => Ok(()),
        Err(error) => Err(Stopped::Run(error)),
    };
    (outcome, source.into_source())
}

/// The line of a reader that has no power that low.
fn power_line(alloc: Global, least: Option<u16>) -> Result<Text, AllocError> {
    let mut line = Text::new(alloc);
    line.push_text(b"llrp: power")?;
    if let Some(level) = least {
        line.push_text(b" least ")?;
        line.push_text(power_text(alloc, level)?.as_slice())?;
    }
    line.push_text(b"\n")?;
    Ok(line)
}

/// Writes that the reader has no power that low, with the least that it has, and returns the exit
/// status.
pub fn refuse_power<E: Sink>(
    alloc: Global,
    least: Option<u16>,
    errors: &mut E,
) -> Result<u8, ToolErr>
    requires { CanWrite (E.log errors.old) }
{
    let Ok(line) = power_line(alloc, least) else {
        return answer(Err(ToolErr::Memory), errors);
    };
    write_all(errors, line.as_slice())?;
    Ok(REFUSED)
}
