//! A line of a file of messages that is not one of a listing: a pause, or octets as they are.

ghost use Rattle.std.specs.Prelude.{◌≡◌, IfErr, IfOk};
ghost use Rattle.llrp_ask.specs.Calls.File.{IsOwnLine, IsPauseStep, IsRawStep, begins_own};
ghost use Rattle.llrp_ask.specs.Calls.Raw.{begins_raw};
ghost use Rattle.llrp_ask.specs.Private.Refusals.{RefusesOwn};

use crate::pause::pause_of;
use crate::raw::octets_of_line;
use crate::step::{Step, Wait};
use llrp_listing::Refusal;
use llrp_texts::TextErr;
use std::alloc::Global;

/// Whether a line that begins with this octet is the file's own, where octets may stand or may not.
pub(crate) fn begins_own(raw: bool, octet: u8) -> bool
    ensures { result ≡ begins_own raw octet }
{
    octet == b'=' || raw && octet == b'!'
}

/// Whether a line begins as one of octets.
fn begins_raw(line: &[u8]) -> bool
    ensures { result ≡ begins_raw line.now }
{
    match line {
        [first, ..] => *first == b'!',
        [] => false,
    }
}

/// The step of a pause.
fn pause_step(alloc: Global, milliseconds: u32) -> Step
    ensures { IsPauseStep milliseconds result }
{
    Step {
        octets: Vec::new(alloc),
        wait: Some(Wait::Pause { milliseconds }),
    }
}

/// The step of octets.
fn raw_step(octets: Vec<u8>) -> Step
    ensures { IsRawStep octets.items result }
{
    Step { octets, wait: None }
}

/// The step that the line with this number says, without its LF.
pub(crate) fn own_step(alloc: Global, line: &[u8], number: u64) -> Result<Step, TextErr>
    ensures step { IfOk result (IsOwnLine line.now) }
    ensures refused { IfErr result (RefusesOwn line.now number) }
{
    if begins_raw(line) {
        return match octets_of_line(alloc, line)? {
            Some(octets) => Ok(raw_step(octets)),
            None => Err(TextErr::Line {
                line: number,
                reason: Refusal::Tail,
            }),
        };
    }
    match pause_of(line) {
        Some(milliseconds) => Ok(pause_step(alloc, milliseconds)),
        None => Err(TextErr::Line {
            line: number,
            reason: Refusal::Number,
        }),
    }
}
