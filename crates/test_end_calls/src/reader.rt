//! The steps of a simulated reader.

ghost use Rattle.std.specs.Prelude.{◌≤◌, IfOk};
ghost use Rattle.llrp_tree.specs.declared.TheConstants.{MAX_LIMIT};

use anyhow::{Context, Result, bail};
use llrp_session::{Reader, ReaderIn, Sighting, StepFault};
use llrp_tree::{FrameErr, MAX_LIMIT, Message, decode_frame};
use std::alloc::Global;
use tag_bits::{Word, get};
use test_devices::rows::{allow_growths, octets_of, refuse_growths, spelled};

/// Makes the call of this module, and returns whether it has this name.
pub fn make(rt: &HostRuntime, call: &str, row: &[String]) -> Result<bool> {
    if call != "reader" {
        return Ok(false);
    }
    reader(rt, row)?;
    Ok(true)
}

/// The event in which the reader gets a frame, lawful or not.
fn taken(alloc: Global, frame: &[u8]) -> Result<ReaderIn> {
    if frame.len() < 10 || get(frame, 16, 32) != frame.len() as u128 {
        bail!("the frame's length field is not its number of octets");
    }
    match decode_frame(alloc, frame, MAX_LIMIT) {
        Ok(message) => Ok(ReaderIn::Take(message)),
        Err(FrameErr::Bad(fault)) => Ok(ReaderIn::TakeBad {
            id: get(frame, 48, 32) as u32,
            reason: fault.reason,
        }),
        Err(FrameErr::Memory) => bail!("no memory for a row"),
    }
}

/// The event that a word names: `connect`, `tick`, `seen:` and an antenna, or a frame.
fn event_of(alloc: Global, word: &str) -> Result<ReaderIn> {
    let (name, rest) = word.split_once(":").unwrap_or((word, ""));
    Ok(match name {
        "connect" => ReaderIn::Connect,
        "tick" => ReaderIn::Tick,
        "seen" => ReaderIn::Seen(Sighting {
            antenna: rest.parse()?,
            rssi: -60,
            epc: Word::of_bytes([
                0x30, 0x74, 0x25, 0x7b, 0xf7, 0x19, 0x4e, 0x40, 0, 0, 0x1a, 0x85,
            ]),
        }),
        frame => taken(alloc, octets_of(alloc, frame)?.as_slice())?,
    })
}

/// The moment and the event of a word, before and after its `@`.
fn moment_of(alloc: Global, word: &str) -> Result<(u64, ReaderIn)> {
    let (now, event) = word.split_once("@").context("a step without a moment")?;
    let now: u64 = now.parse()?;
    Ok((now, event_of(alloc, event)?))
}

/// Prints what a step answered, a fault or nothing, and the octets of the messages that the reader says.
fn print_said(
    rt: &HostRuntime,
    what: &str,
    fault: Option<StepFault>,
    out: &[Message],
) -> Result<()> {
    let octets = spelled(rt.alloc(), out)?;
    let digits = hex::encode(rt.alloc(), octets.as_slice())?;
    match fault {
        Some(fault) => println!(rt; "{what} {fault:?} {digits}")?,
        None => println!(rt; "{what} {digits}")?,
    }
    Ok(())
}

/// Calls `Reader::step` on a moment and an event; where `is_last`, memory may be refused.
fn step(rt: &HostRuntime, reader: &mut Reader, word: &str, is_last: bool) -> Result<()> {
    let (now, event) = moment_of(rt.alloc(), word)?;
    let mut out = Vec::new(rt.alloc());
    if is_last {
        refuse_growths(rt)?;
    }
    let stepped = reader.step(now, event, &mut out);
    if is_last {
        allow_growths(rt)?;
    }
    let Err(refusal) = stepped else {
        return print_said(rt, "answer", None, out.as_slice());
    };
    if refusal.fault != StepFault::Memory {
        return print_said(rt, "answer", Some(refusal.fault), out.as_slice());
    }
    let sent = out.len();
    println!(rt; "answer Memory")?;
    println!(rt; "after sent {sent}")?;
    if reader.step(now, refusal.event, &mut out).is_err() {
        bail!("the step is refused again");
    }
    print_said(rt, "again", None, out.as_slice())
}

/// Makes the step of a word, or prints the state of the ROSpec whose id is after its `?`.
fn act(rt: &HostRuntime, reader: &mut Reader, word: &str, is_last: bool) -> Result<()> {
    let Some(id) = word.strip_prefix("?") else {
        return step(rt, reader, word, is_last);
    };
    let state = reader.state_of(id.parse()?);
    println!(rt; "answer {state:?}")?;
    Ok(())
}

/// A limit of messages that a reader may have.
fn limit_of(word: &str) -> Result<u32>
    ensures least { IfOk result (λ limit. 4096 ≤ limit) }
    ensures most { IfOk result (λ limit. limit ≤ MAX_LIMIT) }
{
    let limit: u32 = word.parse()?;
    if limit < 4096 || limit > MAX_LIMIT {
        bail!("no limit of a reader");
    }
    Ok(limit)
}

/// Makes steps of a reader: the first word is its limit, and each other one a moment, `@` and an event, or `?`
/// and the id of a ROSpec.
fn reader(rt: &HostRuntime, row: &[String]) -> Result<()> {
    let [limit, before @ .., last] = row else {
        bail!("the words are a limit and steps");
    };
    let mut reader = Reader::new(rt.alloc(), limit_of(limit.as_str())?, 1);
    for word in before {
        act(rt, &mut reader, word.as_str(), false)?;
    }
    act(rt, &mut reader, last.as_str(), true)
}
