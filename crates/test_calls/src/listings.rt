//! The commands over whole streams and listings.

use anyhow::Result;
use llrp_listing::{run_encode, run_show};
use llrp_stream::{Input, write_message};
use llrp_tree::MAX_LIMIT;
use test_devices::Room;
use test_devices::rows::{
    allow_growths, message_of, octets_and_limit, only_octets, print_octets, refuse_growths,
};

/// Makes a call of this module, and returns whether it has one of this name.
pub fn make(rt: &HostRuntime, call: &str, row: &[String]) -> Result<bool> {
    match call {
        "show" => show(rt, row)?,
        "list" => list(rt, row)?,
        "write" => write(rt, row)?,
        _ => return Ok(false),
    }
    Ok(true)
}

/// Calls `run_show` on a stream: its octets, and a limit or none.
fn show(rt: &HostRuntime, row: &[String]) -> Result<()> {
    let alloc = rt.alloc();
    let (stream, limit) = octets_and_limit(alloc, row)?;
    let mut source = Input::new(stream.as_slice());
    let mut sink = Room::new(alloc, stream.len().saturating_mul(64).saturating_add(4096))?;
    refuse_growths(rt)?;
    let verdict = run_show(alloc, &mut source, &mut sink, limit);
    allow_growths(rt)?;
    println!(rt; "answer {verdict:?}")?;
    print_octets(rt, "wrote", sink.taken())
}

/// Calls `run_encode` on a listing: its text, and a limit or none.
fn list(rt: &HostRuntime, row: &[String]) -> Result<()> {
    let alloc = rt.alloc();
    let (text, limit) = octets_and_limit(alloc, row)?;
    let mut source = Input::new(text.as_slice());
    let mut sink = Room::new(alloc, text.len().saturating_add(4096))?;
    refuse_growths(rt)?;
    let done = run_encode(alloc, &mut source, &mut sink, limit);
    allow_growths(rt)?;
    println!(rt; "answer {done:?}")?;
    print_octets(rt, "wrote", sink.taken())
}

/// Calls `write_message` on the message of a frame.
fn write(rt: &HostRuntime, row: &[String]) -> Result<()> {
    let alloc = rt.alloc();
    let message = message_of(alloc, only_octets(alloc, row)?.as_slice())?;
    let mut sink = Room::new(alloc, 1 << 20)?;
    refuse_growths(rt)?;
    let done = write_message(&message, MAX_LIMIT, &mut sink);
    allow_growths(rt)?;
    println!(rt; "answer {done:?}")?;
    print_octets(rt, "wrote", sink.taken())
}
