//! Both ends of a connection over sources and sinks, and what a client hears of a message.

use crate::texts::{plan_of, script_of};
use anyhow::{Result, bail};
use llrp_endpoints::{own_message, run_inventory, run_serve};
use llrp_session::Reader;
use llrp_stream::Input;
use llrp_tree::{KindSet, MAX_LIMIT, encode_into};
use test_devices::rows::{allow_growths, octets_of, only_octets, print_octets, refuse_growths};
use test_devices::{Room, decoded_in};

/// Makes a call of this module, and returns whether it has one of this name.
pub fn make(rt: &HostRuntime, call: &str, row: &[String]) -> Result<bool> {
    match call {
        "serve" => serve(rt, row)?,
        "inventory" => inventory(rt, row)?,
        "own" => own(rt, row)?,
        _ => return Ok(false),
    }
    Ok(true)
}

/// Calls `run_serve`: the words are the client's octets and the script.
fn serve(rt: &HostRuntime, row: &[String]) -> Result<()> {
    let alloc = rt.alloc();
    let [stream, script] = row else {
        bail!("the words are octets and a script");
    };
    let stream = octets_of(alloc, stream.as_str())?;
    let script = script_of(alloc, script.as_str())?;
    let mut source = Input::new(stream.as_slice());
    let mut sink = Room::new(alloc, 1 << 20)?;
    refuse_growths(rt)?;
    let core = Reader::new(alloc, MAX_LIMIT, 1);
    let end = run_serve(alloc, core, script, &mut source, &mut sink);
    allow_growths(rt)?;
    println!(rt; "answer {end:?}")?;
    print_octets(rt, "wrote", sink.taken())
}

/// Calls `run_inventory`: the words are the plan and the reader's octets.
fn inventory(rt: &HostRuntime, row: &[String]) -> Result<()> {
    let alloc = rt.alloc();
    let [plan, stream] = row else {
        bail!("the words are a plan and octets");
    };
    let stream = octets_of(alloc, stream.as_str())?;
    let plan = plan_of(alloc, plan.as_str())?;
    let mut source = Input::new(stream.as_slice());
    let mut sink = Room::new(alloc, 1 << 20)?;
    let mut report = Room::new(alloc, 1 << 20)?;
    refuse_growths(rt)?;
    let end = run_inventory(alloc, plan, MAX_LIMIT, &mut source, &mut sink, &mut report);
    allow_growths(rt)?;
    println!(rt; "answer {end:?}")?;
    print_octets(rt, "wrote", sink.taken())?;
    print_octets(rt, "reported", report.taken())
}

/// Calls `own_message` on the message of a frame that is read in the whole standard.
fn own(rt: &HostRuntime, row: &[String]) -> Result<()> {
    let alloc = rt.alloc();
    let frame = only_octets(alloc, row)?;
    let Some(Ok(message)) = decoded_in(alloc, KindSet::Standard, frame.as_slice()) else {
        println!(rt; "answer no message")?;
        return Ok(());
    };
    let Some(own) = own_message(alloc, &message).ok().flatten() else {
        println!(rt; "answer none")?;
        return Ok(());
    };
    let mut found = Vec::new(alloc);
    let done = encode_into(alloc, &own, &mut found, 65_536).is_ok();
    println!(rt; "answer {done}")?;
    print_octets(rt, "wrote", found.as_slice())
}
