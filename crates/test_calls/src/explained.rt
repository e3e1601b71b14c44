//! Streams with every bit accounted for, and the messages of captures.

use anyhow::Result;
use llrp_explain::{StreamText, explain_stream};
use llrp_listing::Verdict;
use llrp_schema::KindSet;
use llrp_sides::{Form, ShowErr, show_segments};
use llrp_stream::Input;
use std::alloc::AllocError;
use test_devices::Room;
use test_devices::rows::{allow_growths, only_octets, print_octets, refuse_growths};

/// Makes a call of this module, and returns whether it has one of this name.
pub fn make(rt: &HostRuntime, call: &str, row: &[String]) -> Result<bool> {
    match call {
        "explain" => explain(rt, row)?,
        "segments" => segments(rt, row)?,
        _ => return Ok(false),
    }
    Ok(true)
}

/// Prints what `explain_stream` answered, and returns whether that was that there is no memory.
fn print_text(
    rt: &HostRuntime,
    what: &str,
    answer: Result<StreamText, AllocError>,
) -> Result<bool> {
    let Ok(whole) = answer else {
        println!(rt; "{what} Memory")?;
        return Ok(true);
    };
    let lawful = whole.lawful;
    println!(rt; "{what} {lawful}")?;
    print_octets(rt, "wrote", whole.text.as_slice())?;
    Ok(false)
}

/// Calls `explain_stream` on a stream.
fn explain(rt: &HostRuntime, row: &[String]) -> Result<()> {
    let alloc = rt.alloc();
    let stream = only_octets(alloc, row)?;
    refuse_growths(rt)?;
    let answer = explain_stream(alloc, KindSet::Profile, stream.as_slice(), 65_536);
    allow_growths(rt)?;
    if print_text(rt, "answer", answer)? {
        println!(rt; "after same")?;
        let again = explain_stream(alloc, KindSet::Profile, stream.as_slice(), 65_536);
        print_text(rt, "again", again)?;
    }
    Ok(())
}

/// Prints how a listing of segments ended.
fn print_end(rt: &HostRuntime, shown: Result<Verdict, ShowErr>) -> Result<()> {
    match shown {
        Ok(verdict) => println!(rt; "answer Ok({verdict:?})")?,
        Err(ShowErr::Tool(error)) => println!(rt; "answer Err({error:?})")?,
        Err(ShowErr::Line { line, fault }) => println!(rt; "answer {line} {fault:?}")?,
    }
    Ok(())
}

/// Calls `show_segments` on the lines of segments, of a reader at port 5084.
fn segments(rt: &HostRuntime, row: &[String]) -> Result<()> {
    let alloc = rt.alloc();
    let lines = only_octets(alloc, row)?;
    let mut source = Input::new(lines.as_slice());
    let mut sink = Room::new(alloc, 1 << 20)?;
    let form = Form {
        json: false,
        set: KindSet::Profile,
        limit: 65_536,
    };
    refuse_growths(rt)?;
    let shown = show_segments(alloc, form, 5084, &mut source, &mut sink);
    allow_growths(rt)?;
    print_end(rt, shown)?;
    print_octets(rt, "wrote", sink.taken())
}
