//! Calls over sources and sinks that move an octet a call and fail in one: for each call in turn, what was
//! written is a front of what is written without a failure.

use crate::talks::{OneOther, Replies, replies_of, steps_from};
use crate::texts::script_of;
use anyhow::{Result, bail};
use llrp_answers::Answers;
use llrp_ask::{Form, Manner, Step, run_ask};
use llrp_general::run_serve_among;
use llrp_listing::{ToolErr, Verdict};
use llrp_schema::KindSet;
use llrp_session::Reader;
use llrp_sides::{Form as Listed, ShowErr, show_segments};
use llrp_tree::MAX_LIMIT;
use std::alloc::Global;
use test_devices::rows::{octets_of, only_octets};
use test_devices::{Dripping, Failure, NEVER, Taking};

/// Makes a call of this module, and returns whether it has one of this name.
pub fn make(rt: &HostRuntime, call: &str, row: &[String]) -> Result<bool> {
    match call {
        "segments-failing" => segments(rt, row)?,
        "among-failing" => among(rt, row)?,
        "ask-failing" => ask(rt, row)?,
        _ => return Ok(false),
    }
    Ok(true)
}

/// Prints how many calls of a source, of a sink and of a second sink fail in turn.
fn print_calls(rt: &HostRuntime, reads: usize, writes: usize, shows: usize) -> Result<()> {
    println!(rt; "answer {reads} {writes} {shows}")?;
    Ok(())
}

/// Whether these are the first octets of a whole, so many as a sink took that failed in a call.
fn is_front(whole: &[u8], taken: &[u8], call: usize) -> bool {
    whole.starts_with(taken) && taken.len() == call.saturating_sub(1)
}

/// How the listing of segments ends whose source fails in one call and whose sink in another one, and what
/// it wrote.
fn listed(
    alloc: Global,
    lines: &[u8],
    read: u64,
    write: u64,
) -> (Result<Verdict, ShowErr>, Taking) {
    let mut source = Dripping::new(lines, read);
    let mut sink = Taking::new(alloc, write, Failure::Error);
    let form = Listed {
        json: false,
        set: KindSet::Profile,
        limit: 65_536,
    };
    let end = show_segments(alloc, form, 5084, &mut source, &mut sink);
    (end, sink)
}

/// Whether a listing of segments ended with this error.
fn ended_with(end: &Result<Verdict, ShowErr>, error: ToolErr) -> bool {
    match end {
        Err(ShowErr::Tool(found)) => *found == error,
        _ => false,
    }
}

/// Calls `show_segments` on lines whose source fails in each call, and then whose sink does.
fn segments(rt: &HostRuntime, row: &[String]) -> Result<()> {
    let alloc = rt.alloc();
    let lines = only_octets(alloc, row)?;
    let (_, whole) = listed(alloc, lines.as_slice(), NEVER, NEVER);
    for call in 1..=lines.len() {
        let (end, sink) = listed(alloc, lines.as_slice(), call as u64, NEVER);
        if !ended_with(&end, ToolErr::Read) || !whole.taken().starts_with(sink.taken()) {
            bail!("another end of a read that fails in call {call}");
        }
    }
    for call in 1..=whole.taken().len() {
        let (end, sink) = listed(alloc, lines.as_slice(), NEVER, call as u64);
        if !ended_with(&end, ToolErr::Write) || !is_front(whole.taken(), sink.taken(), call) {
            bail!("another end of a write that fails in call {call}");
        }
    }
    print_calls(rt, lines.len(), whole.taken().len(), 0)
}

/// How a reader ends whose source fails in one call and whose sink in another one, and what it says.
fn served(
    alloc: Global,
    row: &[String],
    read: u64,
    write: u64,
) -> Result<(Result<(), ToolErr>, Taking)> {
    let [stream, script] = row else {
        bail!("the words are octets and a script");
    };
    let stream = octets_of(alloc, stream.as_str())?;
    let mut source = Dripping::new(stream.as_slice(), read);
    let mut sink = Taking::new(alloc, write, Failure::Error);
    let (end, _) = run_serve_among(
        alloc,
        Reader::new(alloc, MAX_LIMIT, 1),
        script_of(alloc, script.as_str())?,
        Answers::new(alloc),
        &mut OneOther::new(),
        &mut source,
        &mut sink,
    );
    Ok((end, sink))
}

/// Calls `run_serve_among` on a client's octets and a script, where the source fails in each call, and then
/// where the sink does.
fn among(rt: &HostRuntime, row: &[String]) -> Result<()> {
    let alloc = rt.alloc();
    let [stream, _] = row else {
        bail!("the words are octets and a script");
    };
    let reads = octets_of(alloc, stream.as_str())?.len();
    let (_, whole) = served(alloc, row, NEVER, NEVER)?;
    for call in 1..=reads {
        let (end, sink) = served(alloc, row, call as u64, NEVER)?;
        if end != Err(ToolErr::Read) || !whole.taken().starts_with(sink.taken()) {
            bail!("another end of a read that fails in call {call}");
        }
    }
    for call in 1..=whole.taken().len() {
        let (end, sink) = served(alloc, row, NEVER, call as u64)?;
        if end != Err(ToolErr::Write) || !is_front(whole.taken(), sink.taken(), call) {
            bail!("another end of a write that fails in call {call}");
        }
    }
    print_calls(rt, reads, whole.taken().len(), 0)
}

/// What a client asked, and what it showed.
#[derive(Drop)]
struct Asked {
    end: Result<Verdict, ToolErr>,
    sent: Taking,
    shown: Taking,
}

/// A client asks, and its sinks fail in these calls.
fn ask_over(alloc: Global, steps: &[Step], came: &[Vec<u8>], write: u64, show: u64) -> Asked {
    let mut source = Replies::new(came);
    let mut sent = Taking::new(alloc, write, Failure::Error);
    let mut shown = Taking::new(alloc, show, Failure::Error);
    let manner = Manner {
        form: Form::Lines,
        goes_on: false,
        patience: 1000,
    };
    let end = run_ask(alloc, steps, manner, &mut source, &mut sent, &mut shown);
    Asked { end, sent, shown }
}

/// Calls `run_ask` on a file and what comes, where each of the sinks fails in each call.
fn ask(rt: &HostRuntime, row: &[String]) -> Result<()> {
    let alloc = rt.alloc();
    let [file, came @ ..] = row else {
        bail!("the words are a file and replies");
    };
    let steps = steps_from(alloc, "plain", file.as_str())?;
    let came = replies_of(alloc, came)?;
    let whole = ask_over(alloc, steps.as_slice(), came.as_slice(), NEVER, NEVER);
    for call in 1..=whole.sent.taken().len() {
        let found = ask_over(alloc, steps.as_slice(), came.as_slice(), call as u64, NEVER);
        let is_right = is_front(whole.sent.taken(), found.sent.taken(), call);
        if found.end != Err(ToolErr::Write) || !is_right {
            bail!("another end of a write that fails in call {call}");
        }
    }
    for call in 1..=whole.shown.taken().len() {
        let found = ask_over(alloc, steps.as_slice(), came.as_slice(), NEVER, call as u64);
        let is_right = is_front(whole.shown.taken(), found.shown.taken(), call);
        if found.end != Err(ToolErr::Write) || !is_right {
            bail!("another end where showing fails in call {call}");
        }
    }
    print_calls(rt, 0, whole.sent.taken().len(), whole.shown.taken().len())
}
