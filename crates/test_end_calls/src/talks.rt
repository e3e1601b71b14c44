//! A client that asks what a file says, and a reader of the whole standard, over octets that come piece by
//! piece.

ghost use Rattle.std.specs.Prelude.{None, ◌≡◌};
ghost use Rattle.llrp_stream.specs.Calls.Device.{new_source};

use crate::texts::script_of;
use anyhow::{Context, Result, bail};
use llrp_answers::Answers;
use llrp_ask::{Form, Manner, Step, TimedSource, run_ask, steps_of};
use llrp_general::{OtherClients, run_serve_among};
use llrp_session::Reader;
use llrp_stream::{Input, Source};
use llrp_tree::MAX_LIMIT;
use std::alloc::Global;
use std::io;
use test_devices::Room;
use test_devices::rows::{allow_growths, octets_of, print_octets, refuse_growths};

/// Makes a call of this module, and returns whether it has one of this name.
pub fn make(rt: &HostRuntime, call: &str, row: &[String]) -> Result<bool> {
    match call {
        "steps" => steps(rt, row)?,
        "ask" => ask(rt, row)?,
        "among" => among(rt, row)?,
        _ => return Ok(false),
    }
    Ok(true)
}

/// Octets that come one after another; where they are none, nothing comes in time.
#[derive(Drop)]
pub struct Replies<'a> {
    left: &'a [Vec<u8>],
    reads: u64,
    ends: u64,
    failures: u64,
}

impl<'a> Replies<'a> {
    /// A source of which nothing was read.
    pub fn new(left: &'a [Vec<u8>]) -> Replies<'a>
        ensures { ⟦<Replies<'a> as Source>⟧.log result ≡ new_source None }
    {
        Replies {
            left,
            reads: 0,
            ends: 0,
            failures: 0,
        }
    }
}

impl<'a> Source for Replies<'a> {
    ghost log = { λ s. record { reads = s.reads; ends = s.ends; failures = s.failures; left = None } };

    fn read(&mut self, buf: &mut [u8]) -> io::Result<usize> {
        let Some((next, left)) = self.left.split_first() else {
            self.ends += 1;
            return Ok(0);
        };
        self.left = left;
        let count = next.len().min(buf.len());
        if count == 0 {
            self.failures += 1;
            return Err(io::Error::from(io::ErrorKind::TimedOut));
        }
        buf[..count].copy_from_slice(&next.as_slice()[..count]);
        self.reads += 1;
        Ok(count)
    }
}

impl<'a> TimedSource for Replies<'a> {
    fn wait_for(&mut self, _milliseconds: u64) {}
}

/// Whether a file may have lines of octets: `raw`, or `plain`.
fn is_raw(word: &str) -> Result<bool> {
    match word {
        "raw" => Ok(true),
        "plain" => Ok(false),
        _ => bail!("raw or plain"),
    }
}

/// Calls `steps_of` on `raw` or `plain` and a file.
fn steps(rt: &HostRuntime, row: &[String]) -> Result<()> {
    let [raw, file] = row else {
        bail!("the words are raw or plain, and a file");
    };
    let file = octets_of(rt.alloc(), file.as_str())?;
    match steps_of(rt.alloc(), file.as_slice(), is_raw(raw.as_str())?) {
        Ok(steps) => {
            let count = steps.len();
            println!(rt; "answer {count} steps")?;
        }
        Err(error) => println!(rt; "answer {error:?}")?,
    }
    Ok(())
}

/// The steps of a file.
pub fn steps_from(alloc: Global, raw: &str, file: &str) -> Result<Vec<Step>> {
    let file = octets_of(alloc, file)?;
    steps_of(alloc, file.as_slice(), is_raw(raw)?)
        .ok()
        .context("no file")
}

/// The octets of each word.
pub fn replies_of(alloc: Global, words: &[String]) -> Result<Vec<Vec<u8>>> {
    let mut replies = Vec::new(alloc);
    for word in words {
        replies.push(octets_of(alloc, word.as_str())?)?;
    }
    Ok(replies)
}

/// Calls `run_ask`: the words are `raw` or `plain`, `on` where it goes on after a refusal or else `off`, the
/// file, and what comes, one word after another.
fn ask(rt: &HostRuntime, row: &[String]) -> Result<()> {
    let alloc = rt.alloc();
    let [raw, on, file, came @ ..] = row else {
        bail!("the words are raw, on, a file and replies");
    };
    let steps = steps_from(alloc, raw.as_str(), file.as_str())?;
    let came = replies_of(alloc, came)?;
    let mut source = Replies::new(came.as_slice());
    let mut sink = Room::new(alloc, 1 << 20)?;
    let mut shown = Room::new(alloc, 1 << 20)?;
    let manner = Manner {
        form: Form::Lines,
        goes_on: on.as_str() == "on",
        patience: 1000,
    };
    refuse_growths(rt)?;
    let outcome = run_ask(
        alloc,
        steps.as_slice(),
        manner,
        &mut source,
        &mut sink,
        &mut shown,
    );
    allow_growths(rt)?;
    println!(rt; "answer {outcome:?}")?;
    print_octets(rt, "wrote", sink.taken())?;
    print_octets(rt, "reported", shown.taken())
}

/// One other client comes, at once.
#[derive(Drop)]
pub struct OneOther {
    count: u64,
}

impl OneOther {
    /// Nobody came yet.
    pub fn new() -> OneOther
        ensures { ⟦<OneOther as OtherClients>⟧.count result ≡ 0 }
    {
        OneOther { count: 0 }
    }
}

impl OtherClients for OneOther {
    ghost count = { λ s. s.count };

    fn one_came(&mut self, _now: u64) -> bool {
        let came = self.count == 0;
        if came {
            self.count = 1;
        }
        came
    }
}

/// Calls `run_serve_among` while another client comes: the words are the client's octets and the script.
fn among(rt: &HostRuntime, row: &[String]) -> Result<()> {
    let alloc = rt.alloc();
    let [stream, script] = row else {
        bail!("the words are octets and a script");
    };
    let stream = octets_of(alloc, stream.as_str())?;
    let script = script_of(alloc, script.as_str())?;
    let mut source = Input::new(stream.as_slice());
    let mut sink = Room::new(alloc, 1 << 20)?;
    let mut others = OneOther::new();
    refuse_growths(rt)?;
    let (end, _) = run_serve_among(
        alloc,
        Reader::new(alloc, MAX_LIMIT, 1),
        script,
        Answers::new(alloc),
        &mut others,
        &mut source,
        &mut sink,
    );
    allow_growths(rt)?;
    println!(rt; "answer {end:?}")?;
    print_octets(rt, "wrote", sink.taken())?;
    let came = others.count;
    println!(rt; "others {came}")?;
    Ok(())
}
