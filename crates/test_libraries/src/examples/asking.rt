//! The examples of the library that asks, and of the one that says how long to wait.

ghost use Rattle.std.specs.Prelude.{None, ◌≡◌};
ghost use Rattle.llrp_stream.specs.Calls.Device.{new_source};

use llrp_ask::{Form, Manner, TimedSource, run_ask, steps_of};
use llrp_stream::{Output, Source};
use llrp_tool::Verdict;
use llrp_waits::{Bounds, Cut, Head, Waits};
use std::io;
use std::test::Fail;
use test_devices::octets;

/// Octets that come one after another; where they are none, nothing comes in time.
#[derive(Drop)]
struct Replies<'a> {
    left: &'a [Vec<u8>],
    reads: u64,
    ends: u64,
    failures: u64,
}

impl<'a> Replies<'a> {
    /// A source of which nothing was read.
    fn new(left: &'a [Vec<u8>]) -> Replies<'a>
        ensures { ⟦<Replies<'a> as Source>⟧.log result ≡ new_source None }
    {
        Replies {
            left,
            reads: 0,
            ends: 0,
            failures: 0,
        }
    }
}

impl<'a> Source for Replies<'a> {
    ghost log = { λ s. record { reads = s.reads; ends = s.ends; failures = s.failures; left = None } };

    fn read(&mut self, buf: &mut [u8]) -> io::Result<usize> {
        let Some((next, left)) = self.left.split_first() else {
            self.ends += 1;
            return Ok(0);
        };
        self.left = left;
        let count = next.len().min(buf.len());
        if count == 0 {
            self.failures += 1;
            return Err(io::Error::from(io::ErrorKind::TimedOut));
        }
        buf[..count].copy_from_slice(&next.as_slice()[..count]);
        self.reads += 1;
        Ok(count)
    }
}

impl<'a> TimedSource for Replies<'a> {
    fn wait_for(&mut self, _milliseconds: u64) {}
}

/// READER_EVENT_NOTIFICATION with ConnectionAttemptEvent 0 (LLRP 1.1, section 14).
const ACCEPTED: &str = "043F0000002000000001 00F60016 0080000C0000000000000000 010000060000";

/// The response to GET_READER_CAPABILITIES, and that to the last CLOSE_CONNECTION.
const RESPONSES: [&str; 2] = [
    "040B0000001200000001 011F000800000000",
    "040400000012FFFFFFFF 011F000800000000",
];

#[test]
fn llrp_ask_example(rt: HostRuntime) -> Result<(), Fail> {
    let alloc = rt.alloc();
    let mut came = Vec::new(alloc);
    came.push(octets(alloc, &[ACCEPTED])?)?;
    came.push(octets(alloc, &[RESPONSES[0]])?)?;
    came.push(Vec::new(alloc))?;
    came.push(octets(alloc, &[RESPONSES[1]])?)?;
    let mut source = Replies::new(came.as_slice());
    let mut sink = Output::new(Vec::new(alloc));
    let mut shown = Output::new(Vec::new(alloc));
    let steps = steps_of(alloc, b"0 GET_READER_CAPABILITIES 1 1 0\n= 2.5s\n", false)?;
    let manner = Manner {
        form: Form::Lines,
        goes_on: false,
        patience: 10_000,
    };
    let verdict = run_ask(
        alloc,
        steps.as_slice(),
        manner,
        &mut source,
        &mut sink,
        &mut shown,
    )?;
    assert_eq!(rt; verdict, Verdict::Lawful);
    Ok(())
}

#[test]
fn llrp_waits_example(rt: HostRuntime) {
    let bounds = Bounds {
        answer: Some(5_000),
        report: None,
        frame: None,
        silence: Some(30_000),
        write: None,
    };
    let waits = Waits::new(bounds, 0)
        .asks(Head { number: 20, id: 1 }, 100)
        .takes(Cut::Between, 2_000);
    let left = waits.left(4_000); // Some(1_100)
    assert!(rt; left == Some(1_100));
}
