//! The reads and writes of a socket, none of which lasts longer than its client waits.

ghost use Rattle.std.specs.Prelude.{◌≡◌, ◌≤◌, IfOk, None, length};
ghost use Rattle.llrp_stream.specs.Calls.Device.{new_sink, new_source};

use crate::heard_frames::{MOST_OCTETS, head_of, request_of, split_frame};
use crate::waiting::Waiting;
use crate::whole_frames::FrameCutter;
use llrp_ask::TimedSource;
use llrp_stream::{Sink, Source};
use llrp_waits::Cut;
use std::alloc::Global;
use std::io;
use std::io::{Read, Write};
use std::net::TcpStream;

/// What a reader sends. Its client takes note of each message.
#[derive(Drop)]
pub struct TimedReads<'a> {
    waiting: &'a Waiting<'a>,
    stream: &'a TcpStream,
    cutter: FrameCutter,
    reads: u64,
    ends: u64,
    failures: u64,
}

impl<'a> TimedReads<'a> {
    /// A source of which nothing was read.
    pub fn new(alloc: Global, waiting: &'a Waiting<'a>, stream: &'a TcpStream) -> TimedReads<'a>
        ensures { ⟦<TimedReads<'a> as Source>⟧.log result ≡ new_source None }
    {
        TimedReads {
            waiting,
            stream,
            cutter: FrameCutter::new(alloc, MOST_OCTETS),
            reads: 0,
            ends: 0,
            failures: 0,
        }
    }

    /// Reads what comes in time.
    pub fn read_in_time(&self, buf: &mut [u8]) -> io::Result<usize>
        ensures { IfOk result (λ n. n ≤ length buf.new) }
    {
        let patience = self.waiting.time_to_read()?;
        self.stream.set_read_timeout(patience)?;
        let mut stream = self.stream;
        stream.read(buf)
    }
}

/// Takes note of octets that came. If memory runs out, they are only octets.
fn hear(waiting: &Waiting<'_>, cutter: &mut FrameCutter, octets: &[u8]) {
    let goes_on = cutter.is_cut();
    let Ok(frames) = cutter.take(octets) else {
        waiting.takes(Cut::InSame);
        return;
    };
    let mut rest = frames.as_slice();
    waiting.takes(match cutter.is_cut() {
        false => Cut::Between,
        true if goes_on && rest.is_empty() => Cut::InSame,
        true => Cut::InNew,
    });
    while let Some((frame, others)) = split_frame(rest) {
        if let Some(head) = head_of(frame) {
            waiting.hears(head);
        }
        rest = others;
    }
}

impl Source for TimedReads<'_> {
    ghost use Rattle.std.specs.Prelude.{None};

    ghost log = { λ s. record { reads = s.reads; ends = s.ends; failures = s.failures; left = None } };

    fn read(&mut self, buf: &mut [u8]) -> io::Result<usize> {
        match self.read_in_time(buf) {
            Ok(0) => {
                self.ends += 1;
                Ok(0)
            }
            Ok(n) => {
                hear(self.waiting, &mut self.cutter, buf.split_at(n).0);
                self.reads += 1;
                Ok(n)
            }
            Err(error) => {
                self.failures += 1;
                Err(error)
            }
        }
    }
}

impl TimedSource for TimedReads<'_> {
    fn wait_for(&mut self, milliseconds: u64) {
        self.waiting.wait_for(milliseconds);
    }
}

/// What a client sends. It takes note of each message.
#[derive(Drop)]
pub struct TimedWrites<'a> {
    waiting: &'a Waiting<'a>,
    stream: &'a TcpStream,
    cutter: FrameCutter,
    failures: u64,
}

impl<'a> TimedWrites<'a> {
    /// A sink to which nothing was written.
    pub fn new(alloc: Global, waiting: &'a Waiting<'a>, stream: &'a TcpStream) -> TimedWrites<'a>
        ensures { ⟦<TimedWrites<'a> as Sink>⟧.log result ≡ new_sink None }
    {
        TimedWrites {
            waiting,
            stream,
            cutter: FrameCutter::new(alloc, MOST_OCTETS),
            failures: 0,
        }
    }

    /// Writes what is taken in time.
    fn write_in_time(&self, buf: &[u8]) -> io::Result<usize>
        ensures { IfOk result (λ n. n ≤ length buf.now) }
    {
        let patience = self.waiting.time_to_write()?;
        self.stream.set_write_timeout(patience)?;
        let mut stream = self.stream;
        stream.write(buf)
    }
}

/// Takes note of octets that were sent.
fn note(waiting: &Waiting<'_>, cutter: &mut FrameCutter, octets: &[u8]) {
    let Ok(frames) = cutter.take(octets) else {
        return;
    };
    let mut rest = frames.as_slice();
    while let Some((frame, others)) = split_frame(rest) {
        if let Some(head) = head_of(frame) {
            waiting.asks(head);
        }
        if let Some(request) = request_of(frame) {
            waiting.pending.set(Some(request));
        }
        rest = others;
    }
}

impl Sink for TimedWrites<'_> {
    ghost use Rattle.std.specs.Prelude.{None};

    ghost log = { λ s. record { failures = s.failures; taken = None } };

    fn write(&mut self, buf: &[u8]) -> io::Result<usize> {
        match self.write_in_time(buf) {
            Ok(0) => {
                self.failures += 1;
                Ok(0)
            }
            Ok(n) => {
                note(self.waiting, &mut self.cutter, buf.split_at(n).0);
                Ok(n)
            }
            Err(error) => {
                self.failures += 1;
                Err(error)
            }
        }
    }
}
