//! Notes on standard error, which --verbose asks for.

use llrp_listing::{Text, write_all};
use llrp_stream::Output;
use llrp_waits::Repeats;
use std::alloc::{AllocError, Global};
use std::cell::Cell;
use std::io::Stderr;
use std::os::unix::fs::MetadataExt;
use std::time::{Duration, Instant};
use std::{env, fs};

/// How many lines of a listing a note has, and how many octets of each, at most.
const MOST_LINES: usize = 20;

const MOST_COLUMNS: usize = 400;

/// How urgent a note is, by the numbers that the journal takes.
#[derive(Clone, Copy, Debug, PartialEq, Eq)]
pub enum Urgency {
    Error,
    Warning,
    Notice,
    Info,
}

/// What the journal takes for it at the front of a line.
fn level(urgency: Urgency) -> &'static [u8] {
    match urgency {
        Urgency::Error => b"<3>",
        Urgency::Warning => b"<4>",
        Urgency::Notice => b"<5>",
        Urgency::Info => b"<6>",
    }
}

/// The two numbers of DEVICE:INODE.
fn device_and_inode(text: &str) -> Option<(u64, u64)> {
    let (device, inode) = text.split_once(':')?;
    Some((device.parse::<u64>().ok()?, inode.parse::<u64>().ok()?))
}

/// Whether the journal reads standard error: the environment names its device and inode.
fn is_read_by_the_journal(rt: &HostRuntime) -> bool {
    let Ok(named) = env::var(rt, "JOURNAL_STREAM") else {
        return false;
    };
    let Ok(data) = fs::metadata(rt, "/proc/self/fd/2") else {
        return false;
    };
    device_and_inode(named.as_str()) == Some((data.dev(), data.ino()))
}

/// What a reader may send again and again.
#[derive(Clone, Copy, Debug, PartialEq, Eq)]
pub enum Kind {
    /// A frame that is no message.
    Fault,
    /// A message that is passed over.
    PassedOver,
}

/// What is said of one of a kind.
fn words_of(kind: Kind) -> &'static [u8] {
    match kind {
        Kind::Fault => b"a frame that is no message".as_slice(),
        Kind::PassedOver => b"a message that is passed over".as_slice(),
    }
}

/// Writes notes, if they are asked for.
#[derive(Drop)]
pub struct Notes<'a> {
    rt: &'a HostRuntime,
    alloc: Global,
    errors: Stderr,
    are_asked: bool,
    has_levels: bool,
    /// The moment 0 of its clock.
    began: Option<Instant>,
    faults: Cell<Repeats>,
    passed_over: Cell<Repeats>,
}

impl<'a> Notes<'a> {
    pub fn new(rt: &'a HostRuntime, are_asked: bool) -> Notes<'a> {
        Notes {
            rt,
            alloc: rt.alloc(),
            errors: rt.stderr(),
            are_asked,
            has_levels: are_asked && is_read_by_the_journal(rt),
            began: Instant::now(rt).ok(),
            faults: Cell::new(Repeats::new()),
            passed_over: Cell::new(Repeats::new()),
        }
    }

    /// The moment, in milliseconds; 0 if the clock cannot be read.
    fn now(&self) -> u64 {
        let (Some(began), Ok(now)) = (self.began, Instant::now(self.rt)) else {
            return 0;
        };
        let passed = now.checked_duration_since(began).unwrap_or(Duration::ZERO);
        u64::try_from(passed.as_millis()).unwrap_or(u64::MAX)
    }

    /// What is known of a kind.
    fn repeats(&self, kind: Kind) -> &Cell<Repeats> {
        match kind {
            Kind::Fault => &self.faults,
            Kind::PassedOver => &self.passed_over,
        }
    }

    /// Writes how many of a kind were only counted.
    fn say_count(&self, urgency: Urgency, kind: Kind, count: u64) {
        let mut number = Text::new(self.alloc);
        if count > 0 && number.push_number(count as u128).is_ok() {
            self.say_all(
                urgency,
                words_of(kind),
                b", and ",
                number.as_slice(),
                b" more since the last note of it",
            );
        }
    }

    /// Writes that one of a kind came, at most once a minute, after how many came since then. Returns whether it
    /// wrote that.
    pub fn say_one(&self, urgency: Urgency, kind: Kind) -> bool {
        let (repeats, now) = (self.repeats(kind), self.now());
        let before = repeats.get();
        repeats.set(before.counts(now));
        if !before.is_due(now) {
            return false;
        }
        self.say_count(urgency, kind, before.held());
        self.say(urgency, words_of(kind));
        true
    }

    /// Writes how many of each kind were only counted, and counts them anew.
    pub fn say_counts(&self) {
        for kind in [Kind::Fault, Kind::PassedOver] {
            let repeats = self.repeats(kind);
            self.say_count(Urgency::Warning, kind, repeats.get().held());
            repeats.set(repeats.get().told());
        }
    }

    /// Whether notes are asked for.
    pub fn are_asked(&self) -> bool {
        self.are_asked
    }

    /// A line of four parts.
    fn line(
        &self,
        urgency: Urgency,
        first: &[u8],
        second: &[u8],
        third: &[u8],
        fourth: &[u8],
    ) -> Result<Text, AllocError> {
        let mut line = Text::new(self.alloc);
        if self.has_levels {
            line.push_text(level(urgency))?;
        }
        line.push_text(b"llrp: note: ")?;
        line.push_text(first)?;
        line.push_text(second)?;
        line.push_text(third)?;
        line.push_text(fourth)?;
        line.push_text(b"\n")?;
        Ok(line)
    }

    /// Writes a line of four parts. If that fails, it is ignored.
    pub fn say_all(
        &self,
        urgency: Urgency,
        first: &[u8],
        second: &[u8],
        third: &[u8],
        fourth: &[u8],
    ) {
        if !self.are_asked {
            return;
        }
        if let Ok(line) = self.line(urgency, first, second, third, fourth) {
            let _said = write_all(&mut Output::new(&self.errors), line.as_slice());
        }
    }

    /// Writes a line.
    pub fn say(&self, urgency: Urgency, text: &[u8]) {
        self.say_all(urgency, text, b"", b"", b"");
    }

    /// Writes the first lines of a listing, and the first octets of each.
    pub fn say_lines(&self, urgency: Urgency, listing: &[u8]) {
        for line in listing.split(|&octet| octet == b'\n').take(MOST_LINES) {
            if !line.is_empty() {
                let shown = line.split_at(line.len().min(MOST_COLUMNS)).0;
                self.say_all(urgency, b"  ", shown, b"", b"");
            }
        }
    }
}
