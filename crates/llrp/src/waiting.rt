//! A client's clock, and what it waits for: its source and its sink keep to what [`Waits`] allows them.

use crate::deadline::Deadline;
use llrp_waits::{Bounds, Cut, Head, Wait, Waits};
use std::cell::Cell;
use std::io;
use std::io::ErrorKind;
use std::time::{Duration, Instant};

/// What a client waits for, by the clock of this machine.
#[derive(Drop)]
pub struct Waiting<'a> {
    rt: &'a HostRuntime,
    /// The moment 0.
    began: Option<Instant>,
    bounds: Bounds,
    /// How long it may wait in all, from the moment 0.
    whole: Option<Wait>,
    waits: Cell<Waits>,
    /// When its run is to end, if it ends.
    deadline: Option<&'a Deadline>,
    /// The last request, until its answer is noted.
    pub pending: Cell<Option<Head>>,
}

/// No bounds.
pub const NO_BOUNDS: Bounds = Bounds {
    answer: None,
    report: None,
    frame: None,
    silence: None,
    write: None,
};

/// The bounds of a client that says by itself what it awaits: of connecting, and of what it writes.
pub fn own_bounds(milliseconds: u64) -> Bounds {
    Bounds {
        answer: Some(milliseconds),
        write: Some(milliseconds),
        ..NO_BOUNDS
    }
}

/// The time of a call. The error is `TimedOut` if none is left.
fn time_of(milliseconds: Option<u64>) -> io::Result<Option<Duration>> {
    match milliseconds {
        Some(0) => Err(io::Error::from(ErrorKind::TimedOut)),
        Some(milliseconds) => Ok(Some(Duration::from_millis(milliseconds))),
        None => Ok(None),
    }
}

impl<'a> Waiting<'a> {
    /// A client that begins now, and waits no longer than these bounds.
    pub fn new(rt: &'a HostRuntime, bounds: Bounds) -> Waiting<'a> {
        Waiting {
            rt,
            began: Instant::now(rt).ok(),
            bounds,
            whole: None,
            waits: Cell::new(Waits::new(bounds, 0)),
            deadline: None,
            pending: Cell::new(None),
        }
    }

    /// One that waits no longer than this many milliseconds in all, over all of its connections.
    pub fn within(self, milliseconds: u64) -> Waiting<'a> {
        let whole = Some(Wait {
            since: 0,
            most: milliseconds,
        });
        self.waits.set(self.waits.get().within(whole));
        Waiting { whole, ..self }
    }

    /// One whose run is to end at this deadline.
    pub fn with_deadline(self, deadline: &'a Deadline) -> Waiting<'a> {
        Waiting {
            deadline: Some(deadline),
            ..self
        }
    }

    /// The moment, in milliseconds; the last of all if the clock cannot be read, so that each wait with a bound
    /// is over.
    fn now(&self) -> u64 {
        let (Some(began), Ok(now)) = (self.began, Instant::now(self.rt)) else {
            return u64::MAX;
        };
        let passed = now.checked_duration_since(began).unwrap_or(Duration::ZERO);
        u64::try_from(passed.as_millis()).unwrap_or(u64::MAX)
    }

    /// Awaits something for this many milliseconds from now on, whatever comes.
    pub fn wait_for(&self, milliseconds: u64) {
        let waits = self.waits.get().awaits(milliseconds, self.now());
        self.waits.set(waits);
    }

    /// Takes note that it is connected.
    pub fn begins(&self) {
        let waits = Waits::new(self.bounds, self.now()).within(self.whole);
        self.waits.set(waits);
    }

    /// What it waits for at a moment, where its run may have to end.
    fn waits_at(&self, now: u64) -> Waits {
        let waits = self.waits.get();
        match self.deadline.and_then(|deadline| deadline.left(self.rt)) {
            Some(most) => waits.within(Some(Wait { since: now, most })),
            None => waits,
        }
    }

    /// How long a read may wait now; without end if nothing bounds it. The error is `TimedOut` once a wait is
    /// over.
    pub fn time_to_read(&self) -> io::Result<Option<Duration>> {
        let now = self.now();
        self.waits.set(self.waits.get().reads());
        time_of(self.waits_at(now).left(now))
    }

    /// How long a write may wait now.
    pub fn time_to_write(&self) -> io::Result<Option<Duration>> {
        let now = self.now();
        self.waits.set(self.waits.get().writes(now));
        time_of(self.waits_at(now).left_to_write(now))
    }

    /// Whether more than this many milliseconds are left of the whole.
    pub fn has_left(&self, milliseconds: u64) -> bool {
        self.whole
            .is_none_or(|whole| whole.left(self.now()) > milliseconds)
    }

    /// Takes note that a message with this header was sent.
    pub fn asks(&self, head: Head) {
        self.waits.set(self.waits.get().asks(head, self.now()));
    }

    /// Takes note that octets came that end so.
    pub fn takes(&self, cut: Cut) {
        self.waits.set(self.waits.get().takes(cut, self.now()));
    }

    /// Takes note that a message with this header came.
    pub fn hears(&self, head: Head) {
        self.waits.set(self.waits.get().hears(head, self.now()));
    }
}
