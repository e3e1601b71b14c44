//! When a run is to end.

use std::cell::Cell;
use std::time::{Duration, Instant};

/// How many seconds after its time a client learns at the latest that it is up, where nothing comes.
const SILENT_GRACE: u64 = 1;

/// How many seconds after its time the plan of a client that knows this ends at the latest.
const PLAN_GRACE: u64 = 4;

/// How many seconds after its time a run has ended.
const LAST_GRACE: u64 = 5;

/// The moment after which a run of `seconds` ends, if it ends.
pub fn end_after(rt: &HostRuntime, seconds: Option<u32>) -> Option<Instant> {
    let seconds = seconds?;
    Instant::now(rt)
        .ok()?
        .checked_add(Duration::from_secs(seconds as u64))
}

/// How long it is until a moment: for no time once it has passed.
fn time_until(rt: &HostRuntime, until: Instant) -> Duration {
    match Instant::now(rt) {
        Ok(now) => until.checked_duration_since(now).unwrap_or(Duration::ZERO),
        Err(_) => Duration::ZERO,
    }
}

/// How many milliseconds are left until this number of seconds after a moment.
fn milliseconds_until(rt: &HostRuntime, until: Instant, more: u64) -> u64 {
    match until.checked_add(Duration::from_secs(more)) {
        Some(end) => u64::try_from(time_until(rt, end).as_millis()).unwrap_or(u64::MAX),
        None => u64::MAX,
    }
}

/// Whether a run that ends at this moment has come to its end.
pub fn is_past(rt: &HostRuntime, until: Option<Instant>) -> bool {
    match until {
        Some(until) => time_until(rt, until).is_zero(),
        None => false,
    }
}

/// What is shorter: a pause, or what is left until the end.
pub fn no_longer(rt: &HostRuntime, pause: Duration, until: Option<Instant>) -> Duration {
    match until {
        Some(until) => pause.min(time_until(rt, until)),
        None => pause,
    }
}

/// When a connection is to end, and whether its client knows that.
#[derive(Drop)]
pub struct Deadline {
    until: Option<Instant>,
    was_told: Cell<bool>,
}

impl Deadline {
    /// A deadline of which its client does not know yet.
    pub fn new(until: Option<Instant>) -> Deadline {
        Deadline {
            until,
            was_told: Cell::new(false),
        }
    }

    /// Whether the time is up, for the client that asks.
    pub fn tell(&self, rt: &HostRuntime) -> bool {
        let is_up = is_past(rt, self.until);
        if is_up {
            self.was_told.set(true);
        }
        is_up
    }

    /// Whether the time is up and nothing came with which the client could learn it.
    pub fn is_missed(&self, rt: &HostRuntime) -> bool {
        is_past(rt, self.until) && !self.was_told.get()
    }

    /// Whether the time is up.
    pub fn is_up(&self, rt: &HostRuntime) -> bool {
        is_past(rt, self.until)
    }

    /// How many milliseconds are left for what is read and written, in a run that ends.
    pub fn left(&self, rt: &HostRuntime) -> Option<u64> {
        let more = if self.was_told.get() {
            PLAN_GRACE
        } else {
            SILENT_GRACE
        };
        Some(milliseconds_until(rt, self.until?, more))
    }

    /// How many milliseconds are left in which the client may leave its reader.
    pub fn left_to_leave(&self, rt: &HostRuntime) -> Option<u64> {
        Some(milliseconds_until(rt, self.until?, LAST_GRACE))
    }
}
