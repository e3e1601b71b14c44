//! The clock of a simulated reader in real time.

use llrp_live::moment_in;
use std::time::{Duration, Instant, SystemTime};

/// The greatest rate of a clock.
const MOST_RATE: u16 = 1_000;

/// For how many microseconds a read waits at most, since others may come that are refused meanwhile.
const LONGEST_WAIT: u64 = 100_000;

/// The least time for which a read waits.
const LEAST_WAIT: u64 = 1_000;

/// How many microseconds a second has.
const SECOND: u64 = 1_000_000;

/// The rate of a clock that the words name: `real`, or `real*N` for N times as fast as time passes.
pub fn rate_of(text: &str) -> Option<u16> {
    let Some(rate) = text.strip_prefix("real*") else {
        return if text == "real" { Some(1) } else { None };
    };
    match rate.as_bytes() {
        [b'1'..=b'9', ..] => match rate.parse::<u16>() {
            Ok(rate) if rate <= MOST_RATE => Some(rate),
            _ => None,
        },
        _ => None,
    }
}

/// How many whole microseconds a duration has, at most the greatest `u64`.
fn microseconds(duration: Duration) -> u64 {
    duration.as_micros().min(u64::MAX as u128) as u64
}

/// A clock that began with the time of day, and then runs at its rate.
#[derive(Clone, Copy)]
pub struct LiveClock<'a> {
    rt: &'a HostRuntime,
    start: Instant,
    began: u64,
    rate: u16,
}

impl<'a> LiveClock<'a> {
    /// A clock that begins now. `None` means that the system has no time.
    pub fn begin(rt: &'a HostRuntime, rate: u16) -> Option<LiveClock<'a>> {
        let since = SystemTime::now(rt)
            .ok()?
            .duration_since(SystemTime::UNIX_EPOCH);
        Some(LiveClock {
            rt,
            start: Instant::now(rt).ok()?,
            began: microseconds(since.ok()?),
            rate,
        })
    }

    /// The moment, in microseconds since 1970 of this clock.
    pub fn now(&self) -> u64 {
        let elapsed = self.start.elapsed(self.rt).unwrap_or(Duration::ZERO);
        moment_in(self.began, microseconds(elapsed), self.rate)
    }

    /// How many microseconds pass on this clock in this number of seconds of the time of day, at most the
    /// greatest `u64`.
    pub fn in_moments(&self, seconds: u64) -> u64 {
        moment_in(0, seconds.saturating_mul(SECOND), self.rate)
    }

    /// How long to wait at a moment for what happens next: until it is due, but at least `LEAST_WAIT` and at
    /// most `LONGEST_WAIT`.
    pub fn wait_until(&self, now: u64, next: Option<u64>) -> Duration {
        let wait = match next {
            Some(next) => (next.saturating_sub(now) / self.rate.max(1) as u64).saturating_add(1),
            None => LONGEST_WAIT,
        };
        Duration::from_micros(wait.min(LONGEST_WAIT).max(LEAST_WAIT))
    }
}
