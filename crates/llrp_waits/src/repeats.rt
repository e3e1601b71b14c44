//! How often something is said that comes again and again.

ghost use Rattle.std.specs.Prelude.{◌≡◌};
ghost use Rattle.llrp_waits.specs.Calls.Repeats.{counts, is_due, no_repeats, told};

/// How many milliseconds pass at least between two notes of one kind.
pub const MINUTE: u64 = 60_000;

/// Notes of one kind. A moment is a number of milliseconds.
#[derive(Clone, Copy, Debug, PartialEq, Eq)]
pub struct Repeats {
    /// When the last one was written.
    last: Option<u64>,
    /// How many came since then, and were not written; at most the greatest `u64`.
    held: u64,
}

impl Repeats {
    /// Of which none came.
    pub fn new() -> Repeats
        ensures { result ≡ no_repeats }
    {
        Repeats {
            last: None,
            held: 0,
        }
    }

    /// Whether one that comes at this moment is written: the first one, and one that comes a minute after the
    /// last that was.
    pub fn is_due(self, now: u64) -> bool
        ensures { result ≡ is_due now self }
    {
        match self.last {
            None => true,
            Some(last) => now.saturating_sub(last) >= MINUTE,
        }
    }

    /// After one came at this moment.
    pub fn counts(self, now: u64) -> Repeats
        ensures { result ≡ counts now self }
    {
        if self.is_due(now) {
            return Repeats {
                last: Some(now),
                held: 0,
            };
        }
        Repeats {
            last: self.last,
            held: self.held.saturating_add(1),
        }
    }

    /// After those that were not written were told.
    pub fn told(self) -> Repeats
        ensures { result ≡ told self }
    {
        Repeats { held: 0, ..self }
    }

    /// How many came since the last that was written.
    pub fn held(self) -> u64
        ensures { result ≡ self.held }
    {
        self.held
    }
}
