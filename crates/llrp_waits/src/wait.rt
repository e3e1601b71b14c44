//! A wait, and what is left of it.

ghost use Rattle.std.specs.Prelude.{◌≡◌};
ghost use Rattle.llrp_waits.specs.Calls.Waits.{left_of, sooner};

/// A wait.
#[derive(Clone, Copy, Debug, PartialEq, Eq)]
pub struct Wait {
    /// The moment at which it began.
    pub since: u64,
    /// How many milliseconds it may last.
    pub most: u64,
}

impl Wait {
    /// How many milliseconds of it are left at a moment: 0 once it is over.
    pub fn left(self, now: u64) -> u64
        ensures { result ≡ left_of now self }
    {
        self.most.saturating_sub(now.saturating_sub(self.since))
    }
}

/// The lesser of two numbers of milliseconds, where `None` is without end.
pub fn sooner(first: Option<u64>, second: Option<u64>) -> Option<u64>
    ensures { result ≡ sooner first second }
{
    match (first, second) {
        (Some(first), Some(second)) => Some(first.min(second)),
        (Some(first), None) => Some(first),
        (None, second) => second,
    }
}
