//! Other clients, which may come while a reader serves one.

ghost use Rattle.std.specs.Prelude.{◌≡◌, ℕ};
ghost use Rattle.llrp_general.specs.Calls.Serving.{count_after_one};

/// Other clients, which may come while a reader serves one. They are refused.
pub trait OtherClients {
    /// How many came so far, at most the greatest `u64`.
    ghost count: { Self → ℕ };

    /// Waits until there is something to read of the client that is served, or another client came and
    /// was refused at the moment `now`, in microseconds. Returns whether another client came.
    fn one_came(&mut self, now: u64) -> bool
        ensures { count self.new ≡ count_after_one (count self.old) result };
}

/// No other client comes.
#[derive(Clone, Copy, Debug)]
pub struct Nobody;

impl OtherClients for Nobody {
    ghost count = { λ _. 0 };

    fn one_came(&mut self, _now: u64) -> bool {
        false
    }
}
