//! When a line of a script happens.

ghost use Rattle.std.specs.Prelude.{◌≡◌};
ghost use Rattle.llrp_live.specs.Calls.Moments.{later as the_later, moment_in as the_moment, moment_of as the_moment_of};

/// From when on a line waits.
#[derive(Clone, Copy, Debug, PartialEq, Eq)]
pub enum When {
    /// It happens directly after the reader has taken this many frames of the client. `now` only says that no later line of this
    /// kind has a smaller one.
    Frames { after: u64, now: u64 },
    /// It happens this many microseconds after the connection was accepted.
    Accepted { wait: u64 },
    /// It happens this many microseconds after a ROSpec first became active.
    Started { wait: u64 },
}

/// How far a connection is.
#[derive(Clone, Copy, Debug, PartialEq, Eq)]
pub struct Stage {
    /// How many frames of the client the reader has taken.
    pub taken: u64,
    /// When the connection was accepted, in microseconds.
    pub accepted: u64,
    /// When a ROSpec first became active, if one did, in microseconds.
    pub started: Option<u64>,
}

/// The moment this many microseconds later, at most the greatest `u64`.
pub fn later(moment: u64, wait: u64) -> u64
    ensures { result ≡ the_later moment wait }
{
    moment.saturating_add(wait)
}

/// The moment at which a line happens, in microseconds, or `None` if that is not known yet. A line that
/// waits for frames happens at 0, which is at once, when they were taken.
pub fn moment_of(stage: Stage, when: When) -> Option<u64>
    ensures { result ≡ the_moment_of stage when }
{
    match when {
        When::Frames { after, .. } if after <= stage.taken => Some(0),
        When::Frames { .. } => None,
        When::Accepted { wait } => Some(later(stage.accepted, wait)),
        When::Started { wait } => match stage.started {
            Some(started) => Some(later(started, wait)),
            None => None,
        },
    }
}

/// The moment of a clock that ran for `elapsed` microseconds since `began`, this many times as fast as
/// time passes; at most the greatest `u64`.
pub fn moment_in(began: u64, elapsed: u64, rate: u16) -> u64
    ensures { result ≡ the_moment began elapsed rate }
{
    began.saturating_add(elapsed.saturating_mul(rate as u64))
}
