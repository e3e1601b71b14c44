//! What a client waits for, since when, and for how long.

ghost use Rattle.std.specs.Prelude.{◌≡◌};
ghost use Rattle.llrp_waits.specs.Calls.Waits.{asks, awaits, begun_wait, bound_of, first_waits, hears, is_ended_by, left, left_in, left_to_write, reads, takes, within, writes};

use crate::head::Head;
use crate::wait::{Wait, sooner};

/// For how many milliseconds a client waits; `None` is without end.
#[derive(Clone, Copy, Debug, PartialEq, Eq)]
pub struct Bounds {
    /// That the reader accepts the connection, and for the response to a request.
    pub answer: Option<u64>,
    /// For a report where no request is pending.
    pub report: Option<u64>,
    /// For the rest of a frame.
    pub frame: Option<u64>,
    /// For any octet.
    pub silence: Option<u64>,
    /// That the reader takes what is written.
    pub write: Option<u64>,
}

/// What is awaited of the reader.
#[derive(Clone, Copy, Debug, PartialEq, Eq)]
pub enum Awaited {
    /// That it accepts the connection, so that the client asks it for something.
    Acceptance,
    /// The answer to this request.
    Answer(Head),
    /// Reports: no request is pending.
    Reports,
    /// What the client finds by itself in what comes: it says when it awaits something else.
    Own,
}

/// How the octets that came end.
#[derive(Clone, Copy, Debug, PartialEq, Eq)]
pub enum Cut {
    /// Between two frames.
    Between,
    /// In a frame that begins with them.
    InNew,
    /// In the frame that the octets before them ended in.
    InSame,
}

/// What a client waits for. A moment is a number of milliseconds of one clock.
#[derive(Clone, Copy, Debug, PartialEq, Eq)]
pub struct Waits {
    bounds: Bounds,
    awaited: Awaited,
    /// Since when that is awaited.
    since: u64,
    /// When the last octets came.
    heard: u64,
    /// When the frame began to come that is not whole.
    begun: Option<u64>,
    /// Since when it writes, without a read meanwhile.
    writing: Option<u64>,
    /// The wait as a whole, if it has a bound.
    whole: Option<Wait>,
}

/// A wait that began at a moment, if it has a bound.
fn begun_wait(since: Option<u64>, most: Option<u64>) -> Option<Wait>
    ensures { result ≡ begun_wait since most }
{
    match (since, most) {
        (Some(since), Some(most)) => Some(Wait { since, most }),
        _ => None,
    }
}

/// What is left of a wait at a moment; `None` for one without a bound.
fn left_in(wait: Option<Wait>, now: u64) -> Option<u64>
    ensures { result ≡ left_in now wait }
{
    match wait {
        Some(wait) => Some(wait.left(now)),
        None => None,
    }
}

/// For how long this is awaited.
fn bound_of(bounds: Bounds, awaited: Awaited) -> Option<u64>
    ensures { result ≡ bound_of bounds awaited }
{
    match awaited {
        Awaited::Acceptance | Awaited::Answer(_) | Awaited::Own => bounds.answer,
        Awaited::Reports => bounds.report,
    }
}

impl Waits {
    /// A client that is connected at this moment.
    pub fn new(bounds: Bounds, now: u64) -> Waits
        ensures { result ≡ first_waits bounds now }
    {
        Waits {
            bounds,
            awaited: Awaited::Acceptance,
            since: now,
            heard: now,
            begun: None,
            writing: None,
            whole: None,
        }
    }

    /// With this wait as a whole, whatever comes.
    pub fn within(self, whole: Option<Wait>) -> Waits
        ensures { result ≡ within whole self }
    {
        Waits { whole, ..self }
    }

    /// With something that the client finds by itself, for this long from this moment on.
    pub fn awaits(self, most: u64, now: u64) -> Waits
        ensures { result ≡ awaits most now self }
    {
        let bounds = Bounds {
            answer: Some(most),
            ..self.bounds
        };
        Waits {
            bounds,
            awaited: Awaited::Own,
            since: now,
            ..self
        }
    }

    /// After a message with this header was sent. If a response to it is awaited, nothing else is.
    pub fn asks(self, request: Head, now: u64) -> Waits
        ensures { result ≡ asks request now self }
    {
        if self.awaited == Awaited::Own || !request.is_awaited() {
            return self;
        }
        Waits {
            awaited: Awaited::Answer(request),
            since: now,
            ..self
        }
    }

    /// After octets came that end so.
    pub fn takes(self, cut: Cut, now: u64) -> Waits
        ensures { result ≡ takes cut now self }
    {
        let begun = match cut {
            Cut::Between => None,
            Cut::InNew => Some(now),
            Cut::InSame => self.begun,
        };
        Waits {
            heard: now,
            begun,
            ..self
        }
    }

    /// Whether a message with this header ends what is awaited.
    fn is_ended_by(self, head: Head) -> bool
        ensures { result ≡ is_ended_by head self }
    {
        match self.awaited {
            Awaited::Acceptance | Awaited::Own => false,
            Awaited::Answer(request) => head.answers(request),
            Awaited::Reports => head.is_report(),
        }
    }

    /// After a message with this header came.
    pub fn hears(self, head: Head, now: u64) -> Waits
        ensures { result ≡ hears head now self }
    {
        if !self.is_ended_by(head) {
            return self;
        }
        Waits {
            awaited: Awaited::Reports,
            since: now,
            ..self
        }
    }

    /// Before a write. What is written without a read meanwhile is one wait.
    pub fn writes(self, now: u64) -> Waits
        ensures { result ≡ writes now self }
    {
        match self.writing {
            Some(_) => self,
            None => Waits {
                writing: Some(now),
                ..self
            },
        }
    }

    /// Before a read: all was written.
    pub fn reads(self) -> Waits
        ensures { result ≡ reads self }
    {
        Waits {
            writing: None,
            ..self
        }
    }

    /// For how many milliseconds a read may wait at this moment: 0 once a wait is over, and without end if
    /// none has a bound.
    pub fn left(self, now: u64) -> Option<u64>
        ensures { result ≡ left now self }
    {
        let awaited = begun_wait(Some(self.since), bound_of(self.bounds, self.awaited));
        let silence = begun_wait(Some(self.heard), self.bounds.silence);
        let frame = begun_wait(self.begun, self.bounds.frame);
        let first = sooner(left_in(awaited, now), left_in(silence, now));
        sooner(first, sooner(left_in(frame, now), left_in(self.whole, now)))
    }

    /// For how many milliseconds a write may wait at this moment.
    pub fn left_to_write(self, now: u64) -> Option<u64>
        ensures { result ≡ left_to_write now self }
    {
        let writing = begun_wait(self.writing, self.bounds.write);
        sooner(left_in(writing, now), left_in(self.whole, now))
    }
}
