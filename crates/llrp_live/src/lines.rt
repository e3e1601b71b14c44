//! The lines of a script in real time.

ghost use Rattle.std.specs.Prelude.{◌≡◌};
ghost use Rattle.llrp_live.specs.Calls.Rounds.{turn_of};

use crate::moments::When;
use crate::rounds::Rounds;
use llrp_schema::MsgKind;
use llrp_session::{SideEvent, Sighting};

/// The greatest number of octets that a line has of its own, as those that it sends as they are.
pub const MOST_OCTETS: usize = 64;

/// A few octets.
#[derive(Clone, Copy, Debug, PartialEq, Eq)]
pub struct ShortOctets {
    /// The octets, and 0 after them.
    pub octets: [u8; MOST_OCTETS],
    /// How many there are.
    pub count: usize,
}

/// What happens by a line.
#[derive(Clone, Copy, Debug, PartialEq, Eq)]
pub enum Deed {
    /// An antenna sees a tag.
    Seen(Sighting),
    /// An antenna sees the tag of a file whose turn it is.
    Tags(Rounds),
    /// Nothing more than that time passes.
    Tick,
    /// The reader closes the connection.
    Close,
    /// The reader sends nothing for this many microseconds, and then all that it would have sent.
    Silent {
        wait: u64,
    },
    /// Something happens to an antenna or an input of the reader.
    Side(SideEvent),
    /// A message of this kind is expected of the client within this many microseconds.
    Expect {
        kind: MsgKind,
        wait: u64,
    },
    /// The reader sends these octets, whatever they are.
    Octets(ShortOctets),
    /// The reader sends the messages that stand below the line.
    Send,
    /// The reader sends this many octets of its next message at most, and closes the connection.
    Cut {
        count: u64,
    },
    /// The reader's next message of this kind has this status and text in place of what it says.
    Status {
        kind: MsgKind,
        status: u16,
        text: ShortOctets,
    },
}

/// How a line happens again.
#[derive(Clone, Copy, Debug, PartialEq, Eq)]
pub struct Again {
    /// After how many microseconds, each time.
    pub period: u64,
    /// For how many microseconds, counted from the first time.
    pub left: u64,
    /// How many times it has happened before, at most the greatest `u64`.
    pub done: u64,
}

/// A line of a script: what happens, when, and how it happens again.
#[derive(Clone, Copy, Debug, PartialEq, Eq)]
pub struct Line {
    /// Which line of the script it is, counted from 1.
    pub number: u64,
    /// When it happens first.
    pub when: When,
    /// How it happens again, if it does.
    pub again: Option<Again>,
    /// What happens.
    pub deed: Deed,
}

impl Line {
    /// How many times it has happened before.
    pub fn turn(&self) -> u64
        ensures { result ≡ turn_of self.now }
    {
        match self.again {
            Some(again) => again.done,
            None => 0,
        }
    }
}
