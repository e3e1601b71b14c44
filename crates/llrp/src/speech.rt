//! What a simulated reader in real time sends.

ghost use Rattle.std.specs.Prelude.{◌<◌, IfSome, length};

use crate::live_clock::LiveClock;
use llrp_listing::ToolErr;
use llrp_live::{ShortOctets, later, with_status};
use llrp_schema::{Kind, MsgKind, number};
use llrp_tree::{EncodeErr, MAX_LIMIT, Message, encode_into};
use std::alloc::{AllocError, Global};
use std::io::{ErrorKind, Write};
use std::net::TcpStream;
use std::time::Duration;

/// For how many milliseconds a write waits for a client that has no room.
const LONGEST_WRITE: u64 = 10;

/// For how many seconds of the time of day a client may take nothing of what is sent.
pub const PATIENCE: u64 = 30;

/// What a message of a kind says in place of its own status.
#[derive(Clone, Copy)]
struct OtherStatus {
    kind: MsgKind,
    status: u16,
    text: ShortOctets,
}

/// Whether a write failed since the client had no room.
fn is_late(kind: ErrorKind) -> bool {
    matches!(
        kind,
        ErrorKind::TimedOut | ErrorKind::WouldBlock | ErrorKind::Interrupted
    )
}

/// The place of the first of these for a message of a kind.
fn place_of(kind: MsgKind, statuses: &[OtherStatus]) -> Option<usize>
    ensures { IfSome result (λ place. place < length statuses.now) }
{
    let wanted = number(Kind::Message(kind));
    statuses
        .iter()
        .position(|it| number(Kind::Message(it.kind)) == wanted)
}

/// What a reader said that was not sent yet, and how a script changes it.
#[derive(Drop)]
pub struct Speech<'a> {
    alloc: Global,
    stream: &'a TcpStream,
    unsent: Vec<u8>,
    /// How many octets of these were sent.
    sent: usize,
    /// Until when nothing is sent.
    silent_until: u64,
    /// The moment before which sending is not tried again, where the client had no room.
    full_until: u64,
    /// Since when the client has taken nothing of what is sent; `None` while it takes it.
    full_since: Option<u64>,
    /// For how many microseconds it may take nothing.
    patience: u64,
    /// How many octets of the next message are sent, before the connection is closed.
    cut: Option<usize>,
    /// Whether that message was said, so that nothing follows it.
    is_cut: bool,
    /// The statuses that messages to come say in place of their own, for each kind the first one here.
    statuses: Vec<OtherStatus>,
}

impl<'a> Speech<'a> {
    /// The speech on a connection on which nothing was said yet. Its client may take nothing for `patience`
    /// microseconds.
    pub fn new(alloc: Global, stream: &'a TcpStream, patience: u64) -> Speech<'a> {
        Speech {
            alloc,
            stream,
            unsent: Vec::new(alloc),
            sent: 0,
            silent_until: 0,
            full_until: 0,
            full_since: None,
            patience,
            cut: None,
            is_cut: false,
            statuses: Vec::new(alloc),
        }
    }

    /// Sends nothing until a moment.
    pub fn fall_silent(&mut self, until: u64) {
        self.silent_until = until;
    }

    /// Cuts the next message after this many octets.
    pub fn cut_next(&mut self, count: u64) {
        self.cut = Some(count.min(MAX_LIMIT as u64) as usize);
    }

    /// Lets the next message of this kind for which no other status waits say this status, with this text.
    /// The only error is that memory ran out.
    pub fn add_status(
        &mut self,
        kind: MsgKind,
        status: u16,
        text: ShortOctets,
    ) -> Result<(), AllocError> {
        self.statuses.push(OtherStatus { kind, status, text })?;
        Ok(())
    }

    /// The message in place of one that says another status.
    fn in_place_of(&mut self, message: &Message) -> Result<Option<Message>, ToolErr> {
        let Some(place) = place_of(message.kind(), self.statuses.as_slice()) else {
            return Ok(None);
        };
        let OtherStatus { status, text, .. } = self.statuses.remove(place);
        let count = text.count.min(text.octets.len());
        Ok(with_status(self.alloc, message, status, &text.octets[..count])?)
    }

    /// Whether everything was sent that is to be sent on this connection.
    pub fn is_over(&self) -> bool {
        self.is_cut && self.unsent.is_empty()
    }

    /// When what was said is sent; `None` if nothing waits to be sent.
    pub fn next_moment(&self) -> Option<u64> {
        if self.unsent.is_empty() {
            None
        } else {
            Some(self.silent_until.max(self.full_until))
        }
    }

    /// Keeps the frame of a message until it is sent. The error is `Memory`.
    pub fn add(&mut self, message: &Message) -> Result<(), ToolErr> {
        if self.is_cut {
            return Ok(());
        }
        match self.in_place_of(message)? {
            Some(other) => self.add_frame(&other),
            None => self.add_frame(message),
        }
    }

    /// Keeps the frame of a message as it is, or cut.
    fn add_frame(&mut self, message: &Message) -> Result<(), ToolErr> {
        let before = self.unsent.len();
        self.add_whole(message)?;
        if let Some(count) = self.cut {
            self.unsent.truncate(before.saturating_add(count));
            self.is_cut = true;
        }
        Ok(())
    }

    /// Keeps the frame of a message whole.
    fn add_whole(&mut self, message: &Message) -> Result<(), ToolErr> {
        message.lawful();
        match encode_into(self.alloc, message, &mut self.unsent, MAX_LIMIT) {
            Ok(()) => Ok(()),
            Err(EncodeErr::Memory) => Err(ToolErr::Memory),
            Err(EncodeErr::OverLimit) => Err(ToolErr::Write),
        }
    }

    /// Keeps a message of the script until it is sent; no line of the script changes it. The error is
    /// `Memory`.
    pub fn add_as_it_is(&mut self, message: &Message) -> Result<(), ToolErr> {
        if self.is_cut {
            Ok(())
        } else {
            self.add_whole(message)
        }
    }

    /// Keeps octets until they are sent. The error is `Memory`.
    pub fn add_octets(&mut self, octets: &[u8]) -> Result<(), ToolErr> {
        if !self.is_cut {
            self.unsent.extend_from_slice(octets)?;
        }
        Ok(())
    }

    /// Lets each write to the stream wait for at most `LONGEST_WRITE` milliseconds. Returns whether it does.
    pub fn limit_writes(&self) -> bool {
        self.stream
            .set_write_timeout(Some(Duration::from_millis(LONGEST_WRITE)))
            .is_ok()
    }

    /// Notes that the client has room again and took `count` octets. The error is `Memory`.
    fn note_taken(&mut self, count: usize) -> Result<(), AllocError> {
        self.full_since = None;
        let all = self.unsent.len();
        self.sent = self.sent.saturating_add(count).min(all);
        if self.sent == all {
            self.unsent.clear();
            self.sent = 0;
        } else if self.sent >= all / 2 {
            self.unsent = self.unsent[self.sent..].to_vec(self.alloc)?;
            self.sent = 0;
        }
        Ok(())
    }

    /// Notes that the client has no room. The error is `Write`, if that was so for too long.
    fn note_full(&mut self, now: u64) -> Result<(), ToolErr> {
        let since = self.full_since.unwrap_or(now);
        self.full_since = Some(since);
        if now >= later(since, self.patience) {
            return Err(ToolErr::Write);
        }
        Ok(())
    }

    /// Sends what was said, unless it is silent, as far as the client has room. The errors are `Write` and
    /// `Memory`.
    pub fn send(&mut self, now: u64) -> Result<(), ToolErr> {
        if self.unsent.is_empty() || now < self.silent_until || now < self.full_until {
            return Ok(());
        }
        let mut stream = self.stream;
        let first = self.sent.min(self.unsent.len());
        match stream.write(&self.unsent[first..]) {
            Ok(0) => return Err(ToolErr::Write),
            Ok(count) => self.note_taken(count)?,
            Err(error) if is_late(error.kind()) => self.note_full(now)?,
            Err(_) => return Err(ToolErr::Write),
        }
        if !self.unsent.is_empty() {
            self.full_until = later(now, 1);
        }
        Ok(())
    }

    /// Sends the rest of what was said, unless it is silent, before the connection is closed. The errors
    /// are `Write` and `Memory`.
    pub fn finish(&mut self, clock: &LiveClock<'_>) -> Result<(), ToolErr> {
        for _ in 0..u64::MAX {
            let now = clock.now();
            if self.unsent.is_empty() || now < self.silent_until {
                break;
            }
            self.send(now)?;
        }
        Ok(())
    }
}
