//! The clients of a listener, of which one is served at a time.

use llrp_commands::LIMIT;
use llrp_listing::{Text, encode_listing};
use llrp_schema::KindSet;
use llrp_stream::Output;
use std::alloc::{AllocError, Global};
use std::io::Read;
use std::mem;
use std::net::{TcpListener, TcpStream};
use std::time::Duration;

/// For how many milliseconds each read from a client that is refused, and each write to it, may wait.
const PATIENCE: u64 = 1;

/// The listing of what a reader says to a client that comes while it serves one: a ConnectionAttemptEvent
/// with the status that a client has a connection already (LLRP 1.1, section 14.2.2.11).
fn refusal_text(alloc: Global, now: u64) -> Result<Text, AllocError> {
    let mut text = Text::new(alloc);
    text.push_text(b"0 READER_EVENT_NOTIFICATION 1 1\n1 ReaderEventNotificationData\n")?;
    text.push_text(b"2 UTCTimestamp ")?;
    text.push_number(now as u128)?;
    text.push_text(b"\n2 ConnectionAttemptEvent 2\n")?;
    Ok(text)
}

/// Takes what a client has sent, so that closing the connection does not reset it.
fn skip_sent(stream: &TcpStream) {
    let mut piece = [0; 4_096];
    let mut client = stream;
    match client.read(&mut piece) {
        Ok(_) | Err(_) => {}
    }
}

/// Refuses a client. What it has sent is not looked at. Returns whether the refusal was sent.
fn refuse_client(alloc: Global, now: u64, stream: &TcpStream) -> bool {
    let Ok(text) = refusal_text(alloc, now) else {
        return false;
    };
    let patience = Some(Duration::from_millis(PATIENCE));
    let is_bounded = stream.set_read_timeout(patience).is_ok()
        && stream.set_write_timeout(patience).is_ok();
    skip_sent(stream);
    let mut sink = Output::new(stream);
    is_bounded && encode_listing(alloc, KindSet::Profile, text.as_slice(), &mut sink, LIMIT).is_ok()
}

/// The clients that come to a listener.
#[derive(Drop)]
pub struct Clients<'a> {
    listener: &'a TcpListener,
    /// The client that came while another was served.
    waiting: Option<TcpStream>,
}

impl<'a> Clients<'a> {
    /// The clients of a listener to which none came.
    pub fn new(listener: &'a TcpListener) -> Clients<'a> {
        Clients {
            listener,
            waiting: None,
        }
    }

    /// The next client to serve: the one that waits, or else the next one to come. From then on
    /// [`Clients::refuse`] waits for no client. `None` means that the network failed.
    pub fn next(&mut self) -> Option<TcpStream> {
        if let Some(waiting) = mem::replace(&mut self.waiting, None) {
            return Some(waiting);
        }
        self.listener.set_nonblocking(false).ok()?;
        let (stream, _) = self.listener.accept().ok()?;
        self.listener.set_nonblocking(true).ok()?;
        Some(stream)
    }

    /// Refuses the client that waits, and lets the next one wait, if one came. So a client that comes when
    /// the one that is served has just ended is not refused. Returns whether a client was refused.
    pub fn refuse(&mut self, alloc: Global, now: u64) -> bool {
        let waiting = mem::replace(&mut self.waiting, None);
        if let Some(waiting) = &waiting {
            refuse_client(alloc, now, waiting);
        }
        if let Ok((stream, _)) = self.listener.accept() {
            self.waiting = Some(stream);
        }
        waiting.is_some()
    }
}
