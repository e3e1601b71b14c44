//! A client's connection, and the other clients that come to its listener while it is served.

ghost use Rattle.std.specs.Prelude.{◌≡◌};

use crate::one_at_a_time::Clients;
use llrp_ask::is_late;
use llrp_general::OtherClients;
use std::alloc::Global;
use std::cell::Cell;
use std::io;
use std::io::{ErrorKind, Read};
use std::net::TcpStream;
use std::time::Duration;

/// For how many milliseconds octets are awaited before it is looked again whether another client came.
const PATIENCE: u64 = 200;

/// A client's connection. What it gives is known to no contract.
#[derive(Drop)]
pub struct Watched<'a> {
    stream: &'a TcpStream,
    /// Whether it failed while octets were awaited. A stream says so only once.
    has_failed: Cell<bool>,
}

impl<'a> Watched<'a> {
    /// A connection that has not failed.
    pub fn new(stream: &'a TcpStream) -> Watched<'a> {
        Watched {
            stream,
            has_failed: Cell::new(false),
        }
    }

    /// Waits for a while until there is something to read. Returns whether there is, or the connection
    /// ended or failed.
    fn is_ready(&self) -> bool {
        let mut next = [0; 1];
        let patience = Duration::from_millis(PATIENCE);
        let peeked = self
            .stream
            .set_read_timeout(Some(patience))
            .and_then(|_| self.stream.peek(&mut next));
        match peeked {
            Ok(_) => true,
            Err(error) if is_late(error.kind()) => false,
            Err(_) => {
                self.has_failed.set(true);
                true
            }
        }
    }
}

impl Read for &Watched<'_> {
    fn read(&mut self, buf: &mut [u8]) -> io::Result<usize> {
        if self.has_failed.get() {
            return Err(io::Error::from(ErrorKind::ConnectionReset));
        }
        let mut stream = self.stream;
        stream.set_read_timeout(None)?;
        stream.read(buf)
    }
}

/// The other clients that come to a listener while one of its clients is served.
#[derive(Drop)]
pub struct Beside<'a, 'b> {
    alloc: Global,
    served: &'a Watched<'a>,
    clients: &'a mut Clients<'b>,
    count: u64,
}

impl<'a, 'b> Beside<'a, 'b> {
    /// None came yet to the listener of these clients, of which one is served over this connection.
    pub fn new(
        alloc: Global,
        served: &'a Watched<'a>,
        clients: &'a mut Clients<'b>,
    ) -> Beside<'a, 'b>
        ensures { ⟦<Beside<'a, 'b> as OtherClients>⟧.count result ≡ 0 }
    {
        Beside {
            alloc,
            served,
            clients,
            count: 0,
        }
    }
}

/// Waits until there is something to read of the client that is served, or another client was refused at
/// the moment `now`. Returns whether one was.
fn is_one_refused(
    alloc: Global,
    served: &Watched<'_>,
    clients: &mut Clients<'_>,
    now: u64,
) -> bool {
    for _ in 0..u64::MAX {
        if clients.refuse(alloc, now) {
            return true;
        }
        if served.is_ready() {
            return false;
        }
    }
    false
}

impl OtherClients for Beside<'_, '_> {
    ghost count = { λ s. s.count };

    fn one_came(&mut self, now: u64) -> bool {
        let came = is_one_refused(self.alloc, self.served, self.clients, now);
        if came {
            self.count = self.count.saturating_add(1);
        }
        came
    }
}
