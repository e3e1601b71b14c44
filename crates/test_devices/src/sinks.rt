//! Sinks that take little in a call, or have room for a fixed number of octets.

ghost use Rattle.std.specs.Prelude.{◌≡◌, [], IfOk, None, Some};
ghost use Rattle.llrp_stream.specs.Calls.Device.{new_sink};

use llrp_stream::Sink;
use std::alloc::{AllocError, Global};
use std::io;

/// How a call of a sink fails.
#[derive(Clone, Copy)]
pub enum Failure {
    /// It returns an error.
    Error,
    /// It takes no octet.
    NoOctet,
}

/// Takes an octet a call, and fails in the call of this number, counted from 1; later calls go on.
#[derive(Drop)]
pub struct Taking {
    bytes: Vec<u8>,
    fails_in: u64,
    failure: Failure,
    calls: u64,
    failures: u64,
}

impl Taking {
    /// A sink that took nothing yet.
    pub fn new(alloc: Global, fails_in: u64, failure: Failure) -> Taking
        ensures { ⟦<Taking as Sink>⟧.log result ≡ new_sink (Some []) }
    {
        Taking {
            bytes: Vec::new(alloc),
            fails_in,
            failure,
            calls: 0,
            failures: 0,
        }
    }

    /// A sink that returns an error in the call after this many.
    pub fn after(alloc: Global, calls: usize) -> Taking
        ensures { ⟦<Taking as Sink>⟧.log result ≡ new_sink (Some []) }
    {
        Taking::new(alloc, (calls as u64).saturating_add(1), Failure::Error)
    }

    /// The octets that it took.
    pub fn taken(&self) -> &[u8]
        ensures { (⟦<Taking as Sink>⟧.log self.now).taken ≡ Some result.now }
    {
        self.bytes.as_slice()
    }
}

impl Sink for Taking {
    ghost log = { λ s. record { failures = s.failures; taken = Some s.bytes.items } };

    fn write(&mut self, buf: &[u8]) -> io::Result<usize> {
        self.calls = self.calls.saturating_add(1);
        if self.calls == self.fails_in {
            self.failures += 1;
            return match self.failure {
                Failure::Error => Err(io::Error::from(io::ErrorKind::BrokenPipe)),
                Failure::NoOctet => Ok(0),
            };
        }
        if self.bytes.push(buf[0]).is_err() {
            self.failures += 1;
            return Err(io::Error::from(io::ErrorKind::OutOfMemory));
        }
        Ok(1)
    }
}

/// Takes all octets of each call, and fails in the call of this number, counted from 1.
#[derive(Drop)]
pub struct Gulping {
    bytes: Vec<u8>,
    fails_in: u64,
    calls: u64,
    failures: u64,
}

impl Gulping {
    /// A sink that took nothing yet.
    pub fn new(alloc: Global, fails_in: u64) -> Gulping
        ensures { ⟦<Gulping as Sink>⟧.log result ≡ new_sink (Some []) }
    {
        Gulping {
            bytes: Vec::new(alloc),
            fails_in,
            calls: 0,
            failures: 0,
        }
    }

    /// The octets that it took.
    pub fn taken(&self) -> &[u8]
        ensures { (⟦<Gulping as Sink>⟧.log self.now).taken ≡ Some result.now }
    {
        self.bytes.as_slice()
    }
}

impl Sink for Gulping {
    ghost log = { λ s. record { failures = s.failures; taken = Some s.bytes.items } };

    fn write(&mut self, buf: &[u8]) -> io::Result<usize> {
        self.calls = self.calls.saturating_add(1);
        if self.calls == self.fails_in || self.bytes.extend_from_slice(buf).is_err() {
            self.failures += 1;
            return Err(io::Error::from(io::ErrorKind::BrokenPipe));
        }
        Ok(buf.len())
    }
}

/// A sink of a fixed size, which takes no memory once it is made; a write beyond its end fails.
#[derive(Drop)]
pub struct Room {
    bytes: Vec<u8>,
    taken: usize,
    failures: u64,
}

impl Room {
    /// A sink with room for this many octets. The only error is that there is no memory.
    pub fn new(alloc: Global, count: usize) -> Result<Room, AllocError>
        ensures { IfOk result (λ room. ⟦<Room as Sink>⟧.log room ≡ new_sink None) }
    {
        let mut bytes = Vec::new(alloc);
        bytes.resize(count, 0)?;
        Ok(Room {
            bytes,
            taken: 0,
            failures: 0,
        })
    }

    /// The octets that it took.
    pub fn taken(&self) -> &[u8] {
        if self.taken <= self.bytes.len() {
            &self.bytes[..self.taken]
        } else {
            &[]
        }
    }
}

impl Sink for Room {
    ghost log = { λ s. record { failures = s.failures; taken = None } };

    fn write(&mut self, buf: &[u8]) -> io::Result<usize> {
        match put(self.bytes.as_mut_slice(), self.taken, buf) {
            Some(end) => {
                self.taken = end;
                Ok(buf.len())
            }
            None => {
                self.failures += 1;
                Err(io::Error::from(io::ErrorKind::StorageFull))
            }
        }
    }
}

/// Copies a part to a place, and returns the place after it, or `None` where there is no room.
fn put(bytes: &mut [u8], place: usize, part: &[u8]) -> Option<usize> {
    let end = place.checked_add(part.len())?;
    if bytes.len() < end {
        return None;
    }
    bytes[place..end].copy_from_slice(part);
    Some(end)
}
