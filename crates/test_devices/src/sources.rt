//! Sources that give little in a call.

ghost use Rattle.std.specs.Prelude.{◌≡◌, None};
ghost use Rattle.llrp_stream.specs.Calls.Device.{new_source};

use llrp_stream::Source;
use std::io;

/// Gives an octet a call, and fails in the call of this number, counted from 1; later calls go on.
#[derive(Drop)]
pub struct Dripping<'a> {
    rest: &'a [u8],
    fails_in: u64,
    calls: u64,
    reads: u64,
    ends: u64,
    failures: u64,
}

impl<'a> Dripping<'a> {
    /// A source of these octets, which nothing was read from.
    pub fn new(rest: &'a [u8], fails_in: u64) -> Dripping<'a>
        ensures { ⟦<Dripping<'a> as Source>⟧.log result ≡ new_source None }
    {
        Dripping {
            rest,
            fails_in,
            calls: 0,
            reads: 0,
            ends: 0,
            failures: 0,
        }
    }

    /// A source that fails in the call after this many.
    pub fn after(rest: &'a [u8], calls: usize) -> Dripping<'a>
        ensures { ⟦<Dripping<'a> as Source>⟧.log result ≡ new_source None }
    {
        Dripping::new(rest, (calls as u64).saturating_add(1))
    }
}

impl<'a> Source for Dripping<'a> {
    ghost log = { λ s. record { reads = s.reads; ends = s.ends; failures = s.failures; left = None } };

    fn read(&mut self, buf: &mut [u8]) -> io::Result<usize> {
        self.calls = self.calls.saturating_add(1);
        if self.calls == self.fails_in {
            self.failures += 1;
            return Err(io::Error::from(io::ErrorKind::ConnectionReset));
        }
        let Some((first, rest)) = self.rest.split_first() else {
            self.ends += 1;
            return Ok(0);
        };
        buf[0] = *first;
        self.rest = rest;
        self.reads += 1;
        Ok(1)
    }
}

/// Gives a line a call, and fails in the call of this number, counted from 1.
#[derive(Drop)]
pub struct Lines<'a> {
    rest: &'a [u8],
    fails_in: u64,
    calls: u64,
    reads: u64,
    ends: u64,
    failures: u64,
}

impl<'a> Lines<'a> {
    /// A source that fails in the call after this many lines.
    pub fn after(rest: &'a [u8], lines: usize) -> Lines<'a>
        ensures { ⟦<Lines<'a> as Source>⟧.log result ≡ new_source None }
    {
        Lines {
            rest,
            fails_in: (lines as u64).saturating_add(1),
            calls: 0,
            reads: 0,
            ends: 0,
            failures: 0,
        }
    }

    /// How many octets the next line has, its end included.
    fn line(&self) -> usize {
        let mut length = 0usize;
        for octet in self.rest {
            length = length.saturating_add(1);
            if *octet == b'\n' {
                return length;
            }
        }
        length
    }
}

impl<'a> Source for Lines<'a> {
    ghost log = { λ s. record { reads = s.reads; ends = s.ends; failures = s.failures; left = None } };

    fn read(&mut self, buf: &mut [u8]) -> io::Result<usize> {
        self.calls = self.calls.saturating_add(1);
        if self.calls == self.fails_in {
            self.failures += 1;
            return Err(io::Error::from(io::ErrorKind::ConnectionReset));
        }
        let n = self.line().min(self.rest.len()).min(buf.len());
        let (line, rest) = self.rest.split_at(n);
        buf[..n].copy_from_slice(line);
        self.rest = rest;
        match n {
            0 => self.ends += 1,
            _ => self.reads += 1,
        }
        Ok(n)
    }
}

/// Gives a first piece, and then pieces of another size.
#[derive(Drop)]
pub struct Pieces<'a> {
    rest: &'a [u8],
    size: usize,
    later: usize,
    reads: u64,
    ends: u64,
}

impl<'a> Pieces<'a> {
    /// A source of these octets, which nothing was read from; the first piece has `first` of them, and each
    /// later one `later`.
    pub fn new(rest: &'a [u8], first: usize, later: usize) -> Pieces<'a>
        ensures { ⟦<Pieces<'a> as Source>⟧.log result ≡ new_source None }
    {
        Pieces {
            rest,
            size: first,
            later,
            reads: 0,
            ends: 0,
        }
    }
}

impl<'a> Source for Pieces<'a> {
    ghost log = { λ s. record { reads = s.reads; ends = s.ends; failures = 0; left = None } };

    fn read(&mut self, buf: &mut [u8]) -> io::Result<usize> {
        let n = self.size.min(self.rest.len()).min(buf.len());
        let (piece, rest) = self.rest.split_at(n);
        buf[..n].copy_from_slice(piece);
        self.rest = rest;
        self.size = self.later;
        if n == 0 {
            self.ends += 1;
        } else {
            self.reads += 1;
        }
        Ok(n)
    }
}
