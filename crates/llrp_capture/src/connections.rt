//! Which connections are open, by their numbers in the capture.

ghost use Rattle.std.specs.Prelude.{◌≡◌, ◌≤◌, ◌<◌, [], IfErr, IfOk, OnErr, MatchOption, length, remove, slice_get, Some};
ghost use Rattle.llrp_capture.specs.declared.connections.OpenErr.{OpenErr};
ghost use Rattle.llrp_capture.specs.Calls.Connections.{IsNotThere, Opens};

use std::alloc::Global;

/// How many connections may be open at once.
pub const MOST_CONNECTIONS: usize = 1000;

/// Why a connection is not opened.
#[derive(Clone, Copy, Debug, PartialEq, Eq)]
pub enum OpenErr {
    /// As many as may be are open.
    Full,
    /// Memory ran out.
    Memory,
}

/// The connections that are open, each at a place from 0 on.
#[derive(Drop)]
pub struct Connections {
    streams: Vec<u32>,
}

/// The place of a number.
fn find(streams: &[u32], stream: u32) -> Option<usize>
    ensures { MatchOption result (IsNotThere streams.now stream)
        (λ place. slice_get streams.now place ≡ Some stream) }
{
    for (place, open) in streams.iter().enumerate() {
        if *open == stream {
            return Some(place);
        }
    }
    None
}

impl Connections {
    /// None is open; it takes no memory.
    pub fn new(alloc: Global) -> Connections
        ensures { result.streams.items ≡ [] }
    {
        Connections {
            streams: Vec::new(alloc),
        }
    }

    /// The place of a connection, if it is open.
    pub fn place_of(&self, stream: u32) -> Option<usize>
        ensures { MatchOption result (IsNotThere self.now.streams.items stream)
            (λ place. slice_get self.now.streams.items place ≡ Some stream) }
    {
        find(self.streams.as_slice(), stream)
    }

    /// The place of a connection, which is opened at the last place if it is not open yet. After an error
    /// nothing changed.
    pub fn open(&mut self, stream: u32) -> Result<usize, OpenErr>
        ensures ok { IfOk result (λ place. Opens stream place self.old.streams.items self.new.streams.items) }
        ensures full { IfErr result (λ e. e ≡ OpenErr.Full
            → IsNotThere self.old.streams.items stream × (1000 ≤ length self.old.streams.items)) }
        ensures same { OnErr result (self.new.streams.items ≡ self.old.streams.items) }
    {
        if let Some(place) = find(self.streams.as_slice(), stream) {
            return Ok(place);
        }
        let place = self.streams.len();
        if place >= MOST_CONNECTIONS {
            return Err(OpenErr::Full);
        }
        match self.streams.push(stream) {
            Ok(()) => Ok(place),
            Err(_) => Err(OpenErr::Memory),
        }
    }

    /// Closes the connection at a place; those after it come one place nearer.
    pub fn close(&mut self, place: usize)
        requires { place < length self.old.streams.items }
        ensures { self.new.streams.items ≡ remove self.old.streams.items place }
    {
        self.streams.remove(place);
    }
}
