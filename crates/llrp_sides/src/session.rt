//! The connections of a capture.

ghost use Rattle.std.specs.Prelude.{◌≡◌, ◌<◌, ◌&&◌, [], IfOk, OnOk, true, length};
ghost use Rattle.std.specs.String.{string_bytes};
ghost use Rattle.llrp_listing.specs.Show.{verdict_of};
ghost use Rattle.llrp_sides.specs.Calls.Firsts.{may_begin as the_may_begin};
ghost use Rattle.llrp_sides.specs.Calls.Pairs.{EndsBoth, GoesTo, IsNew, TakesOwn, are_lawful, is_over as the_over};

use crate::failure::{LineFault, StepErr, of_memory, of_open, of_segment};
use crate::form::Form;
use crate::side::{RST, SYN, Side, ends, has};
use crate::stamp::Stamp;
use llrp_capture::{Connections, Segment, Sender, segment_of};
use llrp_listing::{Text, Verdict};
use std::alloc::Global;
use std::{mem, str};

/// Both sides of a connection.
#[derive(Drop)]
struct Pair {
    stream: u32,
    reader: Side,
    client: Side,
    /// Whether each said that nothing follows.
    reader_has_ended: bool,
    client_has_ended: bool,
}

/// The connections of which segments came.
#[derive(Drop)]
pub(crate) struct Session {
    alloc: Global,
    form: Form,
    port: u16,
    connections: Connections,
    /// Those of the connections, in their order.
    pairs: Vec<Pair>,
    /// The time of the last segment.
    time: String,
    is_lawful: bool,
}

/// Whether a segment may begin a side: it has octets, or says that octets follow.
fn may_begin(segment: &Segment<'_>) -> bool
    ensures { result ≡ the_may_begin segment.now }
{
    has(segment.flags, SYN) || !segment.octets.is_empty()
}

/// Whether both are so.
fn both(first: bool, second: bool) -> bool
    ensures { result ≡ (first && second) }
{
    first && second
}

/// The verdict on what is lawful, or not.
fn verdict_on(lawful: bool) -> Verdict
    ensures { result ≡ verdict_of lawful }
{
    if lawful {
        Verdict::Lawful
    } else {
        Verdict::Faulty
    }
}

impl Pair {
    /// A connection of which nothing came.
    fn new(alloc: Global, form: Form, stream: u32) -> Pair
        ensures stream { result.stream ≡ stream }
        ensures new { IsNew form result }
    {
        Pair {
            stream,
            reader: Side::new(alloc, form),
            client: Side::new(alloc, form),
            reader_has_ended: false,
            client_has_ended: false,
        }
    }

    /// Gives a segment to the side that sent it.
    fn give(
        &mut self,
        segment: &Segment<'_>,
        stamp: Stamp<'_>,
        text: &mut Text,
    ) -> Result<(), StepErr>
        ensures { OnOk result (GoesTo segment.now.from stamp.entry segment.now self.old self.new
            text.old text.new) }
    {
        match segment.from {
            Sender::Reader => {
                self.reader.take(segment, stamp, text)?;
                self.reader_has_ended = self.reader_has_ended || ends(segment.flags);
            }
            Sender::Client => {
                self.client.take(segment, stamp, text)?;
                self.client_has_ended = self.client_has_ended || ends(segment.flags);
            }
        }
        Ok(())
    }

    /// Takes a segment.
    fn take(&mut self, segment: &Segment<'_>, text: &mut Text) -> Result<(), StepErr>
        ensures { OnOk result (TakesOwn segment.now self.old self.new text.old text.new) }
    {
        let stamp = Stamp {
            time: segment.time,
            stream: segment.stream,
            from: segment.from,
        };
        self.give(segment, stamp, text)
    }

    /// Whether it is over with a segment that it took.
    fn is_over(&self, segment: &Segment<'_>) -> bool
        ensures { result ≡ the_over segment.now self.now }
    {
        has(segment.flags, RST) || self.reader_has_ended && self.client_has_ended
    }

    /// Lists the ends of both sides, the client's first.
    fn end(&mut self, time: &str, text: &mut Text) -> Result<(), StepErr>
        ensures { OnOk result (EndsBoth time.now self.old self.new text.old text.new) }
    {
        let stream = self.stream;
        self.client.end(
            Stamp {
                time,
                stream,
                from: Sender::Client,
            },
            text,
        )?;
        self.reader.end(
            Stamp {
                time,
                stream,
                from: Sender::Reader,
            },
            text,
        )
    }

    /// Whether each frame of both is a message, and none is missing.
    fn is_lawful(&self) -> bool
        ensures { result ≡ are_lawful self.now }
    {
        self.reader.is_lawful && self.client.is_lawful
    }
}

impl Session {
    ghost use Rattle.llrp_sides.specs.Private.Sessions.{Closes, EndsAt, EndsOpen, Goes, Heeds, InStep, IsAdded, Opens, TakesAt, TakesLine, TakesNext};

    /// A session of which nothing came.
    pub(crate) fn new(alloc: Global, form: Form, port: u16) -> Session
        ensures in_step { InStep result }
        ensures pairs { result.pairs.items ≡ [] }
        ensures lawful { result.is_lawful ≡ true }
        ensures time { string_bytes result.time ≡ [] }
        ensures form { result.form ≡ form }
        ensures port { result.port ≡ port }
    {
        Session {
            alloc,
            form,
            port,
            connections: Connections::new(alloc),
            pairs: Vec::new(alloc),
            time: String::new(alloc),
            is_lawful: true,
        }
    }

    /// Takes a line without its end, and appends what is whole with it. After an error nothing more is to be taken.
    pub(crate) fn take(&mut self, line: &[u8], text: &mut Text) -> Result<(), StepErr>
        requires { InStep self.old }
        ensures { OnOk result (TakesLine line.now self.old self.new text.old text.new) }
    {
        let Ok(line) = str::from_utf8(line) else {
            return Err(StepErr::Fault(LineFault::Utf8));
        };
        match segment_of(self.alloc, self.port, line) {
            Ok(segment) => self.take_segment(&segment, text),
            Err(error) => Err(of_segment(error)),
        }
    }

    /// Adds the pair of a connection of which nothing came.
    fn add_pair(&mut self, stream: u32) -> Result<(), StepErr>
        ensures { OnOk result (IsAdded stream self.old self.new) }
    {
        let pair = Pair::new(self.alloc, self.form, stream);
        if self.pairs.push(pair).is_err() {
            return Err(StepErr::Memory);
        }
        Ok(())
    }

    /// The place of a connection, which is opened if it is not open yet.
    fn open(&mut self, stream: u32) -> Result<usize, StepErr>
        requires { InStep self.old }
        ensures { IfOk result (λ place. Opens stream place self.old self.new) }
    {
        let place = match self.connections.open(stream) {
            Ok(place) => place,
            Err(error) => return Err(of_open(error)),
        };
        if place < self.pairs.len() {
            return Ok(place);
        }
        self.add_pair(stream)?;
        Ok(place)
    }

    /// Gives a segment to the pair at a place, and returns whether it is over then.
    fn give(
        &mut self,
        place: usize,
        segment: &Segment<'_>,
        text: &mut Text,
    ) -> Result<bool, StepErr>
        requires { place < length self.old.pairs.items }
        ensures { IfOk result (λ over. (now : Pair) × (over ≡ the_over segment.now now)
            × TakesAt segment.now place self.old self.new now text.old text.new) }
    {
        let pair: &mut Pair = &mut self.pairs[place];
        pair.take(segment, text)?;
        Ok(pair.is_over(segment))
    }

    /// Lists the ends of both sides of the pair at a place.
    fn end_pair(&mut self, place: usize, time: &str, text: &mut Text) -> Result<(), StepErr>
        requires { place < length self.old.pairs.items }
        ensures { OnOk result (EndsAt time.now place self.old self.new text.old text.new) }
    {
        let pair: &mut Pair = &mut self.pairs[place];
        pair.end(time, text)?;
        let is_lawful = pair.is_lawful();
        self.is_lawful = both(self.is_lawful, is_lawful);
        Ok(())
    }

    /// Lists the ends of both sides of the pair at a place, and closes its connection.
    fn close(&mut self, place: usize, time: &str, text: &mut Text) -> Result<(), StepErr>
        requires place { place < length self.old.pairs.items }
        requires in_step { InStep self.old }
        ensures { OnOk result (Closes time.now place self.old self.new text.old text.new) }
    {
        self.end_pair(place, time, text)?;
        self.pairs.remove(place);
        self.connections.close(place);
        Ok(())
    }

    /// Whether a segment is of a connection that is open, or may begin one.
    fn heeds(&self, segment: &Segment<'_>) -> bool
        requires { InStep self.now }
        ensures { Heeds segment.now self.now.pairs.items result }
    {
        may_begin(segment) || self.connections.place_of(segment.stream).is_some()
    }

    /// Gives a segment to its own connection.
    fn take_own(&mut self, segment: &Segment<'_>, text: &mut Text) -> Result<(), StepErr>
        requires in_step { InStep self.old }
        requires heeded { Heeds segment.now self.old.pairs.items true }
        ensures { OnOk result (Goes segment.now self.old self.new text.old text.new) }
    {
        let place = self.open(segment.stream)?;
        if self.give(place, segment, text)? {
            self.close(place, segment.time, text)?;
        }
        Ok(())
    }

    /// Takes a segment.
    fn take_segment(&mut self, segment: &Segment<'_>, text: &mut Text) -> Result<(), StepErr>
        requires { InStep self.old }
        ensures { OnOk result (TakesNext segment.now self.old self.new text.old text.new) }
    {
        self.time = of_memory(String::from_str(self.alloc, segment.time))?;
        if !self.heeds(segment) {
            return Ok(());
        }
        self.take_own(segment, text)
    }

    /// Lists the ends of all sides of connections that are open, and returns whether each frame of the
    /// capture is a message, and none is missing.
    pub(crate) fn end(&mut self, text: &mut Text) -> Result<Verdict, StepErr>
        ensures { IfOk result (EndsOpen self.old text.old text.new) }
    {
        let time = mem::replace(&mut self.time, String::new(self.alloc));
        'pairs: for place in 0..self.pairs.len() {
            self.end_pair(place, time.as_str(), text)?;
        }
        Ok(verdict_on(self.is_lawful))
    }
}
