//! Hears what a reader sends: its frames that are no messages, its refusals, and what --verbose says of the
//! others.

ghost use Rattle.std.specs.Prelude.{◌≡◌, ◌<◌, IsErr, IsSome, length};
ghost use Rattle.llrp_stream.specs.Calls.Device.{CanRead, ReadStep};
ghost use Rattle.llrp.specs.Calls.Refusals.{Hears};

use crate::faults::FaultFinder;
use crate::heard_frames::{MOST_OCTETS, say_frame, split_frame};
use crate::notes::Notes;
use crate::whole_frames::FrameCutter;
use llrp_stream::Source;
use llrp_waits::Head;
use std::alloc::Global;
use std::cell::Cell;
use std::io;
use std::io::ErrorKind;

/// Passes each read on to a source, and says what there is to say of the frames that came: which of them
/// are no messages, and all else if notes are asked for. Once the reader has refused what was sent beside
/// the plan, it reads nothing more: each read fails.
#[derive(Drop)]
pub struct Listening<'a, R: Source + Drop> {
    alloc: Global,
    source: R,
    faults: FaultFinder<'a>,
    cutter: FrameCutter,
    notes: &'a Notes<'a>,
    pending: &'a Cell<Option<Head>>,
    /// How many reads failed without one of the source.
    stops: u64,
}

impl<'a, R: Source + Drop> Listening<'a, R> {
    ghost use Rattle.llrp.specs.Private.Refusals.{HearsRead, stopped};

    /// A source of which nothing was read yet.
    pub fn new(
        alloc: Global,
        source: R,
        faults: FaultFinder<'a>,
        notes: &'a Notes<'a>,
        pending: &'a Cell<Option<Head>>,
    ) -> Listening<'a, R>
        ensures log { ⟦<Listening<'a, R> as Source>⟧.log result ≡ R.log source }
        ensures faults { result.faults ≡ faults.entry }
    {
        Listening {
            alloc,
            source,
            faults,
            cutter: FrameCutter::new(alloc, MOST_OCTETS),
            notes,
            pending,
            stops: 0,
        }
    }

    /// The source.
    pub fn into_source(self) -> R {
        self.source
    }

    /// With which status the reader refused what was sent beside the plan, once it did.
    pub fn refused(&self) -> Option<u16>
        ensures { result ≡ self.now.faults.refused }
    {
        self.faults.refused()
    }

    /// Says what there is to say of the frames that are whole with these octets.
    fn say(&mut self, octets: &[u8])
        ensures source { self.new.source ≡ self.old.source }
        ensures faults { self.new.faults ≡ self.old.faults }
        ensures stops { self.new.stops ≡ self.old.stops }
    {
        let Ok(frames) = self.cutter.take(octets) else {
            return;
        };
        let mut rest = frames.as_slice();
        while let Some((frame, others)) = split_frame(rest) {
            let heeds_access = self.faults.heeds_access();
            say_frame(self.alloc, self.notes, self.pending, heeds_access, frame);
            rest = others;
        }
    }

    /// Takes these octets, and says what there is to say of them.
    fn hear(&mut self, octets: &[u8])
        ensures source { self.new.source ≡ self.old.source }
        ensures hears { Hears octets.now self.old.faults self.new.faults }
        ensures stops { self.new.stops ≡ self.old.stops }
    {
        self.faults.take(octets);
        if self.notes.are_asked() {
            self.say(octets);
        }
    }

    /// Reads, and hears the octets that came; fails without a read after a refusal.
    fn read_on(&mut self, buf: &mut [u8]) -> io::Result<usize>
        requires room { CanRead (stopped self.old.stops (R.log self.old.source)) }
        requires buffer { 0 < length buf.old }
        ensures step { ReadStep (stopped self.old.stops (R.log self.old.source))
            (stopped self.new.stops (R.log self.new.source)) result buf.new }
        ensures hears { HearsRead result buf.new self.old.faults self.new.faults }
        ensures refused { IsSome self.old.faults.refused
            → IsErr result × (self.new.source ≡ self.old.source) }
    {
        if self.refused().is_some() {
            self.stops += 1;
            return Err(io::Error::from(ErrorKind::ConnectionAborted));
        }
        let n = self.source.read(buf)?;
        self.hear(buf.split_at(n).0);
        Ok(n)
    }
}

impl<'a, R: Source + Drop> Source for Listening<'a, R> {
    ghost use Rattle.llrp.specs.Private.Refusals.{stopped};

    ghost log = { λ s. stopped s.stops (R.log s.source) };

    fn read(&mut self, buf: &mut [u8]) -> io::Result<usize> {
        self.read_on(buf)
    }
}
