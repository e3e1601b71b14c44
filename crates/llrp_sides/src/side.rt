//! One side of a connection: what it sent, and the frames in it.

ghost use Rattle.std.specs.Prelude.{◌≡◌, ◌/◌, ◌%◌, ◌==◌, ◌<◌, [], ℕ, OnOk, None};
ghost use Rattle.std.specs.Option.{ForSome};
ghost use Rattle.llrp_capture.specs.Calls.Reassembly.{IsSound};
ghost use Rattle.llrp_sides.specs.Calls.Firsts.{first_of as the_first, is_last, is_syn};

use crate::failure::{StepErr, of_memory, of_take};
use crate::form::Form;
use crate::framing::find_front;
use crate::listing::is_lawful_with;
use crate::stamp::{Stamp, push_gap};
use crate::stretch::Stretch;
use llrp_capture::{REACH, Reassembly, Segment, Took};
use llrp_listing::Text;
use std::alloc::Global;
use std::mem;

/// The flags of a segment (RFC 9293, section 3.1): the one that ends a side, the one that begins it, and the
/// one that ends both.
const FIN: u16 = 1;

pub(crate) const SYN: u16 = 2;

pub(crate) const RST: u16 = 4;

/// One side of a connection, of which segments come in the order of a capture.
#[derive(Drop)]
pub struct Side {
    alloc: Global,
    form: Form,
    /// None before its first segment.
    reassembly: Option<Reassembly>,
    /// What came without a gap.
    stretch: Stretch,
    /// How many octets are passed over or missing, where it looks for a frame.
    passed: Option<u64>,
    /// The octets in which it looks for a frame.
    held: Vec<u8>,
    /// Whether each frame that was listed to its end is a message, and none is missing.
    pub(crate) is_lawful: bool,
    ghost sound: { ForSome reassembly IsSound },
}

/// Whether flags have this one.
pub(crate) fn has(flags: u16, flag: u16) -> bool
    requires { 0 < flag }
    ensures { result ≡ (flags / flag % 2 == 1) }
{
    flags / flag % 2 == 1
}

/// The sequence number of a segment's first octet.
fn first_of(segment: &Segment<'_>) -> u32
    ensures { result ≡ the_first segment.now }
{
    if has(segment.flags, SYN) {
        segment.sequence.wrapping_add(1)
    } else {
        segment.sequence
    }
}

/// Whether flags say that nothing follows.
pub(crate) fn ends(flags: u16) -> bool
    ensures { result ≡ is_last flags }
{
    has(flags, FIN) || has(flags, RST)
}

impl Side {
    ghost use Rattle.llrp_sides.specs.Calls.Sides.{EndsSide, Holds, IsNewSide, TakesSegment};
    ghost use Rattle.llrp_sides.specs.Private.Sides.{HasNoMore, IsBegun, ListsNothing, Puts, TakesOctets, TakesOut};

    /// A side of which nothing came; it takes no memory.
    pub fn new(alloc: Global, form: Form) -> Side
        ensures holds { (start : ℕ) → Holds result [] start [] [] }
        ensures new { IsNewSide form result }
    {
        Side {
            alloc,
            form,
            reassembly: None,
            stretch: Stretch::new(alloc, form),
            passed: None,
            held: Vec::new(alloc),
            is_lawful: true,
        }
    }

    /// Says that octets are in no frame.
    fn list_gap(&mut self, octets: u64, stamp: Stamp<'_>, text: &mut Text) -> Result<(), StepErr> {
        self.is_lawful = false;
        of_memory(push_gap(text, self.form, stamp, octets))
    }

    /// Looks for a frame, of which the first that is found begins what comes without a gap.
    fn look(
        &mut self,
        passed: u64,
        octets: &[u8],
        stamp: Stamp<'_>,
        text: &mut Text,
    ) -> Result<(), StepErr> {
        let mut all = mem::replace(&mut self.held, Vec::new(self.alloc));
        of_memory(all.extend_from_slice(octets))?;
        let found = find_front(self.form.set, self.form.limit, all.as_slice());
        let passed = passed.saturating_add(found.at as u64);
        let rest = all.as_slice().split_at(found.at).1;
        if found.octets == 0 {
            self.passed = Some(passed);
            self.held = of_memory(rest.to_vec(self.alloc))?;
            return Ok(());
        }
        if passed > 0 {
            self.list_gap(passed, stamp, text)?;
        }
        self.passed = None;
        self.stretch = Stretch::new(self.alloc, self.form);
        of_memory(self.stretch.take(rest, stamp, text))
    }

    /// Takes octets that follow those before without a gap.
    fn take_octets(
        &mut self,
        octets: &[u8],
        stamp: Stamp<'_>,
        text: &mut Text,
    ) -> Result<(), StepErr>
        ensures { OnOk result (self.old.passed ≡ None
            → TakesOctets stamp.entry octets.now self.old self.new text.old text.new) }
    {
        match self.passed {
            Some(passed) => self.look(passed, octets, stamp, text),
            None => of_memory(self.stretch.take(octets, stamp, text)),
        }
    }

    /// Looks for a frame after a gap of `lost` octets; what came of a frame before the gap belongs to no
    /// frame.
    fn lose(&mut self, lost: u64) {
        let unfinished = match self.passed {
            Some(passed) => passed.saturating_add(self.held.len() as u64),
            None => self.stretch.unfinished(),
        };
        self.passed = Some(unfinished.saturating_add(lost));
        self.held.clear();
        self.is_lawful = false;
    }

    /// Gives up the next gap, so that a segment may be taken, and lists what stands after it.
    fn pass_gap(
        &mut self,
        reassembly: &mut Reassembly,
        sequence: u32,
        stamp: Stamp<'_>,
        text: &mut Text,
    ) -> Result<(), StepErr>
        requires { IsSound reassembly.old }
        ensures { OnOk result (IsSound reassembly.new) }
    {
        let mut handed = Vec::new(self.alloc);
        match reassembly.give_up(&mut handed) {
            Err(error) => Err(of_take(error)),
            Ok(Some(lost)) => {
                self.lose(lost);
                self.take_octets(handed.as_slice(), stamp, text)
            }
            Ok(None) => match reassembly.skip_to(sequence) {
                Err(error) => Err(of_take(error)),
                Ok(lost) => {
                    self.lose(lost);
                    Ok(())
                }
            },
        }
    }

    /// Puts octets that reach too far into their place, after the gaps before them are given up.
    fn put_beyond(
        &mut self,
        reassembly: &mut Reassembly,
        sequence: u32,
        octets: &[u8],
        stamp: Stamp<'_>,
        text: &mut Text,
    ) -> Result<(), StepErr>
        requires { IsSound reassembly.old }
        ensures { OnOk result (IsSound reassembly.new) }
    {
        'gaps: for _ in 0..REACH {
            self.pass_gap(reassembly, sequence, stamp, text)?;
            let mut handed = Vec::new(self.alloc);
            match reassembly.take(sequence, octets, &mut handed) {
                Err(error) => return Err(of_take(error)),
                Ok(Took::Taken) => return self.take_octets(handed.as_slice(), stamp, text),
                Ok(Took::Beyond) => {}
            }
        }
        Ok(())
    }

    /// Puts octets with this sequence number into their place, and lists what is then without a gap.
    fn put(
        &mut self,
        reassembly: &mut Reassembly,
        sequence: u32,
        octets: &[u8],
        stamp: Stamp<'_>,
        text: &mut Text,
    ) -> Result<(), StepErr>
        requires { IsSound reassembly.old }
        ensures sound { OnOk result (IsSound reassembly.new) }
        ensures puts { OnOk result (Puts stamp.entry sequence octets.now reassembly.old reassembly.new self.old self.new
            text.old text.new) }
    {
        if octets.is_empty() {
            return Ok(());
        }
        let mut handed = Vec::new(self.alloc);
        match reassembly.take(sequence, octets, &mut handed) {
            Err(error) => Err(of_take(error)),
            Ok(Took::Taken) => self.take_octets(handed.as_slice(), stamp, text),
            Ok(Took::Beyond) => self.put_beyond(reassembly, sequence, octets, stamp, text),
        }
    }

    /// Takes out what came so far; where nothing came, it begins with the octet that has this sequence
    /// number. Octets are missing before that one unless a segment with SYN says that it is the first.
    fn take_reassembly(&mut self, first: u32, flags: u16) -> Reassembly
        ensures sound { IsSound result }
        ensures out { TakesOut first self.old.reassembly result }
        ensures stretch { self.new.stretch ≡ self.old.stretch }
        ensures lawful { self.new.is_lawful ≡ self.old.is_lawful }
        ensures passed { IsBegun self.old.reassembly (is_syn flags)
            → self.new.passed ≡ self.old.passed }
    {
        if let Some(reassembly) = self.reassembly.take() {
            return reassembly;
        }
        let reassembly = Reassembly::new(self.alloc, first);
        if has(flags, SYN) {
            return reassembly;
        }
        self.passed = Some(0);
        reassembly
    }

    /// Takes a segment, and appends to the text what is listed of the frames that are whole with it. After an
    /// error nothing more is to be taken.
    pub fn take(
        &mut self,
        segment: &Segment<'_>,
        stamp: Stamp<'_>,
        text: &mut Text,
    ) -> Result<(), StepErr>
        // Where no octet is missing, what is listed is what `show` lists of the side's octets.
        ensures { OnOk result (TakesSegment stamp.entry segment.now self.old self.new text.old text.new) }
    {
        let first = first_of(segment);
        let mut reassembly = self.take_reassembly(first, segment.flags);
        self.put(
            &mut reassembly,
            first,
            segment.octets.as_slice(),
            stamp,
            text,
        )?;
        self.reassembly = Some(reassembly);
        Ok(())
    }

    /// Lists what waits after gaps.
    fn give_up_all(
        &mut self,
        reassembly: &mut Reassembly,
        stamp: Stamp<'_>,
        text: &mut Text,
    ) -> Result<(), StepErr>
        requires { IsSound reassembly.old }
        ensures { OnOk result (HasNoMore reassembly.old → (self.new ≡ self.old) × (text.new ≡ text.old)) }
    {
        'gaps: for _ in 0..REACH {
            let mut handed = Vec::new(self.alloc);
            match reassembly.give_up(&mut handed) {
                Err(error) => return Err(of_take(error)),
                Ok(None) => return Ok(()),
                Ok(Some(lost)) => {
                    self.lose(lost);
                    self.take_octets(handed.as_slice(), stamp, text)?;
                }
            }
        }
        Ok(())
    }

    /// Lists what waits after gaps, if a segment came.
    fn give_up_rest(&mut self, stamp: Stamp<'_>, text: &mut Text) -> Result<(), StepErr>
        ensures { OnOk result (ForSome self.old.reassembly HasNoMore
            → ListsNothing self.old self.new text.old text.new) }
    {
        match self.reassembly.take() {
            Some(mut reassembly) => self.give_up_all(&mut reassembly, stamp, text),
            None => Ok(()),
        }
    }

    /// Appends to the text what is listed of the end of a side: what waits after gaps, and what is left of a
    /// frame.
    pub fn end(&mut self, stamp: Stamp<'_>, text: &mut Text) -> Result<(), StepErr>
        ensures { OnOk result (EndsSide stamp.entry self.old self.new text.old text.new) }
    {
        self.give_up_rest(stamp, text)?;
        match self.passed {
            None => {
                let verdict = of_memory(self.stretch.end(stamp, text))?;
                self.is_lawful = is_lawful_with(self.is_lawful, verdict);
                Ok(())
            }
            Some(passed) => {
                let passed = passed.saturating_add(self.held.len() as u64);
                if passed == 0 {
                    return Ok(());
                }
                self.list_gap(passed, stamp, text)
            }
        }
    }
}
