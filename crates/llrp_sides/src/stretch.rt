//! The frames of octets that came without a gap.

ghost use Rattle.std.specs.Prelude.{◌≡◌, ◌++◌, ◌&&◌, ◌<◌, ◌≤◌, [], List, ℕ, IfOk, IfSome, OnOk, length};
ghost use Rattle.llrp_stream.specs.Cuts.{IsFrame};
ghost use Rattle.llrp_stream.specs.declared.item.Item.TheVariants.{Bad};
ghost use Rattle.llrp_listing.specs.Show.{verdict_of};
ghost use Rattle.llrp_listing.specs.StreamListing.{is_clean};
ghost use Rattle.llrp_sides.specs.Calls.Blocks.{stamped};
ghost use Rattle.llrp_sides.specs.Calls.Stretches.{EndsWith, Lists, Stands};
ghost use Rattle.llrp_sides.specs.Private.Stretches.{BreaksOff, EndsAs, IsEnding, ListsFault, ListsFrame, ListsRest, Passes, TakesFrames, TakesFront};

use crate::form::Form;
use crate::framing::{Next, next_in};
use crate::listing::{is_lawful_with, listing_of};
use crate::stamp::{Stamp, push_stamped};
use llrp_json::JsonPrinter;
use llrp_listing::{ItemPrinter, Printer, Text, Verdict};
use llrp_stream::{Decoder, End, FeedErr, Item};
use llrp_tree::Fault;
use std::alloc::{AllocError, Global};
use std::mem;

/// Lists the frames of octets that come in pieces without a gap, from the beginning of a frame on. It keeps a
/// frame that is not whole yet, unless it is longer than a message may be.
#[derive(Drop)]
pub struct Stretch {
    alloc: Global,
    form: Form,
    /// What came of a frame that is not whole.
    held: Vec<u8>,
    /// Reads past a frame that is longer than a message may be.
    long: Option<Decoder>,
    /// Whether a length field was below 10, after which nothing is listed.
    is_broken: bool,
    /// Whether each frame so far is a message.
    is_lawful: bool,
}

/// Appends the text of a faulty frame.
fn push_fault<P: ItemPrinter + Drop>(
    mut printer: P,
    form: Form,
    id: u32,
    fault: Fault,
    stamp: Stamp<'_>,
    text: &mut Text,
) -> Result<(), AllocError>
    requires fresh { P.stands printer [] [] }
    ensures { OnOk result ((block : List ℕ) × P.is_text (Bad id fault) block
        × (text.new ≡ text.old ++ stamped form.json stamp.entry block)) }
{
    printer.push_fault(id, fault)?;
    push_stamped(text, form, stamp, printer.whole())
}

/// Appends the text of an end.
fn push_end<P: ItemPrinter + Drop>(
    mut printer: P,
    form: Form,
    end: End,
    stamp: Stamp<'_>,
    text: &mut Text,
) -> Result<(), AllocError>
    requires fresh { P.stands printer [] [] }
    ensures { OnOk result (text.new ≡ text.old ++ stamped form.json stamp.entry (P.text_of_end end)) }
{
    printer.push_end(end)?;
    push_stamped(text, form, stamp, printer.whole())
}

/// The verdict on octets with this end; `lawful` says whether each of their frames is a message.
fn verdict_at(lawful: bool, end: End) -> Verdict
    ensures { result ≡ verdict_of (lawful && is_clean end) }
{
    if lawful && end == End::Clean {
        Verdict::Lawful
    } else {
        Verdict::Faulty
    }
}

impl Stretch {
    /// A stretch of which no octet came; it takes no memory.
    pub fn new(alloc: Global, form: Form) -> Stretch
        ensures form { result.form ≡ form }
        ensures stands { Stands result [] [] }
    {
        Stretch {
            alloc,
            form,
            held: Vec::new(alloc),
            long: None,
            is_broken: false,
            is_lawful: true,
        }
    }

    /// Lists a frame.
    fn list_frame(
        &mut self,
        frame: &[u8],
        stamp: Stamp<'_>,
        text: &mut Text,
    ) -> Result<(), AllocError>
        requires { IsFrame frame.now }
        ensures { OnOk result (ListsFrame stamp.entry frame.now self.old self.new text.old text.new) }
    {
        let Some((listing, verdict)) = listing_of(self.alloc, self.form, frame) else {
            return Err(AllocError);
        };
        self.is_lawful = is_lawful_with(self.is_lawful, verdict);
        push_stamped(text, self.form, stamp, listing.as_slice())
    }

    /// Lists a faulty frame.
    fn list_fault(
        &mut self,
        id: u32,
        fault: Fault,
        stamp: Stamp<'_>,
        text: &mut Text,
    ) -> Result<(), AllocError>
        ensures { OnOk result (ListsFault stamp.entry id fault self.old self.new text.old text.new) }
    {
        self.is_lawful = false;
        if self.form.json {
            push_fault(
                JsonPrinter::new(self.alloc),
                self.form,
                id,
                fault,
                stamp,
                text,
            )
        } else {
            push_fault(Printer::new(self.alloc), self.form, id, fault, stamp, text)
        }
    }

    /// Lists an end.
    fn list_end(&self, end: End, stamp: Stamp<'_>, text: &mut Text) -> Result<(), AllocError>
        ensures { OnOk result (EndsAs stamp.entry end self.now text.old text.new) }
    {
        if self.form.json {
            push_end(JsonPrinter::new(self.alloc), self.form, end, stamp, text)
        } else {
            push_end(Printer::new(self.alloc), self.form, end, stamp, text)
        }
    }

    /// Reads past octets of a frame that is longer than a message may be, lists its fault if it ends with
    /// them, and returns how many of them it has; `None` if it goes on after them.
    fn read_past(
        &mut self,
        mut decoder: Decoder,
        octets: &[u8],
        stamp: Stamp<'_>,
        text: &mut Text,
    ) -> Result<Option<usize>, AllocError>
        ensures passes { IfOk result (λ used. Passes stamp.entry decoder octets.now used self.old self.new
            text.old text.new) }
        ensures within { IfOk result (λ used. IfSome used (λ count. (0 < count) × (count ≤ length octets.now))) }
    {
        match decoder.feed(octets) {
            Ok(fed) => match fed.item {
                None => {
                    self.long = Some(decoder);
                    Ok(None)
                }
                Some(Item::Bad { id, fault }) => {
                    self.list_fault(id, fault, stamp, text)?;
                    Ok(Some(fed.used))
                }
                // (no message is longer than a message may be)
                Some(Item::Msg(_)) => Ok(Some(fed.used)),
            },
            // (its length field was read, so that nothing breaks off)
            Err(FeedErr::Broken) => Ok(None),
            Err(FeedErr::Memory | FeedErr::Dead) => Err(AllocError),
        }
    }

    /// Says that nothing is found after a length field below 10.
    fn break_off(&mut self, stamp: Stamp<'_>, text: &mut Text) -> Result<(), AllocError>
        ensures { OnOk result (BreaksOff stamp.entry self.old self.new text.old text.new) }
    {
        self.is_broken = true;
        self.list_end(End::Broken, stamp, text)
    }

    /// Lists the frame that stands first in octets, and returns how many of them it has; `None` if none is
    /// whole, and they are held, or break off.
    fn take_front(
        &mut self,
        octets: &[u8],
        stamp: Stamp<'_>,
        text: &mut Text,
    ) -> Result<Option<usize>, AllocError>
        ensures front { IfOk result (λ used. TakesFront stamp.entry octets.now used self.old self.new
            text.old text.new) }
        ensures within { IfOk result (λ used. IfSome used (λ count. (0 < count) × (count ≤ length octets.now))) }
    {
        match next_in(octets, self.form.limit) {
            Next::Frame(count) => {
                self.list_frame(octets.split_at(count).0, stamp, text)?;
                Ok(Some(count))
            }
            Next::Long => {
                let decoder = Decoder::new_in(self.alloc, self.form.set, self.form.limit);
                self.read_past(decoder, octets, stamp, text)
            }
            Next::Partial => {
                self.held = octets.to_vec(self.alloc)?;
                Ok(None)
            }
            Next::Broken => {
                self.break_off(stamp, text)?;
                Ok(None)
            }
        }
    }

    /// Lists the frames that are whole in octets, with what was held before them, and holds the rest.
    fn take_frames(
        &mut self,
        octets: &[u8],
        stamp: Stamp<'_>,
        text: &mut Text,
    ) -> Result<(), AllocError>
        ensures { OnOk result (TakesFrames stamp.entry octets.now self.old self.new text.old text.new) }
    {
        let mut rest = octets;
        'frames: while let Some(used) = self.take_front(rest, stamp, text)? {
            rest = rest.split_at(used).1;
        }
        Ok(())
    }

    /// Takes the next octets, and appends to the text what is listed of the frames that are whole with them.
    /// After an error nothing more is to be taken.
    pub fn take(
        &mut self,
        octets: &[u8],
        stamp: Stamp<'_>,
        text: &mut Text,
    ) -> Result<(), AllocError>
        ensures { OnOk result ((bytes listing : List ℕ) → Stands self.old bytes listing
            → Lists stamp.entry octets.now bytes listing self.new text.old text.new) }
    {
        if self.is_broken {
            return Ok(());
        }
        let Some(decoder) = self.long.take() else {
            let mut all = mem::replace(&mut self.held, Vec::new(self.alloc));
            all.extend_from_slice(octets)?;
            return self.take_frames(all.as_slice(), stamp, text);
        };
        match self.read_past(decoder, octets, stamp, text)? {
            Some(used) => self.take_frames(octets.split_at(used).1, stamp, text),
            None => Ok(()),
        }
    }

    /// How the octets end.
    fn ending(&self) -> End
        ensures { (bytes listing : List ℕ) → Stands self.now bytes listing
            → IsEnding self.now bytes listing result }
    {
        if self.is_broken {
            return End::Broken;
        }
        match &self.long {
            Some(decoder) => decoder.finish(),
            None if self.held.is_empty() => End::Clean,
            None => End::Rest(self.held.len() as u64),
        }
    }

    /// How many octets came of a frame that is not whole.
    pub fn unfinished(&self) -> u64 {
        match self.ending() {
            End::Rest(count) => count,
            End::Clean | End::Broken | End::Dead => 0,
        }
    }

    /// Lists what is left of a frame at an end.
    fn list_rest(&self, end: End, stamp: Stamp<'_>, text: &mut Text) -> Result<(), AllocError>
        ensures { OnOk result (ListsRest stamp.entry end self.now text.old text.new) }
    {
        match end {
            End::Rest(_) => self.list_end(end, stamp, text),
            End::Clean | End::Broken | End::Dead => Ok(()),
        }
    }

    /// Appends to the text what is listed of the end, and returns whether each frame is a message, and the
    /// last one whole.
    pub fn end(&self, stamp: Stamp<'_>, text: &mut Text) -> Result<Verdict, AllocError>
        ensures { IfOk result (λ verdict. (bytes listing : List ℕ) → Stands self.now bytes listing
            → EndsWith stamp.entry bytes listing verdict self.now text.old text.new) }
    {
        let end = self.ending();
        self.list_rest(end, stamp, text)?;
        Ok(verdict_at(self.is_lawful, end))
    }
}
