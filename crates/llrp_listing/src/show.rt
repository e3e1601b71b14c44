ghost use Rattle.std.specs.Prelude.{◌&&◌, ◌≡◌, ◌≤◌, [], IfErr, IfOk, List, OnOk, ℕ};
ghost use Rattle.llrp_schema.specs.declared.kinds.KindSet.{KindSet};
ghost use Rattle.llrp_stream.specs.Device.{IsFreshSink, IsFreshSource, SinkLog};
ghost use Rattle.llrp_stream.specs.declared.engine.frames.Outcome.TheVariants.{Bad};
ghost use Rattle.llrp_tree.specs.declared.TheConstants.{MAX_LIMIT};
ghost use Rattle.llrp_tree.specs.OpenTree.{Begun};
ghost use Rattle.llrp_listing.specs.Calls.Copying.{Writes};
ghost use Rattle.llrp_listing.specs.Calls.ItemPrinter.{HasOneText, HasText};
ghost use Rattle.llrp_listing.specs.Calls.Show.{Listed, ListedIn, Stopped, StoppedIn};
ghost use Rattle.llrp_listing.specs.Private.Lister.{CanGoOn, GoesOn, HandsOnOrFails};
ghost use Rattle.llrp_listing.specs.Private.ListerCalls.{EndsListing, FeedsPiece, HoldsFew, ListsOutcome};
ghost use Rattle.llrp_listing.specs.Show.{ListedAs, Shows, ShowsAs, ShowsIn, StoppedAs, verdict_of};
ghost use Rattle.llrp_listing.specs.StreamListing.{is_clean};
ghost use Rattle.llrp_stream.specs.Calls.Device.{CanWrite};

use crate::devices::{PIECE_SIZE, Pieces, write_all};
use crate::item_printer::ItemPrinter;
use crate::outcome::{ToolErr, Verdict};
use crate::printing::Printer;
use llrp_schema::KindSet;
use llrp_stream::{Came, End, FeedErr, Frames, Outcome, Sink, Source};
use llrp_tree::Fault;
use std::alloc::Global;

fn verdict(lawful: bool, end: End) -> Verdict
    ensures { result ≡ verdict_of (lawful && is_clean end) }
{
    if lawful && end == End::Clean {
        Verdict::Lawful
    } else {
        Verdict::Faulty
    }
}

/// Writes the texts of whole items to the sink, and removes them.
fn hand_on<P: ItemPrinter, W: Sink>(printer: &mut P, w: &mut W) -> Result<(), ToolErr>
    requires some { (was : List ℕ) × HasText (P.begins printer.old) (P.stands printer.old) was }
    requires sink { CanWrite (W.log w.old) }
    ensures written { (was : List ℕ) → HasText (P.begins printer.old) (P.stands printer.old) was
        → Writes was (W.log w.old) (W.log w.new) result }
    ensures begins { OnOk result ((was : List ℕ) (t : List Begun) → P.begins printer.old was t
        → P.begins printer.new [] t) }
    ensures stands { OnOk result ((was : List ℕ) (t : List Begun) → P.stands printer.old was t
        → P.stands printer.new [] t) }
{
    write_all(w, printer.whole())?;
    printer.drop_whole();
    Ok(())
}

/// Writes the texts of whole items to the sink once they are 64 KiB.
#[inline]
fn hand_on_pieces<P: ItemPrinter, W: Sink>(printer: &mut P, w: &mut W) -> Result<(), ToolErr>
    requires some { (was : List ℕ) × P.stands printer.old was [] }
    requires sink { CanWrite (W.log w.old) }
    ensures { (was : List ℕ) → P.stands printer.old was []
        → HandsOnOrFails (P.stands printer.new) was (W.log w.old) (W.log w.new) result }
{
    if printer.whole().len() < PIECE_SIZE {
        return Ok(());
    }
    hand_on(printer, w)
}

/// Lists a stream that comes in pieces. It keeps no message: a message's text goes straight to the
/// printer, and is cut off again if its frame turns out to be faulty.
#[derive(Drop)]
pub(crate) struct Lister<P: ItemPrinter + Drop> {
    frames: Frames,
    printer: P,
    /// Whether each frame so far is a message.
    lawful: bool,
}

impl<P: ItemPrinter + Drop> Lister<P> {
    /// A lister of a stream of frames of a set of kinds, of which nothing was read, for a printer
    /// that holds nothing. Frames longer than `limit` octets are faulty.
    fn new(printer: P, set: KindSet, limit: u32) -> Lister<P>
        requires fresh { P.stands printer [] [] }
        requires least { 10 ≤ limit }
        requires most { limit ≤ MAX_LIMIT }
        ensures { (log : SinkLog)
            → GoesOn P.is_text (P.begins result.printer) (P.stands result.printer) set limit []
            [] log log result.frames result.lawful }
    {
        Lister {
            frames: Frames::new_in(set, limit),
            printer,
            lawful: true,
        }
    }

    /// Appends the text of a faulty frame, and writes the texts to the sink once they are long enough.
    fn list_fault<W: Sink>(&mut self, id: u32, fault: Fault, w: &mut W) -> Result<(), ToolErr>
        requires some { (was : List ℕ) × P.stands self.old.printer was [] }
        requires sink { CanWrite (W.log w.old) }
        ensures frames { self.new.frames ≡ self.old.frames }
        ensures lists { ListsOutcome P.is_text P.stands P.ends (Bad id fault) self.old self.new
            (W.log w.old) (W.log w.new) result }
    {
        self.printer.push_fault(id, fault)?;
        self.lawful = false;
        hand_on_pieces(&mut self.printer, w)
    }

    /// Appends the text of a frame that ended, if it was faulty, and writes the texts to the sink
    /// once they are long enough.
    fn list<W: Sink>(&mut self, outcome: Outcome, w: &mut W) -> Result<(), ToolErr>
        requires some { (was : List ℕ) × P.stands self.old.printer was [] }
        requires sink { CanWrite (W.log w.old) }
        ensures frames { self.new.frames ≡ self.old.frames }
        ensures lists { ListsOutcome P.is_text P.stands P.ends outcome self.old self.new
            (W.log w.old) (W.log w.new) result }
    {
        match outcome {
            Outcome::Whole => hand_on_pieces(&mut self.printer, w),
            Outcome::Bad { id, fault } => self.list_fault(id, fault, w),
        }
    }

    /// Writes the text of the frames that end in this piece of the stream. Returns whether the
    /// stream goes on, which it does unless it is broken.
    fn feed<W: Sink>(&mut self, piece: &[u8], w: &mut W) -> Result<bool, ToolErr>
        requires one { HasOneText P.is_text }
        requires sink { CanWrite (W.log w.old) }
        requires on { CanGoOn P.is_text (P.begins self.old.printer) (P.stands self.old.printer) (W.log w.old)
            self.old.frames self.old.lawful }
        ensures feeds { FeedsPiece P.is_text P.text_of_end P.begins P.stands piece.now
            self.old self.new (W.log w.old) (W.log w.new) result }
        // What the engine keeps of a frame is at most 16 octets as they are, and within the limit.
        ensures held { HoldsFew P.is_text P.begins P.stands self.old self.new (W.log w.old) result }
    {
        let mut rest = piece;
        'frames: loop {
            let Came { used, outcome } = match self.frames.feed(&mut self.printer, rest) {
                Ok(came) => came,
                Err(FeedErr::Broken) => return Ok(false),
                Err(FeedErr::Memory | FeedErr::Dead) => return Err(ToolErr::Memory),
            };
            let Some(outcome) = outcome else {
                hand_on(&mut self.printer, w)?;
                return Ok(true);
            };
            self.list(outcome, w)?;
            rest = rest.split_at(used).1;
        }
    }

    /// Writes the rest of the texts, and that of the stream's end.
    fn finish<W: Sink>(&mut self, w: &mut W) -> Result<Verdict, ToolErr>
        requires one { HasOneText P.is_text }
        requires some { (was : List ℕ) × HasText (P.begins self.old.printer) (P.stands self.old.printer) was }
        requires sink { CanWrite (W.log w.old) }
        ensures { EndsListing P.is_text P.text_of_end P.begins P.stands self.old
            (W.log w.old) (W.log w.new) result }
    {
        let end = self.frames.finish();
        self.printer.give_up();
        self.printer.push_end(end)?;
        hand_on(&mut self.printer, w)?;
        Ok(verdict(self.lawful, end))
    }
}

/// Writes the listing of a stream. The errors are `Write` and `Memory`, after which some first part
/// of the listing was written.
pub fn list_stream<W: Sink>(
    alloc: Global,
    stream: &[u8],
    w: &mut W,
    limit: u32,
) -> Result<Verdict, ToolErr>
    requires sink { CanWrite (W.log w.old) }
    requires least { 10 ≤ limit }
    requires most { limit ≤ MAX_LIMIT }
    ensures ok { IfOk result (λ verdict. Listed limit stream.now (W.log w.old)
        (W.log w.new) verdict) }
    ensures err { IfErr result (λ e. Stopped limit stream.now (W.log w.old) (W.log w.new) e) }
{
    list_stream_in(alloc, KindSet::Profile, stream, w, limit)
}

/// Writes the listing of a stream of frames of a set of kinds. The errors are `Write` and `Memory`, after which some first part
/// of the listing was written.
pub fn list_stream_in<W: Sink>(
    alloc: Global,
    set: KindSet,
    stream: &[u8],
    w: &mut W,
    limit: u32,
) -> Result<Verdict, ToolErr>
    requires sink { CanWrite (W.log w.old) }
    requires least { 10 ≤ limit }
    requires most { limit ≤ MAX_LIMIT }
    ensures ok { IfOk result (λ verdict. ListedIn set limit stream.now (W.log w.old)
        (W.log w.new) verdict) }
    ensures err { IfErr result (λ e. StoppedIn set limit stream.now (W.log w.old) (W.log w.new) e) }
{
    list_stream_with(Printer::new(alloc), set, stream, w, limit)
}

/// The same with the texts of a printer, which holds nothing.
pub fn list_stream_with<P: ItemPrinter + Drop, W: Sink>(
    printer: P,
    set: KindSet,
    stream: &[u8],
    w: &mut W,
    limit: u32,
) -> Result<Verdict, ToolErr>
    requires one { HasOneText P.is_text }
    requires fresh { P.stands printer [] [] }
    requires sink { CanWrite (W.log w.old) }
    requires least { 10 ≤ limit }
    requires most { limit ≤ MAX_LIMIT }
    ensures ok { IfOk result (λ verdict. ListedAs P.is_text P.text_of_end set limit stream.now (W.log w.old)
        (W.log w.new) verdict) }
    ensures err { IfErr result (λ e. StoppedAs P.is_text P.text_of_end set limit stream.now (W.log w.old)
        (W.log w.new) e) }
{
    let mut lister = Lister::new(printer, set, limit);
    let _goes_on = lister.feed(stream, w)?;
    lister.finish(w)
}

/// Writes the listing of everything that the source gives, and returns whether all of it is lawful.
/// Frames longer than `limit` octets are faulty. The listing of the frames that end in the bytes of
/// one read is written before the next read; no read follows a break of the stream. After `Read` or
/// `Bound`, the lines of each frame that is whole in what was read were written; after `Write` or
/// `Memory`, some first part of the listing.
pub fn run_show<R: Source, W: Sink>(
    alloc: Global,
    r: &mut R,
    w: &mut W,
    limit: u32,
) -> Result<Verdict, ToolErr>
    requires source { IsFreshSource (R.log r.old) }
    requires sink { IsFreshSink (W.log w.old) }
    requires least { 10 ≤ limit }
    requires most { limit ≤ MAX_LIMIT }
    // After Ok, the source was read to its end or to a break, and the listing was written; after
    // Err, some first part of it.
    ensures { Shows limit (R.log r.old) (R.log r.new) (W.log w.old) (W.log w.new) result }
{
    run_show_in(alloc, KindSet::Profile, r, w, limit)
}

/// The same for frames of a set of kinds.
pub fn run_show_in<R: Source, W: Sink>(
    alloc: Global,
    set: KindSet,
    r: &mut R,
    w: &mut W,
    limit: u32,
) -> Result<Verdict, ToolErr>
    requires source { IsFreshSource (R.log r.old) }
    requires sink { IsFreshSink (W.log w.old) }
    requires least { 10 ≤ limit }
    requires most { limit ≤ MAX_LIMIT }
    // After Ok, the source was read to its end or to a break, and the listing was written; after
    // Err, some first part of it.
    ensures { ShowsIn set limit (R.log r.old) (R.log r.new) (W.log w.old) (W.log w.new) result }
{
    run_show_with(Printer::new(alloc), set, r, w, limit)
}

/// The same with the texts of a printer, which holds nothing.
pub fn run_show_with<P: ItemPrinter + Drop, R: Source, W: Sink>(
    printer: P,
    set: KindSet,
    r: &mut R,
    w: &mut W,
    limit: u32,
) -> Result<Verdict, ToolErr>
    requires one { HasOneText P.is_text }
    requires fresh { P.stands printer [] [] }
    requires source { IsFreshSource (R.log r.old) }
    requires sink { IsFreshSink (W.log w.old) }
    requires least { 10 ≤ limit }
    requires most { limit ≤ MAX_LIMIT }
    ensures { ShowsAs P.is_text P.text_of_end set limit (R.log r.old) (R.log r.new) (W.log w.old)
        (W.log w.new) result }
{
    let mut lister = Lister::new(printer, set, limit);
    let mut pieces = Pieces::new();
    while let Some(piece) = pieces.next(r)? {
        let goes_on = lister.feed(piece, w)?;
        if !goes_on {
            return lister.finish(w);
        }
    }
    lister.finish(w)
}
