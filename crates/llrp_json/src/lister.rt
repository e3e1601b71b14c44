//! Lists a stream that comes in pieces, and hands out the lines of each piece.

ghost use Rattle.std.specs.Prelude.{◌≡◌, ◌++◌, ◌≤◌, [], List, OnOk, ℕ};
ghost use Rattle.llrp_stream.specs.Calls.Frames.{limit_of};
ghost use Rattle.llrp_tree.specs.declared.TheConstants.{MAX_LIMIT};
ghost use Rattle.llrp_tree.specs.OpenTree.{Begun};
ghost use Rattle.llrp_listing.specs.Calls.ItemPrinter.{HasText};
ghost use Rattle.llrp_json.specs.Private.PieceLines.{GathersPiece, HandsPiece, HasCome, TakesOutcome};

use crate::printer::JsonPrinter;
use llrp_listing::ItemPrinter;
use llrp_schema::KindSet;
use llrp_stream::{Came, FeedErr, Frames, Outcome};
use std::alloc::{AllocError, Global};
use std::marker::Model;

/// Whether a lister takes octets.
#[derive(Clone, Copy, Debug, PartialEq, Eq)]
pub enum ListerPhase {
    /// It does.
    Open,
    /// A length field was below 10, so that no frame follows.
    Broken,
    /// Memory ran out.
    Failed,
}

/// Lists a stream of the whole standard that comes in pieces: a line of JSON for each frame, once it
/// is whole. Of a message that is not whole it keeps the line as far as it has come, and at most 16
/// octets.
#[derive(Drop)]
pub struct JsonLister {
    frames: Frames,
    printer: JsonPrinter,
    phase: ListerPhase,
}

impl Model for JsonLister {
    ghost use Rattle.llrp_json.specs.Calls.PieceLines.{Listing};
    ghost use Rattle.llrp_json.specs.Private.PieceLines.{IsSound};

    ghost Value = { Listing };

    ghost view = { λ l. record { frames = l.frames; printer = l.printer; phase = l.phase } };

    ghost invariant = { λ l. IsSound l.frames l.printer l.phase };
}

/// Gives a printer the fault of a frame that was faulty; it has received each other one.
fn take<P: ItemPrinter>(printer: &mut P, outcome: Outcome) -> Result<(), AllocError>
    ensures { OnOk result (TakesOutcome P.is_text (P.stands printer.old) (P.ends printer.old)
        (P.stands printer.new) outcome) }
{
    match outcome {
        Outcome::Whole => Ok(()),
        Outcome::Bad { id, fault } => printer.push_fault(id, fault),
    }
}

/// Gives a printer the frames in this piece. Returns whether the stream goes on, which it does
/// unless it is broken.
fn gather<P: ItemPrinter>(
    frames: &mut Frames,
    printer: &mut P,
    piece: &[u8],
) -> Result<bool, AllocError>
    requires least { 10 ≤ limit_of frames.old }
    requires most { limit_of frames.old ≤ MAX_LIMIT }
    requires comes { HasCome (P.begins printer.old) (P.stands printer.old) frames.old }
    ensures limit { limit_of frames.new ≡ limit_of frames.old }
    ensures gathers { GathersPiece P.is_text (P.begins printer.old) (P.stands printer.old)
        (P.begins printer.new) (P.stands printer.new) piece.now frames.old frames.new result }
{
    let mut rest = piece;
    'parts: loop {
        let Came { used, outcome } = match frames.feed(printer, rest) {
            Ok(came) => came,
            Err(FeedErr::Broken) => return Ok(false),
            Err(FeedErr::Memory | FeedErr::Dead) => return Err(AllocError),
        };
        let Some(outcome) = outcome else {
            return Ok(true);
        };
        take(printer, outcome)?;
        rest = rest.split_at(used).1;
    }
}

/// Moves the texts of whole items from a printer to the end of a text.
fn hand_out<P: ItemPrinter>(printer: &mut P, text: &mut Vec<u8>) -> Result<(), AllocError>
    requires some { (was : List ℕ) × HasText (P.begins printer.old) (P.stands printer.old) was }
    ensures text { OnOk result ((was : List ℕ)
        → HasText (P.begins printer.old) (P.stands printer.old) was
        → text.new.items ≡ text.old.items ++ was) }
    ensures begins { OnOk result ((was : List ℕ) (t : List Begun) → P.begins printer.old was t
        → P.begins printer.new [] t) }
    ensures stands { OnOk result ((was : List ℕ) (t : List Begun) → P.stands printer.old was t
        → P.stands printer.new [] t) }
{
    text.extend_from_slice(printer.whole())?;
    printer.drop_whole();
    Ok(())
}

/// Appends the texts of the frames that are whole with this piece. Returns whether the stream goes on.
fn list_piece<P: ItemPrinter>(
    frames: &mut Frames,
    printer: &mut P,
    piece: &[u8],
    text: &mut Vec<u8>,
) -> Result<bool, AllocError>
    requires least { 10 ≤ limit_of frames.old }
    requires most { limit_of frames.old ≤ MAX_LIMIT }
    requires comes { HasCome (P.begins printer.old) (P.stands printer.old) frames.old }
    ensures limit { limit_of frames.new ≡ limit_of frames.old }
    ensures hands { HandsPiece P.is_text (P.begins printer.old) (P.stands printer.old)
        (P.begins printer.new) (P.stands printer.new) piece.now frames.old frames.new
        text.old.items text.new.items result }
{
    let goes_on = gather(frames, printer, piece)?;
    hand_out(printer, text)?;
    Ok(goes_on)
}

impl JsonLister {
    ghost use Rattle.llrp_json.specs.Calls.PieceLines.{HasListed, ListsPiece};

    /// A lister of a stream of which nothing came; it takes no memory. A frame of more than `limit`
    /// octets is faulty.
    pub fn new(alloc: Global, limit: u32) -> JsonLister
        requires least { 10 ≤ limit }
        requires most { limit ≤ MAX_LIMIT }
        ensures { HasListed limit [] [] result }
    {
        JsonLister {
            frames: Frames::new_in(KindSet::Standard, limit),
            printer: JsonPrinter::new(alloc),
            phase: ListerPhase::Open,
        }
    }

    /// Takes the next octets of the stream, and appends to `text` the line of each frame that is whole
    /// with them: of a message as `show --json --all` prints it, and of a faulty frame its id and its
    /// fault. At a length field below 10 the stream is broken, and nothing is appended from then on.
    ///
    /// The error means that memory ran out; each later call returns it too.
    pub fn feed(&mut self, piece: &[u8], text: &mut Vec<u8>) -> Result<(), AllocError>
        ensures { OnOk result (ListsPiece piece.now self.old self.new text.old.items
            text.new.items) }
    {
        match self.phase {
            ListerPhase::Open => {}
            ListerPhase::Broken => return Ok(()),
            ListerPhase::Failed => return Err(AllocError),
        }
        match list_piece(&mut self.frames, &mut self.printer, piece, text) {
            Ok(true) => Ok(()),
            Ok(false) => {
                self.phase = ListerPhase::Broken;
                Ok(())
            }
            Err(error) => {
                self.phase = ListerPhase::Failed;
                Err(error)
            }
        }
    }
}
