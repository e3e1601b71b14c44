//! Encodes lines of JSON, which are read in pieces; each line's frame goes to the sink with those of its piece.

ghost use Rattle.std.specs.Prelude.{◌≡◌, ◌++◌, ◌∷◌, ◌+◌, ◌*◌, ◌<◌, ◌≤◌, ◌^◌, [], ℕ, List, IfErr, IfOk, IfSome, IsErrAnd, OnOk, MatchResult, length};
ghost use Rattle.llrp_listing.specs.Calls.Splits.{Lacks};
ghost use Rattle.llrp_listing.specs.declared.outcome.ToolErr.TheVariants.{Memory as OutOfMemory};
ghost use Rattle.llrp_stream.specs.Calls.Device.{CanWrite};
ghost use Rattle.llrp_stream.specs.Device.{IsFreshSink, IsFreshSource};
ghost use Rattle.llrp_tree.specs.declared.TheConstants.{MAX_LIMIT};
ghost use Rattle.llrp_json_read.specs.declared.run.LinesErr.TheVariants.{Stopped};
ghost use Rattle.llrp_json_read.specs.declared.run.TakeErr.TheVariants.{Memory};
ghost use Rattle.llrp_json_read.specs.Calls.ReadErrors.{IsReadErr};
ghost use Rattle.llrp_json_read.specs.LinesRead.{EncodesLines, longest};
ghost use Rattle.llrp_json_read.specs.Private.Lines.{EndsLine, EndsText, IsTooLong, IsTold, TakesPiece, Withdraws};

use crate::path::path_of;
use crate::printed::{PrintedRoom, encode_any_line};
use crate::refusal::{ReadErr, Reason, RefusedLine};
use json::Scratch;
use llrp_listing::{Pieces, ToolErr, hand_on, split_once};
use llrp_schema::KindSet;
use llrp_stream::{Sink, Source};
use std::alloc::{AllocError, AllocFailed, Global};

/// A line has at most this many octets for each that a message may have.
const OCTETS_A_LIMIT: usize = 64;

/// Why not all lines were encoded.
#[derive(Debug, Drop)]
pub enum LinesErr {
    /// A line is refused.
    Line(RefusedLine),
    /// A device failed, or memory ran out.
    Stopped(ToolErr),
}

impl From<ToolErr> for LinesErr {
    ghost from_gives = { λ error e. e ≡ Stopped error };

    fn from(error: ToolErr) -> LinesErr {
        LinesErr::Stopped(error)
    }
}

/// Why a piece was not taken to its end.
#[derive(Debug, Drop)]
pub(crate) enum TakeErr {
    /// A line is refused.
    Line(RefusedLine),
    /// Memory ran out.
    Memory,
}

impl From<AllocError> for TakeErr {
    ghost from_gives = { λ _ e. e ≡ Memory };

    fn from(_e: AllocError) -> TakeErr {
        TakeErr::Memory
    }
}

/// The most octets that a line may have.
fn longest(limit: u32) -> usize
    ensures { result ≡ longest limit }
{
    OCTETS_A_LIMIT * limit as usize
}

/// The error of the line with this number.
fn numbered<'a>(alloc: Global, number: u64, error: ReadErr<'a>) -> TakeErr
    ensures { IsTold number error.entry result }
{
    let ReadErr::Refused(refusal) = error else {
        return TakeErr::Memory;
    };
    match path_of(alloc, &refusal) {
        Ok(path) => TakeErr::Line(RefusedLine {
            number,
            path,
            reason: refusal.reason,
        }),
        Err(_) => TakeErr::Memory,
    }
}

/// What is kept of lines that come in pieces: the line that has begun, and how many ended before it.
#[derive(Drop)]
pub(crate) struct Lines {
    line: Vec<u8>,
    number: u64,
    room: PrintedRoom,
    scratch: Scratch,
}

impl Lines {
    /// No line has begun.
    pub(crate) fn new(alloc: Global) -> Lines
        ensures line { result.line.items ≡ [] }
        ensures number { result.number ≡ 0 }
    {
        Lines {
            line: Vec::new(alloc),
            number: 0,
            room: PrintedRoom::new(alloc),
            scratch: Scratch::new(alloc),
        }
    }

    /// Keeps a part of the line that has begun.
    fn go_on(&mut self, alloc: Global, limit: u32, part: &[u8]) -> Result<(), TakeErr>
        requires number { self.old.number + 1 < 2 ^ 64 }
        requires short { length self.old.line.items ≤ longest limit }
        ensures line { OnOk result (self.new.line.items ≡ self.old.line.items ++ part.now) }
        ensures short { OnOk result (length self.new.line.items ≤ longest limit) }
        ensures number { OnOk result (self.new.number ≡ self.old.number) }
        ensures refused { IfErr result (IsTooLong limit (self.old.number + 1)
            (self.old.line.items ++ part.now)) }
    {
        if part.len() > longest(limit) - self.line.len() {
            return Err(TakeErr::Line(RefusedLine {
                number: self.number + 1,
                path: Vec::new(alloc),
                reason: Reason::Line,
            }));
        }
        self.line.extend_from_slice(part)?;
        Ok(())
    }

    /// Appends the frame of the line that has begun and ends here, and begins another.
    fn end_line(
        &mut self,
        alloc: Global,
        set: KindSet,
        limit: u32,
        frames: &mut Vec<u8>,
    ) -> Result<(), TakeErr>
        requires number { self.old.number + 1 < 2 ^ 64 }
        requires short { length self.old.line.items ≤ longest limit }
        ensures line { OnOk result (self.new.line.items ≡ []) }
        ensures number { OnOk result (self.new.number ≡ self.old.number + 1) }
        ensures ended { EndsLine set limit self.old.line.items (self.old.number + 1)
            frames.old.items frames.new.items result }
    {
        match encode_any_line(
            alloc,
            set,
            self.line.as_slice(),
            &mut self.room,
            &mut self.scratch,
            frames,
            limit,
        ) {
            Ok(()) => {}
            Err(error) => return Err(numbered(alloc, self.number + 1, error)),
        }
        self.number += 1;
        self.line.clear();
        Ok(())
    }

    /// Appends the frames of the lines that end in a piece.
    pub(crate) fn take(
        &mut self,
        alloc: Global,
        set: KindSet,
        limit: u32,
        piece: &[u8],
        frames: &mut Vec<u8>,
    ) -> Result<(), TakeErr>
        requires number { self.old.number + length piece.now + 1 < 2 ^ 64 }
        requires short { length self.old.line.items ≤ longest limit }
        ensures number { OnOk result (self.new.number ≤ self.old.number + length piece.now) }
        ensures short { OnOk result (length self.new.line.items ≤ longest limit) }
        ensures taken { TakesPiece set limit piece.now self.old self.new frames.old.items
            frames.new.items result }
    {
        let mut rest = piece;
        'lines: while let Some((part, after)) = split_once(rest, b'\n') {
            self.go_on(alloc, limit, part)?;
            self.end_line(alloc, set, limit, frames)?;
            rest = after;
        }
        self.go_on(alloc, limit, rest)
    }

    /// Appends the frame of a last line without an LF, if there is one.
    pub(crate) fn end(
        &mut self,
        alloc: Global,
        set: KindSet,
        limit: u32,
        frames: &mut Vec<u8>,
    ) -> Result<(), TakeErr>
        requires number { self.old.number + 1 < 2 ^ 64 }
        requires short { length self.old.line.items ≤ longest limit }
        ensures { EndsText set limit self.old frames.old.items frames.new.items result }
    {
        if self.line.is_empty() {
            return Ok(());
        }
        self.end_line(alloc, set, limit, frames)
    }
}

/// The error of lines that were not taken, once the frames before them were written.
fn withdraw<W: Sink>(error: TakeErr, frames: &mut Vec<u8>, w: &mut W) -> LinesErr
    requires { CanWrite (W.log w.old) }
    ensures { Withdraws error frames.old.items (W.log w.old) (W.log w.new) result }
{
    match error {
        TakeErr::Memory => LinesErr::Stopped(ToolErr::Memory),
        TakeErr::Line(line) => match hand_on(frames, w) {
            Ok(()) => LinesErr::Line(line),
            Err(error) => LinesErr::Stopped(error),
        },
    }
}

/// Writes the frames of the messages that the lines of a source say, each of `limit` octets at most. A last line may lack its LF. The
/// frames of the lines that end in the octets of one read are written before the next read.
///
/// The errors are `Line` with the first line that is refused, once the frames of the lines before it were written: it has more than 64
/// times `limit` octets, or is refused as by `encode_line`, as an empty line is; and `Stopped` with `Read` and `Bound`, after which the
/// frames of the lines that end in what was read were written, and with `Write` and `Memory`, after which some first part of the frames.
pub fn run_encode_json<R: Source, W: Sink>(
    alloc: Global,
    set: KindSet,
    r: &mut R,
    w: &mut W,
    limit: u32,
) -> Result<(), LinesErr>
    requires source { IsFreshSource (R.log r.old) }
    requires sink { IsFreshSink (W.log w.old) }
    ensures { EncodesLines set limit (R.log r.old) (R.log r.new) (W.log w.old) (W.log w.new) result }
{
    let mut lines = Lines::new(alloc);
    let mut frames = Vec::new(alloc);
    let mut pieces = Pieces::new();
    'pieces: while let Some(piece) = pieces.next(r)? {
        match lines.take(alloc, set, limit, piece, &mut frames) {
            Ok(()) => hand_on(&mut frames, w)?,
            Err(error) => return Err(withdraw(error, &mut frames, w)),
        }
    }
    match lines.end(alloc, set, limit, &mut frames) {
        Ok(()) => Ok(hand_on(&mut frames, w)?),
        Err(error) => Err(withdraw(error, &mut frames, w)),
    }
}
