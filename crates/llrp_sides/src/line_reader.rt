//! Reads the lines of segments from a source.

ghost use Rattle.std.specs.Prelude.{◌≡◌, ◌++◌, [], List, ℕ, IfOk, OnOk};
ghost use Rattle.llrp_listing.specs.Copying.{ReadAll};
ghost use Rattle.llrp_stream.specs.Device.{IsFreshSink, IsFreshSource, Wrote};
ghost use Rattle.llrp_stream.specs.Calls.Device.{CanWrite};
ghost use Rattle.llrp_sides.specs.Calls.Captures.{IsWithoutCr, ListsText};
ghost use Rattle.llrp_sides.specs.Private.Sessions.{InStep};
ghost use Rattle.llrp_sides.specs.Private.LineSteps.{EndsLine, EndsText, Stands, TakesPiece};

use crate::failure::{LineFault, ShowErr, StepErr};
use crate::form::Form;
use crate::session::Session;
use llrp_listing::{Pieces, Text, ToolErr, Verdict, split_once, write_all};
use llrp_stream::{Sink, Source};
use std::alloc::Global;

/// How many octets a line may have without its end.
pub const LONGEST_LINE: usize = 262_144;

/// The lines that come in pieces.
#[derive(Drop)]
struct Lines {
    session: Session,
    /// What came of the line that was begun.
    line: Vec<u8>,
    /// Its number, from 1 on.
    number: u64,
}

/// A carriage return at the end of a line is left out.
fn without_return(line: &[u8]) -> &[u8]
    ensures { IsWithoutCr line.now result.now }
{
    match line.split_last() {
        Some((b'\r', line)) => line,
        _ => line,
    }
}

impl Lines {
    /// No line was begun.
    fn new(alloc: Global, form: Form, port: u16) -> Lines
        ensures in_step { InStep result.session }
        ensures stands { Stands form port [] [] result }
    {
        Lines {
            session: Session::new(alloc, form, port),
            line: Vec::new(alloc),
            number: 1,
        }
    }

    /// Adds to the line that was begun.
    fn add(&mut self, part: &[u8]) -> Result<(), StepErr>
        ensures line { OnOk result (self.new.line.items ≡ self.old.line.items ++ part.now) }
        ensures session { OnOk result (self.new.session ≡ self.old.session) }
    {
        if part.len() > LONGEST_LINE || self.line.len() > LONGEST_LINE - part.len() {
            return Err(StepErr::Fault(LineFault::Long));
        }
        match self.line.extend_from_slice(part) {
            Ok(()) => Ok(()),
            Err(_) => Err(StepErr::Memory),
        }
    }

    /// Takes the line that was begun, and begins another.
    fn end_line(&mut self, text: &mut Text) -> Result<(), StepErr>
        requires { InStep self.old.session }
        ensures { OnOk result (EndsLine self.old self.new text.old text.new) }
    {
        self.session
            .take(without_return(self.line.as_slice()), text)?;
        self.line.clear();
        self.number = self.number.saturating_add(1);
        Ok(())
    }

    /// Takes the lines that end in a piece.
    fn take(&mut self, piece: &[u8], text: &mut Text) -> Result<(), StepErr>
        requires { InStep self.old.session }
        ensures { OnOk result (TakesPiece piece.now self.old self.new text.old text.new) }
    {
        let mut rest = piece;
        'lines: while let Some((part, later)) = split_once(rest, b'\n') {
            self.add(part)?;
            self.end_line(text)?;
            rest = later;
        }
        self.add(rest)?;
        Ok(())
    }

    /// Takes a last line without an end, if there is one, and lists the ends of all sides.
    fn end(&mut self, text: &mut Text) -> Result<Verdict, StepErr>
        requires { InStep self.old.session }
        ensures { IfOk result (EndsText self.old text.old text.new) }
    {
        if self.line.is_empty() {
            return self.session.end(text);
        }
        self.end_line(text)?;
        self.session.end(text)
    }

    /// Why the listing ends with the line that was begun.
    fn failure(&self, error: StepErr) -> ShowErr {
        match error {
            StepErr::Fault(fault) => ShowErr::Line {
                line: self.number,
                fault,
            },
            StepErr::Memory => ShowErr::Tool(ToolErr::Memory),
        }
    }
}

/// Writes what was gathered.
fn write<W: Sink>(text: &mut Text, w: &mut W) -> Result<(), ShowErr>
    requires { CanWrite (W.log w.old) }
    ensures wrote { OnOk result (Wrote (W.log w.old) (W.log w.new) text.old) }
    ensures emptied { text.new ≡ [] }
{
    let outcome = write_all(w, text.as_slice());
    text.truncate(0);
    match outcome {
        Ok(()) => Ok(()),
        Err(error) => Err(ShowErr::Tool(error)),
    }
}

/// Lists the frames of the segments whose lines the source gives, each with its time and side, where the
/// reader has this port. The listing of the frames that are whole with the lines of one read is written
/// before the next read.
pub fn show_segments<R: Source, W: Sink>(
    alloc: Global,
    form: Form,
    port: u16,
    r: &mut R,
    w: &mut W,
) -> Result<Verdict, ShowErr>
    requires source { IsFreshSource (R.log r.old) }
    requires sink { IsFreshSink (W.log w.old) }
    // Each line says a segment, which goes to its own connection.
    ensures { IfOk result (λ verdict. (bytes listing : List ℕ)
        × ReadAll (R.log r.old) (R.log r.new) bytes
        × ListsText form port bytes listing verdict
        × Wrote (W.log w.old) (W.log w.new) listing) }
{
    let mut lines = Lines::new(alloc, form, port);
    let mut text = Text::new(alloc);
    let mut pieces = Pieces::new();
    'pieces: loop {
        match pieces.next(r) {
            Err(error) => return Err(ShowErr::Tool(error)),
            Ok(None) => break,
            Ok(Some(piece)) => {
                let outcome = lines.take(piece, &mut text);
                write(&mut text, w)?;
                if let Err(error) = outcome {
                    return Err(lines.failure(error));
                }
            }
        }
    }
    let outcome = lines.end(&mut text);
    write(&mut text, w)?;
    match outcome {
        Ok(verdict) => Ok(verdict),
        Err(error) => Err(lines.failure(error)),
    }
}
