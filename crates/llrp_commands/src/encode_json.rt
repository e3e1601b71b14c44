//! The command `encode` with --json.

ghost use Rattle.std.specs.Prelude.{◌≡◌, ◌≤◌, ◌++◌, IfErr, MatchResult, codes};
ghost use Rattle.llrp_listing.specs.Calls.Copying.{Writes};
ghost use Rattle.llrp_stream.specs.Calls.Device.{CanWrite};
ghost use Rattle.llrp_stream.specs.Device.{IsFreshSink, IsFreshSource};
ghost use Rattle.llrp_tree.specs.declared.TheConstants.{MAX_LIMIT};
ghost use Rattle.llrp_commands.specs.Calls.Command.{FailsAsTold};
ghost use Rattle.llrp_commands.specs.Calls.EncodeJson.{AnswersLines, DoesEncodeJson, EncodesLineDigits, json_refusal_line, number_text, place_text, reason_text};
ghost use Rattle.llrp_commands.specs.Private.EncodeJson.{GathersLines, memory_lines_error};

use crate::command::{answer, digit_line, memory_error, write_parts};
use itoa::Buffer;
use llrp_json_read::{LinesErr, Reason, RefusedLine, run_encode_json};
use llrp_listing::{ToolErr, write_all};
use llrp_schema::KindSet;
use llrp_stream::{Output, Sink, Source};
use std::alloc::Global;

/// Writes the number of a line that is refused, after what begins an error line.
fn write_number<E: Sink>(e: &mut E, number: u64) -> Result<(), ToolErr>
    requires { CanWrite (E.log e.old) }
    ensures { Writes (number_text number) (E.log e.old) (E.log e.new) result }
{
    let mut digits = Buffer::new();
    let number = digits.format(number).as_bytes();
    write_parts(e, &[b"llrp: line ", number, b": "])
}

/// Writes a path with a colon after it; nothing for the line as a whole.
fn write_place<E: Sink>(e: &mut E, path: &[u8]) -> Result<(), ToolErr>
    requires { CanWrite (E.log e.old) }
    ensures { Writes (place_text path.now) (E.log e.old) (E.log e.new) result }
{
    if path.is_empty() {
        return Ok(());
    }
    write_all(e, path)?;
    write_all(e, b": ")
}

/// Writes a reason to the line's end.
fn write_reason<E: Sink>(e: &mut E, reason: Reason) -> Result<(), ToolErr>
    requires { CanWrite (E.log e.old) }
    ensures { Writes (reason_text reason) (E.log e.old) (E.log e.new) result }
{
    let (name, inner) = reason.names();
    write_parts(e, &[name.as_bytes(), inner.as_bytes(), b"\n"])
}

/// Writes where a line is refused, and why.
fn write_where<E: Sink>(e: &mut E, path: &[u8], reason: Reason) -> Result<(), ToolErr>
    requires { CanWrite (E.log e.old) }
    ensures { Writes (place_text path.now ++ reason_text reason) (E.log e.old) (E.log e.new) result }
{
    write_place(e, path)?;
    write_reason(e, reason)
}

/// Writes the error line of a line of JSON that is refused.
fn write_line_refusal<E: Sink>(e: &mut E, line: &RefusedLine) -> Result<(), ToolErr>
    requires { CanWrite (E.log e.old) }
    ensures { Writes (json_refusal_line line.now) (E.log e.old) (E.log e.new) result }
{
    write_number(e, line.number)?;
    write_where(e, line.path.as_slice(), line.reason)
}

/// The exit status of `encode --json` that ended like this, after its error, if it has one, was written as a
/// line.
pub(crate) fn answer_lines<E: Sink>(outcome: Result<(), LinesErr>, e: &mut E) -> Result<u8, ToolErr>
    requires { CanWrite (E.log e.old) }
    ensures answers { AnswersLines outcome (E.log e.old) (E.log e.new) result }
    ensures errors { IfErr result (λ error. FailsAsTold (E.log e.old) (E.log e.new) error) }
{
    match outcome {
        Ok(()) => Ok(0),
        Err(LinesErr::Stopped(error)) => answer(Err(error), e),
        Err(LinesErr::Line(line)) => {
            write_line_refusal(e, &line)?;
            Ok(1)
        }
    }
}

/// The error of writing to memory, which fails only if memory runs out.
fn memory_lines_error(error: LinesErr) -> LinesErr
    ensures { result ≡ memory_lines_error error }
{
    match error {
        LinesErr::Line(line) => LinesErr::Line(line),
        LinesErr::Stopped(error) => LinesErr::Stopped(memory_error(error)),
    }
}

/// The frames of lines, kept in memory.
fn encoded_lines<R: Source>(
    alloc: Global,
    set: KindSet,
    limit: u32,
    r: &mut R,
) -> Result<Vec<u8>, LinesErr>
    requires { IsFreshSource (R.log r.old) }
    ensures { MatchResult result
        (λ bytes. GathersLines set limit (R.log r.old) (R.log r.new) (Ok bytes.items))
        (λ e. GathersLines set limit (R.log r.old) (R.log r.new) (Err e)) }
{
    let mut gathered = Output::new(Vec::new(alloc));
    match run_encode_json(alloc, set, r, &mut gathered, limit) {
        Ok(()) => Ok(gathered.into_inner()),
        Err(error) => Err(memory_lines_error(error)),
    }
}

/// Writes the frames of lines as hexadecimal digits, once all lines were read.
fn encode_line_digits<R: Source, W: Sink>(
    alloc: Global,
    set: KindSet,
    limit: u32,
    r: &mut R,
    w: &mut W,
) -> Result<(), LinesErr>
    requires source { IsFreshSource (R.log r.old) }
    requires sink { IsFreshSink (W.log w.old) }
    ensures { EncodesLineDigits set limit (R.log r.old) (R.log r.new) (W.log w.old) (W.log w.new) result }
{
    let bytes = match encoded_lines(alloc, set, limit, r) {
        Ok(bytes) => bytes,
        Err(error) => return Err(error),
    };
    let Ok(line) = digit_line(alloc, bytes.as_slice()) else {
        return Err(LinesErr::Stopped(ToolErr::Memory));
    };
    match write_all(w, line.as_bytes()) {
        Ok(()) => Ok(()),
        Err(error) => Err(LinesErr::Stopped(error)),
    }
}

/// The command `encode` with --json.
pub(crate) fn encode_json<R: Source, W: Sink>(
    alloc: Global,
    hex: bool,
    set: KindSet,
    limit: u32,
    r: &mut R,
    w: &mut W,
) -> Result<(), LinesErr>
    requires source { IsFreshSource (R.log r.old) }
    requires sink { IsFreshSink (W.log w.old) }
    ensures { DoesEncodeJson hex set limit (R.log r.old) (R.log r.new) (W.log w.old) (W.log w.new) result }
{
    if hex {
        encode_line_digits(alloc, set, limit, r, w)
    } else {
        run_encode_json(alloc, set, r, w, limit)
    }
}
