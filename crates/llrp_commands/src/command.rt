//! The commands over streams, and how a command ends: its exit status and its error line.

ghost use Rattle.std.specs.Prelude.{◌≤◌, ◌≡◌, IfErr, IfOk, MatchResult, string_bytes};
ghost use Rattle.std.specs.List.{flat_map};
ghost use Rattle.llrp_schema.specs.declared.kinds.KindSet.{KindSet};
ghost use Rattle.llrp_tree.specs.declared.TheConstants.{MAX_LIMIT};
ghost use Rattle.llrp_commands.specs.Calls.Command.{Answers, DoesEncode, DoesShow, EncodesDigits, FailsAsTold, IsLine, ShowsDigits, digit_line, end_line, error_line, error_status, fine_status, reason_line, refusal_line, set_of, status_of, verdict_status};
ghost use Rattle.llrp_commands.specs.Calls.Encode.{EncodedTo};
ghost use Rattle.llrp_commands.specs.Private.Command.{Gathers, memory_error};
ghost use Rattle.llrp_listing.specs.Calls.Copying.{Writes};
ghost use Rattle.llrp_listing.specs.Show.{ListedAs, ShowsAs, StoppedAs};
ghost use Rattle.llrp_stream.specs.Device.{IsFreshSink, IsFreshSource};
ghost use Rattle.llrp_stream.specs.Calls.Device.{CanWrite};

use crate::encode_json::{answer_lines, encode_json};
use itoa::Buffer;
use llrp_json::{Names, list_stream_json_named, run_show_json_named};
use llrp_listing::{
    Refusal, ToolErr, Verdict, bytes_of_hex, list_stream_in, read_all, run_encode_in, run_show_in,
    write_all,
};
use llrp_schema::KindSet;
use llrp_stream::{Output, Sink, Source};
use std::alloc::{AllocError, Global};

/// The greatest message, in octets, that `sim`, `inventory` and `loop` take and send, and that
/// `show` and `encode` take without --limit.
pub const LIMIT: u32 = 65_536;

/// The exit status if the words ask for no command. [`run_command`] also returns it for a command
/// that the program runs itself.
pub const USAGE: u8 = 2;

/// The set of kinds that a command takes: that of the profile, or with --all that of the whole standard.
pub(crate) fn set_of(all: bool) -> KindSet
    ensures { result ≡ set_of all }
{
    if all {
        KindSet::Standard
    } else {
        KindSet::Profile
    }
}

/// The exit status of a verdict.
fn status_of(verdict: Verdict) -> u8
    ensures { result ≡ status_of verdict }
{
    match verdict {
        Verdict::Lawful => 0,
        Verdict::Faulty => 1,
    }
}

/// The exit status of an error: 1 if the input is at fault, 3 if a device failed or memory ran out.
fn error_status(error: ToolErr) -> u8
    ensures { result ≡ error_status error }
{
    match error {
        ToolErr::Listing { .. } | ToolErr::Script { .. } | ToolErr::Hex => 1,
        ToolErr::Broken | ToolErr::Peer(_) | ToolErr::Strange | ToolErr::Early => 1,
        ToolErr::Read | ToolErr::Write | ToolErr::Bound | ToolErr::Memory => 3,
    }
}

/// Writes the parts of a text in order. The only error is `Write`, after which some first part of the text was
/// written.
pub fn write_parts<W: Sink>(w: &mut W, parts: &[&[u8]]) -> Result<(), ToolErr>
    requires { CanWrite (W.log w.old) }
    ensures { Writes (flat_map (λ part. part.now) parts.now) (W.log w.old) (W.log w.new) result }
{
    for part in parts {
        write_all(w, part)?;
    }
    Ok(())
}

/// Writes the number of a line that is refused, and the reason, to the line's end.
fn write_reason<E: Sink>(e: &mut E, line: u64, reason: Refusal) -> Result<(), ToolErr>
    requires { CanWrite (E.log e.old) }
    ensures { Writes (reason_line line reason) (E.log e.old) (E.log e.new) result }
{
    let mut digits = Buffer::new();
    let number = digits.format(line).as_bytes();
    let (name, inner) = reason.names();
    write_parts(
        e,
        &[number, b": ", name.as_bytes(), inner.as_bytes(), b"\n"],
    )
}

/// Writes the line of a refusal: what stands before the number of the line that is refused, that
/// number, and the reason.
pub fn write_refusal<E: Sink>(
    e: &mut E,
    front: &[u8],
    line: u64,
    reason: Refusal,
) -> Result<(), ToolErr>
    requires { CanWrite (E.log e.old) }
    ensures { Writes (refusal_line front.now line reason) (E.log e.old) (E.log e.new) result }
{
    write_all(e, front)?;
    write_reason(e, line, reason)
}

/// Writes the line of an error.
fn write_error<E: Sink>(e: &mut E, error: ToolErr) -> Result<(), ToolErr>
    requires { CanWrite (E.log e.old) }
    ensures { Writes (error_line error) (E.log e.old) (E.log e.new) result }
{
    match error {
        ToolErr::Listing { line, reason } => write_refusal(e, b"llrp: line ", line, reason),
        ToolErr::Script { line } => {
            let mut digits = Buffer::new();
            let number = digits.format(line).as_bytes();
            write_parts(e, &[b"llrp: script line ", number, b"\n"])
        }
        ToolErr::Hex => write_all(e, b"llrp: hex\n"),
        ToolErr::Read => write_all(e, b"llrp: read\n"),
        ToolErr::Write => write_all(e, b"llrp: write\n"),
        ToolErr::Bound => write_all(e, b"llrp: bound\n"),
        ToolErr::Broken => write_all(e, b"llrp: broken\n"),
        ToolErr::Memory => write_all(e, b"llrp: memory\n"),
        ToolErr::Peer(status) => {
            let mut digits = Buffer::new();
            let number = digits.format(status).as_bytes();
            write_parts(e, &[b"llrp: status ", number, b"\n"])
        }
        ToolErr::Strange => write_all(e, b"llrp: strange\n"),
        ToolErr::Early => write_all(e, b"llrp: early\n"),
    }
}

/// The exit status of a command that ended like this, after its error, if it has one, was written
/// as a line.
pub fn answer<E: Sink>(outcome: Result<u8, ToolErr>, e: &mut E) -> Result<u8, ToolErr>
    requires { CanWrite (E.log e.old) }
    ensures { Answers outcome (E.log e.old) (E.log e.new) result }
{
    match outcome {
        Ok(status) => Ok(status),
        Err(error) => {
            write_error(e, error)?;
            Ok(error_status(error))
        }
    }
}

/// Writes the listing of the bytes of a stream, or their lines of JSON under these names.
fn list_bytes<W: Sink>(
    alloc: Global,
    names: Option<Names>,
    set: KindSet,
    limit: u32,
    bytes: &[u8],
    w: &mut W,
) -> Result<Verdict, ToolErr>
    requires least { 10 ≤ limit }
    requires most { limit ≤ MAX_LIMIT }
    requires sink { CanWrite (W.log w.old) }
    ensures ok { IfOk result (λ verdict. ListedAs (IsLine names) (end_line names) set limit bytes.now
        (W.log w.old) (W.log w.new) verdict) }
    ensures err { IfErr result (λ e. StoppedAs (IsLine names) (end_line names) set limit bytes.now
        (W.log w.old) (W.log w.new) e) }
{
    match names {
        None => list_stream_in(alloc, set, bytes, w, limit),
        Some(names) => list_stream_json_named(alloc, names, set, bytes, w, limit),
    }
}

/// Writes the listing of all bytes of the source, or their lines of JSON under these names.
fn show_bytes<R: Source, W: Sink>(
    alloc: Global,
    names: Option<Names>,
    set: KindSet,
    limit: u32,
    r: &mut R,
    w: &mut W,
) -> Result<Verdict, ToolErr>
    requires least { 10 ≤ limit }
    requires most { limit ≤ MAX_LIMIT }
    requires source { IsFreshSource (R.log r.old) }
    requires sink { IsFreshSink (W.log w.old) }
    ensures { ShowsAs (IsLine names) (end_line names) set limit (R.log r.old) (R.log r.new)
        (W.log w.old) (W.log w.new) result }
{
    match names {
        None => run_show_in(alloc, set, r, w, limit),
        Some(names) => run_show_json_named(alloc, names, set, r, w, limit),
    }
}

/// The same of a stream of hexadecimal digits, all of which are read and checked first.
fn show_digits<R: Source, W: Sink>(
    alloc: Global,
    names: Option<Names>,
    set: KindSet,
    limit: u32,
    r: &mut R,
    w: &mut W,
) -> Result<Verdict, ToolErr>
    requires least { 10 ≤ limit }
    requires most { limit ≤ MAX_LIMIT }
    requires source { IsFreshSource (R.log r.old) }
    requires sink { IsFreshSink (W.log w.old) }
    ensures { ShowsDigits names set limit (R.log r.old) (R.log r.new) (W.log w.old) (W.log w.new) result }
{
    let text = read_all(alloc, r)?;
    let stream = bytes_of_hex(alloc, text.as_slice())?;
    list_bytes(alloc, names, set, limit, stream.as_slice(), w)
}

/// The command `show`.
pub(crate) fn show<R: Source, W: Sink>(
    alloc: Global,
    names: Option<Names>,
    hex: bool,
    set: KindSet,
    limit: u32,
    r: &mut R,
    w: &mut W,
) -> Result<Verdict, ToolErr>
    requires least { 10 ≤ limit }
    requires most { limit ≤ MAX_LIMIT }
    requires source { IsFreshSource (R.log r.old) }
    requires sink { IsFreshSink (W.log w.old) }
    ensures { DoesShow names hex set limit (R.log r.old) (R.log r.new) (W.log w.old) (W.log w.new) result }
{
    if hex {
        show_digits(alloc, names, set, limit, r, w)
    } else {
        show_bytes(alloc, names, set, limit, r, w)
    }
}

/// The error of writing to memory, which fails only if memory runs out.
pub(crate) fn memory_error(error: ToolErr) -> ToolErr
    ensures { result ≡ memory_error error }
{
    match error {
        ToolErr::Write => ToolErr::Memory,
        error => error,
    }
}

/// The bytes of a listing, kept in memory.
fn encoded<R: Source>(
    alloc: Global,
    set: KindSet,
    limit: u32,
    r: &mut R,
) -> Result<Vec<u8>, ToolErr>
    requires least { 10 ≤ limit }
    requires most { limit ≤ MAX_LIMIT }
    requires source { IsFreshSource (R.log r.old) }
    ensures { MatchResult result
        (λ bytes. Gathers set limit (R.log r.old) (R.log r.new) (Ok bytes.items))
        (λ e. Gathers set limit (R.log r.old) (R.log r.new) (Err e)) }
{
    let mut gathered = Output::new(Vec::new(alloc));
    match run_encode_in(alloc, set, r, &mut gathered, limit) {
        Ok(()) => Ok(gathered.into_inner()),
        Err(error) => Err(memory_error(error)),
    }
}

/// One line with the bytes in upper-case digits, or nothing if there are no bytes.
pub(crate) fn digit_line(alloc: Global, bytes: &[u8]) -> Result<String, AllocError>
    ensures { IfOk result (λ line. string_bytes line ≡ digit_line bytes.now) }
{
    if bytes.is_empty() {
        return Ok(String::new(alloc));
    }
    let mut line = hex::encode_upper(alloc, bytes)?;
    line.push('\n')?;
    Ok(line)
}

/// Writes the bytes of a listing as hexadecimal digits, once the whole listing was read.
fn encode_digits<R: Source, W: Sink>(
    alloc: Global,
    set: KindSet,
    limit: u32,
    r: &mut R,
    w: &mut W,
) -> Result<(), ToolErr>
    requires least { 10 ≤ limit }
    requires most { limit ≤ MAX_LIMIT }
    requires source { IsFreshSource (R.log r.old) }
    requires sink { IsFreshSink (W.log w.old) }
    ensures { EncodesDigits set limit (R.log r.old) (R.log r.new) (W.log w.old) (W.log w.new) result }
{
    let bytes = encoded(alloc, set, limit, r)?;
    let line = digit_line(alloc, bytes.as_slice())?;
    write_all(w, line.as_bytes())
}

/// The command `encode`.
pub(crate) fn encode<R: Source, W: Sink>(
    alloc: Global,
    hex: bool,
    set: KindSet,
    limit: u32,
    r: &mut R,
    w: &mut W,
) -> Result<(), ToolErr>
    requires least { 10 ≤ limit }
    requires most { limit ≤ MAX_LIMIT }
    requires source { IsFreshSource (R.log r.old) }
    requires sink { IsFreshSink (W.log w.old) }
    ensures { DoesEncode hex set limit (R.log r.old) (R.log r.new) (W.log w.old) (W.log w.new) result }
{
    if hex {
        encode_digits(alloc, set, limit, r, w)
    } else {
        run_encode_in(alloc, set, r, w, limit)
    }
}

/// The status of a verdict, or the error.
pub(crate) fn verdict_status(outcome: Result<Verdict, ToolErr>) -> Result<u8, ToolErr>
    ensures { result ≡ verdict_status outcome }
{
    match outcome {
        Ok(verdict) => Ok(status_of(verdict)),
        Err(error) => Err(error),
    }
}

/// Status 0, or the error.
pub(crate) fn fine_status(outcome: Result<(), ToolErr>) -> Result<u8, ToolErr>
    ensures { result ≡ fine_status outcome }
{
    match outcome {
        Ok(()) => Ok(0),
        Err(error) => Err(error),
    }
}

/// The command `encode` of a listing, or with --json of lines of JSON, and its exit status.
pub(crate) fn encode_in_form<R: Source, W: Sink, E: Sink>(
    alloc: Global,
    json: bool,
    hex: bool,
    set: KindSet,
    limit: u32,
    r: &mut R,
    w: &mut W,
    e: &mut E,
) -> Result<u8, ToolErr>
    requires least { 10 ≤ limit }
    requires most { limit ≤ MAX_LIMIT }
    requires source { IsFreshSource (R.log r.old) }
    requires sink { IsFreshSink (W.log w.old) }
    requires errors { CanWrite (E.log e.old) }
    ensures encoded { EncodedTo json hex set limit (R.log r.old) (R.log r.new) (W.log w.old)
        (W.log w.new) (E.log e.old) (E.log e.new) result }
    ensures errors { IfErr result (λ error. FailsAsTold (E.log e.old) (E.log e.new) error) }
{
    if json {
        let outcome = encode_json(alloc, hex, set, limit, r, w);
        answer_lines(outcome, e)
    } else {
        let outcome = encode(alloc, hex, set, limit, r, w);
        answer(fine_status(outcome), e)
    }
}
