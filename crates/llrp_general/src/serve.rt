//! Serves one general client by a script.

ghost use Rattle.std.specs.Prelude.{◌≡◌, ◌+◌, ◌++◌, [], List, OnOk, ℕ};
ghost use Rattle.llrp_stream.specs.Calls.Device.{CanWrite};
ghost use Rattle.llrp_stream.specs.Device.{IsFreshSink, IsFreshSource, SinkLog};
ghost use Rattle.llrp_general.specs.Calls.Serving.{RunsServeAmong, RunsServeWhole, Setting, counted, setting};
ghost use Rattle.llrp_general.specs.Private.Standing.{IsFresh, Served, ServesNoted, ServesOn, answer_of as the_answer_of, left_by, not_closed};

use crate::frames::say;
use crate::others::{Nobody, OtherClients};
use crate::serving::{Going, WholeReader};
use llrp_answers::Answers;
use llrp_endpoints::Script;
use llrp_listing::{Pieces, ToolErr};
use llrp_session::Reader;
use llrp_stream::{Sink, Source};
use std::alloc::Global;

/// The greatest number of other clients of which a client hears between two reads.
const MOST_OTHERS: u64 = 9_223_372_036_854_775_807;

/// Whether the client closed the connection, after a piece after which it goes so.
fn answer_of(going: Going) -> Result<bool, ToolErr>
    ensures { result ≡ the_answer_of going }
{
    match going {
        Going::On => Ok(false),
        Going::Closed => Ok(true),
        Going::Broken => Err(ToolErr::Broken),
    }
}

/// Lets the client connect, and writes what is sent before any octets came.
fn begin<W: Sink>(server: &mut WholeReader, w: &mut W) -> Result<(), ToolErr>
    requires { CanWrite (W.log w.old) }
    ensures begins { (s : Setting) → IsFresh s server.old
        → ServesOn s 0 [] (W.log w.old) (W.log w.new) server.new (not_closed result) }
    ensures can { OnOk result (CanWrite (W.log w.new)) }
{
    let alloc = server.alloc();
    let mut sent = Vec::new(alloc);
    server.start(&mut sent)?;
    say(alloc, sent.as_slice(), w)
}

/// Takes a piece of the client's octets, and writes what is sent to it. Returns whether the client
/// closed the connection. The errors are `Broken` at a length field below 10, `Memory` and `Write`.
fn take_piece<W: Sink>(server: &mut WholeReader, piece: &[u8], w: &mut W) -> Result<bool, ToolErr>
    requires { CanWrite (W.log w.old) }
    ensures takes { (s : Setting) (others : ℕ) (bytes : List ℕ) (w0 : SinkLog)
        → Served s others bytes w0 (W.log w.old) server.old
        → ServesOn s others (bytes ++ piece.now) w0 (W.log w.new) server.new result }
    ensures can { OnOk result (CanWrite (W.log w.new)) }
{
    let alloc = server.alloc();
    let mut sent = Vec::new(alloc);
    let going = server.feed(piece, &mut sent)?;
    say(alloc, sent.as_slice(), w)?;
    answer_of(going)
}

/// Lets the client hear that another one came. The errors are `Memory` and `Write`.
fn note_other<W: Sink>(server: &mut WholeReader, w: &mut W) -> Result<(), ToolErr>
    requires { CanWrite (W.log w.old) }
    ensures notes { (s : Setting) (others : ℕ) (bytes : List ℕ) (w0 : SinkLog)
        → Served s others bytes w0 (W.log w.old) server.old
        → ServesOn s (others + 1) bytes w0 (W.log w.new) server.new (not_closed result) }
    ensures can { OnOk result (CanWrite (W.log w.new)) }
{
    let alloc = server.alloc();
    let mut sent = Vec::new(alloc);
    server.note_other(&mut sent)?;
    say(alloc, sent.as_slice(), w)
}

/// Lets the client hear of each other one that comes before octets of its own do. The errors are
/// `Memory` and `Write`.
fn note_others<O: OtherClients, W: Sink>(
    server: &mut WholeReader,
    others: &mut O,
    w: &mut W,
) -> Result<(), ToolErr>
    requires { CanWrite (W.log w.old) }
    ensures notes { (s : Setting) (before : ℕ) (bytes : List ℕ) (w0 : SinkLog)
        → O.count others.old ≡ counted before
        → Served s before bytes w0 (W.log w.old) server.old
        → ServesNoted s bytes w0 (W.log w.new) server.new (O.count others.new) result }
    ensures can { OnOk result (CanWrite (W.log w.new)) }
{
    'notes: for _note in 0..MOST_OTHERS {
        if !others.one_came(server.moment()) {
            return Ok(());
        }
        note_other(server, w)?;
    }
    Ok(())
}

/// Serves a client by a reader before its client came.
fn serve<O: OtherClients, R: Source, W: Sink>(
    server: &mut WholeReader,
    others: &mut O,
    r: &mut R,
    w: &mut W,
) -> Result<(), ToolErr>
    requires none { O.count others.old ≡ 0 }
    requires source { IsFreshSource (R.log r.old) }
    requires sink { IsFreshSink (W.log w.old) }
    ensures { (s : Setting) → IsFresh s server.old → RunsServeAmong s (O.count others.new)
        (left_by server.new) (R.log r.old) (R.log r.new) (W.log w.old) (W.log w.new) result }
{
    begin(server, w)?;
    note_others(server, others, w)?;
    let mut pieces = Pieces::new();
    while let Some(piece) = pieces.next(r)? {
        if take_piece(server, piece, w)? {
            return Ok(());
        }
        note_others(server, others, w)?;
    }
    server.finish()
}

/// Serves the client whose octets the source gives, and writes what a simulated reader of the whole
/// standard sends to it, acting by the script, to the sink; that for what was read is written before
/// the next read. Requests about versions are answered, a message of another version than that in use
/// is refused, and of messages that the profile does not have some are answered by these answers and
/// some by themselves; none of these comes to the reader, so the script does not count them. Of every
/// other message the reader takes what the profile has of it. Where it refuses one, and where a frame is no
/// message, the LLRPStatus says which field or parameter it is.
///
/// It ends well once the client closed the connection, or if the source ends after a whole frame. The
/// error is `Early` if the source ends within a frame, and `Broken` at a length field below 10. After
/// `Read`, `Write`, `Bound` or `Memory`, some first part of what the reader sends was written. Returns
/// also the reader as the client leaves it to the next one, however that ended.
pub fn run_serve_whole<R: Source, W: Sink>(
    alloc: Global,
    core: Reader,
    script: Script,
    answers: Answers,
    r: &mut R,
    w: &mut W,
) -> (Result<(), ToolErr>, Reader)
    requires source { IsFreshSource (R.log r.old) }
    requires sink { IsFreshSink (W.log w.old) }
    ensures { (bytes : List ℕ) × RunsServeWhole (setting core answers.pairs.items script) 0 result.1
        (R.log r.old) (R.log r.new) (W.log w.old) (W.log w.new) bytes result.0 }
{
    let mut nobody = Nobody;
    run_serve_among(alloc, core, script, answers, &mut nobody, r, w)
}

/// Serves the client whose octets the source gives as [`run_serve_whole`] does, while other clients may
/// come. For each that comes while octets are awaited, the reader says a ConnectionAttemptEvent 4, that
/// another connection was attempted (LLRP 1.1, section 14.2.2.11), at the moment of the last entry done;
/// that is written before the next read.
pub fn run_serve_among<O: OtherClients, R: Source, W: Sink>(
    alloc: Global,
    core: Reader,
    script: Script,
    answers: Answers,
    others: &mut O,
    r: &mut R,
    w: &mut W,
) -> (Result<(), ToolErr>, Reader)
    requires none { O.count others.old ≡ 0 }
    requires source { IsFreshSource (R.log r.old) }
    requires sink { IsFreshSink (W.log w.old) }
    ensures { RunsServeAmong (setting core answers.pairs.items script) (O.count others.new) result.1
        (R.log r.old) (R.log r.new) (W.log w.old) (W.log w.new) result.0 }
{
    let mut server = WholeReader::new(alloc, core, script, answers);
    let outcome = serve(&mut server, others, r, w);
    (outcome, server.into_reader())
}
