//! The command `show` with --segments.

ghost use Rattle.std.specs.Prelude.{◌&&◌, ◌≤◌, ◌≡◌, ◌≢◌, MatchOption, IfErr, IfOk, is_none, not, option_map, ℕ};
ghost use Rattle.llrp_tree.specs.declared.TheConstants.{MAX_LIMIT};
ghost use Rattle.llrp_stream.specs.Calls.Device.{CanWrite};
ghost use Rattle.llrp_stream.specs.Device.{IsFreshSink, IsFreshSource};
ghost use Rattle.llrp_commands.specs.Calls.Command.{FailsAsTold};
ghost use Rattle.llrp_commands.specs.Calls.Does.{IsPort};
ghost use Rattle.llrp_commands.specs.Calls.ShowSegments.{MeansPort, SegmentsTo};

use crate::command::{USAGE, answer, verdict_status, write_parts};
use itoa::Buffer;
use llrp_listing::{ToolErr, write_all};
use llrp_schema::KindSet;
use llrp_sides::{Form, LineFault, ShowErr, show_segments};
use llrp_stream::{Sink, Source};
use llrp_words::SegmentWords;
use std::alloc::Global;

/// What is written where --segments and --port do not go with the other words.
const MISTAKE: &[u8] = b"\
error: show takes --segments without --hex and --names, and beside it --port from 1 to 65535

For more information, try '--help'.
";

/// The port that is registered for LLRP.
const OWN_PORT: u16 = 5084;

/// Whether --segments is there, and no option that does not go with it.
pub(crate) fn is_plain(hex: bool, names: Option<&str>, capture: SegmentWords<'_>) -> bool
    ensures { result ≡ (capture.entry.segments && (not hex && is_none names.entry)) }
{
    capture.segments && !hex && names.is_none()
}

/// The port that a word of --port spells.
fn port_in(word: &str) -> Option<u16>
    ensures { MatchOption result ((port : ℕ) → IsPort word.now port → ⊥) (IsPort word.now) }
{
    match word.parse::<u16>() {
        Ok(port) if port > 0 => Some(port),
        _ => None,
    }
}

/// The reader's port. `plain` says that --segments is there, and neither --hex nor --names.
fn port_meant(plain: bool, word: Option<&str>) -> Option<u16>
    ensures { MatchOption result ((port : ℕ) → MeansPort plain (option_map (λ t. t.now) word.entry) port → ⊥)
        (MeansPort plain (option_map (λ t. t.now) word.entry)) }
{
    if !plain {
        return None;
    }
    match word {
        Some(word) => port_in(word),
        None => Some(OWN_PORT),
    }
}

/// Writes the error line of a line of segments.
fn write_fault<E: Sink>(e: &mut E, line: u64, fault: LineFault) -> Result<(), ToolErr>
    requires { CanWrite (E.log e.old) }
    ensures { IfErr result (λ error. FailsAsTold (E.log e.old) (E.log e.new) error) }
{
    let mut digits = Buffer::new();
    let number = digits.format(line).as_bytes();
    write_parts(
        e,
        &[
            b"llrp: line ",
            number,
            b": ",
            fault.name().as_bytes(),
            b"\n",
        ],
    )
}

/// Answers a capture that was not listed to its end, by a status that is not 0.
fn answer_stopped<E: Sink>(error: ShowErr, e: &mut E) -> Result<u8, ToolErr>
    requires { CanWrite (E.log e.old) }
    ensures status { IfOk result (λ status. status ≢ 0) }
    ensures errors { IfErr result (λ error. FailsAsTold (E.log e.old) (E.log e.new) error) }
{
    match error {
        ShowErr::Tool(error) => answer(Err(error), e),
        ShowErr::Line { line, fault } => {
            write_fault(e, line, fault)?;
            Ok(1)
        }
    }
}

/// The command `show` with --segments and this word of --port, and its exit status. `plain` says that --segments is there,
/// and neither --hex nor --names.
pub(crate) fn show_by_segments<R: Source, W: Sink, E: Sink>(
    alloc: Global,
    plain: bool,
    json: bool,
    word: Option<&str>,
    set: KindSet,
    limit: u32,
    r: &mut R,
    w: &mut W,
    e: &mut E,
) -> Result<u8, ToolErr>
    requires least { 10 ≤ limit }
    requires most { limit ≤ MAX_LIMIT }
    requires source { IsFreshSource (R.log r.old) }
    requires sink { IsFreshSink (W.log w.old) }
    requires errors { CanWrite (E.log e.old) }
    ensures shown { SegmentsTo plain json (option_map (λ t. t.now) word.entry) set limit
        (R.log r.old) (R.log r.new) (W.log w.old) (W.log w.new) (E.log e.old) (E.log e.new) result }
    ensures errors { IfErr result (λ error. FailsAsTold (E.log e.old) (E.log e.new) error) }
{
    let Some(port) = port_meant(plain, word) else {
        write_all(e, MISTAKE)?;
        return Ok(USAGE);
    };
    let form = Form { json, set, limit };
    match show_segments(alloc, form, port, r, w) {
        Ok(verdict) => answer(verdict_status(Ok(verdict)), e),
        Err(error) => answer_stopped(error, e),
    }
}
