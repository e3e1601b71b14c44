//! The commands `show` and `encode` with --keys and --schemes.

ghost use Rattle.std.specs.Prelude.{◌≤◌, ◌≡◌, ◌||◌, MatchOption, IfErr, option_map};
ghost use Rattle.std.specs.Option.{is_some};
ghost use Rattle.llrp_tree.specs.declared.TheConstants.{MAX_LIMIT};
ghost use Rattle.llrp_stream.specs.Calls.Device.{CanWrite};
ghost use Rattle.llrp_stream.specs.Device.{IsFreshSink, IsFreshSource};
ghost use Rattle.llrp_listing.specs.Calls.Copying.{Writes};
ghost use Rattle.llrp_labels.specs.declared.labels.Labels.{Labels};
ghost use Rattle.llrp_commands.specs.Calls.Command.{FailsAsTold};
ghost use Rattle.llrp_commands.specs.Calls.Labelled.{AnswersLabels, EncodesLabelled, LabelsEncodedTo, MeansLabels, ShownTo, label_line};
ghost use Rattle.llrp_commands.specs.Calls.ShowNames.{AnswersMistake};

use crate::command::{USAGE, answer, encode, verdict_status, write_parts};
use itoa::Buffer;
use llrp_labels::{LabelErr, LabelFault, Labels, read_plain, run_show_labelled};
use llrp_listing::{ToolErr, write_all};
use llrp_schema::KindSet;
use llrp_stream::{Input, Sink, Source};
use llrp_words::{LabelWords, SegmentWords};
use std::alloc::Global;

/// What is written where --keys or --schemes does not go with the other words.
const MISTAKE: &[u8] = b"\
error: --keys and --schemes go with a listing, without --json, --names, --segments and --port, and --schemes takes all

For more information, try '--help'.
";

/// Whether one of these options of `show` was given, which go with no labels.
pub(crate) fn goes_without_labels(
    json: bool,
    names: Option<&str>,
    capture: SegmentWords<'_>,
) -> bool
    ensures { result ≡ (json || (is_some names.entry
        || (capture.entry.segments || is_some capture.entry.port))) }
{
    json || names.is_some() || capture.asks()
}

/// The labels that the words ask for, if no option beside them goes with none.
fn labels_meant(other: bool, words: LabelWords<'_>) -> Option<Labels>
    ensures { MatchOption result ((labels : Labels)
        → MeansLabels other words.entry.keys (option_map (λ t. t.now) words.entry.schemes) labels → ⊥)
        (MeansLabels other words.entry.keys (option_map (λ t. t.now) words.entry.schemes)) }
{
    if other {
        return None;
    }
    match words.schemes {
        None => Some(Labels {
            schemes: false,
            keys: words.keys,
        }),
        Some("all") => Some(Labels {
            schemes: true,
            keys: words.keys,
        }),
        Some(_) => None,
    }
}

/// Says that the words do not go together.
fn refuse_words<E: Sink>(e: &mut E) -> Result<u8, ToolErr>
    requires { CanWrite (E.log e.old) }
    ensures mistake { AnswersMistake (E.log e.old) (E.log e.new) result }
    ensures errors { IfErr result (λ error. FailsAsTold (E.log e.old) (E.log e.new) error) }
{
    write_all(e, MISTAKE)?;
    Ok(USAGE)
}

/// The command `show` with these labels, and its exit status; `other` says whether an option was given that
/// goes with no labels.
pub(crate) fn show_with_labels<R: Source, W: Sink, E: Sink>(
    alloc: Global,
    other: bool,
    words: LabelWords<'_>,
    hex: bool,
    set: KindSet,
    limit: u32,
    r: &mut R,
    w: &mut W,
    e: &mut E,
) -> Result<u8, ToolErr>
    requires least { 10 ≤ limit }
    requires most { limit ≤ MAX_LIMIT }
    requires source { IsFreshSource (R.log r.old) }
    requires sink { IsFreshSink (W.log w.old) }
    requires errors { CanWrite (E.log e.old) }
    ensures shown { ShownTo other words.entry.keys (option_map (λ t. t.now) words.entry.schemes) hex set limit
        (R.log r.old) (R.log r.new) (W.log w.old) (W.log w.new) (E.log e.old) (E.log e.new) result }
    ensures errors { IfErr result (λ error. FailsAsTold (E.log e.old) (E.log e.new) error) }
{
    match labels_meant(other, words) {
        Some(labels) => {
            let outcome = run_show_labelled(alloc, labels, hex, set, r, w, limit);
            answer(verdict_status(outcome), e)
        }
        None => refuse_words(e),
    }
}

/// Encodes a listing with labels, all of which is read first.
fn encode_labelled<R: Source, W: Sink>(
    alloc: Global,
    labels: Labels,
    hex: bool,
    set: KindSet,
    limit: u32,
    r: &mut R,
    w: &mut W,
) -> Result<(), LabelErr>
    requires least { 10 ≤ limit }
    requires most { limit ≤ MAX_LIMIT }
    requires source { IsFreshSource (R.log r.old) }
    requires sink { IsFreshSink (W.log w.old) }
    ensures { EncodesLabelled labels hex set limit (R.log r.old) (R.log r.new) (W.log w.old) (W.log w.new) result }
{
    let plain = match read_plain(alloc, labels, r) {
        Ok(plain) => plain,
        Err(error) => return Err(error),
    };
    let mut listing = Input::new(plain.as_slice());
    match encode(alloc, hex, set, limit, &mut listing, w) {
        Ok(()) => Ok(()),
        Err(error) => Err(LabelErr::Stopped(error)),
    }
}

/// Writes the error line of a line with labels that is refused.
fn write_fault<E: Sink>(e: &mut E, line: u64, fault: LabelFault) -> Result<(), ToolErr>
    requires { CanWrite (E.log e.old) }
    ensures { Writes (label_line line fault) (E.log e.old) (E.log e.new) result }
{
    let mut digits = Buffer::new();
    let number = digits.format(line).as_bytes();
    let (name, inner) = fault.names();
    write_parts(
        e,
        &[
            b"llrp: line ",
            number,
            b": ",
            name.as_bytes(),
            inner.as_bytes(),
            b"\n",
        ],
    )
}

/// The exit status of `encode` with labels, after the line of its error was written.
fn answer_labels<E: Sink>(outcome: Result<(), LabelErr>, e: &mut E) -> Result<u8, ToolErr>
    requires { CanWrite (E.log e.old) }
    ensures answers { AnswersLabels outcome (E.log e.old) (E.log e.new) result }
    ensures errors { IfErr result (λ error. FailsAsTold (E.log e.old) (E.log e.new) error) }
{
    match outcome {
        Ok(()) => Ok(0),
        Err(LabelErr::Line { line, fault }) => {
            write_fault(e, line, fault)?;
            Ok(1)
        }
        Err(LabelErr::Stopped(error)) => answer(Err(error), e),
    }
}

/// The command `encode` with these labels, and its exit status; `other` says whether an option was given that
/// goes with no labels.
pub(crate) fn encode_with_labels<R: Source, W: Sink, E: Sink>(
    alloc: Global,
    other: bool,
    words: LabelWords<'_>,
    hex: bool,
    set: KindSet,
    limit: u32,
    r: &mut R,
    w: &mut W,
    e: &mut E,
) -> Result<u8, ToolErr>
    requires least { 10 ≤ limit }
    requires most { limit ≤ MAX_LIMIT }
    requires source { IsFreshSource (R.log r.old) }
    requires sink { IsFreshSink (W.log w.old) }
    requires errors { CanWrite (E.log e.old) }
    ensures encoded { LabelsEncodedTo other words.entry.keys (option_map (λ t. t.now) words.entry.schemes) hex set limit
        (R.log r.old) (R.log r.new) (W.log w.old) (W.log w.new) (E.log e.old) (E.log e.new) result }
    ensures errors { IfErr result (λ error. FailsAsTold (E.log e.old) (E.log e.new) error) }
{
    match labels_meant(other, words) {
        Some(labels) => {
            let outcome = encode_labelled(alloc, labels, hex, set, limit, r, w);
            answer_labels(outcome, e)
        }
        None => refuse_words(e),
    }
}
