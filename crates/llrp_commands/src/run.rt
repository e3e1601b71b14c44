//! The command line: runs what its words ask for.

ghost use Rattle.std.specs.Prelude.{◌≡◌, IfErr, map, ℕ};
ghost use Rattle.llrp_words.specs.Calls.Asked.{Show, show};
ghost use Rattle.llrp_commands.specs.Calls.Command.{FailsAsTold, own_names};
ghost use Rattle.llrp_commands.specs.Calls.Does.{Does, MeansLines, Runs, RunsEncode, RunsEpc, RunsShow, SaysHelp, captured};
ghost use Rattle.llrp_commands.specs.Calls.ShowNames.{AnswersMistake};
ghost use Rattle.llrp_commands.specs.Calls.ShowSegments.{CapturesIfAsked, CapturesTo};
ghost use Rattle.llrp_words.specs.Calls.Requests.{HasLimit, IsLimit, IsUnsaid};
ghost use Rattle.llrp_words.specs.Calls.Said.{said, said_encode, said_epc, said_show};
ghost use Rattle.llrp_stream.specs.Device.{IsFreshSink, IsFreshSource};
ghost use Rattle.llrp_stream.specs.Calls.Device.{CanWrite};

use crate::command::{USAGE, answer, encode_in_form, fine_status, set_of, show, verdict_status};
use crate::epc::{answer_epc, epc, mistake_of};
use crate::explain::{explain, form_of};
use crate::fields::{answer_fields, fields};
use crate::labelled::{encode_with_labels, goes_without_labels, show_with_labels};
use crate::show_names::show_by_names;
use crate::show_segments::{is_plain, show_by_segments};
use llrp_json::Names;
use llrp_listing::{ToolErr, write_all};
use llrp_stream::{Sink, Source};
use llrp_tree::MAX_LIMIT;
use llrp_words::{EncodeWords, EpcWords, MOST_OCTETS, Request, ShowWords, request_of};
use std::alloc::Global;
use std::convert::AsStr;
use tag_forms::Company;

/// What --limit takes is what a message may have.
const _: () = prove!(MOST_OCTETS == MAX_LIMIT);

/// The names of lines of JSON, if they are asked for, where no word chooses them.
fn own_names(json: bool) -> Option<Names>
    ensures { result ≡ own_names json }
{
    if json { Some(Names::Own) } else { None }
}

/// The command `show`, and its exit status.
fn run_show<R: Source, W: Sink, E: Sink>(
    alloc: Global,
    words: ShowWords<'_>,
    r: &mut R,
    w: &mut W,
    e: &mut E,
) -> Result<u8, ToolErr>
    requires limit { IsLimit words.limit }
    requires source { IsFreshSource (R.log r.old) }
    requires sink { IsFreshSink (W.log w.old) }
    requires errors { CanWrite (E.log e.old) }
    ensures does { RunsShow (said_show words.entry) (R.log r.old) (R.log r.new) (W.log w.old)
        (W.log w.new) (E.log e.old) (E.log e.new) result }
    ensures segments { (port : ℕ) → MeansLines (said_show words.entry) (captured port)
        → CapturesTo (said_show words.entry) port (R.log r.old) (R.log r.new) (W.log w.old)
        (W.log w.new) (E.log e.old) (E.log e.new) result }
    ensures errors { IfErr result (λ error. FailsAsTold (E.log e.old) (E.log e.new) error) }
{
    let (hex, json, limit) = (words.hex, words.json, words.limit);
    let set = set_of(words.all);
    if words.labels.asks() {
        let other = goes_without_labels(json, words.names, words.capture);
        return show_with_labels(alloc, other, words.labels, hex, set, limit, r, w, e);
    }
    if words.capture.asks() {
        let plain = is_plain(hex, words.names, words.capture);
        return show_by_segments(alloc, plain, json, words.capture.port, set, limit, r, w, e);
    }
    match words.names {
        Some(word) => show_by_names(alloc, json, word, hex, set, limit, r, w, e),
        None => {
            let outcome = show(alloc, own_names(json), hex, set, limit, r, w);
            answer(verdict_status(outcome), e)
        }
    }
}

/// The command `encode`, and its exit status.
fn run_encode<R: Source, W: Sink, E: Sink>(
    alloc: Global,
    words: EncodeWords<'_>,
    r: &mut R,
    w: &mut W,
    e: &mut E,
) -> Result<u8, ToolErr>
    requires limit { IsLimit words.limit }
    requires source { IsFreshSource (R.log r.old) }
    requires sink { IsFreshSink (W.log w.old) }
    requires errors { CanWrite (E.log e.old) }
    ensures does { RunsEncode (said_encode words.entry) (R.log r.old) (R.log r.new) (W.log w.old)
        (W.log w.new) (E.log e.old) (E.log e.new) result }
    ensures errors { IfErr result (λ error. FailsAsTold (E.log e.old) (E.log e.new) error) }
{
    let (hex, json, limit) = (words.hex, words.json, words.limit);
    let set = set_of(words.all);
    if words.labels.asks() {
        encode_with_labels(alloc, json, words.labels, hex, set, limit, r, w, e)
    } else {
        encode_in_form(alloc, json, hex, set, limit, r, w, e)
    }
}

/// The command `epc`, and its exit status. One with a file of company prefixes is left to the program.
fn run_epc<R: Source, W: Sink, E: Sink>(
    alloc: Global,
    words: EpcWords<'_>,
    r: &mut R,
    w: &mut W,
    e: &mut E,
) -> Result<u8, ToolErr>
    requires unsaid { IsUnsaid words }
    requires source { IsFreshSource (R.log r.old) }
    requires sink { IsFreshSink (W.log w.old) }
    requires errors { CanWrite (E.log e.old) }
    ensures does { RunsEpc (said_epc words.entry) (R.log r.old) (R.log r.new) (W.log w.old)
        (W.log w.new) (E.log e.old) (E.log e.new) result }
    ensures errors { IfErr result (λ error. FailsAsTold (E.log e.old) (E.log e.new) error) }
{
    match words.prefixes {
        Some(_) => Ok(USAGE),
        None => {
            let outcome = epc(alloc, words, Company::Digits(words.company_digits), r, w);
            answer_epc(outcome, mistake_of(words), e)
        }
    }
}

/// Writes the help or the version to standard output.
fn say_help<W: Sink, E: Sink>(text: &str, w: &mut W, e: &mut E) -> Result<u8, ToolErr>
    requires sink { CanWrite (W.log w.old) }
    requires errors { CanWrite (E.log e.old) }
    ensures says { SaysHelp (W.log w.old) (W.log w.new) (E.log e.old) (E.log e.new) result }
    ensures errors { IfErr result (λ error. FailsAsTold (E.log e.old) (E.log e.new) error) }
{
    let outcome = write_all(w, text.as_bytes());
    answer(fine_status(outcome), e)
}

/// Writes what is wrong with the words to standard error.
fn say_mistake<E: Sink>(text: &str, e: &mut E) -> Result<u8, ToolErr>
    requires { CanWrite (E.log e.old) }
    ensures mistake { AnswersMistake (E.log e.old) (E.log e.new) result }
    ensures errors { IfErr result (λ error. FailsAsTold (E.log e.old) (E.log e.new) error) }
{
    write_all(e, text.as_bytes())?;
    Ok(USAGE)
}

/// Does what is requested, and returns the exit status, as [`run_command`] says.
pub fn run_request<R: Source, W: Sink, E: Sink>(
    alloc: Global,
    request: &Request<'_>,
    r: &mut R,
    w: &mut W,
    e: &mut E,
) -> Result<u8, ToolErr>
    requires limit { HasLimit request.now }
    requires source { IsFreshSource (R.log r.old) }
    requires sink { IsFreshSink (W.log w.old) }
    requires errors { CanWrite (E.log e.old) }
    ensures does { Does (said request.now) (R.log r.old) (R.log r.new) (W.log w.old) (W.log w.new)
        (E.log e.old) (E.log e.new) result }
    ensures segments { (s : Show) (port : ℕ) → said request.now ≡ show s → MeansLines s (captured port)
        → CapturesTo s port (R.log r.old) (R.log r.new) (W.log w.old) (W.log w.new) (E.log e.old)
        (E.log e.new) result }
    ensures errors { IfErr result (λ error. FailsAsTold (E.log e.old) (E.log e.new) error) }
{
    match request {
        Request::Show(words) => run_show(alloc, *words, r, w, e),
        Request::Encode(words) => run_encode(alloc, *words, r, w, e),
        Request::Epc(words) => run_epc(alloc, *words, r, w, e),
        Request::Fields { all, name } => {
            let (set, name) = (set_of(*all), *name);
            let outcome = fields(alloc, set, name, w);
            answer_fields(alloc, set, name.unwrap_or(""), outcome, e)
        }
        Request::Explain {
            hex,
            all,
            json,
            only,
            limit,
        } => {
            let set = set_of(*all);
            let outcome = explain(alloc, form_of(*json), *only, *hex, set, *limit, r, w);
            answer(verdict_status(outcome), e)
        }
        Request::Network(_) => Ok(USAGE),
        Request::Help(text) => say_help(text.as_str(), w, e),
        Request::Usage(text) => say_mistake(text.as_str(), e),
    }
}

/// Runs the command that the words after the program's name ask for, and returns its exit status: 0 if all is
/// well, 1 if the input has a fault, 2 if the words ask for no command, and 3 if a device failed or memory
/// ran out. An error is written to `e` as a line. For a command that the program runs itself, and for `epc`
/// with a file, the status is 2, and nothing is read or written. Files that the words name are not opened:
/// `r` stands for one of them. The only errors are `Memory`, and `Write` if writing to `e` failed.
pub fn run_command<S: AsStr, R: Source, W: Sink, E: Sink>(
    alloc: Global,
    words: &[S],
    r: &mut R,
    w: &mut W,
    e: &mut E,
) -> Result<u8, ToolErr>
    requires source { IsFreshSource (R.log r.old) }
    requires sink { IsFreshSink (W.log w.old) }
    requires errors { IsFreshSink (E.log e.old) }

    // It does what the words ask for, whatever command and options they name.
    ensures runs { Runs (map S.text words.entry.now) (R.log r.old) (R.log r.new) (W.log w.old)
        (W.log w.new) (E.log e.old) (E.log e.new) result }

    // If they ask show for a capture, it lists the frames of its segments.
    ensures segments { CapturesIfAsked (map S.text words.entry.now) (R.log r.old) (R.log r.new)
        (W.log w.old) (W.log w.new) (E.log e.old) (E.log e.new) result }
    ensures errors { IfErr result (λ error. FailsAsTold (E.log e.old) (E.log e.new) error) }
{
    let request = request_of(alloc, words)?;
    run_request(alloc, &request, r, w, e)
}
