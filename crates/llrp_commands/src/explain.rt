//! The command `explain`.

ghost use Rattle.std.specs.Prelude.{◌≡◌, ◌≤◌, ◌<◌, ◌^◌, ◌++◌, ℕ, List, [], OnOk, length};
ghost use Rattle.llrp_tree.specs.declared.TheConstants.{MAX_LIMIT};
ghost use Rattle.llrp_commands.specs.Calls.Digits.{SpellsFront};
ghost use Rattle.llrp_commands.specs.Calls.Explain.{DoesExplain, ExplainsBytes, ExplainsDigits, form_of};
ghost use Rattle.llrp_commands.specs.Private.Explain.{Ends, HandsDigits, HandsOn};
ghost use Rattle.llrp_explain.specs.Calls.Explaining.{ExplainedSoFar};
ghost use Rattle.llrp_listing.specs.Calls.Copying.{Writes};
ghost use Rattle.llrp_listing.specs.Show.{verdict_of};
ghost use Rattle.llrp_stream.specs.Calls.Device.{CanWrite};
ghost use Rattle.llrp_stream.specs.Device.{IsFreshSink, IsFreshSource};

use crate::digits::Digits;
use llrp_explain::{Explainer, Form, StreamText};
use llrp_listing::{Pieces, ToolErr, Verdict, write_all};
use llrp_schema::KindSet;
use llrp_stream::{Sink, Source};
use std::alloc::Global;

/// What is written of a frame, with --json or without.
pub(crate) fn form_of(json: bool) -> Form
    ensures { result ≡ form_of json }
{
    if json { Form::Json } else { Form::Text }
}

/// The verdict on a stream that is lawful, or isn't.
fn verdict_of(lawful: bool) -> Verdict
    ensures { result ≡ verdict_of lawful }
{
    if lawful {
        Verdict::Lawful
    } else {
        Verdict::Faulty
    }
}

/// Writes the text of the frames that are whole, and drops it.
fn hand_on<W: Sink>(explainer: &mut Explainer, w: &mut W) -> Result<(), ToolErr>
    requires sink { CanWrite (W.log w.old) }
    ensures form { explainer.new.form ≡ explainer.old.form }
    ensures only { explainer.new.only ≡ explainer.old.only }
    ensures set { explainer.new.set ≡ explainer.old.set }
    ensures limit { explainer.new.limit ≡ explainer.old.limit }
    ensures wrote { Writes explainer.old.text.items (W.log w.old) (W.log w.new) result }
    ensures empty { OnOk result (explainer.new.text.items ≡ []) }
    ensures taken { OnOk result ((stream taken : List ℕ) → ExplainedSoFar explainer.old stream taken
        → ExplainedSoFar explainer.new stream (taken ++ explainer.old.text.items)) }
{
    write_all(w, explainer.whole())?;
    explainer.drop_whole();
    Ok(())
}

/// Takes a piece of a stream, and writes the text of the frames that are whole. Returns whether more may come.
fn take<W: Sink>(explainer: &mut Explainer, piece: &[u8], w: &mut W) -> Result<bool, ToolErr>
    requires least { 10 ≤ explainer.old.limit }
    requires most { explainer.old.limit ≤ MAX_LIMIT }
    requires some { (stream taken : List ℕ) × ExplainedSoFar explainer.old stream taken
        × (length (stream ++ piece.now) < 2 ^ 64) }
    requires sink { CanWrite (W.log w.old) }
    ensures form { explainer.new.form ≡ explainer.old.form }
    ensures only { explainer.new.only ≡ explainer.old.only }
    ensures set { explainer.new.set ≡ explainer.old.set }
    ensures limit { explainer.new.limit ≡ explainer.old.limit }
    ensures hands { (stream taken : List ℕ) → ExplainedSoFar explainer.old stream taken
        → length (stream ++ piece.now) < 2 ^ 64 → HandsOn explainer.old explainer.new
        (stream ++ piece.now) taken (W.log w.old) (W.log w.new) result }
{
    let goes_on = explainer.feed(piece)?;
    hand_on(explainer, w)?;
    Ok(goes_on)
}

/// Writes the text that is left, and the line of the stream's end.
fn end<W: Sink>(explainer: Explainer, w: &mut W) -> Result<Verdict, ToolErr>
    requires { CanWrite (W.log w.old) }
    ensures { Ends explainer (W.log w.old) (W.log w.new) result }
{
    let StreamText { text, lawful } = explainer.finish()?;
    write_all(w, text.as_slice())?;
    Ok(verdict_of(lawful))
}

/// Explains a stream of bytes, frame by frame: what is written of the frames that end in a piece is written before the next read.
fn explain_bytes<R: Source, W: Sink>(
    alloc: Global,
    form: Form,
    only: Option<u32>,
    set: KindSet,
    limit: u32,
    r: &mut R,
    w: &mut W,
) -> Result<Verdict, ToolErr>
    requires least { 10 ≤ limit }
    requires most { limit ≤ MAX_LIMIT }
    requires source { IsFreshSource (R.log r.old) }
    requires sink { IsFreshSink (W.log w.old) }
    ensures { ExplainsBytes form only set limit (R.log r.old) (R.log r.new) (W.log w.old)
        (W.log w.new) result }
{
    let mut explainer = Explainer::new_only(alloc, form, only, set, limit);
    let mut pieces = Pieces::new();
    'pieces: while let Some(piece) = pieces.next(r)? {
        let goes_on = take(&mut explainer, piece, w)?;
        if !goes_on {
            return end(explainer, w);
        }
    }
    end(explainer, w)
}

/// Takes a piece of hexadecimal digits, and writes the text of the frames that are whole. Returns
/// whether more may come. The error is `Hex` where an octet is neither digit nor space: what stands
/// before it was taken.
fn take_digits<W: Sink>(
    explainer: &mut Explainer,
    digits: &mut Digits,
    piece: &[u8],
    w: &mut W,
) -> Result<bool, ToolErr>
    requires least { 10 ≤ explainer.old.limit }
    requires most { explainer.old.limit ≤ MAX_LIMIT }
    requires some { (read octets taken : List ℕ) × SpellsFront read octets digits.old.half
        × ExplainedSoFar explainer.old octets taken × (length (read ++ piece.now) < 2 ^ 64) }
    requires sink { CanWrite (W.log w.old) }
    ensures form { explainer.new.form ≡ explainer.old.form }
    ensures only { explainer.new.only ≡ explainer.old.only }
    ensures set { explainer.new.set ≡ explainer.old.set }
    ensures limit { explainer.new.limit ≡ explainer.old.limit }
    ensures hands { (read octets taken : List ℕ) → SpellsFront read octets digits.old.half
        → ExplainedSoFar explainer.old octets taken → length (read ++ piece.now) < 2 ^ 64
        → HandsDigits explainer.old explainer.new digits.new.half (read ++ piece.now) taken
        (W.log w.old) (W.log w.new) result }
{
    let right = digits.feed(piece)?;
    let goes_on = take(explainer, digits.octets(), w)?;
    if goes_on && !right {
        return Err(ToolErr::Hex);
    }
    Ok(goes_on)
}

/// Explains a stream of hexadecimal digits, frame by frame, as `explain_bytes` does the octets that
/// they spell.
fn explain_digits<R: Source, W: Sink>(
    alloc: Global,
    form: Form,
    only: Option<u32>,
    set: KindSet,
    limit: u32,
    r: &mut R,
    w: &mut W,
) -> Result<Verdict, ToolErr>
    requires least { 10 ≤ limit }
    requires most { limit ≤ MAX_LIMIT }
    requires source { IsFreshSource (R.log r.old) }
    requires sink { IsFreshSink (W.log w.old) }
    ensures { ExplainsDigits form only set limit (R.log r.old) (R.log r.new) (W.log w.old)
        (W.log w.new) result }
{
    let mut explainer = Explainer::new_only(alloc, form, only, set, limit);
    let mut digits = Digits::new(alloc);
    let mut pieces = Pieces::new();
    'pieces: while let Some(piece) = pieces.next(r)? {
        let goes_on = take_digits(&mut explainer, &mut digits, piece, w)?;
        if !goes_on {
            return end(explainer, w);
        }
    }
    if digits.is_odd() {
        return Err(ToolErr::Hex);
    }
    end(explainer, w)
}

/// The command `explain`, of all frames or of those with one id.
pub(crate) fn explain<R: Source, W: Sink>(
    alloc: Global,
    form: Form,
    only: Option<u32>,
    hex: bool,
    set: KindSet,
    limit: u32,
    r: &mut R,
    w: &mut W,
) -> Result<Verdict, ToolErr>
    requires least { 10 ≤ limit }
    requires most { limit ≤ MAX_LIMIT }
    requires source { IsFreshSource (R.log r.old) }
    requires sink { IsFreshSink (W.log w.old) }
    ensures { DoesExplain form only hex set limit (R.log r.old) (R.log r.new) (W.log w.old)
        (W.log w.new) result }
{
    if hex {
        explain_digits(alloc, form, only, set, limit, r, w)
    } else {
        explain_bytes(alloc, form, only, set, limit, r, w)
    }
}
