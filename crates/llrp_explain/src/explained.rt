//! The text of a frame, and of the frames of a stream.

ghost use Rattle.std.specs.Prelude.{◌&&◌, ◌≡◌, ◌+◌, ◌^◌, ◌≤◌, ◌<◌, ◌++◌, ℕ, List, [], false, None, IfOk, IfSome, OnOk, length, take};
ghost use Rattle.llrp_tree.specs.declared.TheConstants.{MAX_LIMIT};
ghost use Rattle.llrp_explain.specs.Calls.Explained.{ExplainsOnly, ExplainsStream, ExplainsStreamIn, broken_line, end_line, frame_title, in_form, is_clean, rest_line, written_if};
ghost use Rattle.llrp_stream.specs.Cuts.{IsFrame};
ghost use Rattle.llrp_explain.specs.Calls.Explaining.{ExplainedSoFar};
ghost use Rattle.llrp_explain.specs.Private.Printing.{IsAppended, IsGiven};
ghost use Rattle.llrp_explain.specs.Private.Steps.{IsStep};

use crate::asked::{is_asked, keep_head};
use crate::fault_texts::push_outcome;
use crate::form::Form;
use crate::json::push_frame;
use crate::printer::FramePrinter;
use crate::push::push_digits;
use llrp_schema::KindSet;
use llrp_stream::{End, FeedErr, Frames, Outcome};
use std::alloc::{AllocError, Global};

/// Appends what comes before the lines of a frame.
fn push_title(text: &mut Vec<u8>, number: u64, octets: u64) -> Result<(), AllocError>
    ensures { OnOk result (text.new.items ≡ text.old.items ++ frame_title number octets) }
{
    text.extend_from_slice(b"frame ")?;
    push_digits(text, number as u128)?;
    text.extend_from_slice(b", ")?;
    push_digits(text, octets as u128)?;
    text.extend_from_slice(b" octets\nBIT WIDTH LEVEL FIELD VALUE\n")
}

/// Appends what is written of the frame with this number, of this many octets, whose lines have this text.
fn push_written(
    text: &mut Vec<u8>,
    form: Form,
    number: u64,
    octets: u64,
    lines: &[u8],
) -> Result<(), AllocError>
    ensures { OnOk result (text.new.items ≡ text.old.items
        ++ in_form form number octets lines.now) }
{
    match form {
        Form::Text => {
            push_title(text, number, octets)?;
            text.extend_from_slice(lines)
        }
        Form::Json => push_frame(text, number, octets, lines),
    }
}

/// Appends the same if the frame is asked for.
fn push_asked(
    text: &mut Vec<u8>,
    asked: bool,
    form: Form,
    number: u64,
    octets: u64,
    lines: &[u8],
) -> Result<(), AllocError>
    ensures { OnOk result (text.new.items ≡ text.old.items
        ++ written_if asked (in_form form number octets lines.now)) }
{
    if !asked {
        return Ok(());
    }
    push_written(text, form, number, octets, lines)
}

/// Appends how many octets are left of an unfinished frame.
fn push_rest(text: &mut Vec<u8>, form: Form, octets: u64) -> Result<(), AllocError>
    ensures { OnOk result (text.new.items ≡ text.old.items ++ rest_line form octets) }
{
    match form {
        Form::Text => {
            text.extend_from_slice(b"? ")?;
            push_digits(text, octets as u128)?;
            text.extend_from_slice(b"\n")
        }
        Form::Json => {
            text.extend_from_slice(b"{\"rest\":")?;
            push_digits(text, octets as u128)?;
            text.extend_from_slice(b"}\n")
        }
    }
}

/// Appends that no frame begins with what is left.
fn push_broken(text: &mut Vec<u8>, form: Form) -> Result<(), AllocError>
    ensures { OnOk result (text.new.items ≡ text.old.items ++ broken_line form) }
{
    match form {
        Form::Text => text.extend_from_slice(b"! BROKEN\n"),
        Form::Json => text.extend_from_slice(b"{\"broken\":true}\n"),
    }
}

/// Appends the line of a stream's end, if it has one.
#[tactic(auto, unfolding(crate::specs::Calls::Explained::end_line))]
fn push_end(text: &mut Vec<u8>, form: Form, end: End) -> Result<(), AllocError>
    ensures { OnOk result (text.new.items ≡ text.old.items ++ end_line form end) }
{
    match end {
        End::Clean | End::Dead => Ok(()),
        End::Rest(octets) => push_rest(text, form, octets),
        End::Broken => push_broken(text, form),
    }
}

/// Whether a stream ends after a whole frame.
fn is_clean(end: End) -> bool
    ensures { result ≡ is_clean end }
{
    match end {
        End::Clean => true,
        End::Rest(_) | End::Broken | End::Dead => false,
    }
}

/// Whether two things hold.
fn both(first: bool, second: bool) -> bool
    ensures { result ≡ (first && second) }
{
    first && second
}

/// The text of a stream, and whether all of it is lawful.
#[derive(Drop)]
pub struct StreamText {
    pub text: Vec<u8>,
    pub lawful: bool,
}

/// Explains the frames of a stream, which comes in pieces of any size. Of an unfinished frame it keeps its lines and its first ten octets.
#[derive(Drop)]
pub struct Explainer {
    pub(crate) form: Form,
    /// The id of the frames that are written; `None` if all are.
    pub(crate) only: Option<u32>,
    pub(crate) set: KindSet,
    pub(crate) limit: u32,
    pub(crate) frames: Frames,
    pub(crate) printer: FramePrinter,
    /// How many frames are whole.
    pub(crate) count: u64,
    /// How many octets of the current frame came.
    pub(crate) octets: u64,
    /// The first ten of these, or fewer where no more came.
    pub(crate) head: Vec<u8>,
    /// Each of the whole frames spells a message.
    pub(crate) lawful: bool,
    /// The text of the lines of the last of them.
    pub(crate) lines: Vec<u8>,
    /// Their text, but for what was taken of it.
    pub(crate) text: Vec<u8>,
}

impl Explainer {
    /// An explainer of frames of a set of kinds to which no octet was given.
    pub fn new(alloc: Global, form: Form, set: KindSet, limit: u32) -> Explainer
        ensures form { result.form ≡ form }
        ensures only { result.only ≡ None }
        ensures limit { result.limit ≡ limit }
        ensures set { result.set ≡ set }
        ensures text { result.text.items ≡ [] }
        ensures so_far { ExplainedSoFar result [] [] }
    {
        Explainer::new_only(alloc, form, None, set, limit)
    }

    /// One that writes only the frames with this MessageID, if it has one. The others count, and are read as they are without it.
    pub fn new_only(
        alloc: Global,
        form: Form,
        only: Option<u32>,
        set: KindSet,
        limit: u32,
    ) -> Explainer
        ensures form { result.form ≡ form }
        ensures only { result.only ≡ only }
        ensures limit { result.limit ≡ limit }
        ensures set { result.set ≡ set }
        ensures text { result.text.items ≡ [] }
        ensures so_far { ExplainedSoFar result [] [] }
    {
        Explainer {
            form,
            only,
            set,
            limit,
            frames: Frames::new_in(set, limit),
            printer: FramePrinter::new(alloc),
            count: 0,
            octets: 0,
            head: Vec::new(alloc),
            lawful: true,
            lines: Vec::new(alloc),
            text: Vec::new(alloc),
        }
    }

    /// Appends the text of a frame, all of which came, if it is asked for.
    fn end_frame(&mut self, outcome: Outcome) -> Result<(), AllocError>
        requires most { self.old.limit ≤ MAX_LIMIT }
        requires some { (frame : List ℕ) × IsGiven self.old.printer self.old.set self.old.limit
            frame outcome × IsFrame frame }
        ensures text { OnOk result ((frame : List ℕ) → IsGiven self.old.printer self.old.set
            self.old.limit frame outcome → IsFrame frame → self.old.octets ≡ length frame
            → self.old.head.items ≡ take 10 frame → self.old.count + 1 < 2 ^ 64 → IsAppended
            self.old.form self.old.only self.old.set self.old.limit (self.old.count + 1) frame
            self.old.text.items self.new.text.items self.old.lawful self.new.lawful) }
        ensures count { OnOk result (self.old.count + 1 < 2 ^ 64
            → self.new.count ≡ self.old.count + 1) }
        ensures octets { OnOk result (self.new.octets ≡ 0) }
        ensures head { OnOk result (self.new.head.items ≡ []) }
        ensures form { self.new.form ≡ self.old.form }
        ensures only { self.new.only ≡ self.old.only }
        ensures set { self.new.set ≡ self.old.set }
        ensures limit { self.new.limit ≡ self.old.limit }
        ensures frames { self.new.frames ≡ self.old.frames }
        ensures printer { self.new.printer ≡ self.old.printer }
    {
        let number = self.count.saturating_add(1);
        self.lines.clear();
        let this = push_outcome(
            &mut self.lines,
            self.set,
            self.limit,
            outcome,
            &self.printer,
        )?;
        let lines = self.lines.as_slice();
        let asked = is_asked(self.only, self.head.as_slice());
        push_asked(&mut self.text, asked, self.form, number, self.octets, lines)?;
        self.lawful = both(self.lawful, this);
        self.count = number;
        self.octets = 0;
        self.head.clear();
        Ok(())
    }

    /// Takes octets of a piece up to the end of the current frame, and returns how many; `None` if no
    /// frame begins so.
    fn advance(&mut self, piece: &[u8]) -> Result<Option<usize>, AllocError>
        requires least { 10 ≤ self.old.limit }
        requires most { self.old.limit ≤ MAX_LIMIT }
        requires some { (stream taken : List ℕ) × ExplainedSoFar self.old stream taken }
        ensures form { self.new.form ≡ self.old.form }
        ensures only { self.new.only ≡ self.old.only }
        ensures set { self.new.set ≡ self.old.set }
        ensures limit { self.new.limit ≡ self.old.limit }
        ensures within { IfOk result (λ step. IfSome step (λ used. used ≤ length piece.now)) }
        ensures progress { IfOk result (λ step. IfSome step (λ used. 0 < length piece.now → 0 < used)) }
        ensures goes { IfOk result (λ step. (stream taken : List ℕ)
            → ExplainedSoFar self.old stream taken → length (stream ++ piece.now) < 2 ^ 64
            → IsStep self.new stream taken piece.now step) }
    {
        let came = match self.frames.feed(&mut self.printer, piece) {
            Ok(came) => came,
            Err(FeedErr::Broken) => return Ok(None),
            Err(_) => return Err(AllocError),
        };
        self.octets = self.octets.saturating_add(came.used as u64);
        keep_head(&mut self.head, piece.split_at(came.used).0)?;
        if let Some(outcome) = came.outcome {
            self.end_frame(outcome)?;
        }
        Ok(Some(came.used))
    }

    /// Takes the next piece of the stream. Returns whether more may come: not after octets with which
    /// no frame begins.
    pub fn feed(&mut self, piece: &[u8]) -> Result<bool, AllocError>
        requires least { 10 ≤ self.old.limit }
        requires most { self.old.limit ≤ MAX_LIMIT }
        requires some { (stream taken : List ℕ) × ExplainedSoFar self.old stream taken
            × (length (stream ++ piece.now) < 2 ^ 64) }
        ensures form { self.new.form ≡ self.old.form }
        ensures only { self.new.only ≡ self.old.only }
        ensures set { self.new.set ≡ self.old.set }
        ensures limit { self.new.limit ≡ self.old.limit }
        ensures goes { OnOk result ((stream taken : List ℕ) → ExplainedSoFar self.old stream taken
            → length (stream ++ piece.now) < 2 ^ 64
            → ExplainedSoFar self.new (stream ++ piece.now) taken) }
        // After false it is so whatever octets follow.
        ensures stopped { IfOk result (λ more. more ≡ false → (stream taken others : List ℕ)
            → ExplainedSoFar self.old stream taken → length (stream ++ piece.now) < 2 ^ 64
            → ExplainedSoFar self.new ((stream ++ piece.now) ++ others) taken) }
    {
        let mut rest = piece;
        'frames: loop {
            if rest.is_empty() {
                return Ok(true);
            }
            let Some(used) = self.advance(rest)? else {
                return Ok(false);
            };
            rest = rest.split_at(used).1;
        }
    }

    /// The text of the frames that are whole, but for what was dropped of it.
    pub fn whole(&self) -> &[u8]
        ensures { result.now ≡ self.now.text.items }
    {
        self.text.as_slice()
    }

    /// Drops this text.
    pub fn drop_whole(&mut self)
        ensures text { self.new.text.items ≡ [] }
        ensures form { self.new.form ≡ self.old.form }
        ensures only { self.new.only ≡ self.old.only }
        ensures set { self.new.set ≡ self.old.set }
        ensures limit { self.new.limit ≡ self.old.limit }
        ensures taken { (stream taken : List ℕ) → ExplainedSoFar self.old stream taken
            → ExplainedSoFar self.new stream (taken ++ self.old.text.items) }
    {
        self.text.clear();
    }

    /// The text that is left, with the line of the stream's end, and whether all of the stream is lawful.
    pub fn finish(self) -> Result<StreamText, AllocError>
        ensures { IfOk result (λ whole. (stream taken : List ℕ) → ExplainedSoFar self stream taken
            → ExplainsOnly self.form self.only self.set self.limit stream
            (taken ++ whole.text.items) whole.lawful) }
    {
        let end = self.frames.finish();
        let Explainer {
            text,
            lawful,
            form,
            ..
        } = self;
        let mut text = text;
        push_end(&mut text, form, end)?;
        Ok(StreamText {
            text,
            lawful: both(lawful, is_clean(end)),
        })
    }
}

/// The text of a stream of frames of a set of kinds, with a line for each field of each message.
pub fn explain_stream(
    alloc: Global,
    set: KindSet,
    stream: &[u8],
    limit: u32,
) -> Result<StreamText, AllocError>
    requires least { 10 ≤ limit }
    requires most { limit ≤ MAX_LIMIT }
    ensures { IfOk result (λ whole. ExplainsStream set limit stream.now whole.text.items
        whole.lawful) }
{
    explain_stream_in(alloc, Form::Text, set, stream, limit)
}

/// The same as text, or as one object of JSON a line.
pub fn explain_stream_in(
    alloc: Global,
    form: Form,
    set: KindSet,
    stream: &[u8],
    limit: u32,
) -> Result<StreamText, AllocError>
    requires least { 10 ≤ limit }
    requires most { limit ≤ MAX_LIMIT }
    ensures { IfOk result (λ whole. ExplainsStreamIn form set limit stream.now whole.text.items
        whole.lawful) }
{
    explain_only(alloc, form, None, set, stream, limit)
}

/// The same of only those frames that have this MessageID, if there is one: the others count, and have no text.
pub fn explain_only(
    alloc: Global,
    form: Form,
    only: Option<u32>,
    set: KindSet,
    stream: &[u8],
    limit: u32,
) -> Result<StreamText, AllocError>
    requires least { 10 ≤ limit }
    requires most { limit ≤ MAX_LIMIT }
    ensures { IfOk result (λ whole. ExplainsOnly form only set limit stream.now whole.text.items
        whole.lawful) }
{
    let mut explainer = Explainer::new_only(alloc, form, only, set, limit);
    explainer.feed(stream)?;
    explainer.finish()
}
