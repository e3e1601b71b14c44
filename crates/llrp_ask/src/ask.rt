//! Asks a reader over a source and a sink, and shows what comes.

ghost use Rattle.std.specs.Prelude.{◌≡◌, IfErr, List, OnOk, [], ℕ};
ghost use Rattle.llrp_stream.specs.Device.{IsFreshSink, IsFreshSource};
ghost use Rattle.llrp_stream.specs.Calls.Device.{CanRead, CanWrite};
ghost use Rattle.llrp_ask.specs.Calls.Courses.{course_of};
ghost use Rattle.llrp_ask.specs.Private.Conversations.{Converses, MayFail, TakesTurn};
ghost use Rattle.llrp_ask.specs.Calls.Run.{Asks, answer_in};

use crate::asking::{Asking, Phase};
use crate::conversation::Conversation;
use crate::form::Form;
use crate::step::{Step, Wait};
use llrp_listing::{READ_SIZE, ToolErr, Verdict, hand_on};
use llrp_stream::{Sink, Source};
use std::alloc::Global;
use std::io::ErrorKind;

/// The greatest number of reads of a run: a million a second for 292,000 years.
pub const MOST_TURNS: u64 = 9_223_372_036_854_775_807;

/// A source with a limit on how long a read waits.
pub trait TimedSource: Source {
    /// From now on reads wait this many milliseconds in all; after that, and where nothing has come by then,
    /// they fail as `TimedOut` or `WouldBlock`.
    fn wait_for(&mut self, milliseconds: u64)
        ensures { Self.log self.new ≡ Self.log self.old };
}

/// How a client asks.
#[derive(Clone, Copy, Debug, PartialEq, Eq)]
pub struct Manner {
    /// How what comes is shown.
    pub form: Form,
    /// A status other than 0 does not end it.
    pub goes_on: bool,
    /// For how many milliseconds it waits for an answer.
    pub patience: u64,
}

/// For how many milliseconds this is waited for.
fn time_for(wait: Wait, patience: u64) -> u64 {
    match wait {
        Wait::Pause { milliseconds } => milliseconds as u64,
        Wait::Acceptance | Wait::Answer { .. } => patience,
    }
}

/// Whether a read of a [`TimedSource`] failed because its time was over.
pub fn is_late(kind: ErrorKind) -> bool {
    matches!(kind, ErrorKind::TimedOut | ErrorKind::WouldBlock)
}

/// Reads once, and takes what came; what is sent then is gathered in `out`.
fn take_turn<R: Source, P: Sink>(
    conversation: &mut Conversation<'_>,
    out: &mut Vec<u8>,
    r: &mut R,
    p: &mut P,
) -> Result<(), ToolErr>
    requires source { CanRead (R.log r.old) }
    requires sink { CanWrite (P.log p.old) }
    ensures took { OnOk result (TakesTurn conversation.old conversation.new out.old.items
        out.new.items (R.log r.old) (R.log r.new) (P.log p.old) (P.log p.new)) }
    ensures form { conversation.new.form ≡ conversation.old.form }
    ensures err { IfErr result MayFail }
{
    let mut buffer = [0u8; READ_SIZE];
    match r.read(&mut buffer) {
        Ok(0) => conversation.asking.fail(ToolErr::Early),
        Ok(n) => conversation.take(&buffer[..n], out, p)?,
        Err(error) => {
            if is_late(error.kind()) {
                conversation.asking.fall_silent(out)?;
            } else {
                conversation.asking.fail(ToolErr::Read);
            }
        }
    }
    Ok(())
}

/// How a run ended.
fn outcome_of(asking: &Asking<'_>, verdict: Verdict) -> Result<Verdict, ToolErr>
    ensures { result ≡ answer_in asking.now.phase asking.now.refused verdict }
{
    match asking.phase() {
        Phase::Failed(error) => Err(error),
        Phase::Waits(_) => Err(ToolErr::Bound),
        Phase::Ended => match asking.refused() {
            Some(status) => Err(ToolErr::Peer(status)),
            None => Ok(verdict),
        },
    }
}

/// Says to the source how long to wait, if something else is waited for now.
fn begin_wait<R: TimedSource>(asking: &mut Asking<'_>, patience: u64, r: &mut R)
    ensures course { (sent : List ℕ) → course_of asking.new sent ≡ course_of asking.old sent }
    ensures log { R.log r.new ≡ R.log r.old }
{
    if let Some(wait) = asking.new_wait() {
        r.wait_for(time_for(wait, patience));
    }
}

/// Takes turns until the client has ended.
fn converse<R: TimedSource, W: Sink, P: Sink>(
    conversation: &mut Conversation<'_>,
    out: &mut Vec<u8>,
    patience: u64,
    r: &mut R,
    w: &mut W,
    p: &mut P,
) -> Result<(), ToolErr>
    requires source { IsFreshSource (R.log r.old) }
    requires sink { IsFreshSink (W.log w.old) }
    requires shown { IsFreshSink (P.log p.old) }
    requires fresh { conversation.old.held.items ≡ [] }
    requires empty { out.old.items ≡ [] }
    ensures done { OnOk result (Converses conversation.old conversation.new (R.log r.old) (R.log r.new)
        (W.log w.old) (W.log w.new) (P.log p.old) (P.log p.new)) }
    ensures err { IfErr result MayFail }
{
    'turns: for _turn in 0..MOST_TURNS {
        begin_wait(&mut conversation.asking, patience, r);
        let Phase::Waits(_) = conversation.asking.phase() else {
            return Ok(());
        };
        take_turn(conversation, out, r, p)?;
        hand_on(out, w)?;
    }
    Ok(())
}

/// Takes steps with the reader whose octets the source gives, beginning with the message that it sends by
/// itself. What the client sends is written to `w`, and what came is shown in `p`; both are written
/// for what was read before the next read.
///
/// Returns whether each frame that came is a message, once the connection was closed as it was meant
/// to be. The error is `Peer` with the first status other than 0, or that by which the reader did not
/// accept the client; `Read` if nothing came in time, or a read failed; `Early` if the source ends
/// before that; `Broken` for a length field below 10; `Strange` for a frame of more octets than a
/// message may have; `Bound` after 9,223,372,036,854,775,807 reads. After `Write` or `Memory`, some
/// first part of what is sent and of what is shown was written.
pub fn run_ask<R: TimedSource, W: Sink, P: Sink>(
    alloc: Global,
    steps: &[Step],
    manner: Manner,
    r: &mut R,
    w: &mut W,
    p: &mut P,
) -> Result<Verdict, ToolErr>
    requires source { IsFreshSource (R.log r.old) }
    requires sink { IsFreshSink (W.log w.old) }
    requires shown { IsFreshSink (P.log p.old) }
    ensures { Asks manner steps.now (R.log r.old) (R.log r.new) (W.log w.old) (W.log w.new)
        (P.log p.old) (P.log p.new) result }
{
    let asking = Asking::new(steps, manner.goes_on);
    let mut conversation = Conversation::new(alloc, manner.form, asking);
    let mut out = Vec::new(alloc);
    converse(&mut conversation, &mut out, manner.patience, r, w, p)?;
    let verdict = conversation.end(p)?;
    outcome_of(&conversation.asking, verdict)
}
