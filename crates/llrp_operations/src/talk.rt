//! Operates on a tag over a source and a sink.

ghost use Rattle.std.specs.Prelude.{◌≡◌, IfErr, IfOk, OnErr, OnOk, [], true};
ghost use Rattle.llrp_stream.specs.Device.{IsFreshSink, IsFreshSource};
ghost use Rattle.llrp_stream.specs.Calls.Device.{CanRead, CanWrite};
ghost use Rattle.llrp_operations.specs.Calls.Talking.{Fails, Talks};
ghost use Rattle.llrp_operations.specs.Private.Conversations as talks;

use crate::conversation::Conversation;
use crate::course::{Outcome, Stage};
use crate::request::Request;
use llrp_ask::{MOST_TURNS, TimedSource, is_late};
use llrp_listing::{READ_SIZE, ToolErr};
use llrp_stream::{Sink, Source, write_all};
use llrp_tree::Message;
use std::alloc::Global;

/// For how many seconds a client waits.
#[derive(Clone, Copy, Debug, PartialEq, Eq)]
pub struct Patience {
    /// For further tags before a change.
    pub settle: u16,
    /// For a tag, for each answer, and for the results.
    pub timeout: u16,
}

/// What came of a conversation.
#[derive(Drop)]
pub struct Talked {
    pub outcome: Outcome,
    /// The message that brought the results, if they came.
    pub report: Option<Message>,
    /// The EPC of the tag that was seen before a change, if one was.
    pub seen: Option<Vec<u8>>,
    /// Why the connection was lost, if it was.
    pub cause: ToolErr,
    /// An AccessSpec that changes a tag was enabled.
    pub may_have_changed: bool,
}

/// Why there is no outcome.
#[derive(Clone, Copy, Debug, PartialEq, Eq)]
pub struct AccessErr {
    pub error: ToolErr,
    /// An AccessSpec that changes a tag was enabled by then: the tag may have been changed, or not.
    pub may_have_changed: bool,
}

/// For how many milliseconds a stage lasts at most.
fn time_of(stage: Stage, patience: Patience) -> u64 {
    let seconds = match stage {
        Stage::Settling => patience.settle,
        _ => patience.timeout,
    };
    1000 * seconds as u64
}

/// Says to the source how long to wait, if the stage is another one now.
fn begin_wait<R: TimedSource>(last: &mut Option<Stage>, stage: Stage, patience: Patience, r: &mut R)
    ensures { R.log r.new ≡ R.log r.old }
{
    if *last != Some(stage) {
        *last = Some(stage);
        r.wait_for(time_of(stage, patience));
    }
}

/// Reads once, and takes what came; what is sent then is gathered in `out`.
fn take_turn<R: Source>(
    conversation: &mut Conversation<'_>,
    out: &mut Vec<u8>,
    r: &mut R,
) -> Result<(), ToolErr>
    requires { CanRead (R.log r.old) }
    ensures turn { OnOk result (talks.TakesTurn conversation.old conversation.new out.old.items
        out.new.items (R.log r.old) (R.log r.new)) }
    ensures read { OnErr result (talks.ReadsOn (R.log r.old) (R.log r.new)) }
{
    let mut buffer = [0u8; READ_SIZE];
    match r.read(&mut buffer) {
        Ok(0) => conversation.lose(ToolErr::Early),
        Ok(n) => conversation.take(&buffer[..n], out)?,
        Err(error) => {
            if is_late(error.kind()) {
                conversation.fall_silent(out)?;
            } else {
                conversation.lose(ToolErr::Read);
            }
        }
    }
    Ok(())
}

/// The same; the error says what may have been changed before that.
fn try_turn<R: Source>(
    conversation: &mut Conversation<'_>,
    out: &mut Vec<u8>,
    r: &mut R,
) -> Result<(), AccessErr>
    requires { CanRead (R.log r.old) }
    ensures turn { OnOk result (talks.TakesTurn conversation.old conversation.new out.old.items
        out.new.items (R.log r.old) (R.log r.new)) }
    ensures failed { IfErr result (talks.FailsTurn conversation.old (R.log r.old) (R.log r.new)) }
{
    let may_have_changed = conversation.may_have_changed();
    match take_turn(conversation, out, r) {
        Ok(()) => Ok(()),
        Err(error) => Err(AccessErr {
            error,
            may_have_changed,
        }),
    }
}

/// Writes what was gathered; a connection that does not take it is lost.
fn pass_on<W: Sink>(conversation: &mut Conversation<'_>, out: &mut Vec<u8>, w: &mut W)
    requires { CanWrite (W.log w.old) }
    ensures { talks.PassesOn conversation.old conversation.new out.old.items out.new.items
        (W.log w.old) (W.log w.new) }
{
    match write_all(w, out.as_slice()) {
        Ok(()) => out.clear(),
        Err(_) => conversation.lose(ToolErr::Write),
    }
}

/// Takes turns until the course is over.
fn converse<R: TimedSource, W: Sink>(
    conversation: &mut Conversation<'_>,
    patience: Patience,
    out: &mut Vec<u8>,
    r: &mut R,
    w: &mut W,
) -> Result<(), AccessErr>
    requires source { IsFreshSource (R.log r.old) }
    requires sink { IsFreshSink (W.log w.old) }
    requires fresh { conversation.old.held.items ≡ [] }
    requires empty { out.old.items ≡ [] }
    ensures on { OnOk result (talks.Converses conversation.old conversation.new (R.log r.old)
        (R.log r.new) (W.log w.old) (W.log w.new)) }
    ensures failed { IfErr result (talks.BreaksOff conversation.old (R.log r.old) (R.log r.new)
        (W.log w.old) (W.log w.new)) }
{
    let mut last = None;
    'turns: for _turn in 0..MOST_TURNS {
        if !conversation.stands() {
            return Ok(());
        }
        begin_wait(&mut last, conversation.stage(), patience, r);
        try_turn(conversation, out, r)?;
        pass_on(conversation, out, w);
    }
    Err(AccessErr {
        error: ToolErr::Bound,
        may_have_changed: conversation.may_have_changed(),
    })
}

/// Operates on a tag by the reader whose octets the source gives, beginning with the message that it sends by
/// itself. What the client says is written to `w`, for what was read before the next read; where writing
/// fails, the connection is lost.
///
/// The error is `Memory`; `Bound` if no AccessSpec can be made for the EPC that was seen, or after
/// 9,223,372,036,854,775,807 reads. Where an AccessSpec that changes a tag was enabled by then, it says so.
pub fn operate<R: TimedSource, W: Sink>(
    alloc: Global,
    request: Request<'_>,
    patience: Patience,
    r: &mut R,
    w: &mut W,
) -> Result<Talked, AccessErr>
    requires source { IsFreshSource (R.log r.old) }
    requires sink { IsFreshSink (W.log w.old) }
    ensures talks { IfOk result (Talks request.entry (R.log r.old) (R.log r.new) (W.log w.old)
        (W.log w.new)) }
    ensures failed { IfErr result (Fails request.entry (R.log r.old) (R.log r.new) (W.log w.old)
        (W.log w.new)) }
{
    let mut conversation = Conversation::new(alloc, request);
    let mut out = Vec::new(alloc);
    converse(&mut conversation, patience, &mut out, r, w)?;
    Ok(conversation.end())
}
