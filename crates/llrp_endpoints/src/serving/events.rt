//! Gives events to the simulated reader, and appends the frames of its messages.

ghost use Rattle.std.specs.Prelude.{◌≡◌, ◌∷◌, IfErr, IfOk, OnOk, [], map};
ghost use Rattle.llrp_session.specs.Calls.ReaderSteps.{event_of as event_handed};
ghost use Rattle.llrp_endpoints.specs.Private.Acting.{Did, DidSome, IsDue};
ghost use Rattle.llrp_endpoints.specs.Serving.{event_in as event_by, happening, last_moment, taking};

use crate::frames::append_frames;
use crate::script::{Action, Entry};
use llrp_listing::ToolErr;
use llrp_session::{Reader, ReaderIn, StepFault};
use llrp_stream::Item;
use std::alloc::Global;

/// Lets an event happen to the reader at a moment, and appends what it says; a refused event
/// changes nothing. The only error is `Memory`.
pub(super) fn happen(
    alloc: Global,
    core: &mut Reader,
    now: u64,
    event: ReaderIn,
    out: &mut Vec<u8>,
) -> Result<(), ToolErr>
    ensures ok { OnOk result (Did core.old (record { now = now; event = event_handed event }
        ∷ []) core.new out.old.items out.new.items) }
    ensures err { IfErr result (λ e. DidSome core.old (record
        { now = now; event = event_handed event } ∷ []) e out.old.items out.new.items) }
{
    let mut messages = Vec::new(alloc);
    if let Err(refusal) = core.step(now, event, &mut messages) {
        return match refusal.fault {
            StepFault::Memory => Err(ToolErr::Memory),
            StepFault::Closed | StepFault::NotConnected | StepFault::AlreadyUp => Ok(()),
        };
    }
    append_frames(alloc, messages.as_slice(), out)
}

/// The event of an entry.
fn event_in(action: Action) -> ReaderIn
    ensures { event_handed result ≡ event_by action }
{
    match action {
        Action::Seen(sighting) => ReaderIn::Seen(sighting),
        Action::Tick => ReaderIn::Tick,
    }
}

/// The event of an item.
pub(super) fn event_of(item: Item) -> ReaderIn
    ensures { event_handed result ≡ taking item }
{
    match item {
        Item::Msg(message) => ReaderIn::Take(message),
        Item::Bad { id, fault } => ReaderIn::TakeBad {
            id,
            reason: fault.reason,
        },
    }
}

/// Lets entries happen to the reader, each at its own moment, and appends what the reader says.
/// Returns the moment of the last one, or the given moment if there are none. The only error is
/// `Memory`.
pub(super) fn happen_all(
    alloc: Global,
    core: &mut Reader,
    moment: u64,
    entries: &[Entry],
    out: &mut Vec<u8>,
) -> Result<u64, ToolErr>
    ensures moment { IfOk result (λ last. last ≡ last_moment moment entries.now) }
    ensures ok { OnOk result (Did core.old (map happening entries.now) core.new out.old.items
        out.new.items) }
    ensures err { IfErr result (λ e. DidSome core.old (map happening entries.now) e out.old.items
        out.new.items) }
{
    let mut moment = moment;
    for entry in entries {
        happen(alloc, core, entry.now, event_in(entry.action), out)?;
        moment = entry.now;
    }
    Ok(moment)
}

/// How many of the first entries happen after this many items or fewer.
pub(super) fn due(entries: &[Entry], taken: u64) -> usize
    ensures { IsDue entries.now taken result }
{
    for (i, entry) in entries.iter().enumerate() {
        if entry.after > taken {
            return i;
        }
    }
    entries.len()
}
