//! Lets the entries of a script happen to a reader.

ghost use Rattle.std.specs.Prelude.{◌≡◌, IfOk, OnErr, OnOk};
ghost use Rattle.llrp_session.specs.Calls.ReaderSteps.{event_of as event_handed};
ghost use Rattle.llrp_endpoints.specs.Serving.{event_in as event_by, last_moment};
ghost use Rattle.llrp_general.specs.Private.Acting.{DidSome, DoesAll, IsDue, entry_dates};

use llrp_endpoints::{Action, Entry};
use llrp_live::LiveReader;
use llrp_session::ReaderIn;
use llrp_tree::Message;
use std::alloc::AllocError;

/// The event of an entry.
fn event_in(action: Action) -> ReaderIn
    ensures { event_handed result ≡ event_by action }
{
    match action {
        Action::Seen(sighting) => ReaderIn::Seen(sighting),
        Action::Tick => ReaderIn::Tick,
    }
}

/// Lets entries happen to the reader, each at its own moment, and appends what the reader says.
/// Returns the moment of the last one, or the given moment if there are none. The error is that
/// memory ran out, after some first ones.
pub(crate) fn happen_all(
    reader: &mut LiveReader,
    moment: u64,
    entries: &[Entry],
    sent: &mut Vec<Message>,
) -> Result<u64, AllocError>
    ensures moment { IfOk result (λ last. last ≡ last_moment moment entries.now) }
    ensures ok { OnOk result (DoesAll (entry_dates entries.now) reader.old reader.new sent.old.items
        sent.new.items) }
    ensures err { OnErr result (DidSome entries.now reader.old reader.new) }
{
    let mut moment = moment;
    for entry in entries {
        reader.happen(entry.now, event_in(entry.action), sent)?;
        moment = entry.now;
    }
    Ok(moment)
}

/// How many of the first entries happen after this many frames or fewer.
pub(crate) fn due(entries: &[Entry], taken: u64) -> usize
    ensures { IsDue entries.now taken result }
{
    for (i, entry) in entries.iter().enumerate() {
        if entry.after > taken {
            return i;
        }
    }
    entries.len()
}
