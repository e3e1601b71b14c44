//! A simulated reader that serves one client, and is given each moment.

ghost use Rattle.std.specs.Prelude.{◌≡◌, ◌≤◌, ◌++◌, [], Bool, IfOk, List, OnErr, OnOk, Result, ℕ};
ghost use Rattle.llrp_stream.specs.declared.item.Item.{Item as TheItem};
ghost use Rattle.llrp_listing.specs.declared.outcome.ToolErr.{ToolErr as TheToolErr};
ghost use Rattle.llrp_session.specs.Calls.ReaderSteps.{event_of};
ghost use Rattle.llrp_session.specs.Calls.Due.{next_due};
ghost use Rattle.llrp_session.specs.Calls.NextClient.{for_next_client};
ghost use Rattle.llrp_live.specs.Calls.Doings.{Dated, Happens, Notes, course};
ghost use Rattle.llrp_live.specs.Private.Living.{DoesEvent, DoesItem, IsTaken, count_more as the_count_more, phase_after as the_phase_after};

use crate::doing::{Doing, closes, doing_of};
use llrp_answers::Answers;
use llrp_listing::{ToolErr, error_of};
use llrp_schema::KindSet;
use llrp_session::{Reader, ReaderIn, SideEvent, StepFault};
use llrp_stream::{Decoder, End, Fed, Item};
use llrp_tree::Message;
use llrp_versions::Version;
use std::alloc::{AllocError, Global};

/// How far a client is served.
#[derive(Clone, Copy, Debug, PartialEq, Eq)]
pub enum LivePhase {
    /// Its octets are taken.
    Open,
    /// It closed the connection.
    Closed,
    /// It ended with this error.
    Failed(ToolErr),
}

/// A simulated reader that serves one client in real time.
#[derive(Drop)]
pub struct LiveReader {
    alloc: Global,
    core: Reader,
    decoder: Decoder,
    phase: LivePhase,
    /// How many frames came to the reader.
    taken: u64,
    answers: Answers,
    version: Version,
}

/// Lets an event happen to the reader at a moment, and appends what it sends; a refused event changes
/// nothing. The error is that memory ran out, which changes nothing either.
fn happen(
    core: &mut Reader,
    now: u64,
    event: ReaderIn,
    out: &mut Vec<Message>,
) -> Result<(), AllocError>
    ensures ok { OnOk result (DoesEvent now (event_of event) core.old core.new out.old.items
        out.new.items) }
    ensures core_unchanged { OnErr result (core.new ≡ core.old) }
    ensures out_unchanged { OnErr result (out.new.items ≡ out.old.items) }
{
    match core.step(now, event, out) {
        Ok(()) => Ok(()),
        Err(refusal) => match refusal.fault {
            StepFault::Memory => Err(AllocError),
            StepFault::Closed | StepFault::NotConnected | StepFault::AlreadyUp => Ok(()),
        },
    }
}

/// What an item was for a reader: whether it came to it, and the version that is in use then.
#[derive(Clone, Copy)]
struct Taken {
    comes: bool,
    version: Version,
}

/// Does what is to be done for an item, where this version is in use, and appends what is sent. The
/// error is that memory ran out, which changes nothing.
fn take(
    alloc: Global,
    answers: &Answers,
    version: Version,
    core: &mut Reader,
    now: u64,
    item: Item,
    out: &mut Vec<Message>,
) -> Result<Taken, AllocError>
    ensures ok { OnOk result (DoesItem now answers.now.pairs.items version item core.old core.new
        out.old.items out.new.items) }
    ensures taken { IfOk result (IsTaken answers.now.pairs.items version item) }
    ensures core_unchanged { OnErr result (core.new ≡ core.old) }
    ensures out_unchanged { OnErr result (out.new.items ≡ out.old.items) }
{
    let (doing, version) = doing_of(alloc, answers, version, &item)?;
    let comes = match doing {
        Doing::Answer(mut replies) => {
            out.append(&mut replies)?;
            false
        }
        Doing::Happen(event) => {
            happen(core, now, event, out)?;
            true
        }
    };
    Ok(Taken { comes, version })
}

/// How many frames came to the reader after one more, which did so or not.
fn count_more(taken: u64, comes: bool) -> u64
    ensures { result ≡ the_count_more taken comes }
{
    if comes {
        taken.saturating_add(1)
    } else {
        taken
    }
}

/// The phase after an answer of `feed`.
fn phase_after(answer: Result<bool, ToolErr>) -> LivePhase
    ensures { result ≡ the_phase_after answer }
{
    match answer {
        Ok(true) => LivePhase::Closed,
        Ok(false) => LivePhase::Open,
        Err(error) => LivePhase::Failed(error),
    }
}

impl LiveReader {
    ghost use Rattle.llrp_live.specs.Calls.Living.{Begun, EndsAll, Feeds, Happened, IsOver, Lives, begun, taken_of};
    ghost use Rattle.llrp_live.specs.Private.Living.{TakesPiece};

    /// A reader of the whole standard before its client came, which has these answers to messages that
    /// the profile does not have. It takes no memory.
    pub fn new(alloc: Global, core: Reader, answers: Answers) -> LiveReader
        ensures { Lives (begun core answers.pairs.items) [] [] [] result }
    {
        let decoder = Decoder::new_in(alloc, KindSet::Standard, core.limit());
        LiveReader {
            alloc,
            core,
            decoder,
            phase: LivePhase::Open,
            taken: 0,
            answers,
            version: Version::First,
        }
    }

    /// How many frames of the client came to the reader so far, at most the greatest `u64`: all but the
    /// requests that were answered by themselves.
    pub fn taken(&self) -> u64
        ensures { (b : Begun) (before : List Dated) (bytes : List ℕ) (items : List TheItem)
            → Lives b before bytes items self.now → result ≡ taken_of b.answers items }
    {
        self.taken
    }

    /// Lets an event happen at the moment `now`, in microseconds, and appends the messages that the
    /// reader sends, at most three; an event that the reader refuses changes nothing. The error is
    /// that memory ran out, which changes nothing either.
    pub fn happen(
        &mut self,
        now: u64,
        event: ReaderIn,
        out: &mut Vec<Message>,
    ) -> Result<(), AllocError>
        ensures happens { OnOk result ((b : Begun) (before : List Dated) (bytes : List ℕ)
            (items : List TheItem) → Lives b before bytes items self.old
            → Happened (record { now = now; doing = Happens (event_of event) }) b before bytes
            items self.old self.new out.old.items out.new.items) }
        ensures self_unchanged { OnErr result (self.new ≡ self.old) }
        ensures out_unchanged { OnErr result (out.new.items ≡ out.old.items) }
    {
        happen(&mut self.core, now, event, out)?;
        Ok(())
    }

    /// Lets something happen beside the reader's machine at the moment `now`, in microseconds, and appends
    /// the message that says so, if a client is connected. The error is that memory ran out, which
    /// changes nothing.
    pub fn notify(
        &mut self,
        now: u64,
        event: SideEvent,
        out: &mut Vec<Message>,
    ) -> Result<(), AllocError>
        ensures notes { OnOk result ((b : Begun) (before : List Dated) (bytes : List ℕ)
            (items : List TheItem) → Lives b before bytes items self.old
            → Happened (record { now = now; doing = Notes event }) b before bytes
            items self.old self.new out.old.items out.new.items) }
        ensures self_unchanged { OnErr result (self.new ≡ self.old) }
        ensures out_unchanged { OnErr result (out.new.items ≡ out.old.items) }
    {
        self.core.notify(now, event, out)?;
        Ok(())
    }

    /// When the reader next does something by itself, in microseconds, as [`Reader::next_due`] says.
    pub fn next_due(&self) -> Option<u64>
        ensures { (b : Begun) (before : List Dated) (bytes : List ℕ) (items : List TheItem)
            → Lives b before bytes items self.now
            → result ≡ next_due (course b.reader before).reader }
    {
        self.core.next_due()
    }

    /// The reader as its client leaves it to the next one ([`Reader::leave`]), however that ended.
    pub fn into_reader(self) -> Reader
        ensures { result ≡ for_next_client self.core }
    {
        let mut core = self.core;
        core.leave();
        core
    }

    /// Takes the items of a piece at a moment. Returns whether one of them closed the connection.
    fn take_all(&mut self, now: u64, piece: &[u8], out: &mut Vec<Message>) -> Result<bool, ToolErr>
        ensures { TakesPiece now piece.now self.old self.new out.old.items out.new.items result }
    {
        let mut rest = piece;
        while !rest.is_empty() {
            let Fed { used, item } = match self.decoder.feed(rest) {
                Ok(fed) => fed,
                Err(error) => return Err(error_of(error)),
            };
            let Some(item) = item else {
                return Ok(false);
            };
            let closing = closes(&item);
            let (answers, version) = (&self.answers, self.version);
            let taken = take(self.alloc, answers, version, &mut self.core, now, item, out)?;
            self.taken = count_more(self.taken, taken.comes);
            self.version = taken.version;
            if closing {
                return Ok(true);
            }
            rest = rest.split_at(used).1;
        }
        Ok(false)
    }

    /// Takes the next octets of the client at the moment `now`, in microseconds: each frame that they
    /// complete is answered, or the reader takes what the profile has of it. Appends what is sent.
    /// Returns true once the client closed the connection; each later call returns true and changes
    /// nothing. The errors are `Broken` at a length field below 10, and `Memory`; each later call
    /// returns the same error and changes nothing.
    pub fn feed(&mut self, now: u64, piece: &[u8], out: &mut Vec<Message>) -> Result<bool, ToolErr>
        ensures feeds { Feeds now piece.now self.old self.new out.old.items out.new.items result }
        ensures over { (answer : Result Bool TheToolErr) → IsOver answer self.old
            → (result ≡ answer) × (self.new ≡ self.old) × (out.new.items ≡ out.old.items) }
    {
        match self.phase {
            LivePhase::Open => {}
            LivePhase::Closed => return Ok(true),
            LivePhase::Failed(error) => return Err(error),
        }
        let outcome = self.take_all(now, piece, out);
        self.phase = phase_after(outcome);
        outcome
    }

    /// How the client's octets end if no more follow: `Clean` after a whole frame, and `Rest` within
    /// one.
    pub fn finish(&self) -> End
        ensures { (b : Begun) (before : List Dated) (bytes : List ℕ) (items : List TheItem)
            → Lives b before bytes items self.now → EndsAll b.reader.limit bytes items result }
    {
        self.decoder.finish()
    }
}
