//! A simulated reader that serves a client: it takes what comes in pieces of a stream, and acts by
//! a script.

mod events;
mod scripted;

ghost use Rattle.std.specs.Prelude.{◌≡◌, List, Ok, Err, length, true};
ghost use Rattle.llrp_session.specs.ReaderMachine.{Reader as Machine};
ghost use Rattle.llrp_endpoints.specs.Serving.{BeginsServing, IsNewReader};
ghost use Rattle.llrp_endpoints.specs.declared.script.Entry.{Entry};
ghost use Rattle.llrp_listing.specs.declared.outcome.ToolErr.TheVariants.{Memory};
ghost use Rattle.llrp_endpoints.specs.Calls.Acting.{phase_after as the_phase_after};

use crate::script::Script;
use crate::server::Server;
use llrp_listing::{ToolErr, error_of};
use llrp_session::Reader;
use llrp_stream::{Decoder, End, Fed};
use scripted::ScriptedReader;
use std::alloc::Global;

/// How far serving has come.
#[derive(Clone, Copy, Debug, PartialEq, Eq)]
pub(crate) enum Phase {
    /// It has not started.
    New,
    /// It takes bytes.
    Open,
    /// The client closed the connection.
    Closed,
    /// It ended with this error.
    Failed(ToolErr),
}

/// A simulated reader that serves one client by a script. It is given the client's bytes as they
/// come, and appends the bytes that the reader sends.
#[derive(Drop)]
pub struct Serving {
    reader: ScriptedReader,
    decoder: Decoder,
    phase: Phase,
}

/// The phase after an answer of `feed`.
fn phase_after(answer: Result<bool, ToolErr>) -> Phase
    ensures { result ≡ the_phase_after answer }
{
    match answer {
        Ok(true) => Phase::Closed,
        Ok(false) => Phase::Open,
        Err(error) => Phase::Failed(error),
    }
}

impl Serving {
    ghost use Rattle.llrp_endpoints.specs.Calls.ServingStands.{FeedsPiece, HasFailed, HasNotStarted, HasStarted, IsClosed, IsFresh, Starts};
    ghost use Rattle.llrp_endpoints.specs.Private.ServingStands.{TakesPiece};

    /// A reader that `Reader::new` made, and its script. It takes no memory.
    pub fn new(alloc: Global, core: Reader, script: Script) -> Serving
        requires { IsNewReader core }
        ensures { IsFresh core script result }
    {
        let decoder = Decoder::new(alloc, core.limit());
        Serving {
            reader: ScriptedReader::new(alloc, core, script),
            decoder,
            phase: Phase::New,
        }
    }

    /// Starts serving: the client connects at moment 0, and the entries that come before any item
    /// happen. Appends what the reader says. It is called once, before the first `feed`. The only
    /// error is `Memory`.
    pub fn start(&mut self, out: &mut Vec<u8>) -> Result<(), ToolErr>
        requires { HasNotStarted self.old }
        ensures starts { (reader : Machine) (entries : List Entry) → IsFresh reader entries self.old
            → Starts reader entries self.new out.old.items out.new.items result }
        ensures started { HasStarted self.new }
    {
        let outcome = self.reader.connect(out);
        self.phase = match outcome {
            Ok(()) => Phase::Open,
            Err(error) => Phase::Failed(error),
        };
        outcome
    }

    /// Takes the items of a piece. Returns whether one of them closed the connection.
    fn take_all(&mut self, piece: &[u8], out: &mut Vec<u8>) -> Result<bool, ToolErr>
        ensures { TakesPiece piece.now self.old self.new out.old.items out.new.items result }
    {
        let mut rest = piece;
        while !rest.is_empty() {
            let Fed { used, item } = match self.decoder.feed(rest) {
                Ok(fed) => fed,
                Err(error) => return Err(error_of(error)),
            };
            let Some(item) = item else {
                return Ok(false);
            };
            if self.reader.take(item, out)? {
                return Ok(true);
            }
            rest = rest.split_at(used).1;
        }
        Ok(false)
    }

    /// Takes a piece of the client's bytes, and appends what the reader says. Returns true once the
    /// client closed the connection; each later call returns true and changes nothing. The errors
    /// are `Broken` at a length field below 10, and `Memory`; each later call returns the same
    /// error and changes nothing.
    pub fn feed(&mut self, piece: &[u8], out: &mut Vec<u8>) -> Result<bool, ToolErr>
        requires { HasStarted self.old }
        ensures feeds { FeedsPiece piece.now self.old self.new out.old.items out.new.items result }
        ensures closed { IsClosed self.old → (result ≡ Ok true) × (self.new ≡ self.old)
            × (out.new.items ≡ out.old.items) }
        ensures failed { (error : ToolErr) → HasFailed error self.old → (result ≡ Err error)
            × (self.new ≡ self.old) × (out.new.items ≡ out.old.items) }
        ensures started { HasStarted self.new }
    {
        match self.phase {
            Phase::New | Phase::Open => {}
            Phase::Closed => return Ok(true),
            Phase::Failed(error) => return Err(error),
        }
        let outcome = self.take_all(piece, out);
        self.phase = phase_after(outcome);
        outcome
    }
}

impl Server for Serving {
    ghost use Rattle.llrp_endpoints.specs.Calls.ServingStands.{HasNotStarted, HasStarted, IsFresh, IsOpen};
    ghost use Rattle.llrp_endpoints.specs.Serving.{Serves};

    ghost fresh = { IsFresh };

    ghost opened = { IsOpen };

    ghost says = { Serves };

    ghost begins = { BeginsServing };

    ghost may_start = { HasNotStarted };

    ghost may_feed = { HasStarted };

    fn start(&mut self, out: &mut Vec<u8>) -> Result<(), ToolErr> {
        Serving::start(self, out)
    }

    fn feed(&mut self, piece: &[u8], out: &mut Vec<u8>) -> Result<bool, ToolErr> {
        Serving::feed(self, piece, out)
    }

    fn finish(&self) -> Result<(), ToolErr> {
        match self.decoder.finish() {
            End::Clean => Ok(()),
            End::Rest(_) => Err(ToolErr::Early),
            End::Broken => Err(ToolErr::Broken),
            End::Dead => Err(ToolErr::Memory),
        }
    }
}
