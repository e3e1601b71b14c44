//! The reader's side of a connection.

ghost use Rattle.std.specs.Prelude.{◌≡◌, ◌<◌, ◌≤◌, [], IfErr, IfOk, List, OnOk, ℕ};
ghost use Rattle.llrp_endpoints.specs.Private.EndsStand.{HasRoom, ReaderGoesOn, ReaderStands};
ghost use Rattle.llrp_endpoints.specs.RunLoop.{BothEnds};
ghost use Rattle.llrp_endpoints.specs.RunServe.{BeginsFrames};
ghost use Rattle.llrp_endpoints.specs.Serving.{IsNewReader};
ghost use Rattle.llrp_endpoints.specs.Calls.ServingStands.{HasStarted};
ghost use Rattle.llrp_listing.specs.declared.outcome.ToolErr.TheVariants.{Memory};

use super::pieces::read_piece;
use crate::script::Script;
use crate::serving::Serving;
use llrp_listing::{READ_SIZE, ToolErr};
use llrp_session::Reader;
use llrp_stream::Source;
use std::alloc::Global;

/// A reader that serves the other end.
#[derive(Drop)]
pub(super) struct ReaderSide {
    pub serving: Serving,
    /// What the reader said that is not written yet.
    pub said: Vec<u8>,
    /// How many reads gave it bytes.
    pub reads: u32,
}

impl ReaderSide {
    /// Connects the client. The only error is `Memory`.
    pub(crate) fn new(alloc: Global, core: Reader, script: Script) -> Result<ReaderSide, ToolErr>
        requires { IsNewReader core }
        ensures ok { IfOk result (λ s. (e : BothEnds) → e.reader ≡ core → e.entries ≡ script
            → ReaderStands e [] [] s.serving s.said.items) }
        ensures started { IfOk result (λ s. HasStarted s.serving) }
        ensures unread { IfOk result (λ s. s.reads ≡ 0) }
        ensures err { IfErr result (λ error. (error ≡ Memory) × (text : List ℕ)
            × BeginsFrames core script [] text) }
    {
        let mut serving = Serving::new(alloc, core, script);
        let mut said = Vec::new(alloc);
        serving.start(&mut said)?;
        Ok(ReaderSide {
            serving,
            said,
            reads: 0,
        })
    }

    /// Reads this many bytes and takes them as they come. Once the client closed the connection,
    /// they are dropped.
    pub(crate) fn hear<R: Source>(&mut self, count: usize, r: &mut R) -> Result<(), ToolErr>
        requires a_piece { count ≤ 4096 }
        requires room { HasRoom (R.log r.old) self.old.reads }
        requires started { HasStarted self.old.serving }
        ensures room { OnOk result (HasRoom (R.log r.new) self.new.reads) }
        ensures counted { OnOk result (0 < count → self.old.reads < self.new.reads) }
        ensures started { HasStarted self.new.serving }
        ensures idle { count ≡ 0 → self.new ≡ self.old }
        ensures hears { ReaderGoesOn (R.log r.old) (R.log r.new) self.old self.new count result }
    {
        let mut buffer = [0u8; READ_SIZE];
        let mut left = count;
        while left > 0 {
            let piece = &mut buffer[..left];
            let n = read_piece(r, piece, &mut self.reads)?;
            self.serving.feed(&piece[..n], &mut self.said)?;
            left -= n;
        }
        Ok(())
    }
}
