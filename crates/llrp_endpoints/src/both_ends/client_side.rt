//! The client's side of a connection.

ghost use Rattle.std.specs.Prelude.{◌≡◌, ◌≤◌, ◌<◌, [], OnOk};
ghost use Rattle.llrp_stream.specs.Device.{IsFreshSink, SinkLog};
ghost use Rattle.llrp_tree.specs.declared.TheConstants.{MAX_LIMIT};
ghost use Rattle.llrp_endpoints.specs.Private.EndsStand.{ClientGoesOn, ClientStands, HasRoom};
ghost use Rattle.llrp_endpoints.specs.RunLoop.{BothEnds};

use super::pieces::read_piece;
use crate::gathering::Gathering;
use crate::plan::Plan;
use llrp_listing::{READ_SIZE, ToolErr, hand_on};
use llrp_stream::{Sink, Source};
use std::alloc::Global;

/// A client that follows a plan with the other end.
#[derive(Drop)]
pub(super) struct ClientSide {
    pub gathering: Gathering,
    /// What the client said that is not written yet.
    pub said: Vec<u8>,
    /// The lines that are not written yet.
    pub lines: Vec<u8>,
    /// How many reads gave it bytes.
    pub reads: u32,
}

impl ClientSide {
    /// A client before any byte came.
    pub(crate) fn new(alloc: Global, plan: Plan, limit: u32) -> ClientSide
        requires least { 4096 ≤ limit }
        requires most { limit ≤ MAX_LIMIT }
        ensures stands { (e : BothEnds) (log : SinkLog) → e.limit ≡ limit → e.plan ≡ plan
            → ClientStands e [] [] log log result.gathering result.said.items result.lines.items }
        ensures unread { result.reads ≡ 0 }
    {
        ClientSide {
            gathering: Gathering::new(alloc, plan, limit),
            said: Vec::new(alloc),
            lines: Vec::new(alloc),
            reads: 0,
        }
    }

    /// Reads this many bytes and takes them as they come; lines of tags are written before the next
    /// read. Returns whether the connection was closed as planned, after which nothing more is
    /// read.
    pub(crate) fn hear<R: Source, P: Sink>(
        &mut self,
        count: usize,
        r: &mut R,
        report: &mut P,
    ) -> Result<bool, ToolErr>
        requires a_piece { count ≤ 4096 }
        requires room { HasRoom (R.log r.old) self.old.reads }
        requires report { IsFreshSink (P.log report.old) }
        ensures room { OnOk result (HasRoom (R.log r.new) self.new.reads) }
        ensures report { OnOk result ((P.log report.new).failures ≡ (P.log report.old).failures) }
        ensures counted { OnOk result (0 < count → self.old.reads < self.new.reads) }
        ensures idle { count ≡ 0 → self.new ≡ self.old }
        ensures hears { ClientGoesOn (R.log r.old) (R.log r.new) (P.log report.old)
            (P.log report.new) self.old self.new count result }
    {
        let mut buffer = [0u8; READ_SIZE];
        let mut left = count;
        while left > 0 {
            let piece = &mut buffer[..left];
            let n = read_piece(r, piece, &mut self.reads)?;
            let fed = self
                .gathering
                .feed(&piece[..n], &mut self.said, &mut self.lines);
            hand_on(&mut self.lines, report)?;
            let closed = fed?;
            if closed {
                return Ok(true);
            }
            left -= n;
        }
        Ok(false)
    }
}
