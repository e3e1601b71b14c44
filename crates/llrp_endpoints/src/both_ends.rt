//! Runs both ends of one connection: a simulated reader that acts by a script, and a client that
//! follows a plan.

ghost use Rattle.std.specs.Prelude.{◌↔◌, ◌≡◌, ◌≤◌, [], IsTrue};
ghost use Rattle.llrp_tree.specs.declared.TheConstants.{MAX_LIMIT};
ghost use Rattle.llrp_stream.specs.Device.{IsFreshSink, IsFreshSource};
ghost use Rattle.llrp_endpoints.specs.Private.EndsStand.{RunsFromStart};
ghost use Rattle.llrp_endpoints.specs.RunLoop.{RunsBothEnds, devices};
ghost use Rattle.llrp_endpoints.specs.Serving.{IsNewReader};
ghost use Rattle.llrp_endpoints.specs.Calls.ServingStands.{HasStarted};

mod client_side;
mod pieces;
mod reader_side;

use crate::plan::Plan;
use crate::script::Script;
use crate::summary::Summary;
use client_side::ClientSide;
use llrp_listing::ToolErr;
use llrp_session::Reader;
use llrp_stream::{Sink, Source};
use pieces::write_piece;
use reader_side::ReaderSide;
use std::alloc::Global;

/// One end of a connection.
#[derive(Drop)]
pub struct Endpoint<R: Source, W: Sink> {
    /// Reads what comes from the other end.
    pub source: R,
    /// Writes what goes to the other end.
    pub sink: W,
}

/// Whether neither side has bytes to send.
fn are_silent(reader: &ReaderSide, client: &ClientSide) -> bool
    ensures { IsTrue result ↔ ((reader.now.said.items ≡ []) × (client.now.said.items ≡ [])) }
{
    reader.said.is_empty() && client.said.is_empty()
}

/// Lets a client and a reader that have read nothing yet send and read in turn, for [`run_loop`].
fn exchange<CR: Source, CW: Sink, RR: Source, RW: Sink, P: Sink>(
    client: &mut ClientSide,
    reader: &mut ReaderSide,
    client_end: &mut Endpoint<CR, CW>,
    reader_end: &mut Endpoint<RR, RW>,
    report: &mut P,
) -> Result<Summary, ToolErr>
    requires started { HasStarted reader.old.serving }
    requires client_unread { client.old.reads ≡ 0 }
    requires reader_unread { reader.old.reads ≡ 0 }
    requires down_source { IsFreshSource (CR.log client_end.old.source) }
    requires up_source { IsFreshSource (RR.log reader_end.old.source) }
    requires down_sink { IsFreshSink (RW.log reader_end.old.sink) }
    requires up_sink { IsFreshSink (CW.log client_end.old.sink) }
    requires report { IsFreshSink (P.log report.old) }
    ensures { RunsFromStart reader.old client.old
        (devices CR.log CW.log RR.log RW.log P.log client_end.old reader_end.old report.old)
        (devices CR.log CW.log RR.log RW.log P.log client_end.new reader_end.new report.new) result }
{
    while !are_silent(reader, client) {
        let down = write_piece(&mut reader.said, &mut reader_end.sink)?;
        let closed = client.hear(down, &mut client_end.source, report)?;
        if closed {
            return Ok(client.gathering.summary());
        }
        let up = write_piece(&mut client.said, &mut client_end.sink)?;
        reader.hear(up, &mut reader_end.source)?;
    }
    Err(ToolErr::Early)
}

/// Runs a simulated reader that acts by the script at `reader_end`, and a client that follows the
/// plan at `client_end`, in turn: at most 4,096 bytes are written at one end, and as many as the
/// write took are read at the other end before the next write. Lines of tags are written to
/// `report` before the next read. The core is as `Reader::new` made it, and no frame may be longer
/// than `limit` octets.
///
/// Returns how many tags and reports there were, once the connection was closed as planned. The
/// error is `Early` if the connection or an input ends before that, or if neither end has bytes to
/// send; `Peer` for a status other than 0; `Strange` for an unexpected message, with a checked plan
/// for a table that differs from the client's view, or a frame with a fault other than an unknown
/// type; `Broken` for a length field below 10 at either end. After `Read`, `Write`, `Bound` or
/// `Memory`, each end wrote some first part of what it says.
pub fn run_loop<CR: Source, CW: Sink, RR: Source, RW: Sink, P: Sink>(
    alloc: Global,
    core: Reader,
    script: Script,
    plan: Plan,
    limit: u32,
    client_end: &mut Endpoint<CR, CW>,
    reader_end: &mut Endpoint<RR, RW>,
    report: &mut P,
) -> Result<Summary, ToolErr>
    requires core { IsNewReader core }
    requires least { 4096 ≤ limit }
    requires most { limit ≤ MAX_LIMIT }
    requires down_source { IsFreshSource (CR.log client_end.old.source) }
    requires up_source { IsFreshSource (RR.log reader_end.old.source) }
    requires down_sink { IsFreshSink (RW.log reader_end.old.sink) }
    requires up_sink { IsFreshSink (CW.log client_end.old.sink) }
    requires report { IsFreshSink (P.log report.old) }
    ensures { RunsBothEnds core script limit plan
        (devices CR.log CW.log RR.log RW.log P.log client_end.old reader_end.old report.old)
        (devices CR.log CW.log RR.log RW.log P.log client_end.new reader_end.new report.new) result }
{
    let mut client = ClientSide::new(alloc, plan, limit);
    let mut reader = ReaderSide::new(alloc, core, script)?;
    exchange(&mut client, &mut reader, client_end, reader_end, report)
}
