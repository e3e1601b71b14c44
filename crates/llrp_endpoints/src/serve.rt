//! Serves one client by a script.

ghost use Rattle.std.specs.Prelude.{◌≡◌, [], List, ℕ};
ghost use Rattle.llrp_stream.specs.Device.{IsFreshSink, IsFreshSource};
ghost use Rattle.llrp_endpoints.specs.Private.Server.{RunsServer};
ghost use Rattle.llrp_endpoints.specs.RunServe.{RunsServe};
ghost use Rattle.llrp_endpoints.specs.Serving.{IsNewReader};

use crate::script::Script;
use crate::server::Server;
use crate::serving::Serving;
use llrp_listing::{Pieces, ToolErr, hand_on};
use llrp_session::Reader;
use llrp_stream::{Sink, Source};
use std::alloc::Global;

/// Serves a client by a server that has not started, for [`run_serve`]. What it
/// says is gathered in `out`, which is empty at first.
fn serve<S: Server, R: Source, W: Sink>(
    server: &mut S,
    out: &mut Vec<u8>,
    r: &mut R,
    w: &mut W,
) -> Result<(), ToolErr>
    requires first { S.may_start server.old }
    requires nothing { out.old.items ≡ [] }
    requires source { IsFreshSource (R.log r.old) }
    requires sink { IsFreshSink (W.log w.old) }
    ensures { RunsServer S.fresh S.says S.begins server.old (R.log r.old) (R.log r.new)
        (W.log w.old) (W.log w.new) result }
{
    let started = server.start(out);
    hand_on(out, w)?;
    started?;
    let mut pieces = Pieces::new();
    while let Some(piece) = pieces.next(r)? {
        let fed = server.feed(piece, out);
        hand_on(out, w)?;
        if fed? {
            return Ok(());
        }
    }
    server.finish()
}

/// Serves the client whose bytes the source gives: writes the bytes that a simulated reader sends,
/// acting by the script, to the sink; those for what was read are written before the next read. The
/// core is as `Reader::new` made it. It ends well once the client closed the connection, or if the
/// source ends after a whole frame. The error is `Early` if the source ends within a frame, and
/// `Broken` at a length field below 10. After `Read`, `Write`, `Bound` or `Memory`, some first part
/// of what the reader says was written.
pub fn run_serve<R: Source, W: Sink>(
    alloc: Global,
    core: Reader,
    script: Script,
    r: &mut R,
    w: &mut W,
) -> Result<(), ToolErr>
    requires core { IsNewReader core }
    requires source { IsFreshSource (R.log r.old) }
    requires sink { IsFreshSink (W.log w.old) }
    ensures { (bytes : List ℕ) × RunsServe core script (R.log r.old) (R.log r.new) (W.log w.old)
        (W.log w.new) bytes result }
{
    let mut serving = Serving::new(alloc, core, script);
    let mut out = Vec::new(alloc);
    serve(&mut serving, &mut out, r, w)
}
