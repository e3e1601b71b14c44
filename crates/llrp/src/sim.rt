//! The command `sim`: serves clients over TCP.

ghost use Rattle.std.specs.Prelude.{◌≡◌};
ghost use Rattle.llrp_stream.specs.Device.{IsFreshSink, IsFreshSource};
ghost use Rattle.llrp.specs.Calls.Clients.{IsPortOf, RunsSim, ServesAt, listens_on};
ghost use Rattle.llrp.specs.Calls.Network.{MayServe, Serves};

use crate::clients::{most_clients, say_ready, serve_clients};
use crate::network::{FIRST_ID, conclude};
use llrp_commands::{LIMIT, SimWords};
use llrp_endpoints::{Script, run_serve};
use llrp_listing::ToolErr;
use llrp_session::Reader;
use llrp_stream::{Input, Output, Sink, Source};
use std::alloc::Global;
use std::net::{Net, TcpListener, TcpStream};

/// Serves the client of a stream by a script.
fn serve_stream(alloc: Global, stream: &TcpStream, script: Script) -> Result<(), ToolErr>
    ensures { Serves script result }
{
    let mut source = Input::new(stream);
    let mut sink = Output::new(stream);
    let core = Reader::new(alloc, LIMIT, FIRST_ID);
    run_serve(alloc, core, script, &mut source, &mut sink)
}

/// Serves the next client of a listener by a script, as `serve_stream` does. `None` means that the
/// network failed.
pub fn serve_next(
    alloc: Global,
    listener: &TcpListener,
    script: Script,
) -> Option<Result<(), ToolErr>>
    ensures { MayServe script result }
{
    let (stream, _) = listener.accept().ok()?;
    Some(serve_stream(alloc, &stream, script))
}

/// The address to listen on, if no other is named: that of this machine alone.
const THIS_MACHINE: &str = "127.0.0.1";

/// The address to listen on.
pub fn listens_on(bind: Option<&str>) -> &str
    ensures { result.now ≡ listens_on bind.entry }
{
    match bind {
        Some(address) => address,
        None => THIS_MACHINE,
    }
}

/// The port of a listener that was to listen on port `wanted`, or on a free port where that is 0.
pub fn port_of(listener: &TcpListener, wanted: u16) -> u16
    ensures { IsPortOf wanted result }
{
    if wanted > 0 {
        return wanted;
    }
    match listener.local_addr() {
        Ok(address) => address.port(),
        Err(_) => wanted,
    }
}

/// Listens where the words say, writes where that is if they ask for it, and serves clients by a script.
fn serve_at<N: Net<Listener = TcpListener, Stream = TcpStream>, E: Sink>(
    net: &N,
    alloc: Global,
    words: SimWords<'_>,
    script: &Script,
    e: &mut E,
) -> Result<u8, ToolErr>
    requires { IsFreshSink (E.log e.old) }
    ensures { ServesAt words.entry script.now (E.log e.old) (E.log e.new) result }
{
    let address = listens_on(words.bind);
    let Ok(listener) = TcpListener::bind(net, (address, words.port)) else {
        return conclude(None, e);
    };
    if words.ready {
        say_ready(alloc, address, port_of(&listener, words.port), e)?;
    }
    let most = most_clients(words.clients);
    serve_clients(alloc, &listener, script, most, e)
}

/// Reads the script, serves clients as the words say, and returns the exit status: 0 if all is well,
/// 1 if the script or a client is at fault, 3 if the network, a device or memory failed. Writes an
/// error as a line to `e`.
pub fn sim<N: Net<Listener = TcpListener, Stream = TcpStream>, R: Source, E: Sink>(
    net: &N,
    alloc: Global,
    words: SimWords<'_>,
    r: &mut R,
    e: &mut E,
) -> Result<u8, ToolErr>
    requires source { IsFreshSource (R.log r.old) }
    requires errors { IsFreshSink (E.log e.old) }
    ensures { RunsSim words.entry (R.log r.old) (R.log r.new) (E.log e.old) (E.log e.new) result }
{
    match Script::read(alloc, r) {
        Ok(script) => serve_at(net, alloc, words, &script, e),
        Err(error) => conclude(Some(Err(error)), e),
    }
}
