//! The command `loop`: a simulated reader and a client over one TCP connection from the program to
//! itself.

ghost use Rattle.llrp_stream.specs.Device.{IsFreshSink, IsFreshSource};
ghost use Rattle.llrp.specs.Calls.Network.{MayRunBoth, RunsBoth, RunsBothEnds};

use crate::network::{FIRST_ID, conclude};
use crate::progress::Progress;
use llrp_commands::LIMIT;
use llrp_endpoints::{Endpoint, Plan, Script, run_loop};
use llrp_listing::ToolErr;
use llrp_session::Reader;
use llrp_stream::{Input, Output, Sink, Source};
use std::alloc::Global;
use std::io::Write;
use std::net::{Net, TcpListener, TcpStream};

/// The two ends of one connection.
#[derive(Drop)]
struct Connection {
    client: TcpStream,
    reader: TcpStream,
}

impl Connection {
    /// Opens a connection from the program to itself. `None` means that the network failed.
    fn open<N: Net<Listener = TcpListener, Stream = TcpStream>>(net: &N) -> Option<Connection> {
        let listener = TcpListener::bind(net, ("127.0.0.1", 0)).ok()?;
        let client = TcpStream::connect(net, listener.local_addr().ok()?).ok()?;
        let (reader, _) = listener.accept().ok()?;
        Some(Connection { client, reader })
    }

    /// Lets a simulated reader that acts by the script serve, at one end, a client that follows a
    /// plan at the other. Writes the lines of tags to `report`.
    fn run<W: Sink>(
        &self,
        alloc: Global,
        script: Script,
        plan: Plan,
        report: &mut W,
    ) -> Result<(), ToolErr>
        requires { IsFreshSink (W.log report.old) }
        ensures { RunsBoth plan
            (W.log report.old) (W.log report.new) script result }
    {
        let core = Reader::new(alloc, LIMIT, FIRST_ID);
        let mut client_end = Endpoint {
            source: Input::new(&self.client),
            sink: Output::new(&self.client),
        };
        let mut reader_end = Endpoint {
            source: Input::new(&self.reader),
            sink: Output::new(&self.reader),
        };
        run_loop(
            alloc,
            core,
            script,
            plan,
            LIMIT,
            &mut client_end,
            &mut reader_end,
            report,
        )?;
        Ok(())
    }
}

/// Runs both ends by the script. `None` means that the network failed.
fn run_script<N: Net<Listener = TcpListener, Stream = TcpStream>, W: Sink + Drop, T: Write + Drop>(
    net: &N,
    alloc: Global,
    script: Script,
    plan: Plan,
    report: &mut Progress<W, T>,
) -> Option<Result<(), ToolErr>>
    requires { IsFreshSink (⟦<Progress<W, T> as Sink>⟧.log report.old) }
    ensures { MayRunBoth plan
        (⟦<Progress<W, T> as Sink>⟧.log report.old) (⟦<Progress<W, T> as Sink>⟧.log report.new)
        script result }
{
    let connection = Connection::open(net)?;
    report.show();
    let outcome = connection.run(alloc, script, plan, report);
    report.wipe();
    Some(outcome)
}

/// Reads the script, runs a simulated reader by it and a client that follows the plan, and returns
/// the exit status: 0 if all is well, 1 if the script is at fault or the plan did not come to its
/// end, 3 if the network, a device or memory failed.
/// Writes the lines of tags to `report`, and an error as a line to `e`.
pub fn run_both_ends<
    N: Net<Listener = TcpListener, Stream = TcpStream>,
    R: Source,
    W: Sink + Drop,
    T: Write + Drop,
    E: Sink,
>(
    net: &N,
    alloc: Global,
    plan: Plan,
    r: &mut R,
    report: &mut Progress<W, T>,
    e: &mut E,
) -> Result<u8, ToolErr>
    requires source { IsFreshSource (R.log r.old) }
    requires report { IsFreshSink (⟦<Progress<W, T> as Sink>⟧.log report.old) }
    requires errors { IsFreshSink (E.log e.old) }
    ensures { RunsBothEnds plan
        (R.log r.old) (R.log r.new) (⟦<Progress<W, T> as Sink>⟧.log report.old)
        (⟦<Progress<W, T> as Sink>⟧.log report.new) (E.log e.old) (E.log e.new) result }
{
    let outcome = match Script::read(alloc, r) {
        Ok(script) => run_script(net, alloc, script, plan, report),
        Err(error) => Some(Err(error)),
    };
    conclude(outcome, e)
}
