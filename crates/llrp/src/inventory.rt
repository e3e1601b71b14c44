//! The command `inventory`: follows a plan with a reader over TCP.

ghost use Rattle.llrp_words.specs.Calls.Arguments.{IsLongest};
ghost use Rattle.llrp.specs.Calls.Labels.{FollowsTold, ReportsTo, RunsLabelled};
ghost use Rattle.llrp.specs.Calls.Network.{FollowsPlan, RunsPlan};
ghost use Rattle.llrp_stream.specs.Device.{IsFreshSink};

use crate::address::Address;
use crate::connecting::{connect, say_connected};
use crate::faults::FaultFinder;
use crate::labelled_report::LabelledReport;
use crate::listening::Listening;
use crate::network::conclude;
use crate::notes::Notes;
use crate::progress::Progress;
use crate::timed::{TimedReads, TimedWrites};
use crate::waiting::Waiting;
use llrp_endpoints::{Plan, run_inventory, run_watching};
use llrp_listing::ToolErr;
use llrp_stream::Sink;
use llrp_waits::Bounds;
use std::alloc::Global;
use std::io::Write;
use std::net::TcpStream;

/// The reader to ask for its tags.
#[derive(Clone, Copy)]
pub struct Target<'a> {
    pub host: &'a str,
    pub port: u16,
    /// For how many seconds each thing is awaited of it; `None` means without end.
    pub timeout: Option<u16>,
    /// The most octets that a message may have.
    pub limit: u32,
    /// What --verbose asks for.
    pub notes: &'a Notes<'a>,
}

/// Follows a plan with the reader at the other end of the stream, of whose messages none may be longer
/// than `limit`. Writes the lines of tags to `report`.
pub fn take_inventory<W: Sink>(
    alloc: Global,
    stream: &TcpStream,
    waiting: &Waiting<'_>,
    plan: Plan,
    limit: u32,
    notes: &Notes<'_>,
    report: &mut W,
) -> Result<(), ToolErr>
    requires limit { IsLongest limit }
    requires report { IsFreshSink (W.log report.old) }
    ensures { FollowsPlan limit plan (W.log report.old) (W.log report.new) result }
{
    let faults = FaultFinder::new(alloc, limit, notes);
    let reads = TimedReads::new(alloc, waiting, stream);
    let mut source = Listening::new(alloc, reads, faults, notes, &waiting.pending);
    let mut sink = TimedWrites::new(alloc, waiting, stream);
    run_inventory(alloc, plan, limit, &mut source, &mut sink, report)?;
    Ok(())
}

/// The same, and writes the lines of tags to `report` with their labels. However many reads there are, it
/// ends as the plan does.
pub fn take_labelled<W: Write + Drop, T: Write + Drop>(
    alloc: Global,
    stream: &TcpStream,
    waiting: &Waiting<'_>,
    plan: Plan,
    limit: u32,
    notes: &Notes<'_>,
    report: &mut LabelledReport<W, T>,
) -> Result<(), ToolErr>
    requires { IsLongest limit }
    ensures { FollowsTold limit plan
        (ReportsTo report.old.labels report.old.form (W.contents report.old.output))
        (ReportsTo report.new.labels report.new.form (W.contents report.new.output)) result }
{
    let faults = FaultFinder::new(alloc, limit, notes);
    let reads = TimedReads::new(alloc, waiting, stream);
    let mut source = Listening::new(alloc, reads, faults, notes, &waiting.pending);
    let mut sink = TimedWrites::new(alloc, waiting, stream);
    run_watching(alloc, plan, limit, &mut source, &mut sink, report)?;
    Ok(())
}

/// How long each wait may last: without end where nothing is said of it.
fn bounds_of(target: Target<'_>) -> Bounds {
    let most = match target.timeout {
        Some(seconds) => Some(1_000 * seconds as u64),
        None => None,
    };
    Bounds {
        answer: most,
        report: most,
        frame: most,
        silence: most,
        write: most,
    }
}

/// The address that the words give.
fn address_in(target: Target<'_>) -> Address<'_> {
    Address {
        host: target.host,
        port: target.port,
    }
}

/// Follows a plan with the reader, and returns the exit status: 0 if all is well, 1 if the reader is
/// at fault, 3 if the network, a device or memory failed. Writes the lines of tags to `report`, and
/// an error as a line to `e`.
pub fn inventory<W: Sink + Drop, T: Write + Drop, E: Sink>(
    rt: &HostRuntime,
    alloc: Global,
    target: Target<'_>,
    plan: Plan,
    report: &mut Progress<W, T>,
    e: &mut E,
) -> Result<u8, ToolErr>
    requires limit { IsLongest target.limit }
    requires report { IsFreshSink (⟦<Progress<W, T> as Sink>⟧.log report.old) }
    requires errors { IsFreshSink (E.log e.old) }
    ensures { RunsPlan target.entry.limit plan
        (⟦<Progress<W, T> as Sink>⟧.log report.old) (⟦<Progress<W, T> as Sink>⟧.log report.new)
        (E.log e.old) (E.log e.new) result }
{
    let waiting = Waiting::new(rt, bounds_of(target));
    let outcome = match connect(rt, address_in(target), &waiting) {
        Some(stream) => {
            report.show();
            say_connected(alloc, target.notes, &stream);
            let (limit, notes) = (target.limit, target.notes);
            Some(take_inventory(alloc, &stream, &waiting, plan, limit, notes, report))
        }
        None => None,
    };
    report.wipe();
    target.notes.say_counts();
    conclude(outcome, e)
}

/// The same with labels.
pub fn labelled_inventory<W: Write + Drop, T: Write + Drop, E: Sink>(
    rt: &HostRuntime,
    alloc: Global,
    target: Target<'_>,
    plan: Plan,
    report: &mut LabelledReport<W, T>,
    e: &mut E,
) -> Result<u8, ToolErr>
    requires limit { IsLongest target.limit }
    requires errors { IsFreshSink (E.log e.old) }
    ensures { RunsLabelled target.entry.limit plan
        (ReportsTo report.old.labels report.old.form (W.contents report.old.output))
        (ReportsTo report.new.labels report.new.form (W.contents report.new.output))
        (W.contents report.old.output) (W.contents report.new.output) (E.log e.old) (E.log e.new) result }
{
    let waiting = Waiting::new(rt, bounds_of(target));
    let outcome = match connect(rt, address_in(target), &waiting) {
        Some(stream) => {
            report.show();
            say_connected(alloc, target.notes, &stream);
            let (limit, notes) = (target.limit, target.notes);
            Some(take_labelled(alloc, &stream, &waiting, plan, limit, notes, report))
        }
        None => None,
    };
    report.wipe();
    target.notes.say_counts();
    conclude(outcome, e)
}
