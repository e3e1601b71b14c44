//! Both ends of a connection over devices that fail, in two exchanges of three sightings (LLRP 1.1, section
//! 17.1). In the first they are reported after two and when they are asked for. In the second the ROSpec is
//! one of the client's own, which the reader starts and which reports each; the client deletes all ROSpecs
//! first, awaits a report, asks for one, and compares the tables.

ghost use Rattle.std.specs.Prelude.{◌≡◌, [], None, Some};
ghost use Rattle.llrp_stream.specs.Calls.Device.{new_sink, new_source};

use crate::tally::{Tally, is_front};
use llrp_answers::Answers;
use llrp_general::run_serve_whole;
use llrp_session::Reader;
use llrp_tool::{
    Endpoint, LIMIT, Plan, Script, Sink, Source, ToolErr, bytes_of_hex, run_inventory, run_loop,
    run_serve, standard_plan,
};
use std::alloc::Global;
use test_devices::{Dripping, Failure, NEVER, THREE_LINES, THREE_SIGHTINGS, Taking};

/// What the client sends in the first exchange: ADD_ROSPEC, ENABLE_ROSPEC, START_ROSPEC, GET_REPORT,
/// STOP_ROSPEC, DELETE_ROSPEC and CLOSE_CONNECTION.
const UP: &[u8] =
    b"04140000004B00000001 00B10041000000010000 00B20012 00B3000500 00B600090000000000 00B7001800010000 00B800090000000000 00BA0007000101 00ED000D020002 00EE00061400
    04180000000E0000000200000001 04160000000E0000000300000001 043C0000000A00000004 04170000000E0000000500000001 04150000000E0000000600000001 040E0000000A00000007";

/// What a general client sends before that: GET_SUPPORTED_VERSION and GET_READER_CONFIG.
const ASKED: &[u8] = b"082E0000000A00000007 0402000000110000000600000000000000";

/// What the reader sends before any request.
const GREETING: &[u8] = b"043F0000002000000001 00F60016 0080000C0000000000000000 010000060000";

/// What a general client is answered.
const TOLD: &[u8] = b"083800000014000000070102 011F000800000000
    040C0000003300000006 011F000800000000 00DA000F0000080000000000000000 00DD00098000010000 00DD00098000020000";

/// What the reader sends in the first exchange after its greeting.
const DOWN: &[u8] = b"041E0000001200000001 011F000800000000 04220000001200000002 011F000800000000
    04200000001200000003 011F000800000000 043F0000002700000002 00F6001D 0080000C0000000000000000 00F9000D000000000100000000
    043D0000003600000003 00F00016 8D3074257BF7194E4000001A85 810001 86C4 00F00016 8D3114257BF400000001000000 810001 86C3
    043D0000002000000004 00F00016 8D350000001000002000000003 810002 86C2
    043F0000002700000005 00F6001D 0080000C0000000000000BB8 00F9000D010000000100000000
    04210000001200000005 011F000800000000 041F0000001200000006 011F000800000000 04040000001200000007 011F000800000000";

/// The ROSpec of the second exchange.
const ROSPEC: &[u8] =
    b"1 ROSpec 7 0 0\n2 ROBoundarySpec\n3 ROSpecStartTrigger 1\n3 ROSpecStopTrigger 0 0\n\
2 AISpec w1,2\n3 AISpecStopTrigger 0 0\n3 InventoryParameterSpec 1 1\n2 ROReportSpec 2 1\n\
3 TagReportContentSelector 0 0 0 1 0 1 0 0 0 0\n";

/// What the client sends in it: DELETE_ROSPEC, ADD_ROSPEC, ENABLE_ROSPEC, GET_REPORT, DISABLE_ROSPEC,
/// GET_ROSPECS, DELETE_ROSPEC and CLOSE_CONNECTION.
const OWN_UP: &[u8] = b"04150000000E0000000100000000
    04140000004D00000002 00B10043000000070000 00B20012 00B3000501 00B600090000000000 00B7001A000200010002 00B800090000000000 00BA0007000101 00ED000D020001 00EE00061400
    04180000000E0000000300000007 043C0000000A00000004 04190000000E0000000500000007 041A0000000A00000006
    04150000000E0000000700000007 040E0000000A00000008";

/// What the reader sends in it.
const OWN_DOWN: &[u8] = b"043F0000002000000001 00F60016 0080000C0000000000000000 010000060000
    041F0000001200000001 011F000800000000 041E0000001200000002 011F000800000000 04220000001200000003 011F000800000000
    043F0000002700000002 00F6001D 0080000C0000000000000000 00F9000D000000000700000000
    043D0000002000000003 00F00016 8D3074257BF7194E4000001A85 810001 86C4
    043D0000002000000004 00F00016 8D3114257BF400000001000000 810001 86C3
    043D0000002000000005 00F00016 8D350000001000002000000003 810002 86C2
    043D0000000A00000006
    043F0000002700000007 00F6001D 0080000C0000000000000BB8 00F9000D010000000700000000
    04230000001200000005 011F000800000000
    04240000005500000006 011F000800000000 00B10043000000070000 00B20012 00B3000501 00B600090000000000 00B7001A000200010002 00B800090000000000 00BA0007000101 00ED000D020001 00EE00061400
    041F0000001200000007 011F000800000000 04040000001200000008 011F000800000000";

/// What is printed in it.
const OWN_LINES: &[u8] =
    b"urn:epc:tag:sgtin-96:3.0614141.812345.6789 1 -60\n= 1\nurn:epc:tag:sscc-96:0.0614141.0000000001 1 -61\n= 1\n\
urn:epc:tag:gid-96:1.2.3 2 -62\n= 1\n= 0\ntotal 3 4\n";

/// A device of the two ends.
#[derive(Clone, Copy, PartialEq)]
enum Device {
    ClientSource,
    ClientSink,
    /// The sink of the lines that the client prints.
    Lines,
    ReaderSource,
    ReaderSink,
}

/// The call in which one device fails, and how.
#[derive(Clone, Copy)]
struct Fails {
    device: Device,
    call: u64,
    failure: Failure,
}

/// No device fails.
const NONE: Fails = Fails {
    device: Device::Lines,
    call: NEVER,
    failure: Failure::Error,
};

impl Fails {
    /// The call in which a device fails.
    fn call_of(self, device: Device) -> u64 {
        if self.device == device {
            self.call
        } else {
            NEVER
        }
    }

    /// A source of these octets.
    fn source<'a>(self, octets: &'a [u8], device: Device) -> Dripping<'a>
        ensures { ⟦<Dripping<'a> as Source>⟧.log result ≡ new_source None }
    {
        Dripping::new(octets, self.call_of(device))
    }

    /// A sink.
    fn sink(self, alloc: Global, device: Device) -> Taking
        ensures { ⟦<Taking as Sink>⟧.log result ≡ new_sink (Some []) }
    {
        Taking::new(alloc, self.call_of(device), self.failure)
    }

    /// Whether a sink took what it has to: the octets before the call that fails, all where no device fails,
    /// and else a front.
    fn is_right(self, device: Device, taken: &[u8], wanted: &[u8]) -> bool {
        if self.call == NEVER {
            taken == wanted
        } else if self.device == device {
            is_front(taken, wanted, self.call.saturating_sub(1) as usize)
        } else {
            wanted.starts_with(taken)
        }
    }
}

/// A run over devices that fail.
#[derive(Clone, Copy)]
enum Run {
    Serve,
    ServeAll,
    Inventory,
    Loop,
}

/// How a run ends: fine, or with an error; and whether its sinks took what they have to.
type Ended = (Result<(), ToolErr>, bool);

/// The octets of these texts, one after another.
fn joined(alloc: Global, texts: &[&[u8]]) -> Result<Vec<u8>, ToolErr> {
    let mut all = Vec::new(alloc);
    for text in texts {
        let octets = bytes_of_hex(alloc, text)?;
        all.extend_from_slice(octets.as_slice())?;
    }
    Ok(all)
}

/// The octets of each way of an exchange, and what is printed.
#[derive(Drop)]
pub struct Ways {
    up: Vec<u8>,
    down: Vec<u8>,
    lines: &'static [u8],
    is_own: bool,
}

impl Ways {
    /// The first exchange.
    pub fn standard(alloc: Global) -> Result<Ways, ToolErr> {
        Ok(Ways {
            up: joined(alloc, &[UP])?,
            down: joined(alloc, &[GREETING, DOWN])?,
            lines: THREE_LINES,
            is_own: false,
        })
    }

    /// The second one.
    pub fn own(alloc: Global) -> Result<Ways, ToolErr> {
        Ok(Ways {
            up: bytes_of_hex(alloc, OWN_UP)?,
            down: bytes_of_hex(alloc, OWN_DOWN)?,
            lines: OWN_LINES,
            is_own: true,
        })
    }

    /// The first one of a general client, which asks before it.
    pub fn general(alloc: Global) -> Result<Ways, ToolErr> {
        Ok(Ways {
            up: joined(alloc, &[ASKED, UP])?,
            down: joined(alloc, &[GREETING, TOLD, DOWN])?,
            lines: THREE_LINES,
            is_own: false,
        })
    }

    /// The plan of the client.
    fn plan(&self, alloc: Global) -> Result<Plan, ToolErr> {
        if !self.is_own {
            return standard_plan(alloc, 2, 1);
        }
        match Plan::parse(alloc, ROSPEC, 1, true) {
            Ok(plan) => Ok(plan.awaiting(1).cleaning()),
            Err(_) => Err(ToolErr::Memory),
        }
    }

    /// Serves what the client sends, or what a general client sends.
    fn served(&self, alloc: Global, fails: Fails, all: bool) -> Result<Ended, ToolErr> {
        let script = Script::parse(alloc, THREE_SIGHTINGS)?;
        let mut source = fails.source(self.up.as_slice(), Device::ReaderSource);
        let mut sink = fails.sink(alloc, Device::ReaderSink);
        let core = Reader::new(alloc, LIMIT, 1);
        let end = if all {
            run_serve_whole(
                alloc,
                core,
                script,
                Answers::new(alloc),
                &mut source,
                &mut sink,
            )
            .0
        } else {
            run_serve(alloc, core, script, &mut source, &mut sink)
        };
        let is_right = fails.is_right(Device::ReaderSink, sink.taken(), self.down.as_slice());
        Ok((end, is_right))
    }

    /// Takes inventory of what the reader sends.
    fn gathered(&self, alloc: Global, fails: Fails) -> Result<Ended, ToolErr> {
        let plan = self.plan(alloc)?;
        let mut source = fails.source(self.down.as_slice(), Device::ClientSource);
        let mut sink = fails.sink(alloc, Device::ClientSink);
        let mut lines = fails.sink(alloc, Device::Lines);
        let end = run_inventory(alloc, plan, LIMIT, &mut source, &mut sink, &mut lines);
        let is_right = fails.is_right(Device::ClientSink, sink.taken(), self.up.as_slice())
            && fails.is_right(Device::Lines, lines.taken(), self.lines);
        Ok((end.map(|_| ()), is_right))
    }

    /// Runs both ends over what the other is to send.
    fn looped(&self, alloc: Global, fails: Fails) -> Result<Ended, ToolErr> {
        let script = Script::parse(alloc, THREE_SIGHTINGS)?;
        let plan = self.plan(alloc)?;
        let mut client = Endpoint {
            source: fails.source(self.down.as_slice(), Device::ClientSource),
            sink: fails.sink(alloc, Device::ClientSink),
        };
        let mut reader = Endpoint {
            source: fails.source(self.up.as_slice(), Device::ReaderSource),
            sink: fails.sink(alloc, Device::ReaderSink),
        };
        let mut lines = fails.sink(alloc, Device::Lines);
        let core = Reader::new(alloc, LIMIT, 1);
        let end = run_loop(
            alloc,
            core,
            script,
            plan,
            LIMIT,
            &mut client,
            &mut reader,
            &mut lines,
        );
        let is_right = fails.is_right(Device::ClientSink, client.sink.taken(), self.up.as_slice())
            && fails.is_right(
                Device::ReaderSink,
                reader.sink.taken(),
                self.down.as_slice(),
            )
            && fails.is_right(Device::Lines, lines.taken(), self.lines);
        Ok((end.map(|_| ()), is_right))
    }

    /// Whether a run over devices that fail so ends so, and its sinks took what they have to.
    fn ends(&self, alloc: Global, run: Run, fails: Fails, end: Result<(), ToolErr>) -> bool {
        let ended = match run {
            Run::Serve => self.served(alloc, fails, false),
            Run::ServeAll => self.served(alloc, fails, true),
            Run::Inventory => self.gathered(alloc, fails),
            Run::Loop => self.looped(alloc, fails),
        };
        ended == Ok((end, true))
    }

    /// How many calls a device has where none fails, without the one that meets the end of a source.
    fn calls_of(&self, device: Device) -> u64 {
        let octets = match device {
            Device::ClientSource | Device::ReaderSink => self.down.len(),
            Device::ReaderSource | Device::ClientSink => self.up.len(),
            Device::Lines => self.lines.len(),
        };
        octets as u64
    }

    /// A run where no device fails, and where each of these sources fails in each call.
    fn sources_fail(&self, alloc: Global, run: Run, sources: &[Device]) -> Tally {
        let mut tally = Tally::new();
        tally.count(self.ends(alloc, run, NONE, Ok(())));
        for device in sources {
            for call in 1..=self.calls_of(*device) {
                let fails = Fails {
                    device: *device,
                    call,
                    failure: Failure::Error,
                };
                tally.count(self.ends(alloc, run, fails, Err(ToolErr::Read)));
            }
        }
        tally
    }

    /// The same, and where each of these sinks fails in each call, in either way.
    fn all_fail(&self, alloc: Global, run: Run, sources: &[Device], sinks: &[Device]) -> Tally {
        let mut tally = self.sources_fail(alloc, run, sources);
        for device in sinks {
            for failure in [Failure::Error, Failure::NoOctet] {
                for call in 1..=self.calls_of(*device) {
                    let fails = Fails {
                        device: *device,
                        call,
                        failure,
                    };
                    tally.count(self.ends(alloc, run, fails, Err(ToolErr::Write)));
                }
            }
        }
        tally
    }

    /// Serving, each call of its devices failing in turn.
    pub fn serve(&self, alloc: Global) -> Tally {
        let sources = [Device::ReaderSource];
        self.all_fail(alloc, Run::Serve, &sources, &[Device::ReaderSink])
    }

    /// Serving a general client, each call of its devices failing in turn.
    pub fn serve_all(&self, alloc: Global) -> Tally {
        let sources = [Device::ReaderSource];
        self.all_fail(alloc, Run::ServeAll, &sources, &[Device::ReaderSink])
    }

    /// An inventory, each call of its devices failing in turn.
    pub fn inventory(&self, alloc: Global) -> Tally {
        let sinks = [Device::ClientSink, Device::Lines];
        self.all_fail(alloc, Run::Inventory, &[Device::ClientSource], &sinks)
    }

    /// Both ends, each call of their devices failing in turn.
    pub fn both(&self, alloc: Global) -> Tally {
        let sources = [Device::ClientSource, Device::ReaderSource];
        let sinks = [Device::ClientSink, Device::ReaderSink, Device::Lines];
        self.all_fail(alloc, Run::Loop, &sources, &sinks)
    }
}
