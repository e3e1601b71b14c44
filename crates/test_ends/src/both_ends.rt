//! A client and a simulated reader at the two ends of one connection.

use crate::inventory::inventory_of;
use crate::run::{ADD, CONNECTED};
use llrp_session::Reader;
use llrp_tool::{
    Endpoint, Input, Output, Plan, Script, Summary, ToolErr, checked_plan, run_loop, standard_plan,
};
use std::alloc::Global;
use std::test::*;
use test_devices::{Dripping, THREE_LINES, THREE_SIGHTINGS, Taking, octets};

/// A script, the bytes that go over the connection, and the lines that are printed (LLRP 1.1, section 17.1).
struct Run {
    script: &'static [u8],
    every: u16,
    check: bool,
    down: &'static [&'static str],
    up: &'static [&'static str],
    lines: &'static [u8],
    summary: Summary,
}

/// ADD_ROSPEC where the plan reports after 2 tags.
const ADD_EVERY_TWO: &str =
    "04140000004B00000001 00B10041000000010000 00B20012 00B3000500 00B600090000000000 00B7001800010000 00B800090000000000 00BA0007000101 00ED000D020002 00EE00061400";

/// The responses to ADD_ROSPEC, ENABLE_ROSPEC and START_ROSPEC, and that the ROSpec started at moment 0.
const ADDED: &str = "041E0000001200000001 011F000800000000";

const ENABLED: &str = "04220000001200000002 011F000800000000";

const STARTED: &str =
    "04200000001200000003 011F000800000000 043F0000002700000002 00F6001D 0080000C0000000000000000 00F9000D000000000100000000";

/// The client's requests after ADD_ROSPEC.
const ENABLE: &str = "04180000000E0000000200000001";

const START: &str = "04160000000E0000000300000001";

const GET_REPORT: &str = "043C0000000A00000004";

const STOP: &str = "04170000000E0000000500000001";

const DELETE: &str = "04150000000E0000000600000001";

const CLOSE: &str = "040E0000000A00000007";

/// GET_ROSPECS in a plan that is checked, and what follows it.
const LIST: &str = "041A0000000A00000006";

const DELETE_CHECKED: &str = "04150000000E0000000700000001";

const CLOSE_CHECKED: &str = "040E0000000A00000008";

/// The response to STOP_ROSPEC, and GET_ROSPECS_RESPONSE where the plan reports after 2 tags, and where it
/// reports on request alone.
const LISTED_EVERY_TWO: &str =
    "04210000001200000005 011F000800000000 04240000005300000006 011F000800000000 00B10041000000010001 00B20012 00B3000500 00B600090000000000 00B7001800010000 00B800090000000000 00BA0007000101 00ED000D020002 00EE00061400";

const LISTED: &str =
    "04210000001200000005 011F000800000000 04240000005300000006 011F000800000000 00B10041000000010001 00B20012 00B3000500 00B600090000000000 00B7001800010000 00B800090000000000 00BA0007000101 00ED000D020000 00EE00061400";

/// The responses to DELETE_ROSPEC and CLOSE_CONNECTION after that.
const DELETED_CHECKED: &str =
    "041F0000001200000007 011F000800000000 04040000001200000008 011F000800000000";

/// The responses to STOP_ROSPEC, DELETE_ROSPEC and CLOSE_CONNECTION.
const STOPPED: &str =
    "04210000001200000005 011F000800000000 041F0000001200000006 011F000800000000 04040000001200000007 011F000800000000";

/// The second report is the one that GET_REPORT asks for; the first comes by itself.
static RUNS: [Run; 4] = [
    Run {
        script: THREE_SIGHTINGS,
        every: 2,
        check: false,
        down: &[
            CONNECTED,
            ADDED,
            ENABLED,
            STARTED,
            "043D0000003600000003 00F00016 8D3074257BF7194E4000001A85 810001 86C4 00F00016 8D3114257BF400000001000000 810001 86C3",
            "043D0000002000000004 00F00016 8D350000001000002000000003 810002 86C2",
            "043F0000002700000005 00F6001D 0080000C0000000000000BB8 00F9000D010000000100000000",
            STOPPED,
        ],
        up: &[
            ADD_EVERY_TWO,
            ENABLE,
            START,
            GET_REPORT,
            STOP,
            DELETE,
            CLOSE,
        ],
        lines: THREE_LINES,
        summary: Summary {
            tags: 3,
            reports: 2,
        },
    },
    Run {
        script: b"",
        every: 0,
        check: false,
        down: &[
            CONNECTED,
            ADDED,
            ENABLED,
            STARTED,
            "043D0000000A00000003",
            "043F0000002700000004 00F6001D 0080000C0000000000000000 00F9000D010000000100000000",
            STOPPED,
        ],
        up: &[ADD, ENABLE, START, GET_REPORT, STOP, DELETE, CLOSE],
        lines: b"= 0\ntotal 0 1\n",
        summary: Summary {
            tags: 0,
            reports: 1,
        },
    },
    Run {
        script: THREE_SIGHTINGS,
        every: 2,
        check: true,
        down: &[
            CONNECTED,
            ADDED,
            ENABLED,
            STARTED,
            "043D0000003600000003 00F00016 8D3074257BF7194E4000001A85 810001 86C4 00F00016 8D3114257BF400000001000000 810001 86C3",
            "043D0000002000000004 00F00016 8D350000001000002000000003 810002 86C2",
            "043F0000002700000005 00F6001D 0080000C0000000000000BB8 00F9000D010000000100000000",
            LISTED_EVERY_TWO,
            DELETED_CHECKED,
        ],
        up: &[
            ADD_EVERY_TWO,
            ENABLE,
            START,
            GET_REPORT,
            STOP,
            LIST,
            DELETE_CHECKED,
            CLOSE_CHECKED,
        ],
        lines: THREE_LINES,
        summary: Summary {
            tags: 3,
            reports: 2,
        },
    },
    Run {
        script: b"",
        every: 0,
        check: true,
        down: &[
            CONNECTED,
            ADDED,
            ENABLED,
            STARTED,
            "043D0000000A00000003",
            "043F0000002700000004 00F6001D 0080000C0000000000000000 00F9000D010000000100000000",
            LISTED,
            DELETED_CHECKED,
        ],
        up: &[
            ADD,
            ENABLE,
            START,
            GET_REPORT,
            STOP,
            LIST,
            DELETE_CHECKED,
            CLOSE_CHECKED,
        ],
        lines: b"= 0\ntotal 0 1\n",
        summary: Summary {
            tags: 0,
            reports: 1,
        },
    },
];

/// How a run over memory ended, and what was written.
#[derive(Drop)]
struct Exchange {
    end: Result<Summary, ToolErr>,
    down: Vec<u8>,
    up: Vec<u8>,
    lines: Vec<u8>,
}

/// A plan of one poll, checked or not.
fn plan_of(alloc: Global, every: u16, check: bool) -> Result<Plan, ToolErr> {
    if check {
        checked_plan(alloc, every, 1)
    } else {
        standard_plan(alloc, every, 1)
    }
}

/// A reader that acts by a script and a client that follows a plan, each of which reads the bytes that the
/// other is to send.
fn exchange_of(
    alloc: Global,
    script: &[u8],
    plan: Plan,
    down: &[u8],
    up: &[u8],
) -> Result<Exchange, ToolErr> {
    let script = Script::parse(alloc, script)?;
    let mut client_end = Endpoint {
        source: Input::new(down),
        sink: Output::new(Vec::new(alloc)),
    };
    let mut reader_end = Endpoint {
        source: Input::new(up),
        sink: Output::new(Vec::new(alloc)),
    };
    let mut lines = Output::new(Vec::new(alloc));
    let end = run_loop(
        alloc,
        Reader::new(alloc, 65_536, 1),
        script,
        plan,
        65_536,
        &mut client_end,
        &mut reader_end,
        &mut lines,
    );
    Ok(Exchange {
        end,
        down: reader_end.sink.into_inner(),
        up: client_end.sink.into_inner(),
        lines: lines.into_inner(),
    })
}

impl Exchange {
    /// Whether it ended so, these bytes were sent each way, and these lines were printed.
    fn is(&self, end: Result<Summary, ToolErr>, down: &[u8], up: &[u8], lines: &[u8]) -> bool {
        self.end == end
            && self.down.as_slice() == down
            && self.up.as_slice() == up
            && self.lines.as_slice() == lines
    }
}

/// Whether a run over these bytes sends them both ways and prints what it should.
fn is_whole(alloc: Global, run: &Run, down: &[u8], up: &[u8]) -> Result<bool, ToolErr> {
    let plan = plan_of(alloc, run.every, run.check)?;
    let exchange = exchange_of(alloc, run.script, plan, down, up)?;
    Ok(exchange.is(Ok(run.summary), down, up, run.lines))
}

/// Whether a run over its own bytes does so.
fn runs_whole(alloc: Global, run: &Run) -> Result<bool, ToolErr> {
    let down = octets(alloc, run.down)?;
    let up = octets(alloc, run.up)?;
    is_whole(alloc, run, down.as_slice(), up.as_slice())
}

#[test]
fn whole_runs(rt: HostRuntime) {
    for run in &RUNS {
        assert!(rt; runs_whole(rt.alloc(), run) == Ok(true));
    }
}

/// Whether the client of a run sends and prints the same where its reader's bytes are at hand.
fn is_whole_alone(alloc: Global, run: &Run) -> Result<bool, ToolErr> {
    let plan = plan_of(alloc, run.every, run.check)?;
    let inventory = inventory_of(alloc, plan, 65_536, run.down)?;
    inventory.is(alloc, Ok(run.summary), run.up, run.lines)
}

#[test]
fn their_clients_alone(rt: HostRuntime) {
    for run in &RUNS {
        assert!(rt; is_whole_alone(rt.alloc(), run) == Ok(true));
    }
}

/// Bytes that each end reads, and how a run of an empty script ends.
struct Row {
    name: &'static str,
    down: &'static [&'static str],
    up: &'static [&'static str],
    end: ToolErr,
}

static ROWS: [Row; 6] = [
    Row {
        name: "nothing comes down",
        down: &[],
        up: &[],
        end: ToolErr::Early,
    },
    Row {
        name: "nothing comes up",
        down: &[CONNECTED],
        up: &[],
        end: ToolErr::Early,
    },
    Row {
        name: "a message of no known type leaves the client silent",
        down: &["04010000002000000005 00000000000000000000000000000000000000000000"],
        up: &[],
        end: ToolErr::Early,
    },
    Row {
        name: "a length field below 10 comes down",
        down: &["043F00000009"],
        up: &[],
        end: ToolErr::Broken,
    },
    Row {
        name: "a length field below 10 comes up",
        down: &[CONNECTED],
        up: &["041400000009"],
        end: ToolErr::Broken,
    },
    Row {
        name: "refused with status 101",
        down: &[CONNECTED, "041E0000001200000001 011F000800650000"],
        up: &[ADD],
        end: ToolErr::Peer(101),
    },
];

/// Whether a run of an empty script over these bytes ends with this error, and nothing is printed.
fn stops_with(alloc: Global, end: ToolErr, down: &[u8], up: &[u8]) -> Result<bool, ToolErr> {
    let exchange = exchange_of(alloc, b"", plan_of(alloc, 0, false)?, down, up)?;
    Ok(exchange.end == Err(end) && exchange.lines.is_empty())
}

/// Whether a row's run ends as the row says, and nothing is printed.
fn is_as_said(alloc: Global, row: &Row) -> Result<bool, ToolErr> {
    let down = octets(alloc, row.down)?;
    let up = octets(alloc, row.up)?;
    stops_with(alloc, row.end, down.as_slice(), up.as_slice())
}

#[test]
fn runs_that_end_before_the_closing(rt: HostRuntime) {
    for row in &ROWS {
        assert!(rt; is_as_said(rt.alloc(), row) == Ok(true), "at {}", row.name);
    }
}

/// After how many calls each device fails in a run over devices of one byte a call; the largest number for
/// a device that does not fail.
#[derive(Clone, Copy)]
struct Failures {
    down_reads: usize,
    up_reads: usize,
    down_writes: usize,
    up_writes: usize,
    reports: usize,
}

const NONE: Failures = Failures {
    down_reads: usize::MAX,
    up_reads: usize::MAX,
    down_writes: usize::MAX,
    up_writes: usize::MAX,
    reports: usize::MAX,
};

/// Whether such a run over these bytes ends so, and all that was written are fronts of what a whole run
/// writes.
fn leaves_fronts(
    alloc: Global,
    run: &Run,
    down: &[u8],
    up: &[u8],
    failures: &Failures,
    end: Result<Summary, ToolErr>,
) -> Result<bool, ToolErr> {
    let script = Script::parse(alloc, run.script)?;
    let plan = plan_of(alloc, run.every, run.check)?;
    let mut client_end = Endpoint {
        source: Dripping::after(down, failures.down_reads),
        sink: Taking::after(alloc, failures.up_writes),
    };
    let mut reader_end = Endpoint {
        source: Dripping::after(up, failures.up_reads),
        sink: Taking::after(alloc, failures.down_writes),
    };
    let mut lines = Taking::after(alloc, failures.reports);
    let found = run_loop(
        alloc,
        Reader::new(alloc, 65_536, 1),
        script,
        plan,
        65_536,
        &mut client_end,
        &mut reader_end,
        &mut lines,
    );
    Ok(
        found == end
            && down.starts_with(reader_end.sink.taken())
            && up.starts_with(client_end.sink.taken())
            && run.lines.starts_with(lines.taken()),
    )
}

/// Whether such a run over its own bytes does so.
fn ends_with(
    alloc: Global,
    run: &Run,
    failures: &Failures,
    end: Result<Summary, ToolErr>,
) -> Result<bool, ToolErr> {
    let down = octets(alloc, run.down)?;
    let up = octets(alloc, run.up)?;
    leaves_fronts(alloc, run, down.as_slice(), up.as_slice(), failures, end)
}

#[test]
fn a_run_over_devices_of_one_byte_a_call(rt: HostRuntime) {
    let run = &RUNS[0];
    assert!(rt; ends_with(rt.alloc(), run, &NONE, Ok(run.summary)) == Ok(true));
}

/// How many bytes hexadecimal texts in a row spell.
fn count_of(alloc: Global, texts: &[&str]) -> Result<usize, ToolErr> {
    Ok(octets(alloc, texts)?.len())
}

/// Whether the first run ends with an error where these reads and writes fail.
fn fails_both_ways(alloc: Global, reads: &Failures, writes: &Failures) -> Result<bool, ToolErr> {
    let run = &RUNS[0];
    let reads_fail = ends_with(alloc, run, reads, Err(ToolErr::Read))?;
    let writes_fail = ends_with(alloc, run, writes, Err(ToolErr::Write))?;
    Ok(reads_fail && writes_fail)
}

#[test]
fn each_call_of_an_end_fails_in_turn(rt: HostRuntime) -> Result<(), Fail> {
    let alloc = rt.alloc();
    for left in 0..count_of(alloc, RUNS[0].down)? {
        let reads = Failures {
            down_reads: left,
            ..NONE
        };
        let writes = Failures {
            down_writes: left,
            ..NONE
        };
        assert!(rt; fails_both_ways(alloc, &reads, &writes) == Ok(true));
    }
    for left in 0..count_of(alloc, RUNS[0].up)? {
        let reads = Failures {
            up_reads: left,
            ..NONE
        };
        let writes = Failures {
            up_writes: left,
            ..NONE
        };
        assert!(rt; fails_both_ways(alloc, &reads, &writes) == Ok(true));
    }
    Ok(())
}

#[test]
fn each_report_fails_in_turn(rt: HostRuntime) {
    let run = &RUNS[0];
    for left in 0..run.lines.len() {
        let reports = Failures {
            reports: left,
            ..NONE
        };
        assert!(rt; ends_with(rt.alloc(), run, &reports, Err(ToolErr::Write)) == Ok(true));
    }
}
