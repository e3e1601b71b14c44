//! Plans other than the standard ones: with a ROSpec of one's own, reports that are awaited, and a clean
//! start.

ghost use Rattle.std.specs.Prelude.{◌≤◌};

use crate::run::CONNECTED;
use llrp_tool::{Gathering, Plan, PlanErr, PlanFault, Refusal, ToolErr, standard_plan};
use llrp_tree::{KindSet, Node, NodeFault};
use std::alloc::Global;
use std::test::*;
use test_devices::{decoded, octets};

/// A ROSpec of id 7 on antennas 1 and 2, which starts as soon as it is enabled, with a report for each tag.
const IMMEDIATE: &str =
    "00B1004300000007 0000 00B20012 00B3000501 00B600090000000000 00B7001A000200010002 00B800090000000000 00BA0007000101 00ED000D020001 00EE00061400";

/// The same ROSpec, which starts on command.
const COMMANDED: &str =
    "00B1004300000007 0000 00B20012 00B3000500 00B600090000000000 00B7001A000200010002 00B800090000000000 00BA0007000101 00ED000D020001 00EE00061400";

/// The ROSpec of a standard plan with a report for each tag.
const STANDARD: &str =
    "00B1004100000001 0000 00B20012 00B3000500 00B600090000000000 00B7001800010000 00B800090000000000 00BA0007000101 00ED000D020001 00EE00061400";

/// Reports without a tag and with one, and the lines of them.
const EMPTY: &str = "043D0000000A00000064";

const TAGGED: &str = "043D0000002000000065 00F00016 8D3074257BF7194E4000001A85 810001 86C4";

/// What a plan has besides its ROSpec.
#[derive(Clone, Copy)]
struct Options {
    cleans: bool,
    reports: u64,
    polls: u16,
    checked: bool,
}

/// A plan, the frames of its reader, those of its client, and the lines that are printed.
struct Row {
    name: &'static str,
    /// The octets of the ROSpec; `None` for the standard one with a report for each tag.
    own: Option<&'static str>,
    options: Options,
    down: &'static [&'static str],
    up: &'static [&'static str],
    lines: &'static [u8],
}

static ROWS: [Row; 4] = [
    Row {
        name: "all of it, with a ROSpec that the reader starts",
        own: Some(IMMEDIATE),
        options: Options {
            cleans: true,
            reports: 2,
            polls: 1,
            checked: true,
        },
        down: &[
            CONNECTED,
            "041F0000001200000001 011F000800000000",
            "041E0000001200000002 011F000800000000",
            // It comes before the response to ENABLE_ROSPEC, and does not count.
            TAGGED,
            "04220000001200000003 011F000800000000",
            EMPTY,
            TAGGED,
            EMPTY,
            TAGGED,
            // The poll's report may be empty.
            EMPTY,
            "04230000001200000005 011F000800000000",
            "04240000005500000006 011F000800000000",
            IMMEDIATE,
            "041F0000001200000007 011F000800000000",
            "04040000001200000008 011F000800000000",
        ],
        up: &[
            "04150000000E00000001 00000000",
            "04140000004D00000002",
            IMMEDIATE,
            "04180000000E00000003 00000007",
            "043C0000000A00000004",
            "04190000000E00000005 00000007",
            "041A0000000A00000006",
            "04150000000E00000007 00000007",
            "040E0000000A00000008",
        ],
        lines: b"urn:epc:tag:sgtin-96:3.0614141.812345.6789 1 -60\n= 1\n= 0\nurn:epc:tag:sgtin-96:3.0614141.812345.6789 1 -60\n= 1\n= 0\nurn:epc:tag:sgtin-96:3.0614141.812345.6789 1 -60\n= 1\n= 0\ntotal 3 6\n",
    },
    Row {
        name: "two reports of the standard ROSpec",
        own: None,
        options: Options {
            cleans: false,
            reports: 2,
            polls: 0,
            checked: false,
        },
        down: &[
            CONNECTED,
            "041E0000001200000001 011F000800000000",
            "04220000001200000002 011F000800000000",
            // It comes before the response to START_ROSPEC, and does not count.
            TAGGED,
            "04200000001200000003 011F000800000000",
            TAGGED,
            EMPTY,
            "043E0000000A00000007",
            TAGGED,
            "04210000001200000004 011F000800000000",
            "041F0000001200000005 011F000800000000",
            "04040000001200000006 011F000800000000",
        ],
        up: &[
            "04140000004B00000001",
            STANDARD,
            "04180000000E00000002 00000001",
            "04160000000E00000003 00000001",
            "04480000000A00000007",
            "04170000000E00000004 00000001",
            "04150000000E00000005 00000001",
            "040E0000000A00000006",
        ],
        lines: b"urn:epc:tag:sgtin-96:3.0614141.812345.6789 1 -60\n= 1\nurn:epc:tag:sgtin-96:3.0614141.812345.6789 1 -60\n= 1\n= 0\nurn:epc:tag:sgtin-96:3.0614141.812345.6789 1 -60\n= 1\ntotal 3 4\n",
    },
    Row {
        name: "a clean start of the standard plan",
        own: None,
        options: Options {
            cleans: true,
            reports: 0,
            polls: 1,
            checked: false,
        },
        down: &[
            CONNECTED,
            "041F0000001200000001 011F000800000000",
            "041E0000001200000002 011F000800000000",
            "04220000001200000003 011F000800000000",
            "04200000001200000004 011F000800000000",
            EMPTY,
            "04210000001200000006 011F000800000000",
            "041F0000001200000007 011F000800000000",
            "04040000001200000008 011F000800000000",
        ],
        up: &[
            "04150000000E00000001 00000000",
            "04140000004B00000002",
            STANDARD,
            "04180000000E00000003 00000001",
            "04160000000E00000004 00000001",
            "043C0000000A00000005",
            "04170000000E00000006 00000001",
            "04150000000E00000007 00000001",
            "040E0000000A00000008",
        ],
        lines: b"= 0\ntotal 0 1\n",
    },
    Row {
        name: "a ROSpec of one's own that starts on command",
        own: Some(COMMANDED),
        options: Options {
            cleans: false,
            reports: 0,
            polls: 0,
            checked: false,
        },
        down: &[
            CONNECTED,
            "041E0000001200000001 011F000800000000",
            "04220000001200000002 011F000800000000",
            "04200000001200000003 011F000800000000",
            "04230000001200000004 011F000800000000",
            "041F0000001200000005 011F000800000000",
            "04040000001200000006 011F000800000000",
        ],
        up: &[
            "04140000004D00000001",
            COMMANDED,
            "04180000000E00000002 00000007",
            "04160000000E00000003 00000007",
            "04190000000E00000004 00000007",
            "04150000000E00000005 00000007",
            "040E0000000A00000006",
        ],
        lines: b"total 0 0\n",
    },
];

/// The parameter below the message of these octets.
fn parameter(alloc: Global, texts: &[&str]) -> Option<Node> {
    let frame = octets(alloc, texts).ok()?;
    let message = decoded(alloc, frame.as_slice())?.ok()?;
    message.into_children().into_vec().pop()
}

/// The plan of a row.
fn plan_of(alloc: Global, row: &Row) -> Option<Plan> {
    let options = row.options;
    let plan = match row.own {
        Some(own) => {
            let rospec = parameter(alloc, &["04140000004D00000001", own])?;
            Plan::of(rospec, options.polls, options.checked).ok()?
        }
        None => standard_plan(alloc, 1, options.polls).ok()?,
    };
    let plan = plan.awaiting(options.reports);
    Some(if options.cleans {
        plan.cleaning()
    } else {
        plan
    })
}

/// Whether a plan's client, given the reader's octets in pieces of this size, closes the connection with the
/// last one, sends the octets that it is to send, and prints the lines.
fn is_followed(alloc: Global, row: &Row, size: usize) -> Option<bool>
    requires { 1 ≤ size }
{
    let down = octets(alloc, row.down).ok()?;
    let wanted = octets(alloc, row.up).ok()?;
    let mut gathering = Gathering::new(alloc, plan_of(alloc, row)?, 4096);
    let (mut out, mut lines) = (Vec::new(alloc), Vec::new(alloc));
    let mut closed = false;
    for piece in down.as_slice().chunks(size) {
        if closed {
            return Some(false);
        }
        closed = gathering.feed(piece, &mut out, &mut lines).ok()?;
    }
    Some(closed && out.as_slice() == wanted.as_slice() && lines.as_slice() == row.lines)
}

#[test]
fn plans_with_their_options(rt: HostRuntime) {
    for row in &ROWS {
        for size in [1, 7, 4096] {
            assert!(rt;
                is_followed(rt.alloc(), row, size) == Some(true),
                "at {}",
                row.name
            );
        }
    }
}

/// What a plan says of itself.
#[test]
fn a_plan_has_its_options(rt: HostRuntime) -> Result<(), Fail> {
    let plan = plan_of(rt.alloc(), &ROWS[0]);
    assert!(rt; plan.is_some());
    if let Some(plan) = plan {
        assert!(rt; plan.cleans() && plan.disables() && plan.is_checked());
        assert!(rt; plan.reports() == 2 && plan.polls() == 1 && plan.every() == 1);
        assert!(rt; plan.rospec().length() == 67);
    }
    let standard = standard_plan(rt.alloc(), 5, 1).ok();
    assert!(rt; standard.is_some());
    if let Some(plan) = standard {
        assert!(rt; !plan.cleans() && !plan.disables() && plan.reports() == 0);
    }
    Ok(())
}

/// Messages whose parameter is refused as a plan's ROSpec, and why.
static REFUSED: [(&str, PlanFault); 4] = [
    // RO_ACCESS_REPORT with a TagReportData
    (TAGGED, PlanFault::NotRoSpec),
    // ROSpecID 0
    (
        "04140000003E00000001 00B1003400000000 0000 00B20012 00B3000500 00B600090000000000 00B7001800010000 00B800090000000000 00BA0007000101",
        PlanFault::Value,
    ),
    // CurrentState 1
    (
        "04140000003E00000001 00B1003400000001 0001 00B20012 00B3000500 00B600090000000000 00B7001800010000 00B800090000000000 00BA0007000101",
        PlanFault::Value,
    ),
    // CurrentState 2, and ROSpecID 0
    (
        "04140000003E00000001 00B1003400000000 0002 00B20012 00B3000500 00B600090000000000 00B7001800010000 00B800090000000000 00BA0007000101",
        PlanFault::Value,
    ),
];

#[test]
fn parameters_that_are_no_plan(rt: HostRuntime) {
    for (message, fault) in &REFUSED {
        let given = parameter(rt.alloc(), &[*message]);
        let refused = given.and_then(|rospec| Plan::of(rospec, 0, false).err());
        assert!(rt; refused == Some(*fault), "at {message}");
    }
}

/// What a plan says of a ROSpec of 50 octets and two more for each of these antennas.
fn with_antennas(alloc: Global, antennas: u16) -> Result<Option<PlanFault>, ToolErr>
    requires { antennas ≤ 3000 }
{
    let long = 50 + 2 * antennas;
    let numbers = [60 + 2 * antennas, long, 6 + 2 * antennas + 16, antennas];
    let mut frame = octets(
        alloc,
        &[
            "0414 0000 0000 00000001 00B1 0000 00000001 0000 00B20012 00B3000500 00B600090000000000 00B7 0000 0000",
        ],
    )?;
    for (at, number) in [4, 12, 40, 42].into_iter().zip(numbers) {
        for (i, octet) in number.to_be_bytes().into_iter().enumerate() {
            if let Some(place) = frame.as_mut_slice().get_mut(at + i) {
                *place = octet;
            }
        }
    }
    for _ in 0..antennas {
        frame.extend_from_slice(&[0, 1])?;
    }
    let rest = octets(alloc, &["00B800090000000000 00BA0007000101"])?;
    frame.extend_from_slice(rest.as_slice())?;
    let message = decoded(alloc, frame.as_slice());
    let Some(Ok(message)) = message else {
        return Err(ToolErr::Hex);
    };
    match message.into_children().into_vec().pop() {
        Some(rospec) => Ok(Plan::of(rospec, 0, false).err()),
        None => Err(ToolErr::Hex),
    }
}

#[test]
fn the_longest_rospec(rt: HostRuntime) {
    assert!(rt; with_antennas(rt.alloc(), 2014) == Ok(None));
    assert!(rt; with_antennas(rt.alloc(), 2015) == Ok(Some(PlanFault::OverLimit)));
}

/// The lines of the ROSpec that starts on command, with a report for each tag.
const TEXT: &[u8] =
    b"1 ROSpec 7 0 0\n2 ROBoundarySpec\n3 ROSpecStartTrigger 0\n3 ROSpecStopTrigger 0 0\n\
2 AISpec w1,2\n3 AISpecStopTrigger 0 0\n3 InventoryParameterSpec 1 1\n2 ROReportSpec 2 1\n\
3 TagReportContentSelector 0 0 0 1 0 1 0 0 0 0\n";

#[test]
fn the_plan_of_a_text(rt: HostRuntime) -> Result<(), Fail> {
    let plan = Plan::parse(rt.alloc(), TEXT, 3, true).ok();
    assert!(rt; plan.is_some());
    if let Some(plan) = plan {
        assert!(rt; plan.polls() == 3 && plan.is_checked() && plan.disables());
        assert!(rt; !plan.cleans() && plan.reports() == 0);
        assert!(rt; plan.rospec().length() == 67);
    }
    Ok(())
}

/// The lines of a ROSpec that only the whole standard has, with an RFSurveySpec in place of an AISpec, and
/// the ADD_ROSPEC of it.
const SURVEY: &[u8] =
    b"1 ROSpec 9 3 0\n2 ROBoundarySpec\n3 ROSpecStartTrigger 0\n3 ROSpecStopTrigger 0 0\n\
2 RFSurveySpec 1 865700 866300\n3 RFSurveySpecStopTrigger 0 0 0\n";

const SURVEY_ADDED: &str =
    "0414 00000041 00000001 00B1003700000009 0300 00B20012 00B3000500 00B600090000000000 00BB001B0001000D35A4000D37FC 00BC000D000000000000000000";

#[test]
fn the_plan_of_a_text_of_the_whole_standard(rt: HostRuntime) -> Result<(), Fail> {
    let alloc = rt.alloc();
    let parsed = Plan::parse_in(alloc, KindSet::Standard, SURVEY, 0, true).ok();
    assert!(rt; parsed.is_some());
    if let Some(plan) = parsed {
        assert!(rt; plan.rospec_id() == 9 && plan.is_checked() && plan.disables());
        let mut gathering = Gathering::new(alloc, plan, 65_536);
        let (mut out, mut report) = (Vec::new(alloc), Vec::new(alloc));
        let connected = octets(alloc, &[CONNECTED])?;
        let fed = gathering.feed(connected.as_slice(), &mut out, &mut report);
        assert!(rt; fed == Ok(false) && report.as_slice().is_empty());
        assert!(rt; out.as_slice() == octets(alloc, &[SURVEY_ADDED])?.as_slice());
    }
    let refused = Plan::parse(alloc, SURVEY, 0, true).err();
    let reason = Refusal::Name;
    assert!(rt; refused == Some(PlanErr::Line { line: 5, reason }));
    Ok(())
}

/// Texts that have no plan, the line that is refused, and why.
static NO_PLANS: [(&[u8], u64, Refusal); 14] = [
    (b"", 1, Refusal::Node(NodeFault::Missing)),
    // an empty line, and one that is not ended
    (b"\n", 1, Refusal::Level),
    (b"1 ROSpec 7 0 0", 1, Refusal::Line),
    // the first line is refused by itself
    (b"1 ROSpec 7 0\n", 1, Refusal::Fields),
    (b"1 ROSpecs 7 0 0\n", 1, Refusal::Name),
    (b"2 ROSpec 7 0 0\n", 1, Refusal::Level),
    // a later one
    (
        b"1 ROSpec 7 0 0\n2 ROBoundarySpec\n3 ROSpecStartTrigger x\n",
        3,
        Refusal::Number,
    ),
    // children are missing
    (b"1 ROSpec 7 0 0\n", 1, Refusal::Node(NodeFault::Missing)),
    (
        b"1 ROSpec 7 0 0\n2 ROBoundarySpec\n",
        2,
        Refusal::Node(NodeFault::Missing),
    ),
    // another message, with nothing before it, and after a whole one
    (b"0 KEEPALIVE 1 2\n", 1, Refusal::Node(NodeFault::Missing)),
    (
        b"1 ROSpec 7 0 0\n2 ROBoundarySpec\n3 ROSpecStartTrigger 0\n3 ROSpecStopTrigger 0 0\n2 AISpec w0\n3 AISpecStopTrigger 0 0\n3 InventoryParameterSpec 1 1\n0 KEEPALIVE 1 2\n",
        8,
        Refusal::Level,
    ),
    // two ROSpecs
    (
        b"1 ROSpec 7 0 0\n2 ROBoundarySpec\n3 ROSpecStartTrigger 0\n3 ROSpecStopTrigger 0 0\n2 AISpec w0\n3 AISpecStopTrigger 0 0\n3 InventoryParameterSpec 1 1\n1 ROSpec 8 0 0\n2 ROBoundarySpec\n3 ROSpecStartTrigger 0\n3 ROSpecStopTrigger 0 0\n2 AISpec w0\n3 AISpecStopTrigger 0 0\n3 InventoryParameterSpec 1 1\n",
        1,
        Refusal::Node(NodeFault::TooMany),
    ),
    // ROSpecID 0, and CurrentState 1
    (
        b"1 ROSpec 0 0 0\n2 ROBoundarySpec\n3 ROSpecStartTrigger 0\n3 ROSpecStopTrigger 0 0\n2 AISpec w0\n3 AISpecStopTrigger 0 0\n3 InventoryParameterSpec 1 1\n",
        1,
        Refusal::Node(NodeFault::Value),
    ),
    (
        b"1 ROSpec 7 0 1\n2 ROBoundarySpec\n3 ROSpecStartTrigger 0\n3 ROSpecStopTrigger 0 0\n2 AISpec w0\n3 AISpecStopTrigger 0 0\n3 InventoryParameterSpec 1 1\n",
        1,
        Refusal::Node(NodeFault::Value),
    ),
];

#[test]
fn texts_without_a_plan(rt: HostRuntime) {
    for (text, line, reason) in NO_PLANS {
        let refused = Plan::parse(rt.alloc(), text, 0, false).err();
        let wanted = PlanErr::Line { line, reason };
        assert!(rt;
            refused == Some(wanted),
            "at line {line} of {text:?}: {refused:?}"
        );
    }
}
