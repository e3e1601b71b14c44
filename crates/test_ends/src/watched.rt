//! A client that runs day and night: lines with the host's time, what is odd, and the end of the time.

use crate::run::{CONNECTED, ENABLE};
use llrp_endpoints::{TagLister, Watcher, marked_lines, run_watching};
use llrp_listing::Text;
use llrp_tool::{Gathering, LineForm, Output, Plan, Summary, ToolErr, standard_plan};
use std::alloc::{AllocError, Global};
use std::test::*;
use test_devices::{Dripping, octets};

/// Microseconds since 1970, and the moment in ISO 8601 (`date -u -d @SECONDS`).
static MOMENTS: [(u64, &str); 8] = [
    (0, "1970-01-01T00:00:00.000000Z"),
    (68_214_896_000_007, "1972-02-29T12:34:56.000007Z"),
    (951_868_799_000_001, "2000-02-29T23:59:59.000001Z"),
    (1_769_903_999_123_456, "2026-01-31T23:59:59.123456Z"),
    (4_102_444_799_999_999, "2099-12-31T23:59:59.999999Z"),
    (4_107_542_400_000_000, "2100-03-01T00:00:00.000000Z"),
    (13_574_563_200_000_000, "2400-02-29T00:00:00.000000Z"),
    (253_402_300_799_999_999, "9999-12-31T23:59:59.999999Z"),
];

/// Lines of objects, and what stands after the moment of each with the name `"door" 2`.
const OBJECTS: &[u8] = b"{\"epc\":\"a\",\"antenna\":1}\n{\"epc\":\"b\"}\n";

const MARKED: &[u8] =
    b"{\"at\":\"1970-01-01T00:00:00.000000Z\",\"reader\":\"\\\"door\\\" 2\",\"epc\":\"a\",\"antenna\":1}\n{\"at\":\"1970-01-01T00:00:00.000000Z\",\"reader\":\"\\\"door\\\" 2\",\"epc\":\"b\"}\n";

/// The same of one line without a name.
const BARE: &[u8] = b"{\"at\":\"1970-01-01T00:00:00.000000Z\",\"epc\":\"a\"}\n";

/// A frame with an octet too many, under the id 9 and under that of the first request.
const TOO_LONG: &str = "043E0000000B0000000900";

const TOO_LONG_ANSWER: &str = "043E0000000B0000000100";

/// GET_REPORT, which no reader says.
const NO_READERS: &str = "043C0000000A00000005";

/// ENABLE_ROSPEC_RESPONSE to no request.
const NO_ANSWER: &str = "04220000001200000005 011F000800000000";

/// The responses to ADD_ROSPEC, ENABLE_ROSPEC and START_ROSPEC.
const STARTED: [&str; 3] = [
    "041E0000001200000001 011F000800000000",
    "04220000001200000002 011F000800000000",
    "04200000001200000003 011F000800000000",
];

const START: &str = "04160000000E0000000300000001";

const STOP: &str = "04170000000E0000000400000001";

/// The responses to STOP_ROSPEC, DELETE_ROSPEC and CLOSE_CONNECTION.
const ENDED: [&str; 3] = [
    "04210000001200000004 011F000800000000",
    "041F0000001200000005 011F000800000000",
    "04040000001200000006 011F000800000000",
];

/// DELETE_ROSPEC and CLOSE_CONNECTION.
const LAST: [&str; 2] = ["04150000000E0000000500000001", "040E0000000A00000006"];

/// Whether the one line of words is printed so with this moment.
fn has_moment(alloc: Global, micros: u64, moment: &str) -> Result<bool, AllocError> {
    let text = marked_lines(alloc, LineForm::Tags, micros, None, b"a 1 -60\n")?;
    let mut wanted = b"a 1 -60 ".to_vec(alloc)?;
    wanted.extend_from_slice(moment.as_bytes())?;
    wanted.push(b'\n')?;
    Ok(text.as_slice() == wanted.as_slice())
}

#[test]
fn moments(rt: HostRuntime) {
    for (micros, moment) in &MOMENTS {
        assert!(rt;
            has_moment(rt.alloc(), *micros, moment) == Ok(true),
            "at {moment}"
        );
    }
}

#[test]
fn objects_with_a_moment(rt: HostRuntime) -> Result<(), Fail> {
    let name: &[u8] = b"\"door\" 2";
    let text = marked_lines(rt.alloc(), LineForm::Full, 0, Some(name), OBJECTS)?;
    assert!(rt; text.as_slice() == MARKED);
    let bare = marked_lines(rt.alloc(), LineForm::Full, 0, None, b"{\"epc\":\"a\"}\n")?;
    assert!(rt; bare.as_slice() == BARE);
    Ok(())
}

/// A report of a tag with C1G2-PC, the result of a read and a maker's Custom parameter, beside one of the
/// report's own, in two pieces; a frame with an octet too many and a report with no tag; a report of a tag
/// without such; and a length field of 9, after which nothing is read.
static REPORTED: [(&str, &str, &str); 6] = [
    ("043D00000047", "", ""),
    (
        "00000001 00F00031 8D3074257BF7194E4000001A85 810001 86C4 8C3000 015D000B 00 0001 0001 E200 03FF000D 0000651A 00000025 AA 03FF000C 0000651A 00000026",
        "{\"epc\":\"urn:epc:tag:sgtin-96:3.0614141.812345.6789\",\"antenna\":1,\"rssi\":-60,\"C1G2-PC\":12288,\"parameters\":[{\"parameter\":\"C1G2ReadOpSpecResult\",\"Result\":0,\"OpSpecID\":1,\"words\":[57856]},{\"parameter\":\"Custom\",\"VendorIdentifier\":25882,\"ParameterSubtype\":37,\"octets\":\"aa\"}]}\n",
        "urn:epc:tag:sgtin-96:3.0614141.812345.6789 1 -60\n",
    ),
    ("043E0000000B0000000900 043D0000000A00000002", "", ""),
    (
        "043D0000001E00000003 00F00014 8D3074257BF7194E4000001A85 810001",
        "{\"epc\":\"urn:epc:tag:sgtin-96:3.0614141.812345.6789\",\"antenna\":1}\n",
        "urn:epc:tag:sgtin-96:3.0614141.812345.6789 1 -\n",
    ),
    ("043D00000009", "", ""),
    (
        "043D0000001E00000003 00F00014 8D3074257BF7194E4000001A85 810001",
        "",
        "",
    ),
];

#[test]
fn all_of_the_tags_of_a_stream(rt: HostRuntime) -> Result<(), Fail> {
    let alloc = rt.alloc();
    let mut full = TagLister::new(alloc, LineForm::Full, 65_536);
    let mut words = TagLister::new(alloc, LineForm::Tags, 65_536);
    assert!(rt; full.form() == LineForm::Full && words.form() == LineForm::Tags);
    for (piece, objects, texts) in &REPORTED {
        let piece = octets(alloc, &[*piece])?;
        let (mut lines, mut others) = (Text::new(alloc), Text::new(alloc));
        full.feed(piece.as_slice(), &mut lines)?;
        words.feed(piece.as_slice(), &mut others)?;
        assert!(rt; lines.as_slice() == objects.as_bytes(), "{objects}");
        assert!(rt; others.as_slice() == texts.as_bytes(), "{texts}");
    }
    Ok(())
}

/// A plan that awaits reports without end.
fn lasting(alloc: Global) -> Result<Plan, ToolErr> {
    Ok(standard_plan(alloc, 1, 0)?.awaiting(u64::MAX))
}

/// What comes of a client of a plan that passes over what is odd, and how much that is.
fn passed(alloc: Global, rows: &[&str]) -> Result<(bool, u64), ToolErr> {
    let mut gathering = Gathering::new(alloc, lasting(alloc)?.passing_over(), 65_536);
    let stream = octets(alloc, rows)?;
    let closed = gathering.feed(
        stream.as_slice(),
        &mut Vec::new(alloc),
        &mut Vec::new(alloc),
    )?;
    Ok((closed, gathering.passed_over()))
}

#[test]
fn what_is_odd_is_passed_over(rt: HostRuntime) {
    let alloc = rt.alloc();
    for odd in [TOO_LONG, NO_READERS] {
        let came = passed(alloc, &[CONNECTED, odd, odd, STARTED[0]]);
        assert!(rt; came == Ok((false, 2)), "at {odd}");
        assert!(rt; passed(alloc, &[odd]) == Err(ToolErr::Strange), "at {odd}");
    }
    for answer in [TOO_LONG_ANSWER, NO_ANSWER] {
        let came = passed(alloc, &[CONNECTED, answer]);
        assert!(rt; came == Err(ToolErr::Strange), "at {answer}");
    }
}

/// Any other plan ends there.
#[test]
fn other_plans_end_there(rt: HostRuntime) -> Result<(), Fail> {
    let alloc = rt.alloc();
    for odd in [TOO_LONG, NO_READERS] {
        let mut gathering = Gathering::new(alloc, lasting(alloc)?, 65_536);
        let stream = octets(alloc, &[CONNECTED, odd])?;
        let (mut out, mut lines) = (Vec::new(alloc), Vec::new(alloc));
        let ended = gathering.feed(stream.as_slice(), &mut out, &mut lines);
        assert!(rt; ended == Err(ToolErr::Strange), "at {odd}");
    }
    Ok(())
}

/// What a client says to these messages, then to the end of the time, and then to those; and whether the
/// connection is closed.
fn hurried(
    alloc: Global,
    before: &[&str],
    after: &[&str],
    out: &mut Vec<u8>,
) -> Result<bool, ToolErr> {
    let mut gathering = Gathering::new(alloc, lasting(alloc)?, 65_536);
    let mut lines = Vec::new(alloc);
    gathering.feed(octets(alloc, before)?.as_slice(), out, &mut lines)?;
    gathering.hurry(out)?;
    gathering.feed(octets(alloc, after)?.as_slice(), out, &mut lines)
}

/// What a client says in a whole run of that plan.
fn whole_run(alloc: Global) -> Result<Vec<u8>, ToolErr> {
    let [add, rest] = EVERY_ADD;
    let [delete, close] = LAST;
    octets(alloc, &[add, rest, ENABLE, START, STOP, delete, close])
}

/// While a report is awaited the ROSpec is stopped at once.
#[test]
fn the_time_is_up_where_a_report_is_awaited(rt: HostRuntime) -> Result<(), Fail> {
    let alloc = rt.alloc();
    let before = [CONNECTED, STARTED[0], STARTED[1], STARTED[2]];
    let mut out = Vec::new(alloc);
    assert!(rt; hurried(alloc, &before, &[], &mut out) == Ok(false));
    let stopped = octets(alloc, &[EVERY_ADD[0], EVERY_ADD[1], ENABLE, START, STOP])?;
    assert!(rt; out.as_slice() == stopped.as_slice());
    let mut all = Vec::new(alloc);
    assert!(rt; hurried(alloc, &before, &ENDED, &mut all) == Ok(true));
    let whole = whole_run(alloc)?;
    assert!(rt; all.as_slice() == whole.as_slice());
    Ok(())
}

/// ADD_ROSPEC of a ROSpec that reports after each tag.
const EVERY_ADD: [&str; 2] = [
    "04140000004B00000001 00B10041000000010000 00B20012 00B3000500 00B600090000000000 00B7001800010000",
    "00B800090000000000 00BA0007000101 00ED000D020001 00EE00061400",
];

/// While a response is awaited nothing is said, and no report is awaited afterwards.
#[test]
fn the_time_is_up_where_a_response_is_awaited(rt: HostRuntime) -> Result<(), Fail> {
    let alloc = rt.alloc();
    let mut out = Vec::new(alloc);
    assert!(rt; hurried(alloc, &[CONNECTED], &[], &mut out) == Ok(false));
    let added = octets(alloc, &EVERY_ADD)?;
    assert!(rt; out.as_slice() == added.as_slice());
    let mut all = Vec::new(alloc);
    let [one, two, three] = STARTED;
    let [four, five, six] = ENDED;
    let later = [one, two, three, four, five, six];
    assert!(rt; hurried(alloc, &[CONNECTED], &later, &mut all) == Ok(true));
    Ok(())
}

/// Once the connection is closed or has failed, nothing is said.
#[test]
fn the_time_is_up_too_late(rt: HostRuntime) -> Result<(), Fail> {
    let alloc = rt.alloc();
    let mut gathering = Gathering::new(alloc, standard_plan(alloc, 0, 0)?, 65_536);
    let stream = octets(alloc, &[TOO_LONG])?;
    let (mut out, mut lines) = (Vec::new(alloc), Vec::new(alloc));
    let ended = gathering.feed(stream.as_slice(), &mut out, &mut lines);
    assert!(rt; ended == Err(ToolErr::Strange));
    assert!(rt; gathering.hurry(&mut out) == Err(ToolErr::Strange) && out.is_empty());
    Ok(())
}

/// RO_ACCESS_REPORT with a tag, and its line.
const REPORT: &str = "043D0000002000000002 00F00016 8D3074257BF7194E4000001A85 810001 86C4";

const LINE: &[u8] = b"urn:epc:tag:sgtin-96:3.0614141.812345.6789 1 -60\n";

/// Counts what it receives, and says that the time is up after this many octets.
#[derive(Drop)]
struct Shift {
    reads: u64,
    octets: u64,
    last: u64,
}

impl Watcher for Shift {
    ghost has = { λ _ _ _. Unit {0} };

    fn turn(&mut self, piece: &[u8], lines: &[u8]) -> Result<bool, ToolErr> {
        self.reads = self.reads.saturating_add(piece.len() as u64);
        self.octets = self.octets.saturating_add(lines.len() as u64);
        Ok(self.reads >= self.last)
    }
}

/// How a run over these octets ends whose time is up after this many of them, and how many octets the lines
/// have.
fn watched(
    alloc: Global,
    stream: &[u8],
    last: u64,
    out: &mut Vec<u8>,
) -> Result<(Result<Summary, ToolErr>, u64), ToolErr> {
    let plan = lasting(alloc)?.in_form(LineForm::Tags);
    let mut shift = Shift {
        reads: 0,
        octets: 0,
        last,
    };
    let mut sink = Output::new(Vec::new(alloc));
    let mut source = Dripping::new(stream, 0);
    let ended = run_watching(alloc, plan, 65_536, &mut source, &mut sink, &mut shift);
    out.extend_from_slice(sink.into_inner().as_slice())?;
    Ok((ended, shift.octets))
}

/// A run that learns that the time is up ends as its plan ends, and one that does not ends with its source.
#[test]
fn a_shift(rt: HostRuntime) -> Result<(), Fail> {
    let alloc = rt.alloc();
    let before = octets(
        alloc,
        &[CONNECTED, STARTED[0], STARTED[1], STARTED[2], REPORT],
    )?;
    let mut stream = before.as_slice().to_vec(alloc)?;
    stream.extend_from_slice(octets(alloc, &ENDED)?.as_slice())?;
    let mut out = Vec::new(alloc);
    let (ended, lines) = watched(alloc, stream.as_slice(), before.len() as u64, &mut out)?;
    let one = Summary {
        tags: 1,
        reports: 1,
    };
    assert!(rt; ended == Ok(one) && lines == LINE.len() as u64);
    let whole = whole_run(alloc)?;
    assert!(rt; out.as_slice() == whole.as_slice());
    let mut on = Vec::new(alloc);
    let (early, same) = watched(alloc, before.as_slice(), u64::MAX, &mut on)?;
    assert!(rt; early == Err(ToolErr::Early) && same == LINE.len() as u64);
    let started = octets(alloc, &[EVERY_ADD[0], EVERY_ADD[1], ENABLE, START])?;
    assert!(rt; on.as_slice() == started.as_slice());
    Ok(())
}
