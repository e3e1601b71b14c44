//! Messages from lines of JSON: those of the standard's objects, members in another order, and lines that are
//! refused.

use crate::json_lines::LINES;
use json::Scratch;
use llrp_json_read::{
    LinesErr, ReadErr, Reason, encode_line, encode_lines, read_line, run_encode_json,
};
use llrp_schema::KindSet;
use llrp_stream::{Input, Output};
use std::alloc::Global;
use std::test::*;
use test_devices::{octets, spell};

/// Lines with their members in another order, white space and escapes, and their frames.
static OTHERWISE: [(&str, &str); 3] = [
    (
        "083E0000000A00000007",
        " { \"id\" : 7, \"version\":2,\t\"message\" : \"KEEP\\u0041LIVE\" }\r\n",
    ),
    (
        "04640000001600000002 011F000C 0064 0004 61225C0A",
        "{\"parameters\":[{\"text\":\"a\\\"\\\\\\n\",\"StatusCode\":100,\"parameter\":\"LLRPStatus\"}],\"message\":\"ERROR_MESSAGE\",\"id\":2,\"version\":1}",
    ),
    (
        "04640000001400000002 011F000A 0064 0002 C3BC",
        "{\"message\":\"ERROR_MESSAGE\",\"version\":1,\"id\":2,\"parameters\":[{\"parameter\":\"LLRPStatus\",\"StatusCode\":100,\"text\":\"\\u00fc\"}]}",
    ),
];

/// Lines that are refused, at which member, and why.
static REFUSED: [(&str, Option<&str>, Reason); 7] = [
    (
        "{\"message\":\"KEEPALIVE\",\"version\":2,\"id\":7",
        None,
        Reason::Json,
    ),
    ("[7]", None, Reason::Mistyped),
    (
        "{\"message\":\"KEEPALIV\",\"version\":2,\"id\":7}",
        Some("message"),
        Reason::Name,
    ),
    (
        "{\"message\":\"KEEPALIVE\",\"version\":2,\"id\":7,\"ID\":7}",
        Some("ID"),
        Reason::Unknown,
    ),
    (
        "{\"message\":\"KEEPALIVE\",\"version\":2}",
        Some("id"),
        Reason::Missing,
    ),
    (
        "{\"message\":\"KEEPALIVE\",\"id\":7,\"version\":2,\"id\":7}",
        Some("id"),
        Reason::Twice,
    ),
    (
        "{\"message\":\"KEEPALIVE\",\"version\":2,\"id\":4294967296}",
        Some("id"),
        Reason::Value,
    ),
];

#[test]
fn lines_of_objects_are_read_back(rt: HostRuntime) -> Result<(), Fail> {
    let alloc = rt.alloc();
    let printed = LINES.iter().map(|it| (it.frame, it.line));
    for (frame, line) in printed.chain(OTHERWISE.iter().copied()) {
        let mut scratch = Scratch::new(alloc);
        let mut out = Vec::new(alloc);
        let octets = line.as_bytes();
        let read = encode_line(
            alloc,
            KindSet::Profile,
            octets,
            &mut scratch,
            &mut out,
            65_536,
        );
        assert!(rt; read.is_ok(), "{}", line);
        assert!(rt; spell(alloc, &[frame], out.as_slice())?, "{}", line);
    }
    Ok(())
}

/// Whether a line is refused at this member, for this reason.
fn is_refused(alloc: Global, line: &str, member: Option<&str>, reason: Reason) -> bool {
    let mut scratch = Scratch::new(alloc);
    let error = match read_line(alloc, KindSet::Profile, line.as_bytes(), &mut scratch) {
        Ok(_message) => return false,
        Err(error) => error,
    };
    match error {
        ReadErr::Refused(refusal) => refusal.reason == reason && refusal.member == member,
        ReadErr::Memory => false,
    }
}

#[test]
fn lines_that_are_no_messages(rt: HostRuntime) {
    for (line, member, reason) in &REFUSED {
        assert!(rt; is_refused(rt.alloc(), line, *member, *reason), "{}", line);
    }
}

/// Lines of which one is refused, its number, its path and why; a message may have 64 octets.
static RUNS: [(&str, u64, &str, Reason); 5] = [
    ("\n", 1, "", Reason::Json),
    (
        "{\"message\":\"KEEPALIVE\",\"version\":2,\"id\":7}\n[7]",
        2,
        "",
        Reason::Mistyped,
    ),
    (
        "{\"message\":\"KEEPALIVE\",\"version\":2,\"id\":7,\"parameters\":[3]}",
        1,
        "parameters[0]",
        Reason::Mistyped,
    ),
    (
        "{\"message\":\"RO_ACCESS_REPORT\",\"version\":1,\"id\":1,\"parameters\":[{\"parameter\":\"TagReportData\",\"parameters\":[{\"parameter\":\"AntennaID\",\"AntennaID\":65536}]}]}",
        1,
        "parameters[0].parameters[0].AntennaID",
        Reason::Value,
    ),
    (
        "{\"message\":\"KEEPALIVE\",\"version\":2,\"id\":7,\"\\u00fc\\ud83d\\ude00\\\"~\":1}",
        1,
        "\\u00fc\\ud83d\\ude00\\u0022~",
        Reason::Unknown,
    ),
];

/// Whether an outcome is that of this line, at this path, for this reason.
fn is_of_line(outcome: Result<(), LinesErr>, number: u64, path: &str, reason: Reason) -> bool {
    match outcome {
        Err(LinesErr::Line(line)) => {
            line.number == number
                && line.path.as_slice() == path.as_bytes()
                && line.reason == reason
        }
        _ => false,
    }
}

/// Whether a run stops at this line, at this path, for this reason, and encoding the text in memory too.
fn stops_at(alloc: Global, text: &str, number: u64, path: &str, reason: Reason) -> bool {
    let mut source = Input::new(text.as_bytes());
    let mut sink = Output::new(Vec::new(alloc));
    let ran = run_encode_json(alloc, KindSet::Profile, &mut source, &mut sink, 64);
    let mut frames = Vec::new(alloc);
    let encoded = encode_lines(alloc, KindSet::Profile, text.as_bytes(), &mut frames, 64);
    is_of_line(ran, number, path, reason)
        && is_of_line(encoded, number, path, reason)
        && sink.into_inner().as_slice() == frames.as_slice()
}

#[test]
fn runs_name_the_line_and_the_path(rt: HostRuntime) {
    for (text, number, path, reason) in &RUNS {
        assert!(rt;
            stops_at(rt.alloc(), text, *number, path, *reason),
            "{}",
            text
        );
    }
}

#[test]
fn lines_in_memory_with_ample_memory(rt: HostRuntime) -> Result<(), Fail> {
    let alloc = rt.alloc();
    let mut frames = Vec::new(alloc);
    frames.push(7)?;
    let text =
        b"{\"id\":7,\"version\":2,\"message\":\"KEEPALIVE\"}\r\n{\"message\":\"GET_REPORT\",\"version\":1,\"id\":2}";
    let first = encode_lines(alloc, KindSet::Profile, text, &mut frames, 10);
    assert!(rt; first.is_ok());
    let wanted = octets(alloc, &["07 083E0000000A00000007 043C0000000A00000002"])?;
    assert!(rt; frames.as_slice() == wanted.as_slice());
    let none = encode_lines(alloc, KindSet::Standard, b"", &mut frames, 10);
    assert!(rt; none.is_ok());
    assert!(rt; frames.as_slice() == wanted.as_slice());
    Ok(())
}
