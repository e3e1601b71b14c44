//! Answers of a file to requests that a simulated reader does not know.

use llrp_answers::Answers;
use llrp_schema::KindSet;
use llrp_texts::{TextErr, messages_of};
use llrp_tool::Refusal;
use llrp_tree::{MAX_LIMIT, Message};
use std::alloc::Global;
use std::test::*;
use test_devices::are_spelled;

/// A pair for a maker's "enable extensions": vendor 25882, subtype 21, answered by subtype 22 with LLRPStatus
/// 0 (parameter 287).
const EXTENSIONS: &[u8] =
    b"? 0 CUSTOM_MESSAGE * * 25882 21 *\n0 CUSTOM_MESSAGE 1 0 25882 22 x011f000800000000\n";

/// CUSTOM_MESSAGE is type 1023; its data follow 4 octets of vendor and 1 of subtype (LLRP 1.1, section
/// 17.1.45).
const ENABLED: &str = "07FF0000001700000009 0000651A 16 011F000800000000";

/// What a file answers to a request, as frames.
struct Row {
    file: &'static [u8],
    request: &'static [u8],
    answers: Option<&'static [&'static str]>,
}

static ROWS: [Row; 6] = [
    Row {
        file: EXTENSIONS,
        request: b"0 CUSTOM_MESSAGE 1 9 25882 21 x00000000\n",
        answers: Some(&[ENABLED]),
    },
    // Another subtype, another message, and no pairs at all.
    Row {
        file: EXTENSIONS,
        request: b"0 CUSTOM_MESSAGE 1 9 25882 23 x00000000\n",
        answers: None,
    },
    Row {
        file: EXTENSIONS,
        request: b"0 KEEPALIVE 1 9\n",
        answers: None,
    },
    Row {
        file: b"",
        request: b"0 KEEPALIVE 1 9\n",
        answers: None,
    },
    // The first form that fits counts, and its messages may be several, or none.
    Row {
        file: b"? 0 KEEPALIVE 1 *\n0 KEEPALIVE 1 1\n0 KEEPALIVE_ACK 2 2\n? 0 KEEPALIVE * *\n",
        request: b"0 KEEPALIVE 1 9\n",
        answers: Some(&["043E0000000A00000009", "08480000000A00000009"]),
    },
    Row {
        file: b"? 0 KEEPALIVE 1 *\n0 KEEPALIVE 1 1\n0 KEEPALIVE_ACK 2 2\n? 0 KEEPALIVE * *\n",
        request: b"0 KEEPALIVE 2 9\n",
        answers: Some(&[]),
    },
];

/// What is answered to the request of a text by a file.
fn answered(alloc: Global, file: &[u8], request: &[u8]) -> Result<Option<Vec<Message>>, TextErr> {
    let answers = Answers::read(alloc, file)?;
    let requests = messages_of(alloc, KindSet::Standard, request, MAX_LIMIT)?;
    let mut sent = None;
    for request in &requests {
        sent = answers.answers_to(alloc, request)?;
    }
    Ok(sent)
}

/// What a maker's file answers to a request.
fn llrp_answers_of_a_maker(
    alloc: Global,
    request: Message,
) -> Result<Option<Vec<Message>>, TextErr> {
    let answers = Answers::read(
        alloc,
        b"? 0 CUSTOM_MESSAGE * * 25882 21 *\n0 CUSTOM_MESSAGE 1 0 25882 22 x00\n",
    )?;
    let sent = answers.answers_to(alloc, &request)?; // Some of one message, under the request's id
    Ok(sent)
}

#[test]
fn llrp_answers_example(rt: HostRuntime) -> Result<(), Fail> {
    let alloc = rt.alloc();
    let text = b"0 CUSTOM_MESSAGE 1 9 25882 21 x00000000\n";
    for request in messages_of(alloc, KindSet::Standard, text, MAX_LIMIT)? {
        match llrp_answers_of_a_maker(alloc, request)? {
            Some(sent) => {
                assert!(rt;
                    are_spelled(
                        alloc,
                        sent.as_slice(),
                        &["07FF00000010000000090000651A1600"]
                    )?
                );
            }
            None => panic!(rt; "no answer"),
        }
    }
    Ok(())
}

#[test]
fn requests_are_answered_by_their_forms(rt: HostRuntime) -> Result<(), Fail> {
    for row in &ROWS {
        let sent = answered(rt.alloc(), row.file, row.request)?;
        match (sent, row.answers) {
            (None, None) => {}
            (Some(sent), Some(frames)) => {
                assert!(rt; are_spelled(rt.alloc(), sent.as_slice(), frames)?);
            }
            _ => panic!(rt; "another answer"),
        }
    }
    Ok(())
}

/// The line at which a file is refused, and the reason.
struct Refused {
    file: &'static [u8],
    line: u64,
    reason: Refusal,
}

static REFUSED: [Refused; 8] = [
    Refused {
        file: b"0 KEEPALIVE 1 1\n",
        line: 1,
        reason: Refusal::Line,
    },
    Refused {
        file: b"?0 KEEPALIVE * *\n",
        line: 1,
        reason: Refusal::Line,
    },
    Refused {
        file: b"? 0 KEEPALIVE * *",
        line: 1,
        reason: Refusal::Line,
    },
    Refused {
        file: b"? 1 KEEPALIVE * *\n",
        line: 1,
        reason: Refusal::Level,
    },
    Refused {
        file: b"? 0\n",
        line: 1,
        reason: Refusal::Name,
    },
    Refused {
        file: b"? 0 LLRPStatus 0\n",
        line: 1,
        reason: Refusal::Name,
    },
    Refused {
        file: b"? 0 CUSTOM_MESSAGE * * 25882 21\n",
        line: 1,
        reason: Refusal::Fields,
    },
    Refused {
        file: b"? 0 KEEPALIVE * *\n0 KEEPALIVE 1 1\n? 0 KEEPALIVE_ACK * *\n0 KEEPALIVE_ACK 1\n",
        line: 4,
        reason: Refusal::Fields,
    },
];

#[test]
fn files_are_refused_at_their_lines(rt: HostRuntime) {
    for row in &REFUSED {
        match Answers::read(rt.alloc(), row.file) {
            Err(TextErr::Line { line, reason }) => {
                assert_eq!(rt; line, row.line);
                assert_eq!(rt; reason, row.reason);
            }
            _ => panic!(rt; "not refused"),
        }
    }
}
