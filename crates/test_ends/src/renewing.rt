//! Plans that delete the reader's ROSpec of their own id first, whatever the reader answers, and plans that
//! do nothing else.

use crate::run::CONNECTED;
use llrp_tool::{Gathering, Plan, ToolErr, standard_plan};
use llrp_tree::KindSet;
use std::alloc::Global;
use std::test::*;
use test_devices::octets;

/// DELETE_ROSPEC of ROSpec 1, as the first request.
const DELETE: &str = "04150000000E00000001 00000001";

/// ADD_ROSPEC of the standard ROSpec as the second request, its response, and ENABLE_ROSPEC as the third.
const ADD: [&str; 2] = [
    "04140000004B00000002",
    "00B10041000000010000 00B20012 00B3000500 00B600090000000000 00B7001800010000 00B800090000000000 00BA0007000101 00ED000D020000 00EE00061400",
];

const ADDED: &str = "041E0000001200000002 011F000800000000";

const ENABLE: &str = "04180000000E00000003 00000001";

/// Answers to that request that let the plan go on: granted; refused; refused with a text and a FieldError
/// (type 288); and ERROR_MESSAGE (type 100).
static ANSWERS: [&str; 4] = [
    "041F0000001200000001 011F000800000000",
    "041F0000001200000001 011F000800650000",
    "041F0000001C00000001 011F0012006500026E6F 0120000800000065",
    "04640000001200000001 011F000800640000",
];

/// What does not answer it.
static OTHERS: [(&str, ToolErr); 3] = [
    // DELETE_ROSPEC_RESPONSE and ERROR_MESSAGE with other ids
    ("041F0000001200000002 011F000800000000", ToolErr::Strange),
    ("04640000001200000007 011F000800640000", ToolErr::Strange),
    // another response with its id
    ("041E0000001200000001 011F000800000000", ToolErr::Strange),
];

/// What comes of a plan's client with these octets of its reader, and what it sends.
fn followed(alloc: Global, plan: Plan, rows: &[&str], out: &mut Vec<u8>) -> Result<bool, ToolErr> {
    let mut gathering = Gathering::new(alloc, plan, 65_536);
    let stream = octets(alloc, rows)?;
    gathering.feed(stream.as_slice(), out, &mut Vec::new(alloc))
}

/// The standard plan that renews, and hears all of LLRP 1.1.
fn renewing(alloc: Global) -> Result<Plan, ToolErr> {
    Ok(
        standard_plan(alloc, 0, 1)?
            .renewing()
            .in_set(KindSet::Standard),
    )
}

/// Whether the client goes on to ADD_ROSPEC after this answer, and then to ENABLE_ROSPEC.
fn goes_on(alloc: Global, answer: &str) -> Result<bool, ToolErr> {
    let mut out = Vec::new(alloc);
    let rows = [CONNECTED, answer, ADDED];
    let closed = followed(alloc, renewing(alloc)?, &rows, &mut out)?;
    let wanted = octets(alloc, &[DELETE, ADD[0], ADD[1], ENABLE])?;
    Ok(!closed && out.as_slice() == wanted.as_slice())
}

#[test]
fn a_plan_renews_whatever_is_answered(rt: HostRuntime) {
    for answer in &ANSWERS {
        assert!(rt; goes_on(rt.alloc(), answer) == Ok(true), "at {answer}");
    }
}

#[test]
fn what_does_not_answer_ends_it(rt: HostRuntime) -> Result<(), Fail> {
    for (answer, error) in &OTHERS {
        let mut out = Vec::new(rt.alloc());
        let plan = renewing(rt.alloc())?;
        let ended = followed(rt.alloc(), plan, &[CONNECTED, answer], &mut out);
        assert!(rt; ended == Err(*error), "at {answer}");
    }
    Ok(())
}

#[test]
fn a_later_refusal_is_one(rt: HostRuntime) -> Result<(), Fail> {
    let refused = "041E0000001200000002 011F000800650000";
    let rows = [CONNECTED, ANSWERS[1], refused];
    let mut out = Vec::new(rt.alloc());
    let ended = followed(rt.alloc(), renewing(rt.alloc())?, &rows, &mut out);
    assert!(rt; ended == Err(ToolErr::Peer(101)));
    Ok(())
}

/// A plan that cleans deletes all, and a refusal of that is one.
#[test]
fn a_clean_start_may_be_refused(rt: HostRuntime) -> Result<(), Fail> {
    let refused = "041F0000001200000001 011F000800650000";
    for plan in [
        renewing(rt.alloc())?.cleaning(),
        standard_plan(rt.alloc(), 0, 1)?.cleaning(),
    ] {
        let mut out = Vec::new(rt.alloc());
        let ended = followed(rt.alloc(), plan, &[CONNECTED, refused], &mut out);
        assert!(rt; ended == Err(ToolErr::Peer(101)));
    }
    Ok(())
}

/// A plan that only deletes closes the connection after any answer.
#[test]
fn a_plan_that_only_deletes(rt: HostRuntime) -> Result<(), Fail> {
    let alloc = rt.alloc();
    let wanted = octets(alloc, &[DELETE, "040E0000000A00000002"])?;
    let bye = "04040000001200000002 011F000800000000";
    for answer in &ANSWERS {
        let mut out = Vec::new(alloc);
        let plan = standard_plan(alloc, 0, 0)?
            .removing()
            .in_set(KindSet::Standard);
        let closed = followed(alloc, plan, &[CONNECTED, answer, bye], &mut out);
        assert!(rt;
            closed == Ok(true) && out.as_slice() == wanted.as_slice(),
            "at {answer}"
        );
    }
    Ok(())
}
