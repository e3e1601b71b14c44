//! The example of `llrp_general`.

use crate::served::CONNECTED;
use llrp_answers::Answers;
use llrp_general::run_serve_whole;
use llrp_session::Reader;
use llrp_tool::{Input, Output, Script, ToolErr};
use std::alloc::Global;
use std::test::*;
use test_devices::{octets, spell};

/// GET_SUPPORTED_VERSION.
const GET_VERSION: &str = "082E0000000A00000007";

/// The answer to GET_SUPPORTED_VERSION of a reader that agrees on versions: it begins in version 1.
const FIRST_VERSION: &str = "083800000014000000070102 011F000800000000";

/// How a client is served that sends these octets and ends, the limit of the reader that is left, and what is
/// sent.
fn llrp_general_served(
    alloc: Global,
    octets: &[u8],
) -> Result<(Result<(), ToolErr>, u32, Vec<u8>), ToolErr> {
    let mut source = Input::new(octets);
    let mut sink = Output::new(Vec::new(alloc));
    let script = Script::parse(alloc, b"3 1000 seen 1 -60 urn:epc:tag:gid-96:1.2.3\n")?;
    let core = Reader::new(alloc, 65_536, 1);
    let (outcome, left) = run_serve_whole(
        alloc,
        core,
        script,
        Answers::new(alloc),
        &mut source,
        &mut sink,
    );
    Ok((outcome, left.limit(), sink.into_inner()))
}

#[test]
fn llrp_general_example(rt: HostRuntime) -> Result<(), Fail> {
    let request = octets(rt.alloc(), &[GET_VERSION])?;
    let (outcome, limit, sent) = llrp_general_served(rt.alloc(), request.as_slice())?;
    assert!(rt; outcome == Ok(()) && limit == 65_536);
    assert!(rt; spell(rt.alloc(), &[CONNECTED, FIRST_VERSION], sent.as_slice())?);
    Ok(())
}
