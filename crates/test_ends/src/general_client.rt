//! A general client of a simulated reader of the whole standard.

use llrp_answers::Answers;
use llrp_endpoints::Script;
use llrp_general::run_serve_whole;
use llrp_session::Reader;
use llrp_stream::{Input, Output};
use std::test::Fail;

const SENT: &[u8] =
    b"\x08\x2e\0\0\0\x0a\0\0\0\x07\x08\x48\0\0\0\x0a\0\0\0\x03\x08\x2f\0\0\0\x0b\0\0\0\x04\x02\x08\x15\0\0\0\x0e\0\0\0\x05\0\0\0\x07\x08\x0e\0\0\0\x0a\0\0\0\x06";

const SAID: &[u8] =
    b"\x04\x3f\0\0\0\x20\0\0\0\x01\0\xf6\0\x16\0\x80\0\x0c\0\0\0\0\0\0\0\0\x01\0\0\x06\0\0\x08\x38\0\0\0\x14\0\0\0\x07\x01\x02\x01\x1f\0\x08\0\0\0\0\x04\x64\0\0\0\x12\0\0\0\x03\x01\x1f\0\x08\0\x6e\0\0\x08\x39\0\0\0\x12\0\0\0\x04\x01\x1f\0\x08\0\0\0\0\x08\x1f\0\0\0\x1a\0\0\0\x05\x01\x1f\0\x10\0\x65\0\0\x01\x20\0\x08\0\x01\x01\x2d\x08\x04\0\0\0\x12\0\0\0\x06\x01\x1f\0\x08\0\0\0\0";

#[test]
fn a_general_client(rt: HostRuntime) -> Result<(), Fail> {
    let alloc = rt.alloc();
    let mut source = Input::new(SENT);
    let mut sink = Output::new(Vec::new(alloc));
    let script = Script::parse(alloc, b"1 1000 tick\n")?;
    let core = Reader::new(alloc, 65_536, 1);
    let answers = Answers::new(alloc);
    let (outcome, _) = run_serve_whole(alloc, core, script, answers, &mut source, &mut sink);
    assert!(rt; outcome == Ok(()));
    assert!(rt; sink.into_inner().as_slice() == SAID);
    Ok(())
}
