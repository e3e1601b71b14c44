//! A script whose last line does not end.

use llrp_tool::{Script, ToolErr};
use std::test::Fail;
use test_devices::Dripping;

/// The line of a refusal.
fn line_of(answer: Result<Script, ToolErr>) -> Option<u64> {
    match answer {
        Err(ToolErr::Script { line }) => Some(line),
        _ => None,
    }
}

#[test]
fn a_line_without_an_end(rt: HostRuntime) -> Result<(), Fail> {
    let mut text = Vec::new(rt.alloc());
    text.extend_from_slice(b"0 0 tick\n")?;
    for _ in 0..128 {
        text.push(b'0')?;
    }
    let undecided = Script::read(
        rt.alloc(),
        &mut Dripping::after(text.as_slice(), text.len()),
    );
    assert!(rt; undecided.err() == Some(ToolErr::Read));
    text.push(b'0')?;
    let refused = Script::read(
        rt.alloc(),
        &mut Dripping::after(text.as_slice(), text.len()),
    );
    assert!(rt; line_of(refused) == Some(2));
    Ok(())
}
