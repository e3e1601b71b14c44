//! What only a person at a terminal reads beside a command's output.

use crate::hints::{Noticing, reading_of};
use llrp_commands::reads_input;
use llrp_listing::{ToolErr, write_all};
use llrp_stream::{Output, Source};
use std::io::IsTerminal;

/// What a person at a terminal reads when a command waits for input.
const WAITING: &[u8] = b"llrp: waiting for input on this terminal; Ctrl-D ends it\n";

/// The status of a command that refused its input.
const REFUSED: u8 = 1;

/// Says on a terminal that a command waits for input, if the input comes from a terminal too and
/// the words ask for such a command. If writing that fails, it is ignored.
pub fn say_waiting(rt: &HostRuntime, words: &[String]) -> Result<(), ToolErr> {
    if rt.stdin().is_terminal() && rt.stderr().is_terminal() && reads_input(rt.alloc(), words)? {
        let _said = write_all(&mut Output::new(rt.stderr()), WAITING);
    }
    Ok(())
}

/// Says on a terminal what a person can do about an input, if the command's exit status is that of one that
/// was refused and the input's first octets show that. If writing that fails, it is ignored.
pub fn say_hint<R: Source + Drop>(
    rt: &HostRuntime,
    words: &[String],
    status: u8,
    input: &Noticing<R>,
) {
    if status != REFUSED || !rt.stderr().is_terminal() {
        return;
    }
    let Some(reading) = reading_of(words) else {
        return;
    };
    let Some(text) = input.hint(reading) else {
        return;
    };
    let _begun = write_all(&mut Output::new(rt.stderr()), b"llrp: hint: ");
    let _said = write_all(&mut Output::new(rt.stderr()), text.as_bytes());
    let _ended = write_all(&mut Output::new(rt.stderr()), b"\n");
}
