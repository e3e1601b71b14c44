//! The commands of `llrp` that need no socket, as a program: `./llrp` proves and runs it for these while the whole program is not built.
#![tactic(auto)]

use llrp_commands::USAGE;
use llrp_files::{FAILED, end_without_memory, run_offline, words_of};
use llrp_listing::{ToolErr, write_all};
use llrp_stream::Output;
use std::process::ExitCode;

/// What is written where the words ask for a command over sockets.
const ONLINE: &[u8] = b"llrp: this program has no commands over sockets\n";

/// Runs the command that the program's words ask for, and returns its exit status.
fn run(rt: &HostRuntime) -> Result<u8, ToolErr> {
    let Some(words) = words_of(rt)? else {
        return Ok(USAGE);
    };
    if let Some(status) = run_offline(rt, words.as_slice())? {
        return Ok(status);
    }
    write_all(&mut Output::new(rt.stderr()), ONLINE)?;
    Ok(USAGE)
}

fn main(rt: HostRuntime) -> ExitCode {
    ExitCode::from(match run(&rt) {
        Ok(status) => status,
        Err(ToolErr::Memory) => end_without_memory(&mut Output::new(rt.stderr())),
        Err(_) => FAILED,
    })
}
