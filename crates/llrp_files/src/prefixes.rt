//! `epc` with the company prefixes of a file.

use llrp_commands::{TableErr, refuse_table, run_epc_by};
use llrp_listing::ToolErr;
use llrp_stream::{Input, Output};
use std::fs::File;
use std::io::ErrorKind;

/// Runs `epc` with the company prefixes of the file at this path, and returns its exit status.
pub fn run_epc_by_file(rt: &HostRuntime, words: &[String], path: &str) -> Result<u8, ToolErr> {
    let mut errors = Output::new(rt.stderr());
    match File::open(rt, path) {
        Ok(file) => run_epc_by(
            rt.alloc(),
            words,
            &mut Input::new(file),
            &mut Input::new(rt.stdin()),
            &mut Output::new(rt.stdout()),
            &mut errors,
        ),
        Err(error) => match error.kind() {
            ErrorKind::OutOfMemory => refuse_table(TableErr::Memory, &mut errors),
            _ => refuse_table(TableErr::Unread, &mut errors),
        },
    }
}
