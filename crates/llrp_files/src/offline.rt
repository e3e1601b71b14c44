//! What the words of a process ask for, where it is a command that needs no socket.

ghost use Rattle.llrp_words.specs.Calls.Requests.{HasLimit};

use crate::files::run_files;
use crate::hints::Noticing;
use crate::opened::HostInputs;
use crate::prefixes::run_epc_by_file;
use crate::terminal::{say_hint, say_waiting};
use llrp_commands::{Request, asked_of, run_request};
use llrp_listing::{ToolErr, write_all};
use llrp_stream::{Input, Output};
use std::env;
use std::io::ErrorKind;

/// What is written if an argument is not UTF-8.
const NOT_UTF8: &[u8] = b"error: invalid UTF-8 was detected in one or more arguments\n";

/// The words of the process, or `None` if one is not UTF-8, after that was said. The errors are `Memory`
/// if memory ran out, and `Write` if writing to standard error failed.
pub fn words_of(rt: &HostRuntime) -> Result<Option<Vec<String>>, ToolErr> {
    match env::args(rt) {
        Ok(arguments) => Ok(Some(arguments.skip(1).collect(rt.alloc())?)),
        Err(error) => match error.kind() {
            ErrorKind::OutOfMemory => Err(ToolErr::Memory),
            _ => {
                write_all(&mut Output::new(rt.stderr()), NOT_UTF8)?;
                Ok(None)
            }
        },
    }
}

/// Does what the words request over the standard streams, and returns the exit status.
fn run_streams(rt: &HostRuntime, words: &[String], request: Request<'_>) -> Result<u8, ToolErr>
    requires { HasLimit request }
{
    say_waiting(rt, words)?;
    let mut input = Noticing::new(Input::new(rt.stdin()));
    let status = run_request(
        rt.alloc(),
        &request,
        &mut input,
        &mut Output::new(rt.stdout()),
        &mut Output::new(rt.stderr()),
    )?;
    say_hint(rt, words, status, &input);
    Ok(status)
}

/// The path of the file of company prefixes that is requested with `epc`, if there is one.
fn prefixes_of<'a>(request: &Request<'a>) -> Option<&'a str> {
    match request {
        Request::Epc(words) => words.prefixes,
        _ => None,
    }
}

/// Runs the command that the words ask for, which are parsed once, and returns its exit status, or `None` if it is
/// one over sockets. The errors are `Memory` if memory ran out before the command was known, and `Write` if writing to
/// standard error failed.
pub fn run_offline(rt: &HostRuntime, words: &[String]) -> Result<Option<u8>, ToolErr> {
    let (request, files) = asked_of(rt.alloc(), words)?;
    if !files.is_empty() {
        let inputs = HostInputs { rt, words };
        let mut errors = Output::new(rt.stderr());
        let (_stdout, outcome) = run_files(
            rt.alloc(),
            &request,
            files.as_slice(),
            &inputs,
            rt.stdout(),
            &mut errors,
        );
        return Ok(Some(outcome?));
    }
    if let Some(path) = prefixes_of(&request) {
        return Ok(Some(run_epc_by_file(rt, words, path)?));
    }
    if matches!(&request, Request::Network(_)) {
        return Ok(None);
    }
    Ok(Some(run_streams(rt, words, request)?))
}
