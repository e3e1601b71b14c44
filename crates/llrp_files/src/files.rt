//! The files that `show`, `encode` or `explain` reads one after another, each as a stream by itself.

ghost use Rattle.std.specs.Prelude.{◌++◌, ◌≡◌, List, MatchOption, Option, codes, false, map, true, ℕ};
ghost use Rattle.llrp_commands.specs.Calls.Command.{error_line};
ghost use Rattle.llrp_listing.specs.declared.outcome.ToolErr.TheVariants.{Write as WriteFails};
ghost use Rattle.llrp_stream.specs.Calls.Device.{CanWrite};
ghost use Rattle.llrp_stream.specs.Device.{IsFreshSink, IsFreshSource, SourceLog};
ghost use Rattle.llrp_words.specs.Calls.Requests.{HasLimit};
ghost use Rattle.llrp_words.specs.Calls.Said.{said};
ghost use Rattle.llrp_files.specs.Calls.Files.{HasNoReason, Opens, RunsFiles, RunsOver};
ghost use Rattle.llrp_files.specs.Private.Files.{Says, TakesFile};

use crate::ending::FAILED;
use llrp_commands::{Request, USAGE, run_request, write_parts};
use llrp_listing::{ToolErr, write_all};
use llrp_stream::{Output, Sink, Source};
use std::alloc::Global;
use std::io::Write;

/// What the line of an error begins with.
const PROGRAM: &[u8] = b"llrp: ";

/// The line of an error that is not the file's: no file after it can be written either.
const NOT_WRITTEN: &[u8] = b"llrp: write\n";

/// The line of a file that cannot be opened, or read.
const NOT_READ: &[u8] = b"llrp: read\n";

/// What opening an input gave.
#[derive(Drop)]
pub enum Opening<R: Drop> {
    /// The input.
    Opened(R),
    /// It is not there, or cannot be read.
    Unread,
    /// Memory ran out.
    NoMemory,
}

/// Opens the inputs of a command by their names.
pub trait Inputs<R: Source + Drop> {
    /// What a name stands for: a source as it is when it was opened, or nothing that can be read.
    ghost stands: { Self → List ℕ → Option SourceLog → Type 0 };

    /// Opens the input of this name.
    fn open(&self, name: &str) -> Opening<R>
        ensures { Opens (R.log) (stands self.now) name.now result };

    /// Is called once the command has read an input, with its answer.
    fn ended(&self, input: &R, answer: &Result<u8, ToolErr>);
}

/// The reason that the line of an error gives after the program's name, if it is such a line.
fn reason_of(line: &[u8]) -> Option<&[u8]>
    ensures { MatchOption result (HasNoReason line.now)
        (λ reason. line.now ≡ codes "llrp: " ++ reason.now) }
{
    line.strip_prefix(PROGRAM)
}

/// Whether the line of an error says that a write failed.
fn is_unwritten(line: &[u8]) -> bool
    ensures yes { result ≡ true → line.now ≡ error_line WriteFails }
    ensures no { result ≡ false → line.now ≡ error_line WriteFails → ⊥ }
{
    line == NOT_WRITTEN
}

/// Writes the line that a command over a file wrote for its error, with the file's name after the program's. The error is
/// `Write` if this failed, or if the line says that a write failed.
fn tell<E: Sink>(name: &str, line: &[u8], e: &mut E) -> Result<(), ToolErr>
    requires { CanWrite (E.log e.old) }
    ensures { Says name.now line.now (E.log e.old) (E.log e.new) result }
{
    if is_unwritten(line) {
        write_all(e, line)?;
        return Err(ToolErr::Write);
    }
    match reason_of(line) {
        Some(reason) => write_parts(e, &[PROGRAM, name.as_bytes(), b": ", reason]),
        None => write_all(e, line),
    }
}

/// Does what is requested over the input of this name, and returns the exit status. The errors are `Memory`, and `Write` if
/// writing failed.
fn run_over<R: Source, W: Sink, E: Sink>(
    alloc: Global,
    request: &Request<'_>,
    name: &str,
    input: &mut R,
    output: &mut W,
    e: &mut E,
) -> Result<u8, ToolErr>
    requires limit { HasLimit request.now }
    requires source { IsFreshSource (R.log input.old) }
    requires sink { IsFreshSink (W.log output.old) }
    requires errors { CanWrite (E.log e.old) }
    ensures { RunsOver (said request.now) name.now (R.log input.old) (W.log output.old)
        (W.log output.new) (E.log e.old) (E.log e.new) result }
{
    let mut told = Output::new(Vec::new(alloc));
    match run_request(alloc, request, input, output, &mut told) {
        Ok(status) => {
            tell(name, told.into_inner().as_slice(), e)?;
            Ok(status)
        }
        // (a line that a buffer does not take is one for which there is no memory)
        Err(_) => Err(ToolErr::Memory),
    }
}

/// Opens the input of this name, does what is requested over it, and returns the writer and the exit status.
fn run_file<R: Source + Drop, I: Inputs<R>, W: Write + Drop, E: Sink>(
    alloc: Global,
    request: &Request<'_>,
    name: &str,
    inputs: &I,
    w: W,
    e: &mut E,
) -> (W, Result<u8, ToolErr>)
    requires limit { HasLimit request.now }
    requires errors { CanWrite (E.log e.old) }
    ensures { TakesFile (I.stands inputs.now) (said request.now) name.now (W.contents w)
        (W.contents result.0) (E.log e.old) (E.log e.new) result.1 }
{
    match inputs.open(name) {
        Opening::Opened(mut input) => {
            let mut output = Output::new(w);
            let outcome = run_over(alloc, request, name, &mut input, &mut output, e);
            inputs.ended(&input, &outcome);
            (output.into_inner(), outcome)
        }
        Opening::Unread => match tell(name, NOT_READ, e) {
            Ok(()) => (w, Ok(FAILED)),
            Err(error) => (w, Err(error)),
        },
        Opening::NoMemory => (w, Err(ToolErr::Memory)),
    }
}

/// Does what is requested over the input of each of these names in order, and returns the writer and the greatest exit status; an input that
/// cannot be opened is said, and counts as 3. Arguments that mean nothing together end it at the first input that is opened, with status 2.
/// Error lines have the name after the program's. What is written goes to `w`, an input's after that of the one before it. The errors
/// are `Memory`, and `Write` if writing failed; no further input is opened then.
pub fn run_files<R: Source + Drop, I: Inputs<R>, W: Write + Drop, E: Sink>(
    alloc: Global,
    request: &Request<'_>,
    names: &[&str],
    inputs: &I,
    w: W,
    e: &mut E,
) -> (W, Result<u8, ToolErr>)
    requires limit { HasLimit request.now }
    requires errors { IsFreshSink (E.log e.old) }
    ensures { RunsFiles (I.stands inputs.now) (said request.now) (map (λ name. name.now) names.now)
        (W.contents w) (W.contents result.0) (E.log e.old) (E.log e.new) result.1 }
{
    let (mut w, mut worst) = (w, 0u8);
    for name in names {
        let (taken, outcome) = run_file(alloc, request, name, inputs, w, e);
        w = taken;
        let status = match outcome {
            Ok(status) => status,
            Err(error) => return (w, Err(error)),
        };
        if status == USAGE {
            return (w, Ok(USAGE));
        }
        worst = worst.max(status);
    }
    (w, Ok(worst))
}
