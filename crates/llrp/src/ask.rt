//! The command `ask`: sends the messages of a file to a reader, one by one, and shows what comes.

ghost use Rattle.std.specs.Prelude.{IfErr, IfOk};
ghost use Rattle.llrp_stream.specs.Device.{IsFreshSink, IsFreshSource};
ghost use Rattle.llrp.specs.Calls.Ask.{AsksReader, ReadsNoSteps, ReadsSteps};

use crate::address::Address;
use crate::connecting::connect;
use crate::network::conclude;
use crate::timed::{TimedReads, TimedWrites};
use crate::waiting::{Waiting, own_bounds};
use llrp_ask::{Form, Manner, Step, run_ask, steps_of};
use llrp_commands::{AskWords, answer};
use llrp_files::FAILED;
use llrp_listing::{ToolErr, Verdict, read_all, write_all};
use llrp_stream::{Input, Output, Sink, Source};
use llrp_texts::TextErr;
use std::alloc::Global;
use std::fs::File;
use std::net::TcpStream;

/// For how many seconds it waits for a connection and for each answer where nothing is said of it.
const PATIENCE: u16 = 10;

/// The exit status where a frame that came is not a message.
const FAULTY: u8 = 1;

/// Reads the steps of a file to the end of the source, with lines of octets or without. The errors are
/// `Listing` with the first line that is refused, `Read`, `Bound` and `Memory`.
pub fn read_steps<R: Source>(alloc: Global, r: &mut R, raw: bool) -> Result<Vec<Step>, ToolErr>
    requires { IsFreshSource (R.log r.old) }
    ensures steps { IfOk result (λ steps. ReadsSteps raw (R.log r.old) (R.log r.new) steps.items) }
    ensures err { IfErr result (λ e. ReadsNoSteps raw (R.log r.old) (R.log r.new) e) }
{
    let text = read_all(alloc, r)?;
    match steps_of(alloc, text.as_slice(), raw) {
        Ok(steps) => Ok(steps),
        Err(TextErr::Line { line, reason }) => Err(ToolErr::Listing { line, reason }),
        Err(TextErr::Memory) => Err(ToolErr::Memory),
    }
}

/// Takes these steps with the reader at the other end of the stream. Writes what comes to `shown`.
pub fn ask_reader<P: Sink>(
    rt: &HostRuntime,
    stream: &TcpStream,
    waiting: &Waiting<'_>,
    steps: &[Step],
    manner: Manner,
    shown: &mut P,
) -> Result<Verdict, ToolErr>
    requires { IsFreshSink (P.log shown.old) }
    ensures { AsksReader manner steps.now (P.log shown.old) (P.log shown.new) result }
{
    let mut source = TimedReads::new(rt.alloc(), waiting, stream);
    let mut sink = TimedWrites::new(rt.alloc(), waiting, stream);
    run_ask(rt.alloc(), steps, manner, &mut source, &mut sink, shown)
}

/// How the words ask.
fn manner_of(words: AskWords<'_>, seconds: u16) -> Manner {
    Manner {
        form: if words.json { Form::Json } else { Form::Lines },
        goes_on: words.goes_on,
        patience: 1000 * seconds as u64,
    }
}

/// Sends the messages of a file to the reader, shows what comes, and returns the exit status.
pub fn ask(rt: &HostRuntime, reader: Address<'_>, words: AskWords<'_>) -> Result<u8, ToolErr> {
    let mut errors = Output::new(rt.stderr());
    let Ok(file) = File::open(rt, words.file) else {
        write_all(&mut errors, b"llrp: file\n")?;
        return Ok(FAILED);
    };
    let steps = match read_steps(rt.alloc(), &mut Input::new(file), words.raw) {
        Ok(steps) => steps,
        Err(error) => return answer(Err(error), &mut errors),
    };
    let seconds = words.timeout.unwrap_or(PATIENCE);
    let manner = manner_of(words, seconds);
    let waiting = Waiting::new(rt, own_bounds(manner.patience));
    let Some(stream) = connect(rt, reader, &waiting) else {
        return conclude(None, &mut errors);
    };
    let mut shown = Output::new(rt.stdout());
    match ask_reader(rt, &stream, &waiting, steps.as_slice(), manner, &mut shown) {
        Ok(Verdict::Lawful) => Ok(0),
        Ok(Verdict::Faulty) => Ok(FAULTY),
        Err(error) => answer(Err(error), &mut errors),
    }
}
