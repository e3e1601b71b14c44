//! The command `sim` with `--all`: serves general clients by a script.

ghost use Rattle.std.specs.Prelude.{◌≡◌, if◌then◌else◌};
ghost use Rattle.llrp_commands.specs.declared.command.TheConstants.{LIMIT};
ghost use Rattle.llrp_session.specs.ReaderMachine.{new_reader as the_new_reader};
ghost use Rattle.llrp_stream.specs.Calls.Device.{CanWrite};
ghost use Rattle.llrp_stream.specs.Device.{IsFreshSink, IsFreshSource};
ghost use Rattle.llrp.specs.declared.network.TheConstants.{FIRST_ID};
ghost use Rattle.llrp.specs.Calls.GeneralClients.{RunsGeneralSim, ServesGeneral, ServesGeneralAt, ServesGenerals, next_reader};
ghost use Rattle.llrp.specs.Private.GeneralClients.{MayServeGeneral};

use crate::canned::AnswerText;
use crate::clients::{most_clients, say_ready};
use crate::network::{FIRST_ID, conclude};
use crate::one_at_a_time::Clients;
use crate::sim::{listens_on, port_of};
use crate::watched::{Beside, Watched};
use llrp_answers::Answers;
use llrp_commands::{LIMIT, SimWords};
use llrp_endpoints::Script;
use llrp_general::run_serve_among;
use llrp_listing::ToolErr;
use llrp_session::Reader;
use llrp_stream::{Input, Output, Sink, Source};
use std::alloc::Global;
use std::net::{Net, TcpListener, TcpStream};

/// A reader as new.
pub fn new_reader(alloc: Global) -> Reader
    ensures { result ≡ the_new_reader LIMIT FIRST_ID }
{
    Reader::new(alloc, LIMIT, FIRST_ID)
}

/// The reader for the next client: the one that the last client left, if it is kept, and else one as
/// new.
pub fn next_core(alloc: Global, keep: bool, left: Reader) -> Reader
    ensures { result ≡ next_reader keep left }
{
    if keep { left } else { new_reader(alloc) }
}

/// Serves the client of a stream by a reader, a script and answers, and refuses others meanwhile.
/// Returns how that ended, and the reader that the client left.
fn serve_stream(
    alloc: Global,
    stream: &TcpStream,
    clients: &mut Clients<'_>,
    core: Reader,
    script: Script,
    answers: Answers,
) -> (Result<(), ToolErr>, Reader)
    ensures { ServesGeneral answers.pairs.items script core result.1 result.0 }
{
    let watched = Watched::new(stream);
    let mut others = Beside::new(alloc, &watched, clients);
    let mut source = Input::new(&watched);
    let mut sink = Output::new(stream);
    run_serve_among(
        alloc,
        core,
        script,
        answers,
        &mut others,
        &mut source,
        &mut sink,
    )
}

/// Serves the next client, as `serve_stream` does. `None` means that the network failed.
fn serve_next(
    alloc: Global,
    clients: &mut Clients<'_>,
    core: Reader,
    script: Script,
    answers: Answers,
) -> Option<(Result<(), ToolErr>, Reader)>
    ensures { MayServeGeneral answers.pairs.items script core result }
{
    let stream = clients.next()?;
    Some(serve_stream(alloc, &stream, clients, core, script, answers))
}

/// Serves clients of a listener one after another by the script from its beginning, each as a new
/// reader, or as the one that the client before it left, and refuses who comes meanwhile. For each one that did not end well it writes
/// how that ended as a line to `e`. Returns the greatest of their exit statuses.
fn serve_clients<E: Sink>(
    alloc: Global,
    listener: &TcpListener,
    script: &Script,
    answers: &AnswerText,
    keep: bool,
    most: u64,
    e: &mut E,
) -> Result<u8, ToolErr>
    requires { CanWrite (E.log e.old) }
    ensures { ServesGenerals answers.now.text.items keep script.now most (E.log e.old) (E.log e.new)
        result }
{
    let mut clients = Clients::new(listener);
    let mut core = new_reader(alloc);
    let mut status = 0;
    for _ in 0..most {
        let Ok(script) = script.try_clone(alloc) else {
            return conclude(Some(Err(ToolErr::Memory)), e);
        };
        let Ok(answers) = answers.answers(alloc) else {
            return conclude(Some(Err(ToolErr::Memory)), e);
        };
        let Some((outcome, left)) = serve_next(alloc, &mut clients, core, script, answers) else {
            return conclude(None, e);
        };
        core = next_core(alloc, keep, left);
        let ended = conclude(Some(outcome), e)?;
        if ended > status {
            status = ended;
        }
    }
    Ok(status)
}

/// Listens where the words say, writes where that is if they ask for it, and serves clients by a script.
fn serve_at<N: Net<Listener = TcpListener, Stream = TcpStream>, E: Sink>(
    net: &N,
    alloc: Global,
    words: SimWords<'_>,
    script: &Script,
    answers: &AnswerText,
    e: &mut E,
) -> Result<u8, ToolErr>
    requires { IsFreshSink (E.log e.old) }
    ensures { ServesGeneralAt words.entry answers.now.text.items script.now (E.log e.old)
        (E.log e.new) result }
{
    let address = listens_on(words.bind);
    let Ok(listener) = TcpListener::bind(net, (address, words.port)) else {
        return conclude(None, e);
    };
    if words.ready {
        say_ready(alloc, address, port_of(&listener, words.port), e)?;
    }
    let most = most_clients(words.clients);
    serve_clients(alloc, &listener, script, answers, words.keep, most, e)
}

/// Reads the script, serves clients of the whole standard as the words say, with the answers of a
/// file, and returns the exit status, as [`crate::sim::sim`] does.
pub fn general_sim<N: Net<Listener = TcpListener, Stream = TcpStream>, R: Source, E: Sink>(
    net: &N,
    alloc: Global,
    words: SimWords<'_>,
    answers: &AnswerText,
    r: &mut R,
    e: &mut E,
) -> Result<u8, ToolErr>
    requires source { IsFreshSource (R.log r.old) }
    requires errors { IsFreshSink (E.log e.old) }
    ensures { RunsGeneralSim words.entry answers.now.text.items (R.log r.old) (R.log r.new)
        (E.log e.old) (E.log e.new) result }
{
    match Script::read(alloc, r) {
        Ok(script) => serve_at(net, alloc, words, &script, answers, e),
        Err(error) => conclude(Some(Err(error)), e),
    }
}
