//! The command `sim` with `--clock`: serves clients in real time.

use crate::canned::{AnswerText, refuse_answers};
use crate::clients::{most_clients, say_ready};
use crate::general_sim::{new_reader, next_core};
use crate::live_client::{Served, serve_live};
use crate::live_clock::LiveClock;
use crate::live_script::{LiveScript, refuse_script};
use crate::network::conclude;
use crate::one_at_a_time::Clients;
use crate::sim::{listens_on, port_of};
use llrp_commands::SimWords;
use llrp_listing::{Text, ToolErr, write_all};
use llrp_session::Reader;
use llrp_stream::Output;
use std::alloc::Global;
use std::net::TcpListener;

/// The exit status where a client did not send what the script expects.
const UNMET: u8 = 1;

/// Serves the next client by a reader. `None` means that the network failed.
fn serve_next(
    alloc: Global,
    clock: LiveClock<'_>,
    clients: &mut Clients<'_>,
    script: &LiveScript,
    answers: &AnswerText,
    core: Reader,
) -> Option<(Result<Served, ToolErr>, Reader)> {
    let stream = clients.next()?;
    Some(match answers.answers(alloc) {
        Ok(answers) => serve_live(alloc, clock, clients, &stream, script, answers, core),
        Err(error) => (Err(error), core),
    })
}

/// The line of an expectation that was not met.
fn unmet_line(alloc: Global, line: u64) -> Result<Text, ToolErr> {
    let mut text = Text::new(alloc);
    text.push_text(b"llrp: expect: line ")?;
    text.push_number(line as u128)?;
    text.push_text(b"\n")?;
    Ok(text)
}

/// The exit status of a client that was served so, after it was said if it is not 0.
fn conclude_served(rt: &HostRuntime, served: Result<Served, ToolErr>) -> Result<u8, ToolErr> {
    let mut errors = Output::new(rt.stderr());
    match served {
        Ok(Served::Well) => Ok(0),
        Ok(Served::Unmet { line }) => {
            let text = unmet_line(rt.alloc(), line)?;
            write_all(&mut errors, text.as_slice())?;
            Ok(UNMET)
        }
        Err(error) => conclude(Some(Err(error)), &mut errors),
    }
}

/// Serves clients of a listener one after another, each by a reader as new, or by one that keeps its
/// ROSpecs. Returns the greatest of their exit statuses.
fn serve_clients(
    rt: &HostRuntime,
    clock: LiveClock<'_>,
    listener: &TcpListener,
    script: &LiveScript,
    answers: &AnswerText,
    words: SimWords<'_>,
) -> Result<u8, ToolErr> {
    let mut clients = Clients::new(listener);
    let mut core = new_reader(rt.alloc());
    let mut status = 0;
    for _ in 0..most_clients(words.clients) {
        let next = serve_next(rt.alloc(), clock, &mut clients, script, answers, core);
        let Some((served, left)) = next else {
            return conclude(None, &mut Output::new(rt.stderr()));
        };
        core = next_core(rt.alloc(), words.keep, left);
        let ended = conclude_served(rt, served)?;
        if ended > status {
            status = ended;
        }
    }
    Ok(status)
}

/// Listens where the words say, says so if it is to, and serves clients by a script.
fn serve_at(
    rt: &HostRuntime,
    words: SimWords<'_>,
    rate: u16,
    script: &LiveScript,
    answers: &AnswerText,
) -> Result<u8, ToolErr> {
    let mut errors = Output::new(rt.stderr());
    let address = listens_on(words.bind);
    let Ok(listener) = TcpListener::bind(rt, (address, words.port)) else {
        return conclude(None, &mut errors);
    };
    let Some(clock) = LiveClock::begin(rt, rate) else {
        return conclude(None, &mut errors);
    };
    if words.ready {
        say_ready(
            rt.alloc(),
            address,
            port_of(&listener, words.port),
            &mut errors,
        )?;
    }
    serve_clients(rt, clock, &listener, script, answers, words)
}

/// Reads the script, serves clients in real time as the words say, and returns the exit status, as
/// `sim` without a clock does.
pub fn live_sim(rt: &HostRuntime, words: SimWords<'_>, rate: u16) -> Result<u8, ToolErr> {
    let answers = match AnswerText::open(rt, rt.alloc(), words.answers) {
        Ok(answers) => answers,
        Err(no_answers) => return refuse_answers(no_answers, &mut Output::new(rt.stderr())),
    };
    match LiveScript::read(rt) {
        Ok(script) => serve_at(rt, words, rate, &script, &answers),
        Err(no_script) => refuse_script(rt, no_script),
    }
}
