//! The program `llrp`: passes its words and its standard streams to the library of the command
//! line, and exits with the status that this returns. It runs the commands over sockets itself.
//!
//! Read it to see what no contract covers: arguments, terminals, sockets and the exit status. The commands
//! are in `llrp_commands`, the two ends of a connection in `llrp_endpoints`.
#![tactic(auto)]

ghost use Rattle.llrp_stream.specs.Calls.Device.{CanWrite};
ghost use Rattle.llrp_stream.specs.Device.{IsFreshSink};
ghost use Rattle.llrp_words.specs.Calls.Arguments.{IsBounded, IsLongest};

mod access;
mod access_command;
mod access_errand;
mod address;
mod ask;
mod both_ends;
mod canned;
mod clients;
mod connecting;
mod deadline;
mod decibels;
mod farewell;
mod faults;
mod general_sim;
mod heard_frames;
mod inventory;
mod labelled_report;
mod labels;
mod leaving;
mod listening;
mod live_client;
mod live_clock;
mod live_script;
mod live_sim;
mod message_printer;
mod network;
mod noted;
mod notes;
mod one_at_a_time;
mod patience;
mod plan;
mod powered;
mod powers;
mod printing;
mod progress;
mod refused_words;
mod replayed;
mod saving;
mod sim;
mod speech;
mod tag_files;
mod tag_printer;
mod timed;
mod waiting;
mod watch;
mod watch_plan;
mod watched;
mod whole_frames;

use address::address_of;
use canned::{AnswerText, refuse_answers};
use inventory::Target;
use labelled_report::LabelledReport;
use labels::asked_labels;
use live_clock::rate_of;
use llrp_commands::{
    AccessWords, AskWords, LabelWords, NetworkCommand, PlanWords, SimWords, StopWords, USAGE,
    WatchWords, network_command,
};
use llrp_files::{FAILED, end_without_memory, run_offline, words_of};
use llrp_listing::{ToolErr, write_all};
use llrp_stream::{Input, Output, Sink};
use network::conclude;
use notes::Notes;
use plan::{open_plan, refuse};
use progress::Progress;
use refused_words::{
    NO_ADDRESS, NO_CLOCK, label_clash, plan_clash, sim_clash, stop_clash, watch_clash,
};
use std::fs::File;
use std::io::{IsTerminal, Stderr};
use std::process::ExitCode;

/// Opens a directory once for each standard stream. If one of these is closed, a directory gets its
/// descriptor, which the next socket would otherwise get: so reads and writes of that stream fail,
/// and do not go over the connection.
fn hold_descriptors(rt: &HostRuntime) -> Option<[File; 3]> {
    let first = File::open(rt, "/").ok()?;
    let second = File::open(rt, "/").ok()?;
    let third = File::open(rt, "/").ok()?;
    Some([first, second, third])
}

/// Standard error, if it is a terminal.
fn terminal_of(rt: &HostRuntime) -> Option<Stderr> {
    if rt.stderr().is_terminal() {
        Some(rt.stderr())
    } else {
        None
    }
}

/// Writes why the words ask for nothing, and returns the exit status.
fn refuse_words<E: Sink>(said: &[u8], errors: &mut E) -> Result<u8, ToolErr>
    requires { CanWrite (E.log errors.old) }
{
    write_all(errors, said)?;
    Ok(USAGE)
}

/// Serves general clients as a simulated reader, as the words say, and returns the exit status.
fn run_general_sim<E: Sink>(
    rt: &HostRuntime,
    words: SimWords<'_>,
    errors: &mut E,
) -> Result<u8, ToolErr>
    requires { IsFreshSink (E.log errors.old) }
{
    let alloc = rt.alloc();
    match AnswerText::open(rt, alloc, words.answers) {
        Ok(answers) => {
            let mut input = Input::new(rt.stdin());
            general_sim::general_sim(rt, alloc, words, &answers, &mut input, errors)
        }
        Err(no_answers) => refuse_answers(no_answers, errors),
    }
}

/// Serves clients as a simulated reader, as the words say, and returns the exit status.
fn run_sim<E: Sink>(rt: &HostRuntime, words: SimWords<'_>, errors: &mut E) -> Result<u8, ToolErr>
    requires { IsFreshSink (E.log errors.old) }
{
    if let Some(said) = sim_clash(words) {
        return refuse_words(said, errors);
    }
    let Some(clock) = words.clock else {
        if words.all {
            return run_general_sim(rt, words, errors);
        }
        return sim::sim(rt, rt.alloc(), words, &mut Input::new(rt.stdin()), errors);
    };
    match rate_of(clock) {
        Some(rate) => live_sim::live_sim(rt, words, rate),
        None => refuse_words(NO_CLOCK, errors),
    }
}

/// Prints the tags of a reader by the plan that the words ask for, with these labels, and returns the exit
/// status.
fn run_inventory<E: Sink>(
    rt: &HostRuntime,
    target: Target<'_>,
    words: PlanWords<'_>,
    labels: LabelWords<'_>,
    errors: &mut E,
) -> Result<u8, ToolErr>
    requires limit { IsLongest target.limit }
    requires errors { IsFreshSink (E.log errors.old) }
{
    if let Some(said) = plan_clash(words).or(label_clash(labels, words.json, false)) {
        return refuse_words(said, errors);
    }
    let alloc = rt.alloc();
    let plan = match open_plan(rt, alloc, words) {
        Ok(plan) => plan,
        Err(no_plan) => return refuse(no_plan, errors),
    };
    let terminal = terminal_of(rt);
    let Some(labels) = asked_labels(labels) else {
        let mut report = Progress::new(Output::new(rt.stdout()), terminal);
        return inventory::inventory(rt, alloc, target, plan, &mut report, errors);
    };
    let form = plan.form();
    let mut report = LabelledReport::new(alloc, labels, form, rt.stdout(), terminal);
    inventory::labelled_inventory(rt, alloc, target, plan, &mut report, errors)
}

/// Prints the tags of a simulated reader by the plan that the words ask for, and returns the exit status.
fn run_loop<E: Sink>(rt: &HostRuntime, words: PlanWords<'_>, errors: &mut E) -> Result<u8, ToolErr>
    requires { IsFreshSink (E.log errors.old) }
{
    if let Some(said) = plan_clash(words) {
        return refuse_words(said, errors);
    }
    let alloc = rt.alloc();
    let plan = match open_plan(rt, alloc, words) {
        Ok(plan) => plan,
        Err(no_plan) => return refuse(no_plan, errors),
    };
    let mut input = Input::new(rt.stdin());
    let mut report = Progress::new(Output::new(rt.stdout()), terminal_of(rt));
    both_ends::run_both_ends(rt, alloc, plan, &mut input, &mut report, errors)
}

/// Prints the tags of the reader at this host for as long as the words say, and returns the exit status.
fn run_watch<E: Sink>(
    rt: &HostRuntime,
    host: &str,
    words: WatchWords<'_>,
    errors: &mut E,
) -> Result<u8, ToolErr>
    requires limit { IsLongest words.limit }
    requires errors { CanWrite (E.log errors.old) }
{
    let Some(reader) = address_of(host) else {
        return refuse_words(NO_ADDRESS, errors);
    };
    match watch_clash(words) {
        Some(said) => refuse_words(said, errors),
        None => watch::watch(rt, reader, words),
    }
}

/// Deletes the ROSpec that the words name on the reader at this host, and returns the exit status.
fn run_stop<E: Sink>(
    rt: &HostRuntime,
    host: &str,
    words: StopWords<'_>,
    errors: &mut E,
) -> Result<u8, ToolErr>
    requires { CanWrite (E.log errors.old) }
{
    let Some(reader) = address_of(host) else {
        return refuse_words(NO_ADDRESS, errors);
    };
    match stop_clash(words) {
        Some(said) => refuse_words(said, errors),
        None => watch::stop(rt, reader, words),
    }
}

/// Sends the messages of a file to the reader at this host, and returns the exit status.
fn run_ask<E: Sink>(
    rt: &HostRuntime,
    host: &str,
    words: AskWords<'_>,
    errors: &mut E,
) -> Result<u8, ToolErr>
    requires { CanWrite (E.log errors.old) }
{
    match address_of(host) {
        Some(reader) => ask::ask(rt, reader, words),
        None => refuse_words(NO_ADDRESS, errors),
    }
}

/// Reads, writes or locks one tag by the reader at this host, as the words of the command say, and returns
/// the exit status.
fn run_access<E: Sink>(
    rt: &HostRuntime,
    host: &str,
    words: AccessWords<'_>,
    said: &[String],
    errors: &mut E,
) -> Result<u8, ToolErr>
    requires { CanWrite (E.log errors.old) }
{
    let Some(reader) = address_of(host) else {
        return refuse_words(NO_ADDRESS, errors);
    };
    let texts = access_command::operation_texts(rt.alloc(), said)?;
    access_command::access(rt, reader, words, &texts)
}

/// Runs a command over sockets, which these words ask for, and returns its exit status.
fn run_network(
    rt: &HostRuntime,
    command: NetworkCommand<'_>,
    said: &[String],
) -> Result<u8, ToolErr>
    requires { IsBounded command }
{
    let mut errors = Output::new(rt.stderr());
    let Some(_held) = hold_descriptors(rt) else {
        return conclude(None, &mut errors);
    };
    match command {
        NetworkCommand::Sim { words } => run_sim(rt, words, &mut errors),
        NetworkCommand::Inventory {
            host,
            port,
            plan,
            timeout,
            limit,
            verbose,
            labels,
        } => {
            let notes = Notes::new(rt, verbose);
            let target = Target {
                host,
                port,
                timeout,
                limit,
                notes: &notes,
            };
            run_inventory(rt, target, plan, labels, &mut errors)
        }
        NetworkCommand::Loop { plan } => run_loop(rt, plan, &mut errors),
        NetworkCommand::Watch { host, words } => run_watch(rt, host, words, &mut errors),
        NetworkCommand::Stop { host, words } => run_stop(rt, host, words, &mut errors),
        NetworkCommand::Ask { host, words } => run_ask(rt, host, words, &mut errors),
        NetworkCommand::Access { host, words } => { run_access(rt, host, words, said, &mut errors) }
    }
}

/// Runs the command that the program's words ask for, and returns its exit status. The errors are
/// `Memory` if memory ran out before the command was known, and `Write` if writing to standard
/// error failed.
fn run(rt: &HostRuntime) -> Result<u8, ToolErr> {
    let Some(words) = words_of(rt)? else {
        return Ok(USAGE);
    };
    if let Some(status) = run_offline(rt, words.as_slice())? {
        return Ok(status);
    }
    match network_command(rt.alloc(), words.as_slice())? {
        Some(command) => run_network(rt, command, words.as_slice()),
        None => Ok(USAGE),
    }
}

fn main(rt: HostRuntime) -> ExitCode {
    ExitCode::from(match run(&rt) {
        Ok(status) => status,
        Err(ToolErr::Memory) => end_without_memory(&mut Output::new(rt.stderr())),
        Err(_) => FAILED,
    })
}
