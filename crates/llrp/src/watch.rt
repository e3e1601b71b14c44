//! The commands `watch` and `stop`: a client that lasts, and one that deletes the ROSpec that it
//! left.

ghost use Rattle.std.specs.Prelude.{◌≡◌, [], IsSome, None};
ghost use Rattle.llrp_stream.specs.Calls.Device.{CanWrite, new_source};
ghost use Rattle.llrp_stream.specs.Device.{IsFreshSink, IsFreshSource};
ghost use Rattle.llrp_words.specs.Calls.Arguments.{IsLongest};
ghost use Rattle.llrp.specs.Calls.Refusals.{HasHeard};
ghost use Rattle.llrp.specs.Private.Refusals.{ended_by};
ghost use Rattle.llrp.specs.Calls.Watch.{FollowsLasting, FollowsStop, PrintsMessages, PrintsTo};
ghost use Rattle.llrp_endpoints.specs.MarkedLines.{name_in};

use crate::access::{Access, refuse_access, saying};
use crate::address::Address;
use crate::connecting::{connect, say_connected};
use crate::deadline::{Deadline, end_after, is_past, no_longer};
use crate::decibels::read_power;
use crate::faults::FaultFinder;
use crate::labels::asked_labels;
use crate::leaving::{Connection, Parting, leave_after, say_left};
use crate::listening::Listening;
use crate::message_printer::MessagePrinter;
use crate::network::conclude;
use crate::noted::Noted;
use crate::notes::Notes;
use crate::patience::bounds_of;
use crate::plan::{NoPlan, refuse};
use crate::powered::{Stopped, Wanted, refuse_power, take_powered};
use crate::printing::Printing;
use crate::saving::{SAVE_LINE, Saved, Saving};
use crate::tag_printer::TagPrinter;
use crate::timed::{TimedReads, TimedWrites};
use crate::waiting::{NO_BOUNDS, Waiting};
use crate::watch_plan::{
    ALL_ANTENNAS, MadeRoSpec, OWN_ID, open_rospec, stop_plan, watch_form, watch_plan,
};
use llrp_commands::{StopWords, WatchWords};
use llrp_endpoints::{Plan, run_inventory, run_watching};
use llrp_files::FAILED;
use llrp_listing::{ToolErr, write_all};
use llrp_stream::{Output, Sink, Source};
use std::alloc::Global;
use std::io::Write;
use std::net::TcpStream;
use std::thread;
use std::time::{Duration, Instant};

/// The most octets that a message may have for `stop`.
const MOST_OCTETS: u32 = 1_048_576;

/// For how many seconds `stop` waits for a reader where nothing is said of it.
const PATIENCE: u16 = 5;

/// For how many milliseconds it waits before it asks a reader again that refused the connection.
const PAUSE: u64 = 1_000;

/// Follows a plan that lasts with the reader whose octets the source gives, of whose messages none
/// may be longer than `limit`. Writes to the reader, and prints the lines of tags.
pub fn take_lasting<R: Source, S: Sink, W: Write + Drop>(
    alloc: Global,
    plan: Plan,
    limit: u32,
    source: &mut R,
    sink: &mut S,
    printer: &mut TagPrinter<'_, W>,
) -> Result<(), ToolErr>
    requires limit { IsLongest limit }
    requires source { IsFreshSource (R.log source.old) }
    requires sink { IsFreshSink (S.log sink.old) }
    ensures { FollowsLasting limit plan (R.log source.old) (R.log source.new) (S.log sink.old)
        (S.log sink.new)
        (PrintsTo printer.old.lister printer.old.labels (name_in printer.old.name)
        (W.contents printer.old.output))
        (PrintsTo printer.new.lister printer.new.labels (name_in printer.new.name)
        (W.contents printer.new.output))
        result }
{
    run_watching(alloc, plan, limit, source, sink, printer)?;
    Ok(())
}

/// The same, and prints the reader's messages.
pub fn take_messages<R: Source, S: Sink, W: Write + Drop>(
    alloc: Global,
    plan: Plan,
    limit: u32,
    source: &mut R,
    sink: &mut S,
    printer: &mut MessagePrinter<'_, W>,
) -> Result<(), ToolErr>
    requires limit { IsLongest limit }
    requires source { IsFreshSource (R.log source.old) }
    requires sink { IsFreshSink (S.log sink.old) }
    ensures { FollowsLasting limit plan (R.log source.old) (R.log source.new) (S.log sink.old)
        (S.log sink.new)
        (PrintsMessages printer.old.lister (W.contents printer.old.output))
        (PrintsMessages printer.new.lister (W.contents printer.new.output)) result }
{
    run_watching(alloc, plan, limit, source, sink, printer)?;
    Ok(())
}

/// Follows a plan that only deletes a ROSpec.
pub fn take_stop<W: Sink>(
    alloc: Global,
    stream: &TcpStream,
    waiting: &Waiting<'_>,
    plan: Plan,
    report: &mut W,
) -> Result<(), ToolErr>
    requires { IsFreshSink (W.log report.old) }
    ensures { FollowsStop plan (W.log report.old) (W.log report.new) result }
{
    let mut source = TimedReads::new(alloc, waiting, stream);
    let mut sink = TimedWrites::new(alloc, waiting, stream);
    run_inventory(alloc, plan, MOST_OCTETS, &mut source, &mut sink, report)?;
    Ok(())
}

/// What all connections of a `watch` share.
#[derive(Clone, Copy)]
struct Watching<'a> {
    words: WatchWords<'a>,
    /// What is sent beside the plan.
    access: Option<&'a Access>,
    /// What --verbose asks for.
    notes: &'a Notes<'a>,
    /// What is said without it.
    warnings: &'a Notes<'a>,
    /// When it ends, if it ends.
    until: Option<Instant>,
}

/// How one connection of `watch` ended.
#[derive(Clone, Copy)]
struct Ending {
    status: u8,
    /// Nothing is gained by another connection.
    is_last: bool,
    /// Tags were printed.
    took_tags: bool,
}

/// The ROSpec that is made for the words of `watch`.
fn rospec_of(words: WatchWords<'_>) -> MadeRoSpec<'_> {
    MadeRoSpec {
        id: words.id.unwrap_or(OWN_ID),
        antennas: words.antennas.unwrap_or(ALL_ANTENNAS),
        every: words.every.unwrap_or(1),
        transmitter: None,
    }
}

/// What the words want, if they say a power.
fn wanted_of(watch: Watching<'_>) -> Option<Wanted<'_>> {
    Some(Wanted {
        words: watch.words,
        access: watch.access,
        made: rospec_of(watch.words),
        most: read_power(watch.words.power?)?,
    })
}

/// Follows a plan that lasts, or the one with the power that the words want. Returns how that ended, and
/// the source.
fn take_wanted<R: Source + Drop, S: Sink, P: Printing>(
    alloc: Global,
    plan: Plan,
    watch: Watching<'_>,
    source: R,
    sink: &mut S,
    printer: &mut P,
) -> (Result<(), Stopped>, R)
    requires limit { IsLongest watch.words.limit }
    requires source { R.log source ≡ new_source None }
    requires sink { IsFreshSink (S.log sink.old) }
{
    let limit = watch.words.limit;
    if let Some(wanted) = wanted_of(watch) {
        return take_powered(alloc, wanted, limit, source, sink, printer);
    }
    let mut source = source;
    let outcome = match printer.follow(alloc, plan, limit, &mut source, sink) {
        Ok(()) => Ok(()),
        Err(error) => Err(Stopped::Run(error)),
    };
    (outcome, source)
}

/// What finds the faulty frames of a connection, and the refusals of what is sent beside its plan.
fn finder_of<'a>(alloc: Global, watch: Watching<'a>) -> FaultFinder<'a>
    requires { IsLongest watch.words.limit }
    ensures { IsSome watch.entry.access → HasHeard watch.entry.words.limit [] result }
{
    match watch.access {
        Some(_) => FaultFinder::heeding(alloc, watch.words.limit, watch.warnings),
        None => FaultFinder::new(alloc, watch.words.limit, watch.warnings),
    }
}

/// How a connection ended: by a refusal of what was sent beside the plan, if one came, or else as its run
/// did.
fn refused_or(refused: Option<u16>, outcome: Result<(), Stopped>) -> Result<(), Stopped>
    ensures { result ≡ ended_by refused outcome }
{
    match refused {
        Some(status) => Err(Stopped::Run(ToolErr::Peer(status))),
        None => outcome,
    }
}

/// Prints what comes of the reader at the other end of the stream, and returns how that ended, and
/// where its frames were saved. Where the client ends it, the ROSpec is deleted.
fn watch_stream<P: Printing>(
    rt: &HostRuntime,
    connection: Connection<'_>,
    plan: Plan,
    watch: Watching<'_>,
    saving: Saving,
    printer: &mut P,
) -> (Parting, Saving)
    requires limit { IsLongest watch.words.limit }
{
    let alloc = rt.alloc();
    let Connection {
        stream,
        waiting,
        ..
    } = connection;
    let (own_id, limit) = (plan.rospec_id(), watch.words.limit);
    let saved = Saved::new(
        alloc,
        limit,
        TimedReads::new(alloc, waiting, stream),
        saving,
    );
    let faults = finder_of(alloc, watch);
    let source = Listening::new(alloc, saved, faults, watch.notes, &waiting.pending);
    let mut sink = Noted::new(TimedWrites::new(alloc, waiting, stream));
    let (taken, source) = take_wanted(alloc, plan, watch, source, &mut sink, printer);
    let outcome = refused_or(source.refused(), taken);
    watch.warnings.say_counts();
    watch.notes.say_counts();
    let parting = if sink.took() {
        let has_failed = printer.has_failed();
        leave_after(rt, connection, watch.access, outcome, has_failed, own_id)
    } else {
        Parting {
            outcome,
            is_left: false,
        }
    };
    (parting, source.into_source().into_saving())
}

/// The name of the reader that the words give.
fn reader_name<'a>(words: WatchWords<'a>) -> Option<&'a [u8]> {
    match words.name {
        Some(name) => Some(name.as_bytes()),
        None => None,
    }
}

/// The exit status of a connection that ended like this, after its error, if it has one, was written to
/// `errors` as a line. `None` means that the network failed.
fn conclude_watch<E: Sink>(
    alloc: Global,
    outcome: Option<Result<(), Stopped>>,
    errors: &mut E,
) -> Result<u8, ToolErr>
    requires { CanWrite (E.log errors.old) }
{
    match outcome {
        Some(Ok(())) => conclude(Some(Ok(())), errors),
        Some(Err(Stopped::Run(error))) => conclude(Some(Err(error)), errors),
        Some(Err(Stopped::Power(least))) => refuse_power(alloc, least, errors),
        None => conclude(None, errors),
    }
}

/// Prints what comes of one connection for a plan, and says why it ended.
fn watch_connection<P: Printing>(
    rt: &HostRuntime,
    reader: Address<'_>,
    plan: Plan,
    watch: Watching<'_>,
    deadline: &Deadline,
    saving: Saving,
    printer: &mut P,
) -> Result<(Ending, Saving), ToolErr>
    requires { IsLongest watch.words.limit }
{
    let own_id = plan.rospec_id();
    let waiting = Waiting::new(rt, bounds_of(watch.words)).with_deadline(deadline);
    let (parting, saving) = match connect(rt, reader, &waiting) {
        Some(stream) => {
            say_connected(rt.alloc(), watch.notes, &stream);
            let connection = Connection {
                stream: &stream,
                waiting: &waiting,
                deadline,
            };
            let (parting, saving) = watch_stream(rt, connection, plan, watch, saving, printer);
            (Some(parting), saving)
        }
        None => (None, saving),
    };
    let outcome = parting.map(|parting| parting.outcome);
    let has_no_power = matches!(outcome, Some(Err(Stopped::Power(_))));
    let ending = Ending {
        status: conclude_watch(rt.alloc(), outcome, &mut Output::new(rt.stderr()))?,
        is_last: has_no_power || printer.has_failed() || is_past(rt, watch.until),
        took_tags: printer.has_printed_tags(),
    };
    let is_left = parting.is_some_and(|parting| parting.is_left);
    if ending.status != 0 && deadline.is_up(rt) && !is_left {
        say_left(rt.alloc(), watch.warnings, own_id);
    }
    Ok((ending, saving))
}

/// The plan that the words mean, with what is sent beside it.
fn plan_for(rt: &HostRuntime, watch: Watching<'_>) -> Result<Plan, NoPlan> {
    let words = watch.words;
    let plan = open_rospec(rt, rt.alloc(), words.rospec, rospec_of(words))?;
    saying(rt.alloc(), watch_plan(words, plan), watch.access)
}

/// Prints the tags of one connection, or the messages, and says why it ended.
fn watch_once(
    rt: &HostRuntime,
    reader: Address<'_>,
    watch: Watching<'_>,
    saving: Saving,
) -> Result<(Ending, Saving), ToolErr>
    requires { IsLongest watch.words.limit }
{
    let words = watch.words;
    let plan = match plan_for(rt, watch) {
        Ok(plan) => plan,
        Err(no_plan) => {
            let ending = Ending {
                status: refuse(no_plan, &mut Output::new(rt.stderr()))?,
                is_last: true,
                took_tags: false,
            };
            return Ok((ending, saving));
        }
    };
    let deadline = Deadline::new(watch.until);
    if words.messages {
        let mut printer = MessagePrinter::new(rt, &deadline, words.limit, rt.stdout());
        return watch_connection(rt, reader, plan, watch, &deadline, saving, &mut printer);
    }
    let form = watch_form(words);
    let name = reader_name(words);
    let labels = asked_labels(words.labels);
    let mut printer = TagPrinter::new(rt, &deadline, form, labels, name, words.limit, rt.stdout());
    watch_connection(rt, reader, plan, watch, &deadline, saving, &mut printer)
}

/// Prints the tags of one connection after another, and returns the exit status.
fn watch_all(
    rt: &HostRuntime,
    reader: Address<'_>,
    watch: Watching<'_>,
    mut saving: Saving,
) -> Result<u8, ToolErr>
    requires { IsLongest watch.words.limit }
{
    let mut pause = 1;
    for _ in 0..u64::MAX {
        let (ending, after) = watch_once(rt, reader, watch, saving)?;
        saving = after;
        let most = match watch.words.again {
            Some(most) if !ending.is_last => most as u64,
            _ => return Ok(ending.status),
        };
        if ending.took_tags {
            pause = 1;
        }
        thread::sleep(rt, no_longer(rt, Duration::from_secs(pause), watch.until));
        if is_past(rt, watch.until) {
            return Ok(ending.status);
        }
        pause = most.min(pause.saturating_mul(2));
    }
    Ok(FAILED)
}

/// Prints the tags that the reader sees until the connection ends, or the time is up, and returns the
/// exit status. With --again it connects again after 1, 2, 4 .. seconds, and after 1 where tags were
/// printed; only a ROSpec that is refused, a power that the reader does not have, a standard output that
/// fails and the time end it.
pub fn watch(rt: &HostRuntime, reader: Address<'_>, words: WatchWords<'_>) -> Result<u8, ToolErr>
    requires { IsLongest words.limit }
{
    let until = end_after(rt, words.seconds);
    let notes = Notes::new(rt, words.verbose);
    let warnings = Notes::new(rt, true);
    let access = match Access::open(rt, rt.alloc(), words.access) {
        Ok(access) => access,
        Err(no_access) => return refuse_access(no_access, &mut Output::new(rt.stderr())),
    };
    let Ok(saving) = Saving::open(rt, words.save) else {
        write_all(&mut Output::new(rt.stderr()), SAVE_LINE)?;
        return Ok(FAILED);
    };
    let watch = Watching {
        words,
        access: access.as_ref(),
        notes: &notes,
        warnings: &warnings,
        until,
    };
    watch_all(rt, reader, watch, saving)
}

/// The ROSpec that the words of `stop` mean.
fn own_rospec(words: StopWords<'_>) -> MadeRoSpec<'static> {
    MadeRoSpec {
        id: words.watch.id.unwrap_or(OWN_ID),
        antennas: ALL_ANTENNAS,
        every: 1,
        transmitter: None,
    }
}

/// Deletes the ROSpec, and before it the AccessSpecs that these messages delete, and returns how that ended;
/// `None` means that the network failed.
fn stop_once(
    rt: &HostRuntime,
    reader: Address<'_>,
    words: StopWords<'_>,
    access: Option<&Access>,
    waiting: &Waiting<'_>,
) -> Result<Option<Result<(), ToolErr>>, NoPlan> {
    let alloc = rt.alloc();
    let plan = open_rospec(rt, alloc, words.watch.rospec, own_rospec(words))?;
    let plan = saying(alloc, stop_plan(plan), access)?;
    let mut report = Output::new(Vec::new(alloc));
    Ok(match connect(rt, reader, waiting) {
        Some(stream) => Some(take_stop(alloc, &stream, waiting, plan, &mut report)),
        None => None,
    })
}

/// Whether the reader refused the connection because it has another one, or for another reason.
fn is_refused(outcome: Option<Result<(), ToolErr>>) -> bool {
    matches!(outcome, Some(Err(ToolErr::Peer(1..=3))))
}

/// Deletes these within the seconds that the words say, in all. A reader that refuses the connection is asked
/// again each second meanwhile.
fn stop_within(
    rt: &HostRuntime,
    reader: Address<'_>,
    words: StopWords<'_>,
    access: Option<&Access>,
) -> Result<Option<Result<(), ToolErr>>, NoPlan> {
    let seconds = words.timeout.unwrap_or(PATIENCE);
    let waiting = Waiting::new(rt, NO_BOUNDS).within(1_000 * seconds as u64);
    for _ in 0..seconds {
        let outcome = stop_once(rt, reader, words, access, &waiting)?;
        if !is_refused(outcome) || !waiting.has_left(PAUSE) {
            return Ok(outcome);
        }
        thread::sleep(rt, Duration::from_millis(PAUSE));
    }
    stop_once(rt, reader, words, access, &waiting)
}

/// Deletes what a `watch` with the same words left on the reader, its ROSpec and the AccessSpecs that the file
/// of --access deletes, and returns the exit status.
pub fn stop(rt: &HostRuntime, reader: Address<'_>, words: StopWords<'_>) -> Result<u8, ToolErr> {
    let mut errors = Output::new(rt.stderr());
    let access = match Access::open(rt, rt.alloc(), words.watch.access) {
        Ok(access) => access,
        Err(no_access) => return refuse_access(no_access, &mut errors),
    };
    match stop_within(rt, reader, words, access.as_ref()) {
        Ok(outcome) => conclude(outcome, &mut errors),
        Err(no_plan) => refuse(no_plan, &mut errors),
    }
}
