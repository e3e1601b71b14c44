//! A client of a simulated reader in real time.

use crate::live_clock::LiveClock;
use crate::live_script::LiveScript;
use crate::one_at_a_time::Clients;
use crate::speech::{PATIENCE, Speech};
use llrp_answers::Answers;
use llrp_commands::LIMIT;
use llrp_general::Located;
use llrp_listing::ToolErr;
use llrp_live::{
    Deed, Expectation, Expectations, Line, LiveReader, Notices, Schedule, Stage, later, moment_of,
    says_start,
};
use llrp_schema::KindSet;
use llrp_session::{Reader, ReaderIn, SideEvent, sooner};
use llrp_stream::{Decoder, End, Fed, Item};
use llrp_tree::Message;
use std::alloc::Global;
use std::io::{ErrorKind, Read};
use std::net::TcpStream;

/// The greatest number of reads of a client.
const MOST_READS: u64 = 9_223_372_036_854_775_807;

/// How many octets are read at once.
const READ_SIZE: usize = 4_096;

/// How a client was served.
#[derive(Clone, Copy)]
pub enum Served {
    /// Until it ended or the script ended the connection.
    Well,
    /// What this line of the script expects did not come.
    Unmet { line: u64 },
}

/// Whether a client is served on.
#[derive(Clone, Copy, PartialEq, Eq)]
enum Going {
    /// It is.
    On,
    /// The connection was closed.
    Closed,
    /// The client sends nothing more.
    Ended,
}

/// A connection, the reader at its one end, and what is still to happen.
#[derive(Drop)]
struct LiveClient<'a> {
    alloc: Global,
    clock: LiveClock<'a>,
    stream: &'a TcpStream,
    speech: Speech<'a>,
    reader: LiveReader,
    /// What the client sends, message by message, beside the reader.
    decoder: Decoder,
    /// What the reader says of such a message that is none.
    located: Located,
    schedule: Schedule,
    script: &'a LiveScript,
    stage: Stage,
    notices: Notices,
    expectations: Expectations,
}

/// Whether a read failed since time was over.
fn is_late(kind: ErrorKind) -> bool {
    matches!(kind, ErrorKind::TimedOut | ErrorKind::WouldBlock)
}

impl LiveClient<'_> {
    /// Sends what the reader said. The errors are `Memory` and `Write`.
    fn say(&mut self, now: u64, messages: &[Message]) -> Result<(), ToolErr> {
        for message in messages {
            if self.stage.started.is_none() && says_start(message) {
                self.stage.started = Some(now);
            }
            self.speech.add(message)?;
        }
        self.speech.send(now)
    }

    /// Lets an event happen to the reader.
    fn happen(&mut self, now: u64, event: ReaderIn) -> Result<(), ToolErr> {
        let mut said = Vec::new(self.alloc);
        self.reader.happen(now, event, &mut said)?;
        self.say(now, said.as_slice())
    }

    /// Lets something happen beside the reader's machine, of which the client hears if it is to.
    fn notify(&mut self, now: u64, event: SideEvent) -> Result<(), ToolErr> {
        let mut said = Vec::new(self.alloc);
        if self.notices.includes(event) {
            self.reader.notify(now, event, &mut said)?;
        }
        self.say(now, said.as_slice())
    }

    /// Expects a message of the client, counted from the moment of a line.
    fn expect(&mut self, now: u64, line: Line) -> Result<(), ToolErr> {
        if let Deed::Expect { kind, wait } = line.deed {
            let moment = moment_of(self.stage, line.when).unwrap_or(now);
            self.expectations.add(Expectation {
                kind,
                until: later(moment, wait),
                line: line.number,
            })?;
        }
        Ok(())
    }

    /// Sends the messages of a line.
    fn send_messages(&mut self, now: u64, line: u64) -> Result<(), ToolErr> {
        let script = self.script;
        for message in script.sent_by(line) {
            self.speech.add_as_it_is(message)?;
        }
        self.speech.send(now)
    }

    /// Does what a line says.
    fn act(&mut self, now: u64, line: Line) -> Result<Going, ToolErr> {
        match line.deed {
            Deed::Seen(sighting) => self.happen(now, ReaderIn::Seen(sighting))?,
            Deed::Tags(rounds) => {
                if let Some(sighting) = self.script.sighting(&rounds, line.turn()) {
                    self.happen(now, ReaderIn::Seen(sighting))?;
                }
            }
            Deed::Tick => self.happen(now, ReaderIn::Tick)?,
            Deed::Close => return Ok(Going::Closed),
            Deed::Silent { wait } => self.speech.fall_silent(later(now, wait)),
            Deed::Side(event) => self.notify(now, event)?,
            Deed::Expect { .. } => self.expect(now, line)?,
            Deed::Octets(short) => {
                let count = short.count.min(short.octets.len());
                self.speech.add_octets(&short.octets[..count])?;
                self.speech.send(now)?;
            }
            Deed::Send => self.send_messages(now, line.number)?,
            Deed::Cut { count } => self.speech.cut_next(count),
            Deed::Status { kind, status, text } => self.speech.add_status(kind, status, text)?,
        }
        Ok(Going::On)
    }

    /// Does what the lines of the script say that are due.
    fn act_due(&mut self, now: u64) -> Result<Going, ToolErr> {
        for _ in 0..u64::MAX {
            let Some(line) = self.schedule.take_due(now, self.stage) else {
                break;
            };
            if self.act(now, line)? == Going::Closed {
                return Ok(Going::Closed);
            }
        }
        Ok(Going::On)
    }

    /// Hears a message of the client to which the reader said this.
    fn hear(&mut self, item: &Item, said: &[Message]) {
        self.notices = self.notices.after(item, said);
        if let Item::Msg(message) = item {
            self.expectations.meet(message.kind());
        }
    }

    /// Takes octets of at most one frame of the client, which end with the item if there is one, and does
    /// what of the script is due then.
    fn take_part(&mut self, now: u64, octets: &[u8], item: Option<Item>) -> Result<Going, ToolErr> {
        let mut said = Vec::new(self.alloc);
        let fed = self.reader.feed(now, octets, &mut said);
        self.located.take(octets)?;
        if let Some(item) = item {
            said = self.located.end(&item, said)?;
            self.hear(&item, said.as_slice());
        }
        self.say(now, said.as_slice())?;
        if fed? {
            return Ok(Going::Closed);
        }
        self.stage.taken = self.reader.taken();
        self.act_due(now)
    }

    /// Takes octets of the client.
    fn take(&mut self, now: u64, piece: &[u8]) -> Result<Going, ToolErr> {
        let mut rest = piece;
        for _ in 0..piece.len() {
            if rest.is_empty() || self.speech.is_over() {
                break;
            }
            let Ok(Fed { used, item }) = self.decoder.feed(rest) else {
                return self.take_part(now, rest, None);
            };
            let (first, after) = rest.split_at(used);
            if self.take_part(now, first, item)? == Going::Closed {
                return Ok(Going::Closed);
            }
            rest = after;
        }
        Ok(Going::On)
    }

    /// When something more is due.
    fn next_moment(&self) -> Option<u64> {
        let by_script = sooner(
            self.schedule.next_moment(self.stage),
            self.expectations.soonest(),
        );
        let by_reader = sooner(self.reader.next_due(), self.speech.next_moment());
        sooner(by_script, by_reader)
    }

    /// Reads what comes before something more is due.
    fn read(&mut self, now: u64, buffer: &mut [u8]) -> Result<Going, ToolErr> {
        let wait = self.clock.wait_until(now, self.next_moment());
        if self.stream.set_read_timeout(Some(wait)).is_err() {
            return Err(ToolErr::Read);
        }
        let mut stream = self.stream;
        match stream.read(buffer) {
            Ok(0) => Ok(Going::Ended),
            Ok(n) => {
                let came = self.clock.now();
                if self.expectations.first_over(came).is_some() {
                    return Ok(Going::On);
                }
                self.take(came, &buffer[..n])
            }
            Err(error) if is_late(error.kind()) => Ok(Going::On),
            Err(_) => Err(ToolErr::Read),
        }
    }

    /// Lets time pass until now, and reads what comes before something more is due.
    fn turn(&mut self, buffer: &mut [u8]) -> Result<Going, ToolErr> {
        let now = self.clock.now();
        if self.act_due(now)? == Going::Closed {
            return Ok(Going::Closed);
        }
        self.happen(now, ReaderIn::Tick)?;
        if self.speech.is_over() {
            return Ok(Going::Closed);
        }
        self.read(now, buffer)
    }

    /// What of the script's expectations did not come when the connection has ended.
    fn served(&self) -> Served {
        match self.expectations.first_line() {
            Some(line) => Served::Unmet { line },
            None => Served::Well,
        }
    }

    /// How the client ended that sends nothing more.
    fn end(&self) -> Result<Served, ToolErr> {
        match self.reader.finish() {
            End::Clean => Ok(self.served()),
            End::Rest(_) => Err(ToolErr::Early),
            End::Broken | End::Dead => Err(ToolErr::Broken),
        }
    }

    /// Refuses another client, if one came, of which this one hears.
    fn refuse_others(&mut self, clients: &mut Clients<'_>) -> Result<(), ToolErr> {
        let now = self.clock.now();
        if clients.refuse(self.alloc, now) {
            self.notify(now, SideEvent::OtherClient)?;
        }
        Ok(())
    }

    /// Serves the client until it ends, and refuses others meanwhile.
    fn serve_to_end(&mut self, clients: &mut Clients<'_>) -> Result<Served, ToolErr> {
        self.happen(self.stage.accepted, ReaderIn::Connect)?;
        let mut buffer = [0u8; READ_SIZE];
        for _ in 0..MOST_READS {
            match self.turn(&mut buffer)? {
                Going::On => self.refuse_others(clients)?,
                Going::Closed => return Ok(self.served()),
                Going::Ended => return self.end(),
            }
            if let Some(line) = self.expectations.first_over(self.clock.now()) {
                return Ok(Served::Unmet { line });
            }
        }
        Err(ToolErr::Bound)
    }

    /// Serves the client until it ends, and sends it the rest of what was said.
    fn serve(&mut self, clients: &mut Clients<'_>) -> Result<Served, ToolErr> {
        if !self.speech.limit_writes() {
            return Err(ToolErr::Write);
        }
        let served = self.serve_to_end(clients)?;
        self.speech.finish(&self.clock)?;
        Ok(served)
    }
}

/// Serves the client at the other end of the stream, by this reader and a script from the beginning, and refuses other clients meanwhile. Returns how it was served, and the reader for the next
/// client.
pub fn serve_live(
    alloc: Global,
    clock: LiveClock<'_>,
    clients: &mut Clients<'_>,
    stream: &TcpStream,
    script: &LiveScript,
    answers: Answers,
    core: Reader,
) -> (Result<Served, ToolErr>, Reader) {
    let schedule = match Schedule::new(alloc, script.lines()) {
        Ok(schedule) => schedule,
        Err(_) => return (Err(ToolErr::Memory), core),
    };
    let mut client = LiveClient {
        alloc,
        clock,
        stream,
        speech: Speech::new(alloc, stream, clock.in_moments(PATIENCE)),
        reader: LiveReader::new(alloc, core, answers),
        decoder: Decoder::new_in(alloc, KindSet::Standard, LIMIT),
        located: Located::new(alloc, LIMIT),
        schedule,
        script,
        stage: Stage {
            taken: 0,
            accepted: clock.now(),
            started: None,
        },
        notices: Notices::none(),
        expectations: Expectations::new(alloc),
    };
    let served = client.serve(clients);
    (served, client.reader.into_reader())
}
