//! A reader and a client beside the two ends of a connection, which take the same messages: the state of the
//! plan's ROSpec in both, while the bytes go up one octet at a time.

use crate::pieces::Way;
use crate::tally::Tally;
use llrp_session::{Client, Command, Reader, ReaderIn, RoState};
use llrp_stream::{Decoder, Item};
use llrp_tool::{Gathering, LIMIT, Script, Serving, standard_plan};
use llrp_tree::{Message, MsgKind, ParamKind};
use std::alloc::Global;
use std::marker::Model;
use test_devices::THREE_SIGHTINGS;

/// The ROSpecID of the plan's ROSpec.
const ROSPEC: u32 = 1;

/// A simulated reader that has started to serve.
#[derive(Drop)]
struct Started {
    serving: Serving,
}

impl Model for Started {
    ghost use Rattle.llrp_endpoints.specs.Calls.ServingStands.{HasStarted};

    ghost Value = { Unit {0} };

    ghost view = { λ s. tt };

    ghost invariant = { λ s. HasStarted s.serving };
}

impl Started {
    /// Starts to serve by the script; what the reader says first is appended.
    fn new(alloc: Global, down: &mut Vec<u8>) -> Option<Started> {
        let script = Script::parse(alloc, THREE_SIGHTINGS).ok()?;
        let mut serving = Serving::new(alloc, Reader::new(alloc, LIMIT, 1), script);
        match serving.start(down) {
            Ok(()) => Some(Started { serving }),
            Err(_) => None,
        }
    }

    fn feed(&mut self, piece: &[u8], down: &mut Vec<u8>) -> Option<bool> {
        self.serving.feed(piece, down).ok()
    }
}

/// The messages that are whole with these bytes.
fn messages(alloc: Global, decoder: &mut Decoder, bytes: &[u8]) -> Option<Vec<Message>> {
    let mut found = Vec::new(alloc);
    let mut rest = bytes;
    for _ in 0..=bytes.len() {
        if rest.is_empty() {
            break;
        }
        let fed = decoder.feed(rest).ok()?;
        rest = rest.split_at(fed.used).1;
        match fed.item {
            Some(Item::Msg(message)) => found.push(message).ok()?,
            Some(Item::Bad { .. }) => return None,
            None => {}
        }
    }
    Some(found)
}

/// A reader and a client, and the bytes of frames that are not whole yet.
#[derive(Drop)]
struct Beside {
    alloc: Global,
    reader: Reader,
    client: Client,
    up: Decoder,
    down: Decoder,
    sent: Decoder,
}

impl Beside {
    /// A reader that is connected, and a client as new.
    fn new(alloc: Global) -> Option<Beside> {
        let mut reader = Reader::new(alloc, LIMIT, 1);
        let mut out = Vec::new(alloc);
        reader.step(0, ReaderIn::Connect, &mut out).ok()?;
        Some(Beside {
            alloc,
            reader,
            client: Client::new(alloc, LIMIT, 1),
            up: Decoder::new(alloc, LIMIT),
            down: Decoder::new(alloc, LIMIT),
            sent: Decoder::new(alloc, LIMIT),
        })
    }

    /// The reader takes the messages that are whole with these bytes.
    fn take_up(&mut self, bytes: &[u8]) -> Option<()> {
        for message in messages(self.alloc, &mut self.up, bytes)? {
            let mut out = Vec::new(self.alloc);
            self.reader.step(0, ReaderIn::Take(message), &mut out).ok()?;
        }
        Some(())
    }

    /// The client takes the messages that are whole with these bytes.
    fn take_down(&mut self, bytes: &[u8]) -> Option<()> {
        for message in messages(self.alloc, &mut self.down, bytes)? {
            let mut out = Vec::new(self.alloc);
            self.client.take(message, &mut out).ok()?;
        }
        Some(())
    }

    /// The client is given the commands whose messages these bytes are.
    fn command(&mut self, bytes: &[u8]) -> Option<()> {
        for message in messages(self.alloc, &mut self.sent, bytes)? {
            give(self.alloc, &mut self.client, &message)?;
        }
        Some(())
    }

    /// Whether the client's view of the ROSpec is its state.
    fn is_seen(&self) -> bool {
        self.client.view(ROSPEC) == self.reader.state_of(ROSPEC)
    }
}

/// Gives a client the command that has this message.
fn give(alloc: Global, client: &mut Client, message: &Message) -> Option<()> {
    let mut out = Vec::new(alloc);
    let id = ROSPEC;
    let given = match message.kind() {
        MsgKind::AddRoSpec => {
            let spec = message
                .children()
                .as_slice()
                .first()?
                .try_clone(alloc)
                .ok()?;
            if spec.kind() != ParamKind::RoSpec {
                return None;
            }
            client.command(Command::Add { spec }, &mut out)
        }
        MsgKind::EnableRoSpec => client.command(Command::Enable { id }, &mut out),
        MsgKind::StartRoSpec => client.command(Command::Start { id }, &mut out),
        MsgKind::GetReport => client.command(Command::GetReport, &mut out),
        MsgKind::StopRoSpec => client.command(Command::Stop { id }, &mut out),
        MsgKind::DeleteRoSpec => client.command(Command::Delete { id }, &mut out),
        MsgKind::CloseConnection => client.command(Command::Close, &mut out),
        _ => return None,
    };
    given.ok()
}

/// The two ends, the bytes on both ways, and the reader and client beside them.
#[derive(Drop)]
struct Ends {
    serving: Started,
    gathering: Gathering,
    up: Way,
    down: Way,
    lines: Vec<u8>,
    beside: Beside,
}

impl Ends {
    fn new(alloc: Global) -> Option<Ends> {
        let mut down = Way::new(alloc);
        let serving = Started::new(alloc, down.bytes())?;
        let plan = standard_plan(alloc, 2, 1).ok()?;
        Some(Ends {
            serving,
            gathering: Gathering::new(alloc, plan, LIMIT),
            up: Way::new(alloc),
            down,
            lines: Vec::new(alloc),
            beside: Beside::new(alloc)?,
        })
    }

    /// Delivers an octet upwards.
    fn deliver_up(&mut self) -> Option<()> {
        let piece = self.up.next(1);
        self.serving.feed(piece, self.down.bytes())?;
        self.beside.take_up(piece)
    }

    /// Delivers all that is on the way downwards, and returns whether the client came to its end.
    fn deliver_down(&mut self) -> Option<bool> {
        let before = self.up.count();
        let piece = self.down.next(usize::MAX);
        let ended = self
            .gathering
            .feed(piece, self.up.bytes(), &mut self.lines)
            .ok()?;
        self.beside.take_down(piece)?;
        self.beside.command(self.up.from(before))?;
        Some(ended)
    }
}

/// Whether the ROSpec is Disabled and not seen yet where the reader has taken ADD_ROSPEC, and nothing came
/// down but the message of the connection.
fn is_added_unseen(ends: &mut Ends) -> Option<bool> {
    ends.deliver_down()?;
    for _ in 0..1000 {
        if ends.beside.reader.state_of(ROSPEC).is_some() {
            break;
        }
        ends.deliver_up()?;
    }
    let state = ends.beside.reader.state_of(ROSPEC);
    Some(state == Some(RoState::Disabled) && ends.beside.client.view(ROSPEC).is_none())
}

/// Whether the client sees the reader's state after each later delivery downwards, to its end.
fn is_seen_to_the_end(ends: &mut Ends) -> Option<bool> {
    for _ in 0..100 {
        let ended = ends.deliver_down()?;
        if !ends.beside.is_seen() {
            return Some(false);
        }
        if ended {
            return Some(true);
        }
        for _ in 0..100 {
            ends.deliver_up()?;
        }
    }
    Some(false)
}

/// What the client sees of the ROSpec while the bytes go up one octet at a time.
pub fn seen(alloc: Global) -> Tally {
    let mut tally = Tally::new();
    let Some(mut ends) = Ends::new(alloc) else {
        tally.count(false);
        return tally;
    };
    tally.count(is_added_unseen(&mut ends) == Some(true));
    tally.count(is_seen_to_the_end(&mut ends) == Some(true));
    tally
}
