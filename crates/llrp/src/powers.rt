//! What `watch --power` asks its reader before the plan begins.

ghost use Rattle.std.specs.Prelude.{◌≡◌, ◌≤◌, IfOk, IfSome, None, OnOk, length};
ghost use Rattle.llrp_words.specs.Calls.Arguments.{IsLongest};
ghost use Rattle.llrp_stream.specs.Calls.Device.{new_source};
ghost use Rattle.llrp_stream.specs.Device.{IsFreshSink, IsFreshSource};

use llrp_ask::{Asking, Phase, Step, Wait, steps_of};
use llrp_listing::{Pieces, ToolErr, hand_on};
use llrp_power::{Offer, offer_in};
use llrp_schema::{KindSet, MsgKind};
use llrp_stream::{Decoder, Fed, FeedErr, Item, Sink, Source};
use llrp_tree::{MAX_LIMIT, Message, Reason, encode_into};
use std::alloc::Global;
use std::mem;

/// The message that asks for the regulatory capabilities (LLRP 1.1, section 9). The id is one of the
/// greatest, to which the plan of `watch` does not come.
const REQUEST: &[u8] = b"0 GET_READER_CAPABILITIES 1 4294967292 3\n";

/// What a reader offers, and what it said that the plan has to hear.
#[derive(Drop)]
pub struct Asked {
    pub offer: Offer,
    /// The message by which it accepted the connection, and what came after the answer.
    pub octets: Vec<u8>,
}

/// A client that asks.
#[derive(Drop)]
struct Question<'a> {
    alloc: Global,
    /// The most power that is wanted, as a level.
    most: u16,
    asking: Asking<'a>,
    decoder: Decoder,
    /// The message by which the reader accepted the connection.
    acceptance: Vec<u8>,
}

/// The steps of a client that sends the request.
fn request_steps(alloc: Global) -> Result<Vec<Step>, ToolErr> {
    match steps_of(alloc, REQUEST, false) {
        Ok(steps) => Ok(steps),
        Err(_) => Err(ToolErr::Memory),
    }
}

/// Whether the reader has not accepted the connection yet.
fn awaits_acceptance(phase: Phase) -> bool {
    matches!(phase, Phase::Waits(Wait::Acceptance))
}

/// The error of a decoder that goes no further.
fn error_of(error: FeedErr) -> ToolErr {
    match error {
        FeedErr::Broken => ToolErr::Broken,
        FeedErr::Memory | FeedErr::Dead => ToolErr::Memory,
    }
}

impl Question<'_> {
    /// Keeps the message by which the reader accepted the connection.
    fn keep(&mut self, message: &Message) -> Result<(), ToolErr> {
        match encode_into(self.alloc, message, &mut self.acceptance, MAX_LIMIT) {
            Ok(()) => Ok(()),
            Err(_) => Err(ToolErr::Memory),
        }
    }

    /// What the reader offers in its answer. The error is `Strange` if that is an ERROR_MESSAGE.
    fn answer(&self, message: &Message) -> Result<Option<Offer>, ToolErr> {
        match message.kind() {
            MsgKind::WholeGetReaderCapabilitiesResponse => {
                Ok(Some(offer_in(self.alloc, message, self.most)?))
            }
            _ => Err(ToolErr::Strange),
        }
    }

    /// Takes a message, and appends what is said then; nothing to the answer, after which the plan begins.
    /// Returns what the reader offers, if this is the answer. The error is `Peer` if the reader refuses the
    /// connection or the request.
    fn hear(&mut self, message: &Message, said: &mut Vec<u8>) -> Result<Option<Offer>, ToolErr> {
        let before = self.asking.phase();
        let mut more = Vec::new(self.alloc);
        self.asking.hear(message, &mut more)?;
        if let Some(status) = self.asking.refused() {
            return Err(ToolErr::Peer(status));
        }
        let after = self.asking.phase();
        if let Phase::Failed(error) = after {
            return Err(error);
        }
        if before != after && awaits_acceptance(before) {
            self.keep(message)?;
        } else if before != after {
            return self.answer(message);
        }
        said.extend_from_slice(more.as_slice())?;
        Ok(None)
    }

    /// Whether a frame that is no message ends the connection: before the reader has accepted it, unless
    /// it is of a type that the tables do not have.
    fn ends_by(&self, reason: Reason) -> bool {
        let is_unknown = matches!(reason, Reason::MessageType | Reason::ParamType);
        awaits_acceptance(self.asking.phase()) && !is_unknown
    }

    /// Takes the message of a frame, or its fault.
    fn take(&mut self, item: Item, said: &mut Vec<u8>) -> Result<Option<Offer>, ToolErr> {
        match item {
            Item::Msg(message) => self.hear(&message, said),
            Item::Bad { fault, .. } if self.ends_by(fault.reason) => Err(ToolErr::Strange),
            Item::Bad { .. } => Ok(None),
        }
    }

    /// Takes the next octets that came, and appends what is said to them. Returns the answer, and how
    /// many octets follow it.
    fn take_piece(
        &mut self,
        piece: &[u8],
        said: &mut Vec<u8>,
    ) -> Result<Option<(Offer, usize)>, ToolErr>
        ensures { IfOk result (λ found. IfSome found (λ answer. answer.1 ≤ length piece.now)) }
    {
        let mut rest = piece;
        'frames: while !rest.is_empty() {
            let Fed { used, item } = match self.decoder.feed(rest) {
                Ok(fed) => fed,
                Err(error) => return Err(error_of(error)),
            };
            let Some(item) = item else {
                return Ok(None);
            };
            rest = rest.split_at(used).1;
            if let Some(offer) = self.take(item, said)? {
                return Ok(Some((offer, rest.len())));
            }
        }
        Ok(None)
    }

    /// Takes what comes until the answer is there.
    fn converse<R: Source, W: Sink>(
        &mut self,
        source: &mut R,
        sink: &mut W,
    ) -> Result<Asked, ToolErr>
        requires source { R.log source.old ≡ new_source None }
        requires sink { IsFreshSink (W.log sink.old) }
        ensures source { OnOk result (IsFreshSource (R.log source.new)) }
        ensures sink { OnOk result (IsFreshSink (W.log sink.new)) }
    {
        let mut pieces = Pieces::new();
        let mut said = Vec::new(self.alloc);
        while let Some(piece) = pieces.next(source)? {
            let found = self.take_piece(piece, &mut said)?;
            hand_on(&mut said, sink)?;
            if let Some((offer, later)) = found {
                let mut octets = mem::replace(&mut self.acceptance, Vec::new(self.alloc));
                octets.extend_from_slice(piece.split_at(piece.len() - later).1)?;
                return Ok(Asked { offer, octets });
            }
        }
        Err(ToolErr::Early)
    }
}

/// Asks the reader whose octets the source gives what it offers to a client that wants at most this power, as
/// a level, once it has accepted the connection. KEEPALIVEs are answered meanwhile.
///
/// The errors are `Peer` if it refuses the connection or the request, `Read`, `Write`, `Memory`, `Early`
/// if the source ends, `Broken` for a length field below 10, `Strange` for an answer without capabilities
/// or a faulty frame before it has accepted, and `Bound` after 1,000,000 reads.
pub fn ask_offer<R: Source, W: Sink>(
    alloc: Global,
    limit: u32,
    most: u16,
    source: &mut R,
    sink: &mut W,
) -> Result<Asked, ToolErr>
    requires limit { IsLongest limit }
    requires source { R.log source.old ≡ new_source None }
    requires sink { IsFreshSink (W.log sink.old) }
    ensures source { OnOk result (IsFreshSource (R.log source.new)) }
    ensures sink { OnOk result (IsFreshSink (W.log sink.new)) }
{
    let steps = request_steps(alloc)?;
    let mut question = Question {
        alloc,
        most,
        asking: Asking::new(steps.as_slice(), false),
        decoder: Decoder::new_in(alloc, KindSet::Standard, limit),
        acceptance: Vec::new(alloc),
    };
    question.converse(source, sink)
}
