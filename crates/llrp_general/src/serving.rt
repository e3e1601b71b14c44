//! A simulated reader of the whole standard that serves a client: it takes what comes in pieces of a
//! stream, and acts by a script.

ghost use Rattle.std.specs.Prelude.{◌≡◌, ◌≤◌, ◌++◌, IfErr, List, OnOk, length, ℕ};
ghost use Rattle.llrp_session.specs.Calls.NextClient.{for_next_client};
ghost use Rattle.llrp_tree.specs.Tree.{MessageTree};
ghost use Rattle.llrp_general.specs.Calls.Serving.{Setting, setting};
ghost use Rattle.llrp_general.specs.Private.Ending.{end_of as the_end_of};

use crate::acting::{due, happen_all};
use crate::located::Located;
use llrp_answers::Answers;
use llrp_endpoints::Script;
use llrp_listing::ToolErr;
use llrp_live::LiveReader;
use llrp_schema::KindSet;
use llrp_session::{Reader, ReaderIn, SideEvent};
use llrp_stream::{Decoder, End, Fed, FeedErr, Item};
use llrp_tree::Message;
use std::alloc::Global;

/// Whether a client is served on after a piece.
#[derive(Clone, Copy, Debug, PartialEq, Eq)]
pub(crate) enum Going {
    /// It is.
    On,
    /// It closed the connection.
    Closed,
    /// A length field is below 10.
    Broken,
}

/// A simulated reader of the whole standard, and its script.
#[derive(Drop)]
pub(crate) struct WholeReader {
    alloc: Global,
    reader: LiveReader,
    /// What the client sends, frame by frame, beside the reader.
    decoder: Decoder,
    located: Located,
    script: Script,
    /// How many entries are done.
    done: usize,
    /// The moment of the last entry done.
    moment: u64,
    ghost within: { done ≤ length script },
}

/// How a client is served on after an error of its decoder.
fn end_of(error: FeedErr) -> Result<Going, ToolErr>
    ensures { result ≡ the_end_of error }
{
    match error {
        FeedErr::Broken => Ok(Going::Broken),
        FeedErr::Memory | FeedErr::Dead => Err(ToolErr::Memory),
    }
}

impl WholeReader {
    ghost use Rattle.llrp_general.specs.Private.Standing.{Feeds, Fetches, Finishes, Holds, IsFresh, IsKept, Notes, Stands, Starts, Takes};
    ghost use Rattle.llrp_general.specs.Private.Due.{DoesDue};

    /// A reader before its client came, its script, and its answers to messages that the profile does
    /// not have. It takes no memory.
    pub(crate) fn new(alloc: Global, core: Reader, script: Script, answers: Answers) -> WholeReader
        ensures { IsFresh (setting core answers.pairs.items script) result }
    {
        script.entries();
        let limit = core.limit();
        WholeReader {
            alloc,
            reader: LiveReader::new(alloc, core, answers),
            decoder: Decoder::new_in(alloc, KindSet::Standard, limit),
            located: Located::new(alloc, limit),
            script,
            done: 0,
            moment: 0,
        }
    }

    /// The allocator.
    pub(crate) fn alloc(&self) -> Global {
        self.alloc
    }

    /// The moment of the last entry done, or 0 if none is.
    pub(crate) fn moment(&self) -> u64 {
        self.moment
    }

    /// The reader as its client leaves it to the next one.
    pub(crate) fn into_reader(self) -> Reader
        ensures { result ≡ for_next_client self.reader.core }
    {
        self.reader.into_reader()
    }

    /// Does the entries that are due after the frames that came to the reader.
    fn happen_due(&mut self, sent: &mut Vec<Message>) -> Result<(), ToolErr>
        ensures does { DoesDue self.old self.new sent.old.items sent.new.items result }
        ensures decoder { self.new.decoder ≡ self.old.decoder }
    {
        let left = &self.script.entries()[self.done..];
        let count = due(left, self.reader.taken());
        self.moment = happen_all(&mut self.reader, self.moment, &left[..count], sent)?;
        self.done += count;
        Ok(())
    }

    /// Lets the client connect at moment 0, and the entries happen that come before any frame. Appends
    /// what is sent. It is called once, before the first `feed`. The only error is `Memory`.
    pub(crate) fn start(&mut self, sent: &mut Vec<Message>) -> Result<(), ToolErr>
        ensures { Starts self.old self.new sent.old.items sent.new.items result }
    {
        self.reader.happen(0, ReaderIn::Connect, sent)?;
        self.happen_due(sent)
    }

    /// Says that another client came, which no client can turn off. Appends what is sent. The only error
    /// is `Memory`.
    pub(crate) fn note_other(&mut self, sent: &mut Vec<Message>) -> Result<(), ToolErr>
        ensures { Notes self.old self.new sent.old.items sent.new.items result }
    {
        self.reader
            .notify(self.moment, SideEvent::OtherClient, sent)?;
        Ok(())
    }

    /// Takes octets of a frame that does not end with them, to which nothing is sent. The only error is
    /// `Memory`.
    fn hold(&mut self, part: &[u8]) -> Result<(), ToolErr>
        ensures holds { Holds part.now self.old self.new result }
        ensures decoder { self.new.decoder ≡ self.old.decoder }
    {
        let mut said = Vec::new(self.alloc);
        match self.reader.feed(self.moment, part, &mut said) {
            Ok(_) => {}
            Err(_) => return Err(ToolErr::Memory),
        }
        self.located.take(part)?;
        Ok(())
    }

    /// Takes octets of a frame that ends with them as this item. Appends what is sent, and returns whether
    /// it closes the connection. The only error is `Memory`.
    fn fetch(&mut self, part: &[u8], item: &Item, sent: &mut Vec<Message>) -> Result<bool, ToolErr>
        ensures fetches { Fetches part.now item.now self.old self.new sent.old.items sent.new.items
            result }
        ensures kept { IsKept self.old self.new }
    {
        let mut said = Vec::new(self.alloc);
        let closes = match self.reader.feed(self.moment, part, &mut said) {
            Ok(closes) => closes,
            Err(_) => return Err(ToolErr::Memory),
        };
        self.located.take(part)?;
        let mut placed = self.located.end(item, said)?;
        sent.append(&mut placed)?;
        Ok(closes)
    }

    /// Takes octets of a frame that ends with them as this item, and then lets the entries happen that
    /// are due, unless it closes the connection. Appends what is sent, and returns whether it does. The
    /// only error is `Memory`.
    fn take(&mut self, part: &[u8], item: &Item, sent: &mut Vec<Message>) -> Result<bool, ToolErr>
        ensures takes { Takes part.now item.now self.old self.new sent.old.items sent.new.items
            result }
        ensures decoder { self.new.decoder ≡ self.old.decoder }
    {
        if self.fetch(part, item, sent)? {
            return Ok(true);
        }
        self.happen_due(sent)?;
        Ok(false)
    }

    /// Takes a piece of the client's octets, and appends what is sent. The only error is `Memory`.
    pub(crate) fn feed(&mut self, piece: &[u8], sent: &mut Vec<Message>) -> Result<Going, ToolErr>
        ensures { Feeds piece.now self.old self.new sent.old.items sent.new.items result }
    {
        let mut rest = piece;
        while !rest.is_empty() {
            let Fed { used, item } = match self.decoder.feed(rest) {
                Ok(fed) => fed,
                Err(error) => return end_of(error),
            };
            let (part, later) = rest.split_at(used);
            let Some(item) = item else {
                self.hold(rest)?;
                return Ok(Going::On);
            };
            if self.take(part, &item, sent)? {
                return Ok(Going::Closed);
            }
            rest = later;
        }
        Ok(Going::On)
    }

    /// How the input ends if no more octets follow. The error is `Early` within a frame.
    pub(crate) fn finish(&self) -> Result<(), ToolErr>
        ensures { (s : Setting) (others : ℕ) (bytes : List ℕ) (messages : List MessageTree)
            → Stands s others bytes messages self.now
            → Finishes s others bytes messages self.now result }
    {
        match self.decoder.finish() {
            End::Clean => Ok(()),
            End::Rest(_) => Err(ToolErr::Early),
            End::Broken => Err(ToolErr::Broken),
            End::Dead => Err(ToolErr::Memory),
        }
    }
}
