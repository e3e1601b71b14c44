//! A client that asks, and shows what comes, over the octets of its reader.

ghost use Rattle.std.specs.Prelude.{◌≡◌, ◌++◌, OnOk, IfErr, IfOk, [], true};
ghost use Rattle.llrp_stream.specs.Cuts.{IsFrame};
ghost use Rattle.llrp_stream.specs.Calls.Device.{CanWrite};
ghost use Rattle.llrp_ask.specs.Private.Conversations.{EndsShown, MayFail, still_lawful, TakesFrame, TakesFrames};

use crate::asking::Asking;
use crate::form::{Form, show};
use crate::next::{Next, next_in};
use llrp_listing::{ToolErr, Verdict};
use llrp_schema::KindSet;
use llrp_stream::Sink;
use llrp_tree::{FrameErr, MAX_LIMIT, decode_frame_in};
use std::alloc::Global;
use std::mem;

/// Whether all frames are messages, given whether those before are, and the verdict on the last one.
fn still_lawful(lawful: bool, verdict: Verdict) -> bool
    ensures { result ≡ still_lawful lawful verdict }
{
    match verdict {
        Verdict::Lawful => lawful,
        Verdict::Faulty => false,
    }
}

/// A client that asks, and what it has of a frame that is not whole.
#[derive(Drop)]
pub(crate) struct Conversation<'a> {
    alloc: Global,
    form: Form,
    pub(crate) asking: Asking<'a>,
    held: Vec<u8>,
    /// Whether each frame so far is a message.
    lawful: bool,
}

impl<'a> Conversation<'a> {
    /// A conversation of which nothing came.
    pub(crate) fn new(alloc: Global, form: Form, asking: Asking<'a>) -> Conversation<'a>
        ensures asking { result.asking ≡ asking.entry }
        ensures form { result.form ≡ form }
        ensures held { result.held.items ≡ [] }
        ensures lawful { result.lawful ≡ true }
    {
        Conversation {
            alloc,
            form,
            asking,
            held: Vec::new(alloc),
            lawful: true,
        }
    }

    /// Shows a frame, and hears its message.
    fn take_frame<P: Sink>(
        &mut self,
        frame: &[u8],
        out: &mut Vec<u8>,
        p: &mut P,
    ) -> Result<(), ToolErr>
        requires frame { IsFrame frame.now }
        requires sink { CanWrite (P.log p.old) }
        ensures took { OnOk result (TakesFrame frame.now self.old self.new out.old.items out.new.items
            (P.log p.old) (P.log p.new)) }
        ensures form { self.new.form ≡ self.old.form }
        ensures err { IfErr result MayFail }
    {
        let verdict = show(self.alloc, self.form, frame, p)?;
        self.lawful = still_lawful(self.lawful, verdict);
        match decode_frame_in(self.alloc, KindSet::Standard, frame, MAX_LIMIT) {
            Ok(message) => self.asking.hear(&message, out)?,
            Err(FrameErr::Bad(_)) => {}
            Err(FrameErr::Memory) => return Err(ToolErr::Memory),
        }
        Ok(())
    }

    /// Holds these octets.
    fn hold(&mut self, octets: &[u8]) -> Result<(), ToolErr>
        ensures held { OnOk result (self.new.held.items ≡ octets.now) }
        ensures asking { self.new.asking ≡ self.old.asking }
        ensures form { self.new.form ≡ self.old.form }
        ensures lawful { self.new.lawful ≡ self.old.lawful }
        ensures err { IfErr result MayFail }
    {
        self.held = octets.to_vec(self.alloc)?;
        Ok(())
    }

    /// Takes the frames that are whole in these octets, and holds the rest.
    fn take_all<P: Sink>(
        &mut self,
        octets: &[u8],
        out: &mut Vec<u8>,
        p: &mut P,
    ) -> Result<(), ToolErr>
        requires sink { CanWrite (P.log p.old) }
        ensures took { OnOk result (TakesFrames octets.now self.old self.new out.old.items
            out.new.items (P.log p.old) (P.log p.new)) }
        ensures form { self.new.form ≡ self.old.form }
        ensures err { IfErr result MayFail }
    {
        let mut rest = octets;
        'frames: loop {
            match next_in(rest) {
                Next::Frame(count) => {
                    let (frame, later) = rest.split_at(count);
                    self.take_frame(frame, out, p)?;
                    rest = later;
                }
                Next::Partial => return self.hold(rest),
                Next::Stop(error) => {
                    self.asking.fail(error);
                    return self.hold(rest);
                }
            }
        }
    }

    /// Takes the next octets that came.
    pub(crate) fn take<P: Sink>(
        &mut self,
        piece: &[u8],
        out: &mut Vec<u8>,
        p: &mut P,
    ) -> Result<(), ToolErr>
        requires sink { CanWrite (P.log p.old) }
        ensures took { OnOk result (TakesFrames (self.old.held.items ++ piece.now) self.old self.new
            out.old.items out.new.items (P.log p.old) (P.log p.new)) }
        ensures form { self.new.form ≡ self.old.form }
        ensures err { IfErr result MayFail }
    {
        let mut octets = mem::replace(&mut self.held, Vec::new(self.alloc));
        octets.extend_from_slice(piece)?;
        self.take_all(octets.as_slice(), out, p)
    }

    /// Shows the end of what came.
    pub(crate) fn end<P: Sink>(&self, p: &mut P) -> Result<Verdict, ToolErr>
        requires sink { CanWrite (P.log p.old) }
        ensures ok { IfOk result (λ verdict. EndsShown self.now (P.log p.old) (P.log p.new) verdict) }
        ensures err { IfErr result MayFail }
    {
        let verdict = show(self.alloc, self.form, self.held.as_slice(), p)?;
        if self.lawful {
            Ok(verdict)
        } else {
            Ok(Verdict::Faulty)
        }
    }
}
