//! A client that operates on a tag, over the octets of its reader.

ghost use Rattle.std.specs.Prelude.{◌≡◌, ◌++◌, OnOk, IfOk, []};
ghost use Rattle.llrp_stream.specs.Cuts.{IsFrame};
ghost use Rattle.llrp_operations.specs.Calls.Course.{may_have_changed as may_change, stands as the_test};
ghost use Rattle.llrp_operations.specs.Private.Conversations as talks;

use crate::change::change_tag;
use crate::course::{Course, Saying, Stage, stands};
use crate::message::{hear_message, message_of};
use crate::parameters::SpecErr;
use crate::request::Request;
use crate::talk::Talked;
use llrp_ask::{Next, next_in};
use llrp_listing::ToolErr;
use llrp_schema::KindSet;
use llrp_tree::{FrameErr, MAX_LIMIT, Message, decode_frame_in, encode_into};
use std::alloc::Global;
use std::mem;

/// Appends the frame of what is said.
fn push_saying(
    alloc: Global,
    saying: Saying,
    request: Request<'_>,
    out: &mut Vec<u8>,
) -> Result<(), ToolErr>
    ensures { OnOk result (talks.AddsFrame request.entry saying out.old.items out.new.items) }
{
    let message = match message_of(alloc, saying, request) {
        Ok(message) => message,
        Err(SpecErr::Memory) => return Err(ToolErr::Memory),
        Err(_) => return Err(ToolErr::Bound),
    };
    match encode_into(alloc, &message, out, MAX_LIMIT) {
        Ok(()) => Ok(()),
        Err(_) => Err(ToolErr::Memory),
    }
}

/// Appends the frames of what is said, in order.
fn push_all(
    alloc: Global,
    said: &[Saying],
    request: Request<'_>,
    out: &mut Vec<u8>,
) -> Result<(), ToolErr>
    ensures { OnOk result (talks.AddsFrames request.entry said.now out.old.items out.new.items) }
{
    let mut rest = said;
    while let Some((saying, later)) = rest.split_first() {
        push_saying(alloc, *saying, request, out)?;
        rest = later;
    }
    Ok(())
}

/// A client that operates on a tag, and what it has of a frame that is not whole.
#[derive(Drop)]
pub(crate) struct Conversation<'a> {
    alloc: Global,
    request: Request<'a>,
    course: Course<'a>,
    /// The message that brought the results.
    report: Option<Message>,
    /// Why nothing more can come.
    cause: Option<ToolErr>,
    held: Vec<u8>,
}

impl<'a> Conversation<'a> {
    /// A conversation of which nothing came.
    pub(crate) fn new(alloc: Global, request: Request<'a>) -> Conversation<'a>
        ensures { talks.Begins request.entry result }
    {
        Conversation {
            alloc,
            request,
            course: Course::new(alloc, request.epc, change_tag(request.operations)),
            report: None,
            cause: None,
            held: Vec::new(alloc),
        }
    }

    /// How far it is.
    pub(crate) fn stage(&self) -> Stage
        ensures { result ≡ self.now.course.stage }
    {
        self.course.stage()
    }

    /// Whether the connection stands.
    pub(crate) fn stands(&self) -> bool
        ensures { result ≡ the_test self.now.course.stage }
    {
        stands(self.course.stage())
    }

    /// Whether the reader may have changed a tag by now.
    pub(crate) fn may_have_changed(&self) -> bool
        ensures { result ≡ may_change (talks.talk_of self.now).course }
    {
        self.course.may_have_changed()
    }

    /// Takes note that nothing more can come, for this reason.
    pub(crate) fn lose(&mut self, cause: ToolErr)
        ensures { talks.IsLostBy cause self.old self.new }
    {
        if self.cause.is_none() {
            self.cause = Some(cause);
        }
        self.course.lose();
    }

    /// Appends the frames of what was said.
    fn send(&self, said: &[Saying], out: &mut Vec<u8>) -> Result<(), ToolErr>
        ensures { OnOk result (talks.SendsSaid self.now said.now out.old.items out.new.items) }
    {
        let request = Request {
            epc: self.course.target(),
            ..self.request
        };
        push_all(self.alloc, said, request, out)
    }

    /// Keeps a message if it brought the results, which had not come before.
    fn keep(&mut self, had_results: bool, message: Message)
        ensures { talks.KeepsReport had_results message self.old self.new }
    {
        if !had_results && self.course.is_reported() {
            self.report = Some(message);
        }
    }

    /// Hears a message, and appends the frames of what is said then.
    fn hear(&mut self, message: Message, out: &mut Vec<u8>) -> Result<(), ToolErr>
        ensures { OnOk result (talks.TakesMessage message self.old self.new out.old.items
            out.new.items) }
    {
        let mut said = Vec::new(self.alloc);
        let had_results = self.course.is_reported();
        hear_message(
            self.alloc,
            &mut self.course,
            self.request.id,
            &message,
            &mut said,
        )?;
        self.keep(had_results, message);
        self.send(said.as_slice(), out)
    }

    /// Takes note that nothing more came in time, and appends the frames of what is said then.
    pub(crate) fn fall_silent(&mut self, out: &mut Vec<u8>) -> Result<(), ToolErr>
        ensures { OnOk result (talks.TakesSilence self.old self.new out.old.items out.new.items) }
    {
        let mut said = Vec::new(self.alloc);
        self.course.fall_silent(&mut said)?;
        self.send(said.as_slice(), out)
    }

    /// Takes a frame.
    fn take_frame(&mut self, frame: &[u8], out: &mut Vec<u8>) -> Result<(), ToolErr>
        requires { IsFrame frame.now }
        ensures { OnOk result (talks.TakesFrame frame.now self.old self.new out.old.items
            out.new.items) }
    {
        match decode_frame_in(self.alloc, KindSet::Standard, frame, MAX_LIMIT) {
            Ok(message) => self.hear(message, out),
            Err(FrameErr::Bad(_)) => Ok(()),
            Err(FrameErr::Memory) => Err(ToolErr::Memory),
        }
    }

    /// Holds these octets.
    fn hold(&mut self, octets: &[u8]) -> Result<(), ToolErr>
        ensures { OnOk result (talks.Holds octets.now self.old self.new) }
    {
        self.held = octets.to_vec(self.alloc)?;
        Ok(())
    }

    /// Takes the frames that are whole in these octets, and holds the rest.
    fn take_all(&mut self, octets: &[u8], out: &mut Vec<u8>) -> Result<(), ToolErr>
        ensures { OnOk result (talks.TakesFrames octets.now self.old self.new out.old.items
            out.new.items) }
    {
        let mut rest = octets;
        'frames: loop {
            match next_in(rest) {
                Next::Frame(count) => {
                    let (frame, later) = rest.split_at(count);
                    self.take_frame(frame, out)?;
                    rest = later;
                }
                Next::Partial => return self.hold(rest),
                Next::Stop(error) => {
                    self.lose(error);
                    return self.hold(rest);
                }
            }
        }
    }

    /// Takes the next octets that came.
    pub(crate) fn take(&mut self, piece: &[u8], out: &mut Vec<u8>) -> Result<(), ToolErr>
        ensures { OnOk result (talks.TakesFrames (self.old.held.items ++ piece.now) self.old
            self.new out.old.items out.new.items) }
    {
        let mut octets = mem::replace(&mut self.held, Vec::new(self.alloc));
        octets.extend_from_slice(piece)?;
        self.take_all(octets.as_slice(), out)
    }

    /// What came of it.
    pub(crate) fn end(self) -> Talked
        ensures { talks.EndsAs self.entry result }
    {
        Talked {
            outcome: self.course.outcome(),
            may_have_changed: self.course.may_have_changed(),
            report: self.report,
            seen: self.course.into_seen(),
            cause: self.cause.unwrap_or(ToolErr::Read),
        }
    }
}
