//! A client that asks: which octets it sends, and what it waits for.

ghost use Rattle.std.specs.Prelude.{◌≡◌, [], OnOk, List, ℕ};
ghost use Rattle.llrp_ask.specs.Calls.Answers.{answer_of};
ghost use Rattle.llrp_ask.specs.Calls.Asking.{answered, closes, acknowledge, fail, first_course, hear, leave, refused_by, settled, silent_in, take_next};
ghost use Rattle.llrp_ask.specs.Calls.Courses.{course_of};

use crate::find::{attempt_in, is_message, status_below};
use crate::step::{Step, Wait};
use llrp_listing::ToolErr;
use llrp_tree::{Message, MsgKind, ParamKind};
use std::alloc::AllocError;

/// The id of the CLOSE_CONNECTION that no file has to have.
const CLOSING_ID: u32 = 4_294_967_295;

/// How far a client is.
#[derive(Clone, Copy, Debug, PartialEq, Eq)]
pub enum Phase {
    /// It waits for this.
    Waits(Wait),
    /// Its connection is closed as it was meant to be.
    Ended,
    /// It ended by this error.
    Failed(ToolErr),
}

/// A client that takes steps, one after another. Contracts see it with the octets that it has sent.
#[derive(Drop)]
pub struct Asking<'a> {
    left: &'a [Step],
    phase: Phase,
    head: u8,
    closing: bool,
    refused: Option<u16>,
    goes_on: bool,
    /// What it waits for was not reported yet.
    is_new: bool,
}

/// Whether a step after which this is waited for closes the connection.
fn closes_connection(wait: Option<Wait>) -> bool
    ensures { result ≡ closes wait }
{
    match wait {
        Some(
            Wait::Answer {
                kind: MsgKind::WholeCloseConnectionResponse,
                ..
            },
        ) => true,
        _ => false,
    }
}

/// The status with which a message answers what is waited for, if it does.
fn answer(wait: Wait, message: &Message) -> Option<u16>
    ensures { result ≡ answer_of wait message.now }
{
    let below = message.children().as_slice();
    match wait {
        Wait::Acceptance => attempt_in(below),
        Wait::Answer { kind, id } => {
            if message.id() != id {
                return None;
            }
            if !is_message(message, kind) && !is_message(message, MsgKind::WholeErrorMessage) {
                return None;
            }
            Some(status_below(below, ParamKind::WholeLlrpStatus).unwrap_or(0))
        }
        Wait::Pause { .. } => None,
    }
}

impl<'a> Asking<'a> {
    /// A client that is connected, and takes these steps once the reader has accepted it. A status
    /// other than 0 ends it, or else is kept and it goes on.
    pub fn new(steps: &'a [Step], goes_on: bool) -> Asking<'a>
        ensures { course_of result [] ≡ first_course goes_on steps.now }
    {
        Asking {
            left: steps,
            phase: Phase::Waits(Wait::Acceptance),
            head: 4,
            closing: false,
            refused: None,
            goes_on,
            is_new: true,
        }
    }

    /// How far it is.
    pub fn phase(&self) -> Phase
        ensures { result ≡ self.now.phase }
    {
        self.phase
    }

    /// What it waits for, the first time that this is asked.
    pub(crate) fn new_wait(&mut self) -> Option<Wait>
        ensures { (sent : List ℕ) → course_of self.new sent ≡ course_of self.old sent }
    {
        if !self.is_new {
            return None;
        }
        self.is_new = false;
        match self.phase {
            Phase::Waits(wait) => Some(wait),
            Phase::Ended | Phase::Failed(_) => None,
        }
    }

    /// The first status other than 0 that came.
    pub fn refused(&self) -> Option<u16>
        ensures { result ≡ self.now.refused }
    {
        self.refused
    }

    /// Says CLOSE_CONNECTION, or has ended if that was sent.
    fn leave(&mut self, out: &mut Vec<u8>) -> Result<(), AllocError>
        ensures { OnOk result (course_of self.new out.new.items ≡ leave (course_of self.old out.old.items)) }
    {
        self.left = &[];
        if self.closing {
            self.phase = Phase::Ended;
            return Ok(());
        }
        out.extend_from_slice(&[self.head, 14, 0, 0, 0, 10, 255, 255, 255, 255])?;
        self.closing = true;
        self.is_new = true;
        self.phase = Phase::Waits(Wait::Answer {
            kind: MsgKind::WholeCloseConnectionResponse,
            id: CLOSING_ID,
        });
        Ok(())
    }

    /// Takes steps until one waits for something.
    fn take_next(&mut self, out: &mut Vec<u8>) -> Result<(), AllocError>
        ensures { OnOk result (course_of self.new out.new.items ≡ take_next (course_of self.old out.old.items)) }
    {
        while let Some((step, left)) = self.left.split_first() {
            self.left = left;
            out.extend_from_slice(step.octets.as_slice())?;
            self.closing = self.closing || closes_connection(step.wait);
            if let Some(wait) = step.wait {
                self.is_new = true;
                self.phase = Phase::Waits(wait);
                return Ok(());
            }
        }
        self.leave(out)
    }

    /// Keeps the first status other than 0, and drops the steps that are left unless it goes on.
    fn refuse(&mut self, status: u16)
        ensures { (sent : List ℕ) → course_of self.new sent ≡ refused_by status (course_of self.old sent) }
    {
        if self.refused.is_none() {
            self.refused = Some(status);
        }
        if !self.goes_on {
            self.left = &[];
        }
    }

    /// Goes on after the reader said with a status whether it accepts the connection.
    fn accept(&mut self, status: u16, out: &mut Vec<u8>) -> Result<(), AllocError>
        ensures { OnOk result (course_of self.new out.new.items ≡ answered Wait.Acceptance status (course_of self.old out.old.items)) }
    {
        if status == 0 {
            return self.take_next(out);
        }
        self.phase = Phase::Failed(ToolErr::Peer(status));
        Ok(())
    }

    /// Goes on after an answer with a status.
    fn settle(&mut self, status: u16, out: &mut Vec<u8>) -> Result<(), AllocError>
        ensures { OnOk result (course_of self.new out.new.items ≡ settled status (course_of self.old out.old.items)) }
    {
        if status == 0 {
            return self.take_next(out);
        }
        self.refuse(status);
        self.take_next(out)
    }

    /// Goes on after what was waited for came with a status.
    fn go_on(&mut self, wait: Wait, status: u16, out: &mut Vec<u8>) -> Result<(), AllocError>
        ensures { OnOk result (course_of self.new out.new.items ≡ answered wait status (course_of self.old out.old.items)) }
    {
        match wait {
            Wait::Acceptance => self.accept(status, out),
            Wait::Answer { .. } => self.settle(status, out),
            Wait::Pause { .. } => Ok(()),
        }
    }

    /// Appends the answer to a KEEPALIVE.
    fn acknowledge(&mut self, id: u32, out: &mut Vec<u8>) -> Result<(), AllocError>
        ensures { OnOk result (course_of self.new out.new.items ≡ acknowledge self.old.phase id (course_of self.old out.old.items)) }
    {
        if let Phase::Waits(_) = self.phase {
            out.extend_from_slice(&[self.head, 72, 0, 0, 0, 10])?;
            out.extend_from_slice(&id.to_be_bytes())?;
        }
        Ok(())
    }

    /// Takes a message that came, and appends the octets that are sent then. The error is that memory
    /// ran out, after which the client takes nothing more.
    pub fn hear(&mut self, message: &Message, out: &mut Vec<u8>) -> Result<(), AllocError>
        ensures { OnOk result (course_of self.new out.new.items ≡ hear message.now (course_of self.old out.old.items)) }
    {
        message.lawful();
        self.head = 4 * message.version();
        if is_message(message, MsgKind::WholeKeepalive) {
            return self.acknowledge(message.id(), out);
        }
        let Phase::Waits(wait) = self.phase else {
            return Ok(());
        };
        match answer(wait, message) {
            Some(status) => self.go_on(wait, status, out),
            None => Ok(()),
        }
    }

    /// Takes note that nothing more came in time, and appends the octets that are sent then. The error
    /// is that of `hear`.
    pub fn fall_silent(&mut self, out: &mut Vec<u8>) -> Result<(), AllocError>
        ensures { OnOk result (course_of self.new out.new.items ≡ silent_in self.old.phase (course_of self.old out.old.items)) }
    {
        match self.phase {
            Phase::Waits(Wait::Pause { .. }) => self.take_next(out),
            Phase::Waits(
                Wait::Answer {
                    kind: MsgKind::WholeCustomMessage,
                    ..
                },
            ) => self.take_next(out),
            Phase::Waits(_) => {
                self.phase = Phase::Failed(ToolErr::Read);
                Ok(())
            }
            Phase::Ended | Phase::Failed(_) => Ok(()),
        }
    }

    /// Takes note that nothing more can come, for this reason.
    pub fn fail(&mut self, error: ToolErr)
        ensures { (sent : List ℕ) → course_of self.new sent ≡ fail self.old.phase error (course_of self.old sent) }
    {
        if let Phase::Waits(_) = self.phase {
            self.phase = Phase::Failed(error);
        }
    }
}
