//! A client that follows a plan: it takes what its reader sends in pieces of a stream, sends the
//! plan's commands, and writes a line for each reported tag.

ghost use Rattle.std.specs.Prelude.{◌≡◌, ◌≤◌, List, Ok, Err, ℕ};
ghost use Rattle.llrp_tree.specs.declared.TheConstants.{MAX_LIMIT};
ghost use Rattle.llrp_tree.specs.Tree.{Tree};
ghost use Rattle.llrp_listing.specs.declared.outcome.ToolErr.{ToolErr as Error};
ghost use Rattle.llrp_endpoints.specs.Gathering.{Course};
ghost use Rattle.llrp_endpoints.specs.Private.GatheringStands.{error_by_command, error_by_message, leads_on};
ghost use Rattle.llrp_endpoints.specs.Calls.GatheringStands.{phase_left};

pub(crate) mod objects;
mod odd;
mod remaining;
pub(crate) mod tag_lines;

use crate::asides::{AsideMessages, aside_before, aside_messages, said_for};
use crate::course::{Awaits, Phase, Step};
use crate::form::LineForm;
use crate::frames::append_frames;
use crate::hearing::{Hearing, heard_message};
use crate::plan::Plan;
use crate::summary::Summary;
use llrp_listing::{ToolErr, error_of};
use llrp_session::{Client, CmdFault, TakeFault, Taken};
use llrp_stream::{Decoder, Fed, Item};
use llrp_tree::{Message, Nodes, Reason};
use odd::{is_other, is_pending, is_ready};
use remaining::{RemainingCommands, awaited_after};
use std::alloc::Global;
use std::mem;
use tag_lines::{report_lines, total_line};

/// A client that follows a plan. It is given its reader's bytes as they come, and appends the bytes
/// that the client sends and the lines of reported tags.
#[derive(Drop)]
pub struct Gathering {
    alloc: Global,
    client: Client,
    decoder: Decoder,
    form: LineForm,
    asides: Option<AsideMessages>,
    /// What is said in place of ADD_ROSPEC.
    whole: Option<Message>,
    hearing: Hearing,
    left: RemainingCommands,
    awaits: Awaits,
    summary: Summary,
    phase: Phase,
    passed: u64,
}

impl Gathering {
    ghost use Rattle.std.specs.Prelude.{[], ◌&&◌, IfOk, false, true};
    ghost use Rattle.llrp_tree.specs.declared.fault.Fault.{Fault};
    ghost use Rattle.llrp_endpoints.specs.declared.course.Phase.TheVariants.{Open};
    ghost use Rattle.llrp_endpoints.specs.Gathering.{after, after_item, hurried, is_odd, new_course, send_next};
    ghost use Rattle.llrp_endpoints.specs.Calls.GatheringStands.{Counts, FeedsPiece, FeedsPieceFrom, HasFailed, Holds, Hurries, IsClosed, IsConnected, IsLeftBy, IsOpen};
    ghost use Rattle.llrp_endpoints.specs.Private.GatheringStands.{Does, GoesTo, KeepsOthers, TakesBad, TakesItem, TakesPiece};
    ghost use Rattle.llrp_endpoints.specs.TagLines.{summary_of};

    /// A client at the beginning of a plan. Its first message id is 1, and no frame may be longer
    /// than `limit` octets. It takes no memory.
    pub fn new(alloc: Global, plan: Plan, limit: u32) -> Gathering
        requires least { 4096 ≤ limit }
        requires most { limit ≤ MAX_LIMIT }
        ensures { IsOpen limit plan [] [] (new_course limit plan) result }
    {
        let mut plan = plan;
        let (asides, whole) = plan.take_asides();
        Gathering {
            alloc,
            client: Client::new(alloc, limit, 1),
            decoder: Decoder::new_in(alloc, plan.kind_set(), limit),
            form: plan.form(),
            asides,
            whole,
            hearing: plan.hearing(),
            left: RemainingCommands::all(plan),
            awaits: Awaits::Answer,
            summary: Summary::empty(),
            phase: Phase::Open,
            passed: 0,
        }
    }

    /// How many tags and reports came so far.
    pub(crate) fn summary(&self) -> Summary
        ensures { (reports : List (List Tree)) → Counts reports self.now
            → result ≡ summary_of reports }
    {
        self.summary
    }

    /// How many frames and messages were passed over, as odd.
    pub fn passed_over(&self) -> u64
        ensures { result ≡ self.now.passed }
    {
        self.passed
    }

    /// Whether a message is passed over.
    fn passes(&self, message: &Message) -> bool
        ensures { result ≡ (self.now.hearing.passes && is_odd self.now.client
            (Item.Msg message.now)) }
    {
        self.hearing.passes && is_ready(self.client.phase()) && is_other(message)
    }

    /// Whether a frame with a fault and this id is passed over.
    fn passes_frame(&self, id: u32) -> bool
        ensures { (fault : Fault) → result ≡ (self.now.hearing.passes && is_odd self.now.client
            (Item.Bad id fault)) }
    {
        let pending = self.client.pending();
        self.hearing.passes && is_ready(self.client.phase()) && !is_pending(id, pending)
    }

    /// Counts what is passed over.
    fn pass_over(&mut self)
        ensures holds { (c : Course) → Holds c self.old → Holds c self.new }
        ensures others { KeepsOthers self.old self.new }
    {
        self.passed = self.passed.saturating_add(1);
    }

    /// Takes the next step, if one is left.
    fn go_on(&mut self, out: &mut Vec<u8>) -> Result<bool, ToolErr>
        ensures does { (c : Course) (r : List ℕ) → Holds c self.old → c.phase ≡ Open
            → Does c (send_next c) self.new out.old.items out.new.items r r result }
        ensures open { IfOk result (λ closed. closed ≡ false) }
        ensures others { KeepsOthers self.old self.new }
    {
        let Some(step) = self.left.next() else {
            return Ok(false);
        };
        self.awaits = awaited_after(&step);
        let Step::Send(command) = step else {
            return Ok(false);
        };
        let aside = aside_before(&command);
        let mut messages = Vec::new(self.alloc);
        if let Err(refusal) = self.client.command(command, &mut messages) {
            return Err(command_error(refusal.fault));
        }
        let asides = aside_messages(&self.asides, aside);
        append_frames(self.alloc, asides, out)?;
        let said = said_for(self.alloc, &self.whole, messages)?;
        append_frames(self.alloc, said.as_slice(), out)?;
        Ok(false)
    }

    /// Appends the lines of a report, and goes on with the plan if a report was awaited.
    fn report(
        &mut self,
        tags: &Nodes,
        out: &mut Vec<u8>,
        report: &mut Vec<u8>,
    ) -> Result<bool, ToolErr>
        ensures does { GoesTo (after (Taken.Tags tags.now)) self.old self.new out.old.items
            out.new.items report.old.items report.new.items result }
        ensures others { KeepsOthers self.old self.new }
    {
        let lines = report_lines(self.alloc, self.form, tags.as_slice())?;
        report.extend_from_slice(lines.as_slice())?;
        self.summary = self.summary.with_report(tags.as_slice().len());
        if leads_on(self.awaits, tags) {
            self.go_on(out)
        } else {
            Ok(false)
        }
    }

    /// Ends the plan as the connection ends: with the last line if the end was awaited, and with an
    /// error otherwise.
    fn end(&self, report: &mut Vec<u8>) -> Result<bool, ToolErr>
        ensures { (c : Course) (o : List ℕ) → Holds c self.now → c.phase ≡ Open
            → Does c (after Taken.Closed c) self.now o o report.old.items report.new.items result }
    {
        match self.awaits {
            Awaits::Answer | Awaits::TaggedReport | Awaits::Report => Err(ToolErr::Early),
            Awaits::End => {
                let line = total_line(self.alloc, self.form, self.summary)?;
                report.extend_from_slice(line.as_slice())?;
                Ok(true)
            }
        }
    }

    /// Goes on with the plan after a response, if its status is 0.
    fn answered(&mut self, status: u16, out: &mut Vec<u8>) -> Result<bool, ToolErr>
        ensures does { (c : Course) (r : List ℕ) → Holds c self.old → c.phase ≡ Open
            → Does c (after (Taken.Reply status) c) self.new out.old.items
            out.new.items r r result }
        ensures others { KeepsOthers self.old self.new }
    {
        if status == 0 {
            self.go_on(out)
        } else {
            Err(ToolErr::Peer(status))
        }
    }

    /// Acts on what a message means to the client: goes on with the plan, ends it, or does nothing.
    fn follow(
        &mut self,
        taken: Taken,
        out: &mut Vec<u8>,
        report: &mut Vec<u8>,
    ) -> Result<bool, ToolErr>
        ensures does { GoesTo (after taken) self.old self.new out.old.items out.new.items
            report.old.items report.new.items result }
        ensures others { KeepsOthers self.old self.new }
    {
        match taken {
            Taken::Connected => self.go_on(out),
            Taken::Refused(status) => Err(ToolErr::Peer(status)),
            Taken::Reply(status) => self.answered(status, out),
            Taken::Tags(tags) => self.report(&tags, out, report),
            Taken::Table(_) => self.go_on(out),
            Taken::Differs(_) => Err(ToolErr::Strange),
            Taken::Event(..) | Taken::Note | Taken::Kept => Ok(false),
            Taken::Closed => self.end(report),
        }
    }

    /// Takes a message; the client's own answer to it is sent first.
    fn take_message(
        &mut self,
        message: Message,
        out: &mut Vec<u8>,
        report: &mut Vec<u8>,
    ) -> Result<bool, ToolErr>
        ensures does { GoesTo (after_item (Item.Msg message)) self.old self.new out.old.items
            out.new.items report.old.items report.new.items result }
        ensures others { KeepsOthers self.old self.new }
    {
        let mut answers = Vec::new(self.alloc);
        let taken = match self.client.take(message, &mut answers) {
            Ok(taken) => taken,
            Err(refusal) => return Err(message_error(refusal.fault)),
        };
        append_frames(self.alloc, answers.as_slice(), out)?;
        self.follow(taken, out, report)
    }

    /// Takes what is heard of a message, if anything is.
    fn take_part(
        &mut self,
        message: Message,
        out: &mut Vec<u8>,
        report: &mut Vec<u8>,
    ) -> Result<bool, ToolErr>
        ensures does { TakesItem (Item.Msg message) self.old self.new out.old.items out.new.items
            report.old.items report.new.items result }
        ensures others { KeepsOthers self.old self.new }
    {
        match heard_message(self.alloc, self.hearing, message)? {
            Some(part) => {
                if self.passes(&part) {
                    self.pass_over();
                    return Ok(false);
                }
                self.take_message(part, out, report)
            }
            None => Ok(false),
        }
    }

    /// Takes an item.
    fn take(&mut self, item: Item, out: &mut Vec<u8>, report: &mut Vec<u8>) -> Result<bool, ToolErr>
        ensures does { TakesItem item self.old self.new out.old.items out.new.items
            report.old.items report.new.items result }
        ensures others { KeepsOthers self.old self.new }
    {
        match item {
            Item::Msg(message) => self.take_part(message, out, report),
            Item::Bad { id, fault } => {
                if self.passes_frame(id) {
                    self.pass_over();
                    return Ok(false);
                }
                self.take_bad(fault.reason)
            }
        }
    }

    /// Takes a frame that is no message, for this reason.
    fn take_bad(&self, reason: Reason) -> Result<bool, ToolErr>
        ensures { TakesBad reason self.now result }
    {
        match reason {
            Reason::MessageType | Reason::ParamType => Ok(false),
            _ => Err(ToolErr::Strange),
        }
    }

    /// Takes the items of a piece. Returns whether the connection was closed as planned.
    fn take_all(
        &mut self,
        piece: &[u8],
        out: &mut Vec<u8>,
        report: &mut Vec<u8>,
    ) -> Result<bool, ToolErr>
        ensures { TakesPiece piece.now self.old self.new out.old.items out.new.items
            report.old.items report.new.items result }
    {
        let mut rest = piece;
        while !rest.is_empty() {
            let Fed { used, item } = match self.decoder.feed(rest) {
                Ok(fed) => fed,
                Err(error) => return Err(error_of(error)),
            };
            let Some(item) = item else {
                return Ok(false);
            };
            let closed = self.take(item, out, report)?;
            if closed {
                return Ok(true);
            }
            rest = rest.split_at(used).1;
        }
        Ok(false)
    }

    /// Takes a piece of the reader's bytes. Appends what the client sends to `out`, and to `report`
    /// a line for each reported tag, a line for each report, and a last line once the connection
    /// was closed as planned. Then it returns true; each later call returns true and changes
    /// nothing.
    ///
    /// The errors are `Peer` with a status other than 0; `Strange` for a message that no reader
    /// sends then, for a table that differs from the client's view, and for a frame with a fault
    /// other than an unknown type; `Early` if the connection ends too soon; `Broken` at a length
    /// field below 10; and `Memory`. Each later call returns the same error.
    pub fn feed(
        &mut self,
        piece: &[u8],
        out: &mut Vec<u8>,
        report: &mut Vec<u8>,
    ) -> Result<bool, ToolErr>
        ensures feeds { FeedsPiece piece.now self.old self.new out.old.items out.new.items
            report.old.items report.new.items result }
        // The same from any beginning, as after a hurry.
        ensures feeds_from { FeedsPieceFrom piece.now self.old self.new out.old.items out.new.items
            report.old.items report.new.items result }
        ensures phase { IsConnected self.old → IsLeftBy result self.new }

        // Once it has ended, nothing changes.
        ensures closed { IsClosed self.old → (result ≡ Ok true) × (self.new ≡ self.old) }
        ensures failed { (error : Error) → HasFailed error self.old → (result ≡ Err error)
            × (self.new ≡ self.old) }
        ensures unsent { (IsConnected self.old → ⊥) → (out.new.items ≡ out.old.items)
            × (report.new.items ≡ report.old.items) }
    {
        match self.phase {
            Phase::Open => {}
            Phase::Closed => return Ok(true),
            Phase::Failed(error) => return Err(error),
        }
        let outcome = self.take_all(piece, out, report);
        self.phase = phase_after(outcome);
        outcome
    }

    /// Leaves the waits for reports out of what is left, and ends one that has begun.
    fn press(&mut self, out: &mut Vec<u8>) -> Result<bool, ToolErr>
        ensures does { (c : Course) (r : List ℕ) → Holds c self.old → c.phase ≡ Open
            → Does c (hurried c) self.new out.old.items out.new.items r r result }
        ensures open { IfOk result (λ closed. closed ≡ false) }
        ensures others { KeepsOthers self.old self.new }
    {
        let left = mem::replace(&mut self.left, RemainingCommands::Nothing);
        self.left = left.without_waits();
        match self.awaits {
            Awaits::TaggedReport => self.go_on(out),
            _ => Ok(false),
        }
    }

    /// Awaits no further reports with tags: the plan goes on to its end, at once if such a report is
    /// awaited now, and else once what is awaited has come. Appends what the client sends to `out`.
    /// From then on `feed` does what it does with a plan that awaits none.
    ///
    /// The only errors are `Memory`, and what an earlier call returned; once the connection was
    /// closed as planned it does nothing.
    pub fn hurry(&mut self, out: &mut Vec<u8>) -> Result<(), ToolErr>
        ensures hurries { Hurries self.old self.new out.old.items out.new.items result }

        // Once it has ended, nothing changes.
        ensures closed { IsClosed self.old → (result ≡ Ok tt) × (self.new ≡ self.old) }
        ensures failed { (error : Error) → HasFailed error self.old → (result ≡ Err error)
            × (self.new ≡ self.old) }
        ensures unsent { (IsConnected self.old → ⊥) → out.new.items ≡ out.old.items }
    {
        match self.phase {
            Phase::Open => {}
            Phase::Closed => return Ok(()),
            Phase::Failed(error) => return Err(error),
        }
        match self.press(out) {
            Ok(_) => Ok(()),
            Err(error) => {
                self.phase = Phase::Failed(error);
                Err(error)
            }
        }
    }
}

/// Whether a report of these tags is one that is awaited.
fn leads_on(awaits: Awaits, tags: &Nodes) -> bool
    ensures { result ≡ leads_on awaits tags.now }
{
    match awaits {
        Awaits::Report => true,
        Awaits::TaggedReport => !tags.as_slice().is_empty(),
        Awaits::Answer | Awaits::End => false,
    }
}

/// The phase after this answer of a step.
fn phase_after(outcome: Result<bool, ToolErr>) -> Phase
    ensures { result ≡ phase_left outcome }
{
    match outcome {
        Ok(false) => Phase::Open,
        Ok(true) => Phase::Closed,
        Err(error) => Phase::Failed(error),
    }
}

/// The error of a command that the client refuses.
fn command_error(fault: CmdFault) -> ToolErr
    ensures { result ≡ error_by_command fault }
{
    match fault {
        CmdFault::Memory => ToolErr::Memory,
        _ => ToolErr::Strange,
    }
}

/// The error of a message that the client refuses.
fn message_error(fault: TakeFault) -> ToolErr
    ensures { result ≡ error_by_message fault }
{
    match fault {
        TakeFault::Memory => ToolErr::Memory,
        TakeFault::Closed | TakeFault::Unexpected => ToolErr::Strange,
    }
}
