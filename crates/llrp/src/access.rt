//! The messages on AccessSpecs that `watch` sends beside its plan, and what its reader answers to them.

ghost use Rattle.std.specs.Prelude.{◌≡◌, ◌≤◌, IfErr, IfOk, Some, length, true};
ghost use Rattle.llrp_ask.specs.Calls.File.{lines_in};
ghost use Rattle.llrp_endpoints.specs.Calls.Asides.{asides_in};
ghost use Rattle.llrp_stream.specs.Calls.Device.{CanWrite};
ghost use Rattle.llrp_stream.specs.Device.{IsFreshSource};
ghost use Rattle.llrp.specs.Calls.Access.{ListsAsides, ReadsAccess, RefusesAccess, RefusesAsides, Says, answers_access, first_other, is_of, is_on_access, left_after, message_line, message_start, refused_status, status_of, text_of};

use crate::plan::NoPlan;
use llrp_commands::{answer, write_refusal};
use llrp_endpoints::{AsideMessages, Plan};
use llrp_files::FAILED;
use llrp_listing::{Refusal, ToolErr, read_all, write_all};
use llrp_schema::{Kind, KindSet, number};
use llrp_session::{field, first};
use llrp_stream::{Input, Sink, Source};
use llrp_texts::{TextErr, messages_of};
use llrp_tree::{MAX_LIMIT, Message, MsgKind, ParamKind, encode_into};
use std::alloc::Global;
use std::fs::File;
use std::io::ErrorKind;
use std::rt::Files;

/// The exit status if a line of the file is refused.
const REFUSED: u8 = 1;

/// Why there are no messages.
#[derive(Clone, Copy, Debug, PartialEq, Eq)]
pub enum NoAccess {
    /// The file cannot be opened or read.
    Unread,
    /// Its text is refused, or memory ran out.
    Text(TextErr),
}

/// Whether a message is of a kind.
fn is_of(kind: MsgKind, message: &Message) -> bool
    ensures { result ≡ is_of kind message.now }
{
    number(Kind::Message(message.kind())) == number(Kind::Message(kind))
}

/// Whether a message adds, enables, disables or deletes AccessSpecs (LLRP 1.1, section 12).
fn is_on_access(message: &Message) -> bool
    ensures { result ≡ is_on_access message.now }
{
    let adds = is_of(MsgKind::WholeAddAccessSpec, message);
    let enables = is_of(MsgKind::WholeEnableAccessSpec, message);
    let disables = is_of(MsgKind::WholeDisableAccessSpec, message);
    let deletes = is_of(MsgKind::WholeDeleteAccessSpec, message);
    adds || enables || disables || deletes
}

/// How many messages come before the first one that does none of these, if there is such a message.
fn first_other(messages: &[Message]) -> Option<usize>
    ensures { result ≡ first_other messages.now }
{
    messages.iter().position(|message| !is_on_access(message))
}

/// How many messages still come before the one that is looked for, after an octet that begins a message or
/// does not.
fn left_after(left: usize, begins: bool) -> usize
    ensures { result ≡ left_after left begins }
{
    if begins { left.saturating_sub(1) } else { left }
}

/// How many octets of a listing stand before the line of the message that comes after this many others.
fn message_start(text: &[u8], before: usize) -> usize
    ensures start { result ≡ message_start before true text.now }
    ensures within { result ≤ length text.now }
{
    let mut left = before;
    let mut starts = true;
    for (i, octet) in text.iter().enumerate() {
        let begins = starts && *octet == b'0';
        if begins && left == 0 {
            return i;
        }
        left = left_after(left, begins);
        starts = *octet == b'\n';
    }
    text.len()
}

/// How many LFs there are.
fn count_lines(text: &[u8]) -> usize
    ensures count { result ≡ lines_in text.now }
    ensures within { result ≤ length text.now }
{
    text.iter().filter(|octet| **octet == b'\n').count()
}

/// The number, counted from 1, of the line of the message that comes after this many others.
fn message_line(text: &[u8], before: usize) -> u64
    ensures { result ≡ message_line before text.now }
{
    let start = message_start(text, before);
    count_lines(text.split_at(start).0) as u64 + 1
}

/// The messages of a text, as they are sent beside a plan: they are whole messages of the standard, as
/// `show --all` prints them, and each adds, enables, disables or deletes AccessSpecs. The errors are the
/// first line that is refused, with the reason, or else the line of the first other message, with `Name`; and
/// `Memory`.
pub fn asides_of(alloc: Global, text: &[u8]) -> Result<AsideMessages, TextErr>
    ensures asides { IfOk result (λ a. ListsAsides text.now (asides_in (Some a))) }
    ensures refused { IfErr result (RefusesAsides text.now) }
{
    let messages = messages_of(alloc, KindSet::Standard, text, MAX_LIMIT)?;
    if let Some(before) = first_other(messages.as_slice()) {
        return Err(TextErr::Line {
            line: message_line(text, before),
            reason: Refusal::Name,
        });
    }
    match AsideMessages::of(alloc, messages) {
        Ok(asides) => Ok(asides),
        Err(_) => Err(TextErr::Memory),
    }
}

/// The text of a file of such messages.
#[derive(Drop)]
pub struct Access {
    text: Vec<u8>,
}

impl Access {
    /// Reads it to the end of the source.
    pub fn read<R: Source>(alloc: Global, r: &mut R) -> Result<Access, NoAccess>
        requires { IsFreshSource (R.log r.old) }
        ensures text { IfOk result (λ a. ReadsAccess (R.log r.old) (R.log r.new) a.text.items) }
        ensures refused { IfErr result (RefusesAccess (R.log r.old) (R.log r.new)) }
    {
        let text = match read_all(alloc, r) {
            Ok(text) => text,
            Err(ToolErr::Memory) => return Err(NoAccess::Text(TextErr::Memory)),
            Err(_) => return Err(NoAccess::Unread),
        };
        match asides_of(alloc, text.as_slice()) {
            Ok(_) => Ok(Access { text }),
            Err(error) => Err(NoAccess::Text(error)),
        }
    }

    /// Reads the file with this path, if there is one.
    pub fn open<F: Files>(
        files: &F,
        alloc: Global,
        path: Option<&str>,
    ) -> Result<Option<Access>, NoAccess> {
        let Some(path) = path else {
            return Ok(None);
        };
        match File::open(files, path) {
            Ok(file) => Ok(Some(Access::read(alloc, &mut Input::new(file))?)),
            Err(error) => match error.kind() {
                ErrorKind::OutOfMemory => Err(NoAccess::Text(TextErr::Memory)),
                _ => Err(NoAccess::Unread),
            },
        }
    }

    /// The octets of the messages that delete one AccessSpec; none if memory runs out.
    pub fn deletions(&self, alloc: Global) -> Vec<u8> {
        let mut octets = Vec::new(alloc);
        if let Ok(asides) = asides_of(alloc, self.text.as_slice()) {
            for message in asides.deleting.as_slice() {
                let _done = encode_into(alloc, message, &mut octets, MAX_LIMIT);
            }
        }
        octets
    }
}

/// The plan with the messages beside it, if there are some. The only error is `Memory`, since the text was
/// read before.
pub fn saying(alloc: Global, plan: Plan, access: Option<&Access>) -> Result<Plan, NoPlan>
    ensures plan { IfOk result (Says plan (text_of access.entry)) }
    ensures memory { IfErr result (λ e. e ≡ NoPlan.Memory) }
{
    let Some(access) = access else {
        return Ok(plan);
    };
    match asides_of(alloc, access.text.as_slice()) {
        Ok(asides) => Ok(plan.saying(asides)),
        Err(_) => Err(NoPlan::Memory),
    }
}

/// The octets of the messages that delete one AccessSpec, if there are some.
pub fn deletions(alloc: Global, access: Option<&Access>) -> Vec<u8> {
    match access {
        Some(access) => access.deletions(alloc),
        None => Vec::new(alloc),
    }
}

/// Writes why there are no messages as a line, and returns the exit status: 1 if a line of the file is
/// refused, 3 if it cannot be read or memory ran out.
pub fn refuse_access<E: Sink>(no_access: NoAccess, errors: &mut E) -> Result<u8, ToolErr>
    requires { CanWrite (E.log errors.old) }
{
    match no_access {
        NoAccess::Unread => {
            write_all(errors, b"llrp: access\n")?;
            Ok(FAILED)
        }
        NoAccess::Text(TextErr::Line { line, reason }) => {
            write_refusal(errors, b"llrp: access line ", line, reason)?;
            Ok(REFUSED)
        }
        NoAccess::Text(TextErr::Memory) => answer(Err(ToolErr::Memory), errors),
    }
}

/// The status of a response: the field of its LLRPStatus; 0 if it has none.
fn status_of(message: &Message) -> u16
    ensures { result ≡ status_of message.now }
{
    let kind = ParamKind::WholeLlrpStatus;
    field(kind, first(kind, message.children()), 0).min(65_535) as u16
}

/// Whether a message answers one that adds, enables or disables an AccessSpec.
fn answers_access(message: &Message) -> bool
    ensures { result ≡ answers_access message.now }
{
    let adds = is_of(MsgKind::WholeAddAccessSpecResponse, message);
    let enables = is_of(MsgKind::WholeEnableAccessSpecResponse, message);
    let disables = is_of(MsgKind::WholeDisableAccessSpecResponse, message);
    adds || enables || disables
}

/// With which status a reader refuses to add, enable or disable an AccessSpec, if this message does that.
/// That there is none to be deleted is no refusal: it may have ended by its count.
pub fn refused_status(message: &Message) -> Option<u16>
    ensures { result ≡ refused_status message.now }
{
    let status = status_of(message);
    if answers_access(message) && status != 0 {
        Some(status)
    } else {
        None
    }
}
