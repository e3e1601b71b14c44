//! Does to one tag what an errand says, and prints what became of each operation.

ghost use Rattle.std.specs.Prelude.{◌≡◌, ◌++◌, IfErr, IfOk, OnOk, option_map, unwrap_or};
ghost use Rattle.llrp_stream.specs.Device.{IsFreshSink, IsFreshSource};
ghost use Rattle.llrp_stream.specs.Calls.Device.{CanWrite};
ghost use Rattle.llrp_operations.specs.Calls.Access as accesses;
ghost use Rattle.llrp_operations.specs.Calls.Lines.{referred};
ghost use Rattle.llrp_operations.specs.Calls.Talking.{Fails};
ghost use Rattle.llrp_operations.specs.Private.Endings.{Concludes, Ends};

use crate::change::change_tag;
use crate::course::Outcome;
use crate::lines::{result_line, result_object};
use crate::message::{epc_of, has_results};
use crate::operation::Operation;
use crate::parameters::SpecErr;
use crate::request::Request;
use crate::results::is_clear;
use crate::tag_names::tag_name;
use crate::talk::{AccessErr, Patience, Talked, operate};
use crate::verified::{Meant, is_done, is_meant, result_of};
use llrp_ask::TimedSource;
use llrp_listing::{Text, ToolErr, write_all};
use llrp_stream::Sink;
use llrp_tree::{Message, Node};
use std::alloc::{AllocError, Global};

/// What is to be done to a tag.
#[derive(Clone, Copy)]
pub struct Errand<'a> {
    /// What is sent: its operations are those asked for and, where it verifies, their checks.
    pub request: Request<'a>,
    pub asked: &'a [Operation],
    /// The EPC that the tag is to be given; of no octets where it keeps its own.
    pub given: &'a [u8],
    /// The words that are read back have to be those that were written.
    pub verifies: bool,
    /// Results are printed as objects of JSON.
    pub json: bool,
}

/// What came of it.
#[derive(Clone, Copy, Debug, PartialEq, Eq)]
pub enum Ending {
    /// All was done.
    Done,
    /// Results came, and not all was done.
    Undone,
    /// The reader refused something with this status; nothing was done.
    Refused(u16),
    /// With this status it refused an AccessSpec of two C1G2TargetTags, which it may not take; nothing was done.
    RefusedTargets(u16),
    /// More than one tag was there that might be meant; nothing was done.
    Several,
    /// The tag that came has no EPC by which it can be named; nothing was done.
    NoEpc,
    /// No tag came, and none was changed.
    NoTag,
    /// No results came, or results of which it is not clear what became of the tag: it may have been changed,
    /// or not.
    Unknown,
    /// It ended for this reason, mostly since the connection was lost; nothing was changed.
    Broken(ToolErr),
}

/// The tag whose results came first in a message.
fn tag_in(id: u32, report: &Message) -> Option<&Node>
    ensures { referred result ≡ accesses.tag_in id report.now }
{
    report
        .children()
        .as_slice()
        .iter()
        .find(|node| has_results(id, node))
}

/// The same, if there is a message.
fn tag_of(id: u32, report: &Option<Message>) -> Option<&Node>
    ensures { referred result ≡ accesses.tag_of id report.now }
{
    match report {
        Some(report) => tag_in(id, report),
        None => None,
    }
}

/// The line of an operation, or its object.
fn line_of(
    alloc: Global,
    json: bool,
    name: &[u8],
    operation: &Operation,
    said: Option<&Node>,
) -> Result<Text, AllocError>
    ensures { IfOk result (λ text. text
        ≡ accesses.line_of json name.now operation.now (referred said.entry)) }
{
    if json {
        result_object(alloc, name, operation, said)
    } else {
        result_line(alloc, name, operation, said)
    }
}

/// The lines of operations, each with its result.
fn lines_of(
    alloc: Global,
    json: bool,
    name: &[u8],
    operations: &[Operation],
    tag: &Node,
) -> Result<Vec<u8>, AllocError>
    ensures { IfOk result (λ lines. lines.items
        ≡ accesses.lines_of json name.now operations.now (accesses.results_of tag.now)) }
{
    let mut lines = Vec::new(alloc);
    for (place, operation) in operations.iter().enumerate() {
        let line = line_of(alloc, json, name, operation, result_of(tag, place))?;
        lines.extend_from_slice(line.as_slice())?;
    }
    Ok(lines)
}

/// The lines of the results of a tag, each with its name.
fn shown_of(alloc: Global, errand: Errand<'_>, tag: &Node) -> Result<Vec<u8>, AllocError>
    ensures { IfOk result (λ lines. accesses.IsShown errand.entry tag.now lines.items) }
{
    let epc = epc_of(alloc, tag)?;
    let name = tag_name(alloc, epc.as_slice())?;
    let operations = errand.request.operations;
    lines_of(alloc, errand.json, name.as_slice(), operations, tag)
}

/// The tag that is meant: the one that was seen before a change, or else the one that was asked for.
fn meant_by<'a>(errand: Errand<'a>, seen: Option<&'a [u8]>) -> Meant<'a>
    ensures epc { result.epc.now ≡ unwrap_or (option_map (λ epc. epc.now) seen.entry) errand.entry.request.epc.now }
    ensures given { result.given.now ≡ errand.entry.given.now }
{
    Meant {
        epc: seen.unwrap_or(errand.request.epc),
        given: errand.given,
    }
}

/// Whether it is known of each operation what became of it, and that it was done to the tag that is meant.
fn is_known(
    alloc: Global,
    errand: Errand<'_>,
    meant: Meant<'_>,
    tag: &Node,
) -> Result<bool, SpecErr>
    requires { meant.given.now ≡ errand.given.now }
    ensures { IfOk result (λ is. is ≡ accesses.is_known errand.entry meant.entry.epc.now tag.now) }
{
    let is_own = is_meant(alloc, meant, tag)?;
    Ok(is_own && is_clear(errand.request.operations, tag))
}

/// What came of it where not all was done.
fn undone(
    alloc: Global,
    errand: Errand<'_>,
    meant: Meant<'_>,
    tag: &Node,
) -> Result<Ending, SpecErr>
    requires { meant.given.now ≡ errand.given.now }
    ensures { IfOk result (λ ending. ending ≡ accesses.undone errand.entry meant.entry.epc.now tag.now) }
{
    let is_known = is_known(alloc, errand, meant, tag)?;
    if change_tag(errand.request.operations) && !is_known {
        Ok(Ending::Unknown)
    } else {
        Ok(Ending::Undone)
    }
}

/// What came of it, as the tag with the results says.
fn judge(alloc: Global, errand: Errand<'_>, meant: Meant<'_>, tag: &Node) -> Result<Ending, SpecErr>
    requires { meant.given.now ≡ errand.given.now }
    ensures { IfOk result (λ ending. ending ≡ accesses.judged errand.entry meant.entry.epc.now tag.now) }
{
    let request = errand.request;
    let (id, sent) = (request.id, request.operations);
    if is_done(alloc, id, errand.asked, sent, errand.verifies, meant, tag)? {
        return Ok(Ending::Done);
    }
    undone(alloc, errand, meant, tag)
}

/// What came of it where there are no results.
fn ending_of(outcome: Outcome, cause: ToolErr) -> Ending
    ensures { result ≡ accesses.ending_of outcome cause }
{
    match outcome {
        Outcome::Reported => Ending::Undone,
        Outcome::Refused(status) => Ending::Refused(status),
        Outcome::RefusedTargets(status) => Ending::RefusedTargets(status),
        Outcome::Several => Ending::Several,
        Outcome::NoEpc => Ending::NoEpc,
        Outcome::NoTag => Ending::NoTag,
        Outcome::Unknown => Ending::Unknown,
        Outcome::Broken => Ending::Broken(cause),
    }
}

/// Prints the results of a tag, and says whether it did all that was asked.
fn conclude<P: Sink>(
    alloc: Global,
    errand: Errand<'_>,
    meant: Meant<'_>,
    tag: &Node,
    p: &mut P,
) -> Result<Ending, ToolErr>
    requires given { meant.given.now ≡ errand.given.now }
    requires shown { CanWrite (P.log p.old) }
    ensures { IfOk result (Concludes errand.entry meant.entry.epc.now tag.now (P.log p.old) (P.log p.new)) }
{
    let lines = shown_of(alloc, errand, tag)?;
    write_all(p, lines.as_slice())?;
    match judge(alloc, errand, meant, tag) {
        Ok(ending) => Ok(ending),
        Err(SpecErr::Memory) => Err(ToolErr::Memory),
        Err(_) => Err(ToolErr::Bound),
    }
}

/// Prints the results that came, if some did, and says what came of it.
fn end<P: Sink>(
    alloc: Global,
    errand: Errand<'_>,
    talked: &Talked,
    p: &mut P,
) -> Result<Ending, ToolErr>
    requires { IsFreshSink (P.log p.old) }
    ensures { IfOk result (Ends errand.entry talked.now (P.log p.old) (P.log p.new)) }
{
    match tag_of(errand.request.id, &talked.report) {
        Some(tag) => {
            let seen = talked.seen.as_ref().map(|epc| epc.as_slice());
            conclude(alloc, errand, meant_by(errand, seen), tag, p)
        }
        None => Ok(ending_of(talked.outcome, talked.cause)),
    }
}

/// Does to a tag what an errand says, by the reader whose octets the source gives, beginning with the message
/// that it sends by itself. What the client says is written to `w`, and the lines of the results to `p`.
///
/// The errors are those of [`operate`], and `Write` if the lines could not be written. Where an AccessSpec
/// that changes a tag was enabled by then, the error says so.
pub fn run_access<R: TimedSource, W: Sink, P: Sink>(
    alloc: Global,
    errand: Errand<'_>,
    patience: Patience,
    r: &mut R,
    w: &mut W,
    p: &mut P,
) -> Result<Ending, AccessErr>
    requires source { IsFreshSource (R.log r.old) }
    requires sink { IsFreshSink (W.log w.old) }
    requires shown { IsFreshSink (P.log p.old) }
    ensures accesses { IfOk result (accesses.Accesses errand.entry (R.log r.old) (R.log r.new) (W.log w.old)
        (W.log w.new) (P.log p.old) (P.log p.new)) }
    ensures failed { IfErr result (Fails errand.entry.request (R.log r.old) (R.log r.new)
        (W.log w.old) (W.log w.new)) }
{
    let talked = operate(alloc, errand.request, patience, r, w)?;
    match end(alloc, errand, &talked, p) {
        Ok(ending) => Ok(ending),
        Err(error) => Err(AccessErr {
            error,
            may_have_changed: talked.may_have_changed,
        }),
    }
}
