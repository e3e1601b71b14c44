//! The ROSpec of a text, which lists it as `show` does below ADD_ROSPEC.

ghost use Rattle.std.specs.Prelude.{◌≡◌, ◌++◌, ◌==◌, IfErr, IfOk, get_or};
ghost use Rattle.llrp_schema.specs.declared.kinds.KindSet.TheVariants.{Profile, Standard};
ghost use Rattle.llrp_tree.specs.Tree.{Tree};
ghost use Rattle.llrp_tree.specs.Lawful.{IsLawfulTree};
ghost use Rattle.llrp_stream.specs.Cuts.{length_field};
ghost use Rattle.llrp_listing.specs.Encoding.{EncodesIn};
ghost use Rattle.llrp_listing.specs.Lines.{lines_of};
ghost use Rattle.llrp_endpoints.specs.Calls.PlanTexts as texts;
ghost use Rattle.llrp_endpoints.specs.Calls.Plans.{given, plan_fault, rospec_kind};
ghost use Rattle.llrp_endpoints.specs.declared.plan.text.PlanErr.TheVariants.{Memory};

use super::{LONGEST_ROSPEC, Plan, PlanFault, fault_of, is_commanded};
use crate::heard::kept_rospec;
use llrp_listing::{Refusal, ToolErr, run_encode_in, split_once};
use llrp_schema::KindSet;
use llrp_stream::{Input, Output};
use llrp_tree::{
    FrameErr, HEADER_OCTETS, Message, MsgKind, Node, NodeFault, Nodes, ParamKind, decode_frame_in,
};
use std::alloc::{AllocError, Global};
use std::io::Read;
use tag_bits::get;

/// The line of the message below which the lines of a ROSpec stand.
const HEADING: &[u8] = b"0 ADD_ROSPEC 1 1\n";

/// The greatest length of that message, in octets.
const LONGEST_MESSAGE: u32 = HEADER_OCTETS as u32 + LONGEST_ROSPEC;

/// Why a text has no plan.
#[derive(Clone, Copy, Debug, PartialEq, Eq)]
pub enum PlanErr {
    /// A line, counted from 1, is refused.
    Line { line: u64, reason: Refusal },
    /// Memory ran out.
    Memory,
}

impl From<AllocError> for PlanErr {
    ghost from_gives = { λ _ e. e ≡ Memory };

    fn from(_e: AllocError) -> PlanErr {
        PlanErr::Memory
    }
}

/// Whether a line begins with 0.
fn is_top(line: &[u8]) -> bool
    ensures { result ≡ (get_or line.now 0 0 == 48) }
{
    line.get(0).copied().unwrap_or(0) == b'0'
}

/// The number of the first line that begins with 0.
fn first_top(text: &[u8]) -> u64
    ensures { result ≡ texts.first_top (lines_of text.now) }
{
    let mut rest = text;
    let mut line = 1u64;
    while let Some((before, after)) = split_once(rest, b'\n') {
        if is_top(before) {
            return line;
        }
        rest = after;
        line += 1;
    }
    if rest.is_empty() || is_top(rest) {
        line
    } else {
        line + 1
    }
}

/// The refusal of a second message.
fn another(set: KindSet, text: &[u8]) -> PlanErr
    requires { texts.HasAnother set text.now }
    ensures { texts.RefusesPlan set text.now result }
{
    PlanErr::Line {
        line: first_top(text),
        reason: Refusal::Level,
    }
}

/// The octets of the messages of a text below the line that adds a ROSpec.
fn encoded(alloc: Global, set: KindSet, text: &[u8]) -> Result<Vec<u8>, PlanErr>
    ensures done { IfOk result (λ octets. EncodesIn set texts.longest_adding (texts.heading
        ++ text.now) octets.items) }
    ensures refused { IfErr result (texts.RefusesPlan set text.now) }
{
    let mut listing = Input::new(HEADING.chain(text));
    let mut gathered = Output::new(Vec::new(alloc));
    let outcome = run_encode_in(alloc, set, &mut listing, &mut gathered, LONGEST_MESSAGE);
    let octets = gathered.into_inner();
    match outcome {
        Ok(()) => Ok(octets),
        Err(ToolErr::Listing { line, reason }) => {
            if octets.as_slice().is_empty() {
                let line = if line > 1 { line - 1 } else { 1 };
                Err(PlanErr::Line { line, reason })
            } else {
                Err(another(set, text))
            }
        }
        Err(_) => Err(PlanErr::Memory),
    }
}

/// The ROSpec of a text whose messages have these octets.
fn added(alloc: Global, set: KindSet, text: &[u8], octets: &[u8]) -> Result<Node, PlanErr>
    requires { EncodesIn set texts.longest_adding (texts.heading ++ text.now) octets.now }
    ensures rospec { IfOk result (λ t. texts.ListsRoSpec set text.now t) }
    ensures refused { IfErr result (texts.RefusesPlan set text.now) }
{
    if get(octets, 16, 32) != octets.len() as u128 {
        return Err(another(set, text));
    }
    match decode_frame_in(alloc, set, octets, LONGEST_MESSAGE) {
        Ok(message) => match message.into_children().into_vec().pop() {
            Some(rospec) => Ok(rospec),
            None => unreachable!(),
        },
        Err(FrameErr::Memory) => Err(PlanErr::Memory),
        Err(FrameErr::Bad(_)) => unreachable!(),
    }
}

/// The refusal of a ROSpec that a plan does not take.
fn refusal_by(fault: PlanFault) -> Refusal
    ensures { result ≡ texts.refusal_by fault }
{
    match fault {
        PlanFault::NotRoSpec => Refusal::Name,
        PlanFault::Value => Refusal::Node(NodeFault::Value),
        PlanFault::OverLimit => Refusal::OverLimit,
    }
}

/// The refusal of the first line for a ROSpec that a plan does not take.
fn first_line(fault: PlanFault) -> PlanErr
    ensures { result ≡ PlanErr.Line 1 (texts.refusal_by fault) }
{
    PlanErr::Line {
        line: 1,
        reason: refusal_by(fault),
    }
}

/// What a client knows of a ROSpec of the whole standard.
fn known(alloc: Global, rospec: &Node) -> Result<Node, AllocError>
    requires { rospec.now.kind ≡ ParamKind.WholeRoSpec }
    ensures { IfOk result (λ t. t ≡ texts.known rospec.now) }
{
    rospec.lawful();
    match kept_rospec(alloc, ParamKind::RoSpec, rospec.fields())? {
        Some(known) => Ok(known),
        None => unreachable!(),
    }
}

/// The message that adds a ROSpec of the whole standard.
fn adding_message(alloc: Global, rospec: Node) -> Result<Message, AllocError>
    requires { rospec.kind ≡ ParamKind.WholeRoSpec }
    ensures { IfOk result (λ m. m ≡ texts.adding Standard rospec) }
{
    rospec.lawful();
    let children = Nodes::new(Vec::from_array(alloc, [rospec])?);
    match Message::new(1, 1, MsgKind::WholeAddRoSpec, &[], children) {
        Ok(message) => Ok(message),
        Err(_) => unreachable!(),
    }
}

/// The plan with a ROSpec of the whole standard.
fn whole_plan(
    alloc: Global,
    rospec: Node,
    polls: u16,
    checked: bool,
) -> Result<Result<Plan, PlanFault>, AllocError>
    ensures plan { IfOk result (λ made. IfOk made (λ p. texts.IsTaken Standard rospec
        × (p ≡ texts.given_in Standard rospec polls checked))) }
    ensures fault { IfOk result (λ made. IfErr made (λ fault. plan_fault Standard rospec
        ≡ Some fault)) }
{
    if let Some(fault) = fault_of(KindSet::Standard, &rospec) {
        return Ok(Err(fault));
    }
    rospec.lawful();
    let known = known(alloc, &rospec)?;
    let starts = is_commanded(KindSet::Standard, &rospec);
    let whole = adding_message(alloc, rospec)?;
    match Plan::of(known, polls, checked) {
        Ok(plan) => Ok(Ok(plan.instead(whole, starts))),
        Err(_) => unreachable!(),
    }
}

/// The plan with a ROSpec of the profile.
fn own_plan(rospec: Node, polls: u16, checked: bool) -> Result<Plan, PlanFault>
    ensures plan { IfOk result (λ p. texts.IsTaken Profile rospec
        × (p ≡ given rospec polls checked)) }
    ensures fault { IfErr result (λ fault. plan_fault Profile rospec ≡ Some fault) }
{
    rospec.lawful();
    Plan::of(rospec, polls, checked)
}

/// The plan with a ROSpec of a set of kinds.
fn plan_in(
    alloc: Global,
    set: KindSet,
    rospec: Node,
    polls: u16,
    checked: bool,
) -> Result<Result<Plan, PlanFault>, AllocError>
    ensures plan { IfOk result (λ made. IfOk made (λ p. texts.IsTaken set rospec
        × (p ≡ texts.given_in set rospec polls checked))) }
    ensures fault { IfOk result (λ made. IfErr made (λ fault. plan_fault set rospec
        ≡ Some fault)) }
{
    match set {
        KindSet::Profile => Ok(own_plan(rospec, polls, checked)),
        KindSet::Standard => whole_plan(alloc, rospec, polls, checked),
    }
}

impl Plan {
    /// The plan of an inventory with the ROSpec of a text: its lines as `show` prints them below
    /// ADD_ROSPEC, the first at level 1. It has no other steps than those of the ROSpec, this many
    /// polls, and the check if there is one.
    ///
    /// The error is the first line that is refused, counted from 1, with the reason: what the rules
    /// of listings refuse below the line of an ADD_ROSPEC, for which the first line stands too;
    /// `Level` for a line that begins another message; and at line 1 `OverLimit` for a ROSpec of
    /// more than 4,078 octets, and `Node` `Value` for an id of 0 or a CurrentState other than 0.
    pub fn parse(alloc: Global, text: &[u8], polls: u16, checked: bool) -> Result<Plan, PlanErr>
        ensures plan { IfOk result (λ p. (t : Tree) × texts.ListsRoSpec Profile text.now t
            × texts.IsTaken Profile t × (p ≡ given t polls checked)) }
        ensures refused { IfErr result (texts.RefusesPlan Profile text.now) }
    {
        Plan::parse_in(alloc, KindSet::Profile, text, polls, checked)
    }

    /// The same with a ROSpec of a set of kinds. One of the whole standard is added as it is; what
    /// `rospec` and `every` say of such a plan is what its client knows of it, its three fields.
    pub fn parse_in(
        alloc: Global,
        set: KindSet,
        text: &[u8],
        polls: u16,
        checked: bool,
    ) -> Result<Plan, PlanErr>
        ensures plan { IfOk result (λ p. (t : Tree) × texts.ListsRoSpec set text.now t
            × texts.IsTaken set t × (p ≡ texts.given_in set t polls checked)) }
        ensures refused { IfErr result (texts.RefusesPlan set text.now) }
    {
        let octets = encoded(alloc, set, text)?;
        let rospec = added(alloc, set, text, octets.as_slice())?;
        match plan_in(alloc, set, rospec, polls, checked)? {
            Ok(plan) => Ok(plan),
            Err(fault) => Err(first_line(fault)),
        }
    }
}
