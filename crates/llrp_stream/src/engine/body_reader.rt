//! The engine: reads the body of a frame, one part a step.

ghost use Rattle.std.specs.Prelude.{◌≡◌, ◌+◌, ◌*◌, ◌<◌, ◌≤◌, ◌⊎◌, ℕ, Bool, List, [], ◌∷◌, ◌++◌, OnOk, IfErr, IfOk, length, drop, true, false};
ghost use Rattle.tag_bits.specs.Digits.{digits_of_bytes};
ghost use Rattle.llrp_tree.specs.declared.TheConstants.{MAX_DEPTH, MAX_LIMIT};
ghost use Rattle.llrp_schema.specs.Schema.{FieldRule, fields_of};
ghost use Rattle.llrp_schema.specs.Calls.Schema.{field_rule};
ghost use Rattle.llrp_tree.specs.Lawful.{first};
ghost use Rattle.llrp_tree.specs.OpenTree.{Begun};
ghost use Rattle.llrp_schema.specs.declared.kinds.Kind.TheVariants.{Parameter};
ghost use Rattle.llrp_tree.specs.Private.Standing.{is_tv_kind};
ghost use Rattle.llrp_tree.specs.declared.fault.FrameErr.TheVariants.{Bad, Memory};
ghost use Rattle.llrp_stream.specs.declared.engine.body_reader.Step.TheVariants as Step;
ghost use Rattle.llrp_stream.specs.Private.Steps.{AreBefore, FieldSays, HandsFrom, HasCome, HasComeTo, ReadsFrom, StepsFrom, StepsInto, StepsOn, StepsOnField};
ghost use Rattle.llrp_stream.specs.declared.engine.body_reader.Stage.TheVariants as Stage;

use crate::engine::listener::{Listener, Stopped, hand};
use crate::engine::stack::{Child, Placed, StackNode, begun, child_head, is_enough};
use crate::engine::tail::is_absent;
use arrayvec::ArrayVec;
use llrp_schema::{Field, Kind, KindSet};
use llrp_tree::numbers::from_bit;
use llrp_tree::{Fault, FrameErr, LEVELS, Reason};

/// What comes next in the innermost node.
#[derive(Clone, Copy)]
pub enum Stage {
    /// The field with this index, or the tail, or what comes after both.
    Leading(u32),
    /// Octets of its tail, of which this many are left.
    Tail(u32),
    /// A child, or the end.
    Children,
}

/// What a step did.
#[derive(Clone, Copy)]
pub(crate) enum Step {
    /// None: the next part is not whole in the octets.
    Waits,
    /// It took this many octets.
    Goes(usize),
    /// The message has all its parts.
    Ends,
}

/// How far the octets were read.
#[derive(Clone, Copy)]
pub(crate) struct ReadParts {
    pub used: usize,
    /// The message has all its parts.
    pub(crate) whole: bool,
}

/// How far a frame was read.
#[derive(Drop)]
pub(crate) struct BodyReader {
    /// The set of kinds that the frame is of.
    pub(crate) set: KindSet,
    /// The octets of the frame.
    pub(crate) octets: u32,
    /// The octet at which the next part begins, and the bit in it.
    pub(crate) at: u32,
    pub(crate) bit: u32,
    /// The first field of the innermost node that is not reserved, once it was read.
    pub(crate) first: u128,
    pub(crate) stage: Stage,
    pub(crate) top: StackNode,
    /// The nodes around the innermost one, the message first.
    pub(crate) outer: ArrayVec<StackNode, LEVELS>,
}

/// The error for a fault.
pub(crate) fn bad(bit: usize, reason: Reason) -> FrameErr
    ensures { result ≡ Bad (record { bit = bit; reason = reason }) }
{
    FrameErr::Bad(Fault {
        bit: bit as u64,
        reason,
    })
}

/// Reads the field at a bit of the octets, which is at another bit of the frame.
#[inline(always)]
fn field_value(
    octets: &[u8],
    bit: usize,
    at: usize,
    stop: usize,
    rule: &Field,
) -> Result<u128, FrameErr>
    requires some { 1 ≤ rule.now.width }
    requires narrow { rule.now.width ≤ 96 }
    requires within { bit + rule.now.width ≤ 8 * length octets.now }
    requires room { at + rule.now.width ≤ stop }
    ensures { (later : List Bool) → FieldSays (field_rule rule.now) at stop
        (drop bit (digits_of_bytes octets.now ++ later)) result }
{
    let value = from_bit(octets, bit, rule.width);
    if rule.reserved {
        if value != 0 {
            return Err(bad(at, Reason::Reserved));
        }
    } else if value > rule.greatest {
        return Err(bad(at, Reason::Value));
    }
    Ok(value)
}

/// The first field, now that one more was read.
#[inline(always)]
fn first_of(next: u32, value: u128, known: u128) -> u128
    ensures { (values : List ℕ) → length values ≡ next → known ≡ first values
        → result ≡ first (values ++ value ∷ []) }
{
    if next == 0 { value } else { known }
}

/// Whether a node of this kind ends after its field.
#[inline(always)]
fn is_tv_kind(kind: Kind) -> bool
    ensures { result ≡ is_tv_kind kind }
{
    match kind {
        Kind::Message(_) => false,
        Kind::Parameter(kind) => llrp_schema::is_tv(kind),
    }
}

impl BodyReader {
    /// A reader of frames of a set of kinds that has read nothing.
    pub(crate) fn new(set: KindSet) -> BodyReader
        ensures { result.set ≡ set }
    {
        BodyReader {
            set,
            octets: 0,
            at: 0,
            bit: 0,
            first: 0,
            stage: Stage::Children,
            top: StackNode::default(),
            outer: ArrayVec::new(),
        }
    }

    /// Reads a field.
    #[inline(always)]
    fn field<L: Listener>(
        &mut self,
        listener: &mut L,
        octets: &[u8],
        next: u32,
        rule: &Field,
    ) -> Result<Step, FrameErr>
        requires some { 1 ≤ rule.now.width }
        requires narrow { rule.now.width ≤ 96 }
        requires place { next < 1000 }
        requires signed { rule.now.signed ≡ true → rule.now.width ≡ 8 }
        requires stage { self.old.stage ≡ Stage.Leading next }
        requires stop { self.old.top.stop ≤ MAX_LIMIT }
        requires bit { self.old.bit < 8 }
        requires before { 8 * self.old.at + self.old.bit ≤ 8 * self.old.top.stop }
        requires rule { (others : List FieldRule)
            × (drop next (fields_of self.old.top.kind) ≡ field_rule rule.now ∷ others) }
        requires reads { HasComeTo (L.begins listener.old) self.old octets.now }
        ensures { StepsOnField (L.begins listener.old) (L.begins listener.new)
            (L.stands listener.new) self.old self.new octets.now next (field_rule rule.now) result }
    {
        let width = rule.width as usize;
        let bit = self.bit as usize;
        let at = 8 * self.at as usize + bit;
        let stop = 8 * self.top.stop as usize;
        if stop - at < width {
            return Err(bad(at, Reason::Short));
        }
        let end = bit + width;
        if octets.len() < end.div_ceil(8) {
            return Ok(Step::Waits);
        }
        let value = field_value(octets, bit, at, stop, rule)?;
        listener.field(rule, value)?;
        self.first = first_of(next, value, self.first);
        self.stage = Stage::Leading(next + 1);
        self.at += (end / 8) as u32;
        self.bit = (end % 8) as u32;
        Ok(Step::Goes(end / 8))
    }

    /// Reads the next field or the tail of the innermost node.
    #[inline(always)]
    fn leading<L: Listener>(
        &mut self,
        listener: &mut L,
        octets: &[u8],
        next: u32,
    ) -> Result<Step, FrameErr>
        requires stage { self.old.stage ≡ Stage.Leading next }
        requires stop { self.old.top.stop ≤ MAX_LIMIT }
        requires bit { self.old.bit < 8 }
        requires before { 8 * self.old.at + self.old.bit ≤ 8 * self.old.top.stop }
        requires reads { HasComeTo (L.begins listener.old) self.old octets.now }
        ensures { StepsOn (L.begins listener.old) (L.begins listener.new) (L.stands listener.new)
            self.old self.new octets.now result }
    {
        let rules = llrp_schema::fields(self.top.kind);
        if (next as usize) < rules.len() {
            return self.field(listener, octets, next, &rules[next as usize]);
        }
        let form = llrp_schema::tail(self.top.kind);
        let absent = is_absent(form);
        if absent {
            listener.ready()?;
            self.stage = Stage::Children;
            return Ok(Step::Goes(0));
        }
        self.begin_tail(listener, octets, form)
    }

    /// Closes the innermost node, whose octets end here.
    #[inline(always)]
    fn close<L: Listener>(&mut self, listener: &mut L) -> Result<Step, FrameErr>
        requires stage { self.old.stage ≡ Stage.Children }
        requires stop { self.old.top.stop ≤ MAX_LIMIT }
        requires some { HasCome (L.stands listener.old) self.old }
        requires over { (is_tv_kind self.old.top.kind ≡ true) ⊎ (self.old.top.stop ≤ self.old.at) }
        ensures { (octets : List ℕ) → StepsOn (L.stands listener.old) (L.begins listener.new)
            (L.stands listener.new) self.old self.new octets result }
    {
        let enough = is_enough(self.top.kind, self.top.seen);
        if !enough {
            return Err(bad(8 * self.top.stop as usize, Reason::Missing));
        }
        let Some(parent) = self.outer.pop() else {
            return Ok(Step::Ends);
        };
        listener.close()?;
        self.top = parent;
        Ok(Step::Goes(0))
    }

    /// Enters a child whose head has this many octets, and which stops at this octet.
    #[inline(always)]
    pub(crate) fn enter<L: Listener>(
        &mut self,
        listener: &mut L,
        child: Placed,
        used: u32,
        stop: u32,
    ) -> Result<Step, FrameErr>
        requires few { length self.old.outer.items < MAX_DEPTH }
        requires fits { self.old.at + used ≤ MAX_LIMIT }
        requires aligned { self.old.bit ≡ 0 }
        requires some { 1 ≤ used }
        requires told { (was : List ℕ) × (t : List Begun) × L.stands listener.old was t
            × (length t ≡ length self.old.outer.items + 1) }
        ensures steps { StepsInto (L.stands listener.old) (L.begins listener.new)
            (L.stands listener.new) self.old self.new child used stop result }
        ensures goes { IfOk result (λ step. step ≡ Step.Goes used) }
        ensures memory { IfErr result (λ error. error ≡ Memory) }
        ensures kind { OnOk result (self.new.top.kind ≡ Parameter child.kind) }
        ensures stage { OnOk result (self.new.stage ≡ Stage.Leading 0) }
        ensures stop { OnOk result (self.new.top.stop ≡ stop) }
        ensures place { OnOk result (self.new.at ≡ self.old.at + used) }
    {
        let level = self.outer.len() as u8 + 1;
        listener.parameter(level, child.kind, stop)?;
        self.top.seen = child.seen;
        self.outer.push(self.top);
        self.top = begun(Kind::Parameter(child.kind), stop);
        self.stage = Stage::Leading(0);
        self.first = 0;
        self.at += used;
        Ok(Step::Goes(used as usize))
    }

    /// Begins a child of the innermost node. It is a call, so that `child_or_end` stays small enough to be inlined.
    #[inline(never)]
    pub(crate) fn begin<L: Listener>(
        &mut self,
        listener: &mut L,
        octets: &[u8],
    ) -> Result<Step, FrameErr>
        requires stage { self.old.stage ≡ Stage.Children }
        requires stop { self.old.top.stop ≤ MAX_LIMIT }
        requires some { HasCome (L.stands listener.old) self.old }
        requires room { self.old.at < self.old.top.stop }
        requires long { is_tv_kind self.old.top.kind ≡ false }
        ensures { StepsOn (L.stands listener.old) (L.begins listener.new) (L.stands listener.new)
            self.old self.new octets.now result }
    {
        let level = self.outer.len() as u8 + 1;
        let child = child_head(
            octets,
            self.at as usize,
            self.top.stop as usize,
            self.top.kind,
            self.top.seen,
            level,
        )?;
        match child {
            Child::Unfinished => Ok(Step::Waits),
            Child::Short(placed) => self.enter(listener, placed, 1, self.top.stop),
            Child::Long(placed, size) => self.enter(listener, placed, 4, self.at + size as u32),
        }
    }

    /// Closes the innermost node if its octets end here, and begins a child of it otherwise.
    #[inline(always)]
    fn child_or_end<L: Listener>(
        &mut self,
        listener: &mut L,
        octets: &[u8],
    ) -> Result<Step, FrameErr>
        requires stage { self.old.stage ≡ Stage.Children }
        requires stop { self.old.top.stop ≤ MAX_LIMIT }
        requires some { HasComeTo (L.stands listener.old) self.old octets.now }
        ensures { StepsOn (L.stands listener.old) (L.begins listener.new) (L.stands listener.new)
            self.old self.new octets.now result }
    {
        let over = self.at >= self.top.stop || is_tv_kind(self.top.kind);
        if over {
            return self.close(listener);
        }
        let head = self.begin_known(listener, octets)?;
        let rest = octets.split_at(head).1;
        let used = self.values(listener, rest)?;
        let all = head + used;
        if all > 0 {
            return Ok(Step::Goes(all));
        }
        self.begin_any(listener, octets)
    }

    /// Reads one part, or a row of parameters of type and value.
    #[inline(always)]
    pub(crate) fn step<L: Listener>(
        &mut self,
        listener: &mut L,
        octets: &[u8],
    ) -> Result<Step, FrameErr>
        requires { AreBefore (L.begins listener.old) (L.stands listener.old) self.old octets.now }
        ensures { StepsFrom (L.begins listener.old) (L.stands listener.old) (L.begins listener.new)
            (L.stands listener.new) self.old self.new octets.now result }
    {
        match self.stage {
            Stage::Leading(next) => self.leading(listener, octets, next),
            Stage::Tail(left) => self.tail(listener, octets, left),
            Stage::Children => self.child_or_end(listener, octets),
        }
    }

    /// Does a step, and hands its fault to the listener, with the octets from the part on that has it.
    #[inline(always)]
    fn take_part<L: Listener>(&mut self, listener: &mut L, octets: &[u8]) -> Result<Step, FrameErr>
        requires { AreBefore (L.begins listener.old) (L.stands listener.old) self.old octets.now }
        ensures { HandsFrom (L.begins listener.old) (L.stands listener.old) (L.begins listener.new)
            (L.stands listener.new) (L.faulty listener.new) self.old self.new octets.now result }
    {
        match self.step(listener, octets) {
            Ok(step) => Ok(step),
            Err(FrameErr::Memory) => Err(FrameErr::Memory),
            Err(FrameErr::Bad(fault)) => {
                let stopped = Stopped {
                    node: self.top,
                    stage: self.stage,
                    first: self.first,
                };
                hand(listener, fault, Some(stopped), octets);
                Err(FrameErr::Bad(fault))
            }
        }
    }

    /// Reads all parts that are whole in the octets.
    pub(crate) fn read<L: Listener>(
        &mut self,
        listener: &mut L,
        octets: &[u8],
    ) -> Result<ReadParts, FrameErr>
        requires { AreBefore (L.begins listener.old) (L.stands listener.old) self.old octets.now }
        ensures { ReadsFrom (L.begins listener.old) (L.stands listener.old) (L.begins listener.new)
            (L.stands listener.new) (L.faulty listener.new) self.old self.new octets.now result }
    {
        let mut rest = octets;
        'parts: loop {
            match self.take_part(listener, rest)? {
                Step::Waits => {
                    return Ok(ReadParts {
                        used: octets.len() - rest.len(),
                        whole: false,
                    });
                }
                Step::Ends => {
                    return Ok(ReadParts {
                        used: octets.len() - rest.len(),
                        whole: true,
                    });
                }
                Step::Goes(used) => rest = rest.split_at(used).1,
            }
        }
    }
}
