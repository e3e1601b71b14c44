//! The open lines, and the octets of what is not written yet.

ghost use Rattle.std.specs.Prelude.{◌≡◌, ◌+◌, ◌<◌, ◌≤◌, IfErr, List, OnErr, OnOk, [], length, true, false, ℕ};
ghost use Rattle.llrp_tree.specs.declared.TheConstants.{MAX_DEPTH};
ghost use Rattle.llrp_listing.specs.NodeLine.{NodeLine};
ghost use Rattle.llrp_listing.specs.Private.EncodeBuffer.{BeginsLine, ClosedAll, ClosedTo, ClosesMessage, ClosesOne, Fails, FailsMessage, FailsOne, Holds, HoldsAbove, HoldsDeep, HoldsMessage, HoldsSome, KeepsFront, Opens, all_kept, cut_to, inner, row_count, settled, value_record, with_four, with_two};
ghost use Rattle.llrp_listing.specs.Private.OpenNodes.{OpenNode};
ghost use Rattle.llrp_listing.specs.Private.TakingLines.{Rests};

use crate::encode::close_line::{add_child, fault_of};
use crate::encode::open_lines::{LineRecord, OpenLines, ValueRecord};
use crate::outcome::Refusal;
use llrp_schema::Kind;
use std::alloc::Global;

/// A refused line, by its number, and the reason.
#[derive(Clone, Copy)]
pub struct Refused {
    pub number: u64,
    pub reason: Refusal,
}

/// The octets of closed messages, followed by those of the open lines, which have zeros in place of
/// the lengths that are not known yet.
#[derive(Drop)]
pub struct EncodeBuffer {
    pub room: Vec<u8>,
    /// Where the octets of the open lines begin.
    pub from: usize,
    /// Whether those octets are all there. If not, their message cannot be closed.
    pub kept: bool,
    pub rows: OpenLines,
    pub limit: u32,
}

/// Writes a number into two octets.
#[inline(always)]
fn put_two(room: &mut [u8], at: usize, number: u32)
    requires room { at + 2 ≤ length room.old }
    requires small { number < 65536 }
    ensures { room.new ≡ with_two at number room.old }
{
    room[at] = (number / 256) as u8;
    room[at + 1] = (number % 256) as u8;
}

/// Writes a number into four octets.
#[inline(always)]
fn put_four(room: &mut [u8], at: usize, number: u32)
    requires { at + 4 ≤ length room.old }
    ensures { room.new ≡ with_four at number room.old }
{
    put_two(room, at, number / 65536);
    put_two(room, at + 2, number % 65536);
}

/// Writes the length of a parameter whose octets end at this place.
#[inline(always)]
fn settle(room: &mut [u8], kept: bool, tv: bool, at: usize, octets: u32)
    requires room { at ≤ length room.old }
    requires octets { kept ≡ true → tv ≡ false → (4 ≤ octets) × (octets ≤ at) × (octets < 65536) }
    ensures { room.new ≡ settled kept tv at octets room.old }
{
    if kept && !tv {
        put_two(room, at - octets as usize + 2, octets);
    }
}

/// Whether the octets of all open lines are kept.
#[inline(always)]
fn is_kept(kept: bool, put: bool, octets: usize, limit: u32) -> bool
    ensures { result ≡ all_kept kept put octets limit }
{
    kept && put && octets <= limit as usize
}

/// Keeps only the first octets, unless all of them are there.
#[inline(always)]
fn cut(room: &mut Vec<u8>, from: usize, kept: bool)
    requires { from ≤ length room.old.items }
    ensures { room.new.items ≡ cut_to kept from room.old.items }
{
    if !kept {
        room.truncate(from);
    }
}

impl EncodeBuffer {
    /// Nothing is written yet, and no line is open.
    pub fn new(alloc: Global, limit: u32) -> EncodeBuffer
        ensures rests { Rests result [] [] }
        ensures none_left { result.from ≡ 0 }
        ensures limit { result.limit ≡ limit }
    {
        EncodeBuffer {
            room: Vec::new(alloc),
            from: 0,
            kept: true,
            rows: OpenLines::new(),
            limit,
        }
    }

    /// Closes the innermost line, which is a parameter's and whose octets end at this place.
    #[inline(always)]
    fn close_top(&mut self, at: usize) -> Result<(), Refused>
        requires { HoldsAbove self.old at 1 }
        ensures closed { OnOk result (ClosesOne self.old self.new at) }
        ensures plain { OnOk result (self.new.rows.ends_in_value ≡ false) }
        ensures limit { self.new.limit ≡ self.old.limit }
        ensures front { OnErr result (KeepsFront self.old self.new at) }
        ensures stopped { IfErr result (FailsOne self.old at) }
    {
        let Some(top) = self.rows.pop() else {
            unreachable!()
        };
        let Some(parent) = self.rows.top() else {
            unreachable!()
        };
        let Kind::Parameter(kind) = top.kind else {
            unreachable!()
        };
        match fault_of(&top) {
            Some(fault) => Err(Refused {
                number: top.number,
                reason: Refusal::Node(fault),
            }),
            None => {
                let tv = llrp_schema::is_tv(kind);
                settle(self.room.as_mut_slice(), self.kept, tv, at, top.octets);
                let parent = add_child(parent, &top, kind);
                self.rows.set_top(parent);
                Ok(())
            }
        }
    }

    /// Closes the innermost lines until only this many are open.
    #[inline(always)]
    fn close_to(&mut self, depth: usize, at: usize) -> Result<(), Refused>
        requires least { 1 ≤ depth }
        requires some { HoldsSome self.old at }
        ensures closed { OnOk result ((out more : List ℕ) (ns : List OpenNode)
            → Holds self.old at out more ns → ClosedTo self.new at depth out more ns) }
        ensures limit { self.new.limit ≡ self.old.limit }
        ensures front { OnErr result (KeepsFront self.old self.new at) }
        ensures stopped { IfErr result (λ e. (limit : ℕ) (out more : List ℕ) (ns : List OpenNode)
            → Holds self.old at out more ns → Fails limit depth ns e) }
    {
        'lines: while self.rows.depth() > depth {
            self.close_top(at)?;
        }
        Ok(())
    }

    /// Closes the message whose line is the only open one, and whose octets end at this place.
    fn close_message(&mut self, at: usize) -> Result<(), Refused>
        requires { HoldsMessage self.old at }
        ensures closed { OnOk result (ClosesMessage self.old self.new at) }
        ensures limit { self.new.limit ≡ self.old.limit }
        ensures front { OnErr result (KeepsFront self.old self.new at) }
        ensures stopped { IfErr result (FailsMessage self.old at) }
    {
        let Some(top) = self.rows.pop() else {
            unreachable!()
        };
        let number = top.number;
        match fault_of(&top) {
            Some(fault) => Err(Refused {
                number,
                reason: Refusal::Node(fault),
            }),
            None => {
                if top.octets > self.limit {
                    return Err(Refused {
                        number,
                        reason: Refusal::OverLimit,
                    });
                }
                put_four(self.room.as_mut_slice(), self.from + 2, top.octets);
                self.from = at;
                Ok(())
            }
        }
    }

    /// Closes all lines, whose octets end at this place.
    pub fn close_all(&mut self, at: usize) -> Result<(), Refused>
        requires { HoldsSome self.old at }
        ensures closed { OnOk result ((out more : List ℕ) (ns : List OpenNode)
            → Holds self.old at out more ns → ClosedAll self.old.limit self.new at out more ns) }
        ensures limit { self.new.limit ≡ self.old.limit }
        ensures front { OnErr result (KeepsFront self.old self.new at) }
        ensures stopped { IfErr result (λ e. (out more : List ℕ) (ns : List OpenNode)
            → Holds self.old at out more ns → Fails self.old.limit 0 ns e) }
    {
        if self.rows.depth() == 0 {
            return Ok(());
        }
        self.close_to(1, at)?;
        self.close_message(at)
    }

    /// Opens a line, whose octets are the last ones if they were put there. Octets that no message
    /// can have are dropped.
    #[inline(always)]
    fn begin(&mut self, held: LineRecord, put: bool)
        requires some { (at : ℕ) × HoldsSome self.old at }
        requires few { length (inner self.old.rows) ≤ MAX_DEPTH }
        ensures begun { BeginsLine self.old self.new held put }
        ensures limit { self.new.limit ≡ self.old.limit }
    {
        let octets = self.room.len() - self.from;
        let kept = is_kept(self.kept, put, octets, self.limit);
        cut(&mut self.room, self.from, kept);
        self.kept = kept;
        self.rows.push(held);
    }

    /// Closes the innermost line if it was opened as one with a value alone.
    #[inline(always)]
    fn close_value(&mut self, at: usize) -> Result<(), Refused>
        requires some { HoldsSome self.old at }
        requires least { 1 ≤ row_count self.old.rows }
        ensures closed { OnOk result ((out more : List ℕ) (ns : List OpenNode)
            → Holds self.old at out more ns
            → ClosedTo self.new at (row_count self.old.rows) out more ns) }
        ensures plain { OnOk result (self.new.rows.ends_in_value ≡ false) }
        ensures limit { self.new.limit ≡ self.old.limit }
        ensures front { OnErr result (KeepsFront self.old self.new at) }
        ensures stopped { IfErr result (λ e. (limit : ℕ) (out more : List ℕ) (ns : List OpenNode)
            → Holds self.old at out more ns → Fails limit (row_count self.old.rows) ns e) }
    {
        if self.rows.has_value() {
            self.close_top(at)?;
        }
        Ok(())
    }

    /// Opens a line with a value alone, whose octets are the last ones.
    #[inline(always)]
    fn begin_value(&mut self, value: ValueRecord)
        requires plain { self.old.rows.ends_in_value ≡ false }
        requires some { (at : ℕ) × HoldsSome self.old at }
        ensures begun { BeginsLine self.old self.new (value_record value) true }
        ensures limit { self.new.limit ≡ self.old.limit }
    {
        let octets = self.room.len() - self.from;
        let kept = is_kept(self.kept, true, octets, self.limit);
        cut(&mut self.room, self.from, kept);
        self.kept = kept;
        self.rows.push_value(value);
    }

    /// Closes the innermost line if it has a value alone, and opens another such line at its level.
    #[inline(always)]
    pub fn open_value(&mut self, value: ValueRecord, at: usize) -> Result<(), Refused>
        requires some { HoldsDeep self.old at (row_count self.old.rows) }
        requires least { 1 ≤ row_count self.old.rows }
        ensures opened { OnOk result (Opens self.old self.new (value_record value) true at
            (row_count self.old.rows)) }
        ensures limit { self.new.limit ≡ self.old.limit }
        ensures front { OnErr result (KeepsFront self.old self.new at) }
        ensures stopped { IfErr result (λ e. (out more : List ℕ) (ns : List OpenNode)
            → Holds self.old at out more ns
            → Fails self.old.limit (row_count self.old.rows) ns e) }
    {
        self.close_value(at)?;
        self.begin_value(value);
        Ok(())
    }

    /// Closes all lines, whose octets end at this place, and opens a message's line.
    #[inline(always)]
    fn open_message(&mut self, held: LineRecord, put: bool, at: usize) -> Result<(), Refused>
        requires { HoldsSome self.old at }
        ensures opened { OnOk result (Opens self.old self.new held put at 0) }
        ensures limit { self.new.limit ≡ self.old.limit }
        ensures front { OnErr result (KeepsFront self.old self.new at) }
        ensures stopped { IfErr result (λ e. (out more : List ℕ) (ns : List OpenNode)
            → Holds self.old at out more ns → Fails self.old.limit 0 ns e) }
    {
        self.close_all(at)?;
        self.begin(held, put);
        Ok(())
    }

    /// Closes the lines at this level or deeper, whose octets end at this place, and opens a
    /// parameter's line.
    #[inline(always)]
    fn open_parameter(
        &mut self,
        level: usize,
        held: LineRecord,
        put: bool,
        at: usize,
    ) -> Result<(), Refused>
        requires some { HoldsDeep self.old at level }
        requires least { 1 ≤ level }
        ensures opened { OnOk result (Opens self.old self.new held put at level) }
        ensures limit { self.new.limit ≡ self.old.limit }
        ensures front { OnErr result (KeepsFront self.old self.new at) }
        ensures stopped { IfErr result (λ e. (out more : List ℕ) (ns : List OpenNode)
            → Holds self.old at out more ns → Fails self.old.limit level ns e) }
    {
        self.close_to(level, at)?;
        self.begin(held, put);
        Ok(())
    }

    /// Closes the lines at this level or deeper, whose octets end at this place, and opens the line
    /// that was read.
    #[inline(always)]
    pub fn open_line(
        &mut self,
        level: usize,
        held: LineRecord,
        put: bool,
        at: usize,
    ) -> Result<(), Refused>
        requires { HoldsDeep self.old at level }
        ensures opened { OnOk result (Opens self.old self.new held put at level) }
        ensures limit { self.new.limit ≡ self.old.limit }
        ensures front { OnErr result (KeepsFront self.old self.new at) }
        ensures stopped { IfErr result (λ e. (out more : List ℕ) (ns : List OpenNode)
            → Holds self.old at out more ns → Fails self.old.limit level ns e) }
    {
        if level == 0 {
            return self.open_message(held, put, at);
        }
        self.open_parameter(level, held, put, at)
    }
}
