//! The records of open lines.

ghost use Rattle.std.specs.Prelude.{◌≡◌, ◌+◌, ◌≤◌, ◌∷◌, List, [], drop, false, length, true, MatchOption};
ghost use Rattle.llrp_tree.specs.declared.TheConstants.{MAX_DEPTH};
ghost use Rattle.llrp_listing.specs.declared.encode.open_lines.LineRecord.{LineRecord};
ghost use Rattle.llrp_listing.specs.Private.EncodeBuffer.{inner, row_count, value_record};

use arrayvec::ArrayVec;
use llrp_schema::{Kind, MsgKind, ParamKind};
use llrp_tree::{MAX_DEPTH, NodeFault};

/// The most lines that are open at once: one of a message, and one of each level of parameters.
pub const MOST_ROWS: usize = MAX_DEPTH as usize + 1;

/// The record of an open line.
#[derive(Clone, Copy)]
pub struct LineRecord {
    pub kind: Kind,
    /// The line's number.
    pub number: u64,
    /// The first test that it fails, of those that further children cannot change.
    pub fault: Option<NodeFault>,
    /// The groups that have a child.
    pub seen: u32,
    /// How many levels of closed parameters are below it.
    pub levels: u8,
    /// How many octets it has, with the closed parameters below it.
    pub octets: u32,
}

impl Default for LineRecord {
    fn default() -> LineRecord {
        LineRecord {
            kind: Kind::Message(MsgKind::Keepalive),
            number: 0,
            fault: None,
            seen: 0,
            levels: 0,
            octets: 0,
        }
    }
}

/// The record of an open line of a parameter that passes all tests of its own, and has nothing below it.
#[derive(Clone, Copy)]
pub struct ValueRecord {
    pub kind: ParamKind,
    /// The line's number.
    pub number: u64,
    /// How many octets it has.
    pub octets: u32,
}

/// The record of such a line as that of any line.
#[inline(always)]
fn record_of(value: ValueRecord) -> LineRecord
    ensures { result ≡ value_record value }
{
    LineRecord {
        kind: Kind::Parameter(value.kind),
        number: value.number,
        fault: None,
        seen: 0,
        levels: 0,
        octets: value.octets,
    }
}

/// The records of the open lines, the innermost last.
#[derive(Drop)]
pub struct OpenLines {
    pub items: ArrayVec<LineRecord, MOST_ROWS>,
    /// Whether the innermost line was opened as one with a value alone. It then has no row.
    pub ends_in_value: bool,
    /// That line, if there is one.
    pub value: ValueRecord,
}

impl OpenLines {
    /// No open line.
    pub fn new() -> OpenLines
        ensures { inner result ≡ [] }
    {
        OpenLines {
            items: ArrayVec::new(),
            ends_in_value: false,
            value: ValueRecord {
                kind: ParamKind::AntennaId,
                number: 0,
                octets: 0,
            },
        }
    }

    /// How many lines are open.
    #[inline(always)]
    pub fn depth(&self) -> usize
        ensures { result ≡ length (inner self.now) }
    {
        if self.ends_in_value {
            return self.items.len() + 1;
        }
        self.items.len()
    }

    /// The level of the next line that comes after the innermost one, if that has a value alone, or else below it.
    #[inline(always)]
    pub fn values_level(&self) -> usize
        ensures rows { result ≡ row_count self.now }
        ensures within { result ≤ length (inner self.now) }
    {
        self.items.len()
    }

    /// Whether the innermost line was opened as one with a value alone.
    #[inline(always)]
    pub fn has_value(&self) -> bool
        ensures yes { result ≡ true → length (inner self.now) ≡ row_count self.now + 1 }
        ensures no { result ≡ false → self.now.ends_in_value ≡ false }
    {
        self.ends_in_value
    }

    /// Adds the record of one more open line.
    #[inline(always)]
    pub fn push(&mut self, held: LineRecord)
        requires { length (inner self.old) ≤ MAX_DEPTH }
        ensures { inner self.new ≡ held ∷ inner self.old }
    {
        if self.ends_in_value {
            self.items.push(record_of(self.value));
            self.ends_in_value = false;
        }
        self.items.push(held);
    }

    /// Adds the record of one more open line, which has a value alone, where the innermost is none
    /// such.
    #[inline(always)]
    pub fn push_value(&mut self, value: ValueRecord)
        requires { self.old.ends_in_value ≡ false }
        ensures { inner self.new ≡ value_record value ∷ inner self.old }
    {
        self.value = value;
        self.ends_in_value = true;
    }

    /// Removes the record of the innermost line, and returns it.
    #[inline(always)]
    pub fn pop(&mut self) -> Option<LineRecord>
        ensures popped { MatchOption result (inner self.old ≡ []) (λ held. inner self.old ≡ held
            ∷ inner self.new) }
        ensures plain { self.new.ends_in_value ≡ false }
    {
        if self.ends_in_value {
            self.ends_in_value = false;
            return Some(record_of(self.value));
        }
        self.items.pop()
    }

    /// Returns the record of the innermost line, which has none with a value alone after it.
    #[inline(always)]
    pub fn top(&self) -> Option<&LineRecord>
        requires { self.now.ends_in_value ≡ false }
        ensures { MatchOption result (inner self.now ≡ []) (λ held. inner self.now ≡ held.now
            ∷ drop 1 (inner self.now)) }
    {
        self.items.as_slice().last()
    }

    /// Puts a record in place of the innermost line's, which is one of the same line.
    #[inline(always)]
    pub fn set_top(&mut self, held: LineRecord)
        requires plain { self.old.ends_in_value ≡ false }
        requires some { 1 ≤ length (inner self.old) }
        requires kind { (top : LineRecord) (rest : List LineRecord) → inner self.old ≡ top ∷ rest
            → (held.kind ≡ top.kind) × (held.number ≡ top.number) }
        ensures changed { inner self.new ≡ held ∷ drop 1 (inner self.old) }
        ensures plain { self.new.ends_in_value ≡ false }
    {
        let last = self.items.len() - 1;
        let top = &mut self.items.as_mut_slice()[last];
        top.fault = held.fault;
        top.seen = held.seen;
        top.levels = held.levels;
        top.octets = held.octets;
    }
}
