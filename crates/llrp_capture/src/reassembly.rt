//! One side of a connection, put together.

ghost use Rattle.std.specs.Prelude.{ℕ, ◌≡◌, ◌<◌, ◌≤◌, ◌++◌, List, IfOk, OnOk, length};

use crate::place::{TURN, part_from, place_of};
use crate::window::{cover, drop_front, missing, push_leading};
use std::alloc::{AllocError, Global};

/// How far from the next octet those that wait may reach.
pub const REACH: usize = 65_536;

/// How many octets a side may have.
const MOST: u64 = 1 << 62;

/// Whether a segment was taken.
#[derive(Clone, Copy, Debug, PartialEq, Eq)]
pub enum Took {
    /// It was.
    Taken,
    /// It reaches too far beyond the next octet, and nothing changed.
    Beyond,
}

/// Why nothing more is taken.
#[derive(Clone, Copy, Debug, PartialEq, Eq)]
pub enum TakeErr {
    /// The side has more than 2^62 octets.
    Long,
    /// Memory ran out.
    Memory,
}

/// One side of a connection of which some segments came.
#[derive(Drop)]
pub struct Reassembly {
    /// The place of the octet that is handed on next.
    here: u64,
    /// The octets from there on that came already.
    waiting: Vec<Option<u8>>,
}

impl Reassembly {
    ghost use Rattle.llrp_capture.specs.Calls.Reassembly.{Begins, GivesUp, IsSound, NothingWaits, SkipsTo, Takes};
    ghost use Rattle.llrp_capture.specs.Private.Sides.{HandsOn, Passes, TakesPart};

    /// A side whose first octet has this sequence number; it takes no memory. After a segment with SYN that
    /// is the number after the segment's own, and otherwise the segment's own.
    pub fn new(alloc: Global, sequence: u32) -> Reassembly
        ensures sound { IsSound result }
        ensures begins { Begins sequence result }
    {
        Reassembly {
            here: TURN + sequence as u64,
            waiting: Vec::new(alloc),
        }
    }

    /// Hands on the octets that stand from the next place on without a gap.
    fn hand_on(&mut self, handed: &mut Vec<u8>) -> Result<(), AllocError>
        requires { self.old.here < 9223372036854775808 }
        ensures { OnOk result ((more : List ℕ) × (handed.new.items ≡ handed.old.items ++ more)
            × HandsOn self.old more self.new) }
    {
        let count = push_leading(self.waiting.as_slice(), handed)?;
        drop_front(&mut self.waiting, count);
        self.here += count as u64;
        Ok(())
    }

    /// Takes octets that stand this far ahead of the next place.
    fn take_part(
        &mut self,
        ahead: usize,
        octets: &[u8],
        handed: &mut Vec<u8>,
    ) -> Result<(), AllocError>
        requires high { self.old.here < 4611686018427387904 }
        requires near { ahead < 4611686018427387904 }
        ensures { OnOk result ((more : List ℕ) × (handed.new.items ≡ handed.old.items ++ more)
            × TakesPart ahead octets.now self.old more self.new) }
    {
        cover(&mut self.waiting, ahead, octets)?;
        self.hand_on(handed)
    }

    /// Takes a segment with this sequence number, and appends to `handed` what is now without a gap. After an
    /// error nothing more is to be taken.
    pub fn take(
        &mut self,
        sequence: u32,
        octets: &[u8],
        handed: &mut Vec<u8>,
    ) -> Result<Took, TakeErr>
        requires { IsSound self.old }
        ensures sound { OnOk result (IsSound self.new) }
        ensures takes { IfOk result (λ took. Takes took sequence octets.now self.old self.new handed.old.items handed.new.items) }
    {
        if self.here >= MOST {
            return Err(TakeErr::Long);
        }
        let place = place_of(self.here, sequence);
        let (ahead, rest) = part_from(self.here, place, octets);
        if ahead > 0 && ahead + rest.len() as u64 > REACH as u64 {
            return Ok(Took::Beyond);
        }
        match self.take_part(ahead as usize, rest, handed) {
            Ok(()) => Ok(Took::Taken),
            Err(_) => Err(TakeErr::Memory),
        }
    }

    /// Gives up the octets that are missing before the first one that waits, and appends to `handed` what
    /// stands from that one on without a gap. Returns how many are given up; `None` means that no octet
    /// waits, and nothing changed.
    pub fn give_up(&mut self, handed: &mut Vec<u8>) -> Result<Option<u64>, TakeErr>
        requires { IsSound self.old }
        ensures sound { OnOk result (IsSound self.new) }
        ensures gives_up { IfOk result (λ lost. GivesUp lost self.old self.new handed.old.items handed.new.items) }
    {
        if self.here >= MOST {
            return Err(TakeErr::Long);
        }
        let Some(lost) = missing(self.waiting.as_slice()) else {
            return Ok(None);
        };
        match self.pass(lost, handed) {
            Ok(()) => Ok(Some(lost as u64)),
            Err(_) => Err(TakeErr::Memory),
        }
    }

    /// Passes places, and hands on what stands after them.
    fn pass(&mut self, count: usize, handed: &mut Vec<u8>) -> Result<(), AllocError>
        requires high { self.old.here < 4611686018427387904 }
        requires few { length self.old.waiting.items ≤ 65536 }
        requires within { count ≤ length self.old.waiting.items }
        ensures { OnOk result ((more : List ℕ) × (handed.new.items ≡ handed.old.items ++ more)
            × Passes count self.old more self.new) }
    {
        drop_front(&mut self.waiting, count);
        self.here += count as u64;
        self.hand_on(handed)
    }

    /// Goes on at the place of a segment, where no octet waits. Returns how many octets before it are given
    /// up.
    pub fn skip_to(&mut self, sequence: u32) -> Result<u64, TakeErr>
        requires sound { IsSound self.old }
        requires nothing { NothingWaits self.old }
        ensures sound { OnOk result (IsSound self.new) }
        ensures skips { IfOk result (λ lost. SkipsTo sequence lost self.old self.new) }
    {
        if self.here >= MOST {
            return Err(TakeErr::Long);
        }
        let place = place_of(self.here, sequence);
        let lost = place.saturating_sub(self.here);
        self.waiting.clear();
        self.here += lost;
        Ok(lost)
    }
}
