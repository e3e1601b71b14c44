//! A table that says how many digits company prefixes have, as GS1 publishes one.

ghost use Rattle.std.specs.Prelude.{◌≡◌, [], false, None, MatchOption, IfErr, OnErr, OnOk};
ghost use Rattle.tag_forms.specs.declared.prefixes.PrefixErr.{PrefixErr};
ghost use Rattle.tag_forms.specs.Prefixes.{Adds, Counts, HasNoStart, HasOther, HasStart, IsLongest, begins_with};
ghost use Rattle.tag_forms.specs.Private.Prefixes.{IsBetter};

use std::alloc::Global;

/// How many digits the company prefixes have that begin with some digits.
#[derive(Drop)]
pub struct Entry {
    /// The digits that they begin with.
    pub(crate) start: Vec<u8>,
    /// How many digits they have.
    pub(crate) company_digits: u8,
}

/// The longer of two entries that some digits begin with, the first where they are equally long.
fn longer<'a>(best: Option<&'a Entry>, entry: &'a Entry, digits: &[u8]) -> Option<&'a Entry>
    ensures { MatchOption result (best.entry ≡ None × (begins_with digits.now entry.now ≡ false))
        (λ x. IsBetter digits.now best.entry entry.now x.now) }
{
    if !digits.starts_with(entry.start.as_slice()) {
        return best;
    }
    match best {
        Some(other) if entry.start.len() <= other.start.len() => best,
        _ => Some(entry),
    }
}

/// The entry with the longest start that some digits begin with.
fn longest<'a>(entries: &'a [Entry], digits: &[u8]) -> Option<&'a Entry>
    ensures { IsLongest entries.now digits.now result }
{
    let mut best = None;
    for entry in entries {
        best = longer(best, entry, digits);
    }
    best
}

/// The entry with this start.
fn entry_with<'a>(entries: &'a [Entry], start: &[u8]) -> Option<&'a Entry>
    ensures { MatchOption result (HasNoStart entries.now start.now) (λ x. HasStart entries.now start.now x.now) }
{
    for entry in entries {
        if entry.start.as_slice() == start {
            return Some(entry);
        }
    }
    None
}

/// Why an entry is not added to a table.
#[derive(Clone, Copy, PartialEq, Eq, Debug)]
pub enum PrefixErr {
    /// The table has another number of digits for the same start.
    Two,
    /// Memory ran out.
    Memory,
}

/// A table of how many digits company prefixes have, by the digits that they begin with.
#[derive(Drop)]
pub struct Prefixes {
    entries: Vec<Entry>,
}

impl Prefixes {
    /// A table without entries.
    pub fn new(alloc: Global) -> Prefixes
        ensures { result.entries.items ≡ [] }
    {
        Prefixes {
            entries: Vec::new(alloc),
        }
    }

    /// Adds that company prefixes that begin with `start` have this many digits, if the table does not say so already. After an error
    /// the table is as it was.
    pub fn add(&mut self, alloc: Global, start: &[u8], company_digits: u8) -> Result<(), PrefixErr>
        ensures ok { OnOk result (Adds self.old.entries.items start.now company_digits self.new.entries.items) }
        ensures two { IfErr result (λ e. e ≡ PrefixErr.Two
            → HasOther self.old.entries.items start.now company_digits) }
        ensures same { OnErr result (self.new.entries.items ≡ self.old.entries.items) }
    {
        if let Some(entry) = entry_with(self.entries.as_slice(), start) {
            return if entry.company_digits == company_digits {
                Ok(())
            } else {
                Err(PrefixErr::Two)
            };
        }
        let Ok(start) = Vec::from_slice(alloc, start) else {
            return Err(PrefixErr::Memory);
        };
        let entry = Entry {
            start,
            company_digits,
        };
        match self.entries.push(entry) {
            Ok(()) => Ok(()),
            Err(_) => Err(PrefixErr::Memory),
        }
    }

    /// How many digits the company prefix has that these digits begin with, by the entry with the longest start.
    pub fn company_digits(&self, digits: &[u8]) -> Option<u8>
        ensures { Counts self.now.entries.items digits.now result }
    {
        match longest(self.entries.as_slice(), digits) {
            Some(entry) => Some(entry.company_digits),
            None => None,
        }
    }
}
