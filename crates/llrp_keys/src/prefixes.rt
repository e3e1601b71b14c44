//! Reads a table of how many digits company prefixes have: a line for each, as GS1 publishes them.

ghost use Rattle.std.specs.Prelude.{◌≡◌, ◌↔◌, ◌+◌, List, ℕ, IfErr, IfOk, IsTrue, MatchOption, length};
ghost use Rattle.tag_uri.specs.Calls.Decimal.{AreDigits};
ghost use Rattle.tag_keys.specs.KeyFaults.{IsNumber};
ghost use Rattle.tag_forms.specs.Prefixes.{Adds};
ghost use Rattle.llrp_keys.specs.PrefixLines.{Continues, IsPrefixLine, IsRefused, IsRefusedHere, IsTable, NoneContinues, ReadsTable};
ghost use Rattle.llrp_stream.specs.Device.{IsFreshSource};

use llrp_listing::{ToolErr, number_of, read_all, split_once};
use llrp_stream::Source;
use std::alloc::Global;
use tag_forms::{PrefixErr, Prefixes};

/// Why there is no table. Lines are counted from 1.
#[derive(Clone, Copy, Debug, PartialEq, Eq)]
pub enum TableErr {
    /// The source cannot be read to its end.
    Unread,
    /// This line is not what company prefixes begin with and their length.
    Line(u64),
    /// A line before this one gives another length for the same start.
    Two(u64),
    /// Memory ran out.
    Memory,
}

/// The greatest length of a company prefix.
const LONGEST: u64 = 12;

/// Whether each octet is one of the characters 0 to 9.
fn are_digits(octets: &[u8]) -> bool
    ensures { IsTrue result ↔ AreDigits octets.now }
{
    for octet in octets {
        if !octet.is_ascii_digit() {
            return false;
        }
    }
    true
}

/// Whether octets are one digit or more.
fn is_number(octets: &[u8]) -> bool
    ensures { IsTrue result ↔ IsNumber octets.now }
{
    !octets.is_empty() && are_digits(octets)
}

/// The start and the length that a line without its LF says.
fn start_of(line: &[u8]) -> Option<(&[u8], u8)>
    ensures { MatchOption result ((start : List ℕ) (count : ℕ) → IsPrefixLine line.now start count → ⊥)
        (λ x. IsPrefixLine line.now x.0.now x.1) }
{
    let (start, count) = split_once(line, b' ')?;
    let count = number_of(count, LONGEST)? as u8;
    if !is_number(start) {
        return None;
    }
    Some((start, count))
}

/// What the first line of a text says: a start and its length; and the text after that line.
fn next_start(text: &[u8]) -> Option<(&[u8], u8, &[u8])>
    ensures { MatchOption result (NoneContinues text.now) (λ x. Continues text.now x.0.now x.1 x.2.now) }
{
    let (line, rest) = split_once(text, b'\n')?;
    let (start, count) = start_of(line)?;
    Some((start, count, rest))
}

/// Adds to a table what the first line of a text says, which has this number, and returns the text after that line.
fn take_line<'a>(
    alloc: Global,
    table: &mut Prefixes,
    text: &'a [u8],
    number: u64,
) -> Result<&'a [u8], TableErr>
    ensures ok { IfOk result (λ rest. (start : List ℕ) × (count : ℕ)
        × Continues text.entry.now start count rest.now
        × Adds table.old.entries.items start count table.new.entries.items) }
    ensures err { IfErr result (λ e. IsRefusedHere number table.old.entries.items text.entry.now e) }
{
    let Some((start, count, rest)) = next_start(text) else {
        return Err(TableErr::Line(number));
    };
    match table.add(alloc, start, count) {
        Ok(()) => Ok(rest),
        Err(PrefixErr::Two) => Err(TableErr::Two(number)),
        Err(PrefixErr::Memory) => Err(TableErr::Memory),
    }
}

/// The table of a text's lines.
fn table_of(alloc: Global, text: &[u8]) -> Result<Prefixes, TableErr>
    ensures table { IfOk result (λ table. IsTable text.now table.entries.items) }
    ensures refused { IfErr result (λ e. IsRefused text.now e) }
{
    let mut table = Prefixes::new(alloc);
    let mut rest = text;
    let mut count = 0usize;
    'lines: while !rest.is_empty() {
        rest = take_line(alloc, &mut table, rest, count as u64 + 1)?;
        count += 1;
    }
    Ok(table)
}

/// Reads a table to the end of the source: lines `START LENGTH`, each ended by LF, which say that company prefixes that begin with the
/// digits START have LENGTH digits, from 0 to 12, in decimal without leading zeros. The errors name the first line that is refused.
pub fn read_prefixes<R: Source>(alloc: Global, r: &mut R) -> Result<Prefixes, TableErr>
    requires { IsFreshSource (R.log r.old) }
    ensures { ReadsTable (R.log r.old) (R.log r.new) result }
{
    let text = match read_all(alloc, r) {
        Ok(text) => text,
        Err(ToolErr::Memory) => return Err(TableErr::Memory),
        Err(_) => return Err(TableErr::Unread),
    };
    table_of(alloc, text.as_slice())
}
