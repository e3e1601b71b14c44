//! Scripts of the simulated reader: what its antennas see, and when.

ghost use Rattle.std.specs.Prelude.{◌<◌, ◌^◌, ◌≡◌, ◌↔◌, IfErr, IfOk, IsTrue, MatchOption, ℕ};
ghost use Rattle.tag_uri.specs.TagText.{IsTextOf};
ghost use Rattle.llrp_stream.specs.Device.{IsFreshSource};
ghost use Rattle.llrp_endpoints.specs.Calls.ReadScript.{ReadsScript};
ghost use Rattle.llrp_endpoints.specs.Calls.Script.{IsActionInRange, IsActionLine, IsEntryLine, IsInRange, IsLawfulScript, IsScript, IsSightingInRange, IsSightingLine, ParseStopped};
ghost use Rattle.llrp_endpoints.specs.Private.Script.{EndsBy, MayFollow};

mod lines;

use lines::{refusal_after, take_lines, take_piece};
use llrp_listing::{Pieces, ToolErr, number_of, signed_byte_of, split_once};
use llrp_session::Sighting;
use llrp_stream::Source;
use std::alloc::{AllocError, Global};
use std::marker::Model;
use std::str;
use tag_bits::Word;
use tag_uri::word_of_text;

/// The most entries of a script.
pub const MOST_ENTRIES: usize = 10_000;

/// How many octets of a line without its LF are awaited; an entry's line has no more.
pub const LONGEST_ENTRY: usize = 128;

/// What happens to the reader.
#[derive(Clone, Copy, Debug, PartialEq, Eq)]
pub enum Action {
    /// An antenna sees a tag.
    Seen(Sighting),
    /// Time passes.
    Tick,
}

/// A line of a script: what happens, and when.
#[derive(Clone, Copy, Debug, PartialEq, Eq)]
pub struct Entry {
    /// How many items the reader has taken before this; 0 means right after the connection.
    pub after: u64,
    /// The moment, in microseconds.
    pub now: u64,
    /// What happens then.
    pub action: Action,
}

/// The entries of a script in order, which contracts see as a list.
#[derive(Debug, Drop)]
pub struct Script {
    entries: Vec<Entry>,
}

impl Model for Script {
    ghost use Rattle.std.specs.Prelude.{List};
    ghost use Rattle.llrp_endpoints.specs.declared.script.Entry.{Entry};
    ghost use Rattle.llrp_endpoints.specs.Calls.Script.{IsLawfulScript};

    ghost Value = { List Entry };

    ghost view = { λ s. s.entries.items };

    ghost invariant = { λ s. IsLawfulScript s.entries.items };
}

impl Script {
    /// The script of a text: at most 10,000 lines `AFTER NOW seen ANTENNA RSSI TEXT` or `AFTER NOW tick`,
    /// each ended by LF and with single spaces, in which neither AFTER nor NOW falls from line to
    /// line. The numbers are in decimal without leading zeros; RSSI, in dBm, has a `-` if it is
    /// negative. TEXT is a tag URI or a raw URI (EPC Tag Data Standard 1.13, section 12).
    ///
    /// The errors are `Script` with the first line that is refused, counted from 1, and `Memory`.
    pub fn parse(alloc: Global, text: &[u8]) -> Result<Script, ToolErr>
        ensures script { IfOk result (λ entries. IsScript entries text.now) }
        ensures stopped { IfErr result (λ e. ParseStopped text.now e) }
    {
        let mut entries = Vec::new(alloc);
        let rest = take_lines(&mut entries, text)?;
        at_end(entries, rest)
    }

    /// The script that a source has, read to its end, or until a line is refused whatever follows: an
    /// ended line that is no entry's, 129 octets without LF, or an octet after 10,000 lines. So an
    /// endless input is refused, and no more than a line of it is kept.
    ///
    /// The errors are `Script` with the first line that is refused, counted from 1, `Read`, `Memory`,
    /// and `Bound` after the greatest number of reads.
    pub fn read<R: Source>(alloc: Global, r: &mut R) -> Result<Script, ToolErr>
        requires { IsFreshSource (R.log r.old) }
        ensures { ReadsScript (R.log r.old) (R.log r.new) result }
    {
        let mut entries = Vec::new(alloc);
        let mut line = Vec::new(alloc);
        let mut pieces = Pieces::new();
        while let Some(piece) = pieces.next(r)? {
            line.extend_from_slice(piece)?;
            line = take_piece(alloc, &mut entries, line.as_slice())?;
        }
        at_end(entries, line.as_slice())
    }

    /// The same script once more. The only error is that memory ran out.
    pub fn try_clone(&self, alloc: Global) -> Result<Script, AllocError>
        ensures { IfOk result (λ entries. entries ≡ self.now) }
    {
        Ok(Script {
            entries: self.entries.as_slice().to_vec(alloc)?,
        })
    }

    /// The entries in order.
    pub fn entries(&self) -> &[Entry]
        ensures entries { result.now ≡ self.now }
        ensures lawful { IsLawfulScript self.now }
    {
        self.entries.as_slice()
    }
}

/// The script of these entries, after whose lines the text ends so.
fn at_end(entries: Vec<Entry>, rest: &[u8]) -> Result<Script, ToolErr>
    requires { IsLawfulScript entries.items }
    ensures { EndsBy entries.items rest.now result }
{
    if rest.is_empty() {
        Ok(Script { entries })
    } else {
        Err(refusal_after(entries.as_slice()))
    }
}

/// Whether an entry may follow these: there is room for it, and neither AFTER nor NOW falls.
fn may_follow(entries: &[Entry], after: u64, now: u64) -> bool
    requires { IsLawfulScript entries.now }
    ensures { IsTrue result ↔ MayFollow entries.now after now }
{
    let Some(last) = entries.last() else {
        return true;
    };
    if entries.len() >= MOST_ENTRIES || after < last.after {
        return false;
    }
    last.now <= now
}

/// The entry of a line without its LF.
fn entry_of(line: &[u8]) -> Option<Entry>
    ensures { MatchOption result
        ((e : Entry) → IsInRange e → IsEntryLine e line.now → ⊥)
        (λ e. IsInRange e × IsEntryLine e line.now) }
{
    let (after, rest) = split_once(line, b' ')?;
    let (now, action) = split_once(rest, b' ')?;
    let after = number_of(after, u64::MAX)?;
    let now = number_of(now, u64::MAX)?;
    let action = action_of(action)?;
    Some(Entry { after, now, action })
}

/// The action of a line, read from what follows AFTER and NOW.
fn action_of(text: &[u8]) -> Option<Action>
    ensures { MatchOption result
        ((a : Action) → IsActionInRange a → IsActionLine a text.now → ⊥)
        (λ a. IsActionInRange a × IsActionLine a text.now) }
{
    if text == b"tick".as_slice() {
        return Some(Action::Tick);
    }
    let (word, sighting) = split_once(text, b' ')?;
    if word == b"seen".as_slice() {
        Some(Action::Seen(sighting_of(sighting)?))
    } else {
        None
    }
}

/// The sighting of a line, read from what follows `seen`.
fn sighting_of(text: &[u8]) -> Option<Sighting>
    ensures { MatchOption result
        ((s : Sighting) → IsSightingInRange s → IsSightingLine s text.now → ⊥)
        (λ s. IsSightingInRange s × IsSightingLine s text.now) }
{
    let (antenna, rest) = split_once(text, b' ')?;
    let (rssi, epc) = split_once(rest, b' ')?;
    let antenna = number_of(antenna, u16::MAX as u64)? as u16;
    let rssi = signed_byte_of(rssi)?;
    let epc = word_of(epc)?;
    Some(Sighting { antenna, rssi, epc })
}

/// The word that has these bytes as its text.
fn word_of(bytes: &[u8]) -> Option<Word>
    ensures { MatchOption result
        ((word : ℕ) → word < 2 ^ 96 → IsTextOf word bytes.now → ⊥)
        (λ word. (word < 2 ^ 96) × IsTextOf word bytes.now) }
{
    let text = str::from_utf8(bytes).ok()?;
    match word_of_text(text) {
        Ok(word) => Some(word),
        Err(_) => None,
    }
}
