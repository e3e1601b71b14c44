//! The tags of a file, which a line of a script sees one after another.

ghost use Rattle.std.specs.Prelude.{◌≡◌, ◌<ℤ◌, IfNone, IfSome, take};
ghost use Rattle.llrp_live.specs.Calls.Rounds.{HasNone, IsTurn, strength, whose_turn};

use crate::lines::ShortOctets;
use llrp_session::Sighting;
use tag_bits::Word;

/// The greatest number of antennas of a line.
pub const MOST_NUMBERS: usize = 16;

/// A few numbers.
#[derive(Clone, Copy, Debug, PartialEq, Eq)]
pub struct ShortNumbers {
    /// The numbers, and 0 after them.
    pub numbers: [u16; MOST_NUMBERS],
    /// How many there are.
    pub count: usize,
}

/// What a line sees that names a file of tags: each time it happens the next tag of the file, by the next of its antennas, with
/// the next signal strength, each from the first on, round and round.
#[derive(Clone, Copy, Debug, PartialEq, Eq)]
pub struct Rounds {
    /// The antennas.
    pub antennas: ShortNumbers,
    /// The first signal strength, in dBm, which is the least.
    pub least: i8,
    /// The last one, where each is greater by one than the one before.
    pub greatest: i8,
    /// The name of the file.
    pub file: ShortOctets,
}

/// The antenna whose turn it is.
fn antenna_at(antennas: &ShortNumbers, turn: u64) -> Option<u16>
    ensures { result ≡ whose_turn (take antennas.now.count antennas.now.numbers) turn }
{
    let count = antennas.count.min(antennas.numbers.len());
    let numbers = &antennas.numbers[..count];
    numbers
        .get((turn % numbers.len().max(1) as u64) as usize)
        .copied()
}

/// The word whose turn it is.
fn word_at(words: &[Word], turn: u64) -> Option<Word>
    ensures { result ≡ whose_turn words.now turn }
{
    words
        .get((turn % words.len().max(1) as u64) as usize)
        .copied()
}

/// The signal strength whose turn it is.
fn strength_at(least: i8, greatest: i8, turn: u64) -> Option<i8>
    ensures strength { IfSome result (λ rssi. rssi ≡ strength least greatest turn) }
    ensures none { IfNone result (greatest <ℤ least) }
{
    let count = least.abs_diff(greatest) as u64 + 1;
    least.checked_add_unsigned((turn % count) as u8)
}

/// What is seen by a line that has happened `turn` times before, where the words of its file are these.
/// Returns `None` if it has no antenna, no signal strength or no tag.
pub fn sighting_at(rounds: &Rounds, words: &[Word], turn: u64) -> Option<Sighting>
    ensures turn { IfSome result (IsTurn rounds.now words.now turn) }
    ensures none { IfNone result (HasNone rounds.now words.now) }
{
    let antenna = antenna_at(&rounds.antennas, turn)?;
    let rssi = strength_at(rounds.least, rounds.greatest, turn)?;
    let epc = word_at(words, turn)?;
    Some(Sighting { antenna, rssi, epc })
}
