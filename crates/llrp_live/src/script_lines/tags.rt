//! What a line says that sees the tags of a file.

ghost use Rattle.std.specs.Prelude.{◌≡◌, ◌++◌, ◌<◌, ◌≤ℤ◌, IfSome, codes, take};
ghost use Rattle.llrp_live.specs.Calls.Lines.{AreNumbers, AreStrengths, IsFileName, IsTagsLine};

use super::own_deeds::short_of;
use crate::lines::ShortOctets;
use crate::rounds::{MOST_NUMBERS, Rounds, ShortNumbers};
use llrp_listing::{number_of, signed_byte_of, split_once};

/// Numbers with commas between them, such as `1,2`.
fn numbers_of(text: &[u8]) -> Option<ShortNumbers>
    ensures { IfSome result (λ short. AreNumbers (take short.count short.numbers) text.now) }
{
    let mut numbers = [0; MOST_NUMBERS];
    let mut count = 0;
    let mut rest = text;
    'numbers: while let Some((digits, after)) = split_once(rest, b',') {
        if count + 1 >= MOST_NUMBERS {
            return None;
        }
        numbers[count] = number_of(digits, 65_535)? as u16;
        count += 1;
        rest = after;
    }
    numbers[count] = number_of(rest, 65_535)? as u16;
    count += 1;
    Some(ShortNumbers { numbers, count })
}

/// Signal strengths from the least to the greatest, such as `-70..-50`, or one.
fn strengths_of(text: &[u8]) -> Option<(i8, i8)>
    ensures { IfSome result (λ parts. AreStrengths parts.0 parts.1 text.now) }
{
    let Some((first, rest)) = split_once(text, b'.') else {
        let only = signed_byte_of(text)?;
        return Some((only, only));
    };
    let least = signed_byte_of(first)?;
    let greatest = signed_byte_of(rest.strip_prefix(b".".as_slice())?)?;
    if greatest < least {
        return None;
    }
    Some((least, greatest))
}

/// The name of a file, which is not empty, and is known from the text of a tag by how it begins.
fn file_of(text: &[u8]) -> Option<ShortOctets>
    ensures { IfSome result (λ short. IsFileName text.now
        × (take short.count short.octets ≡ text.now)) }
{
    if text.is_empty() {
        return None;
    }
    let (front, _) = text.split_at(text.len().min(4));
    if front == b"urn:".as_slice() {
        return None;
    }
    short_of(text)
}

/// What is seen, such as `1,2 -70..-50 tags.txt`.
pub(super) fn rounds_of(text: &[u8]) -> Option<Rounds>
    ensures { IfSome result (λ rounds. IsTagsLine rounds (codes "seen " ++ text.now)) }
{
    let (antennas, rest) = split_once(text, b' ')?;
    let (strengths, file) = split_once(rest, b' ')?;
    let antennas = numbers_of(antennas)?;
    let (least, greatest) = strengths_of(strengths)?;
    let file = file_of(file)?;
    Some(Rounds {
        antennas,
        least,
        greatest,
        file,
    })
}
