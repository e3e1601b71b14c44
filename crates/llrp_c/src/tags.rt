//! Tags: the twelve octets of a 96-bit word, and their text.

ghost use Rattle.std.specs.Prelude.{◌≡◌, ◌≢◌, ◌<◌, ◌≤◌, length};
ghost use Rattle.std.specs.Str.{IsUtf8};
ghost use Rattle.tag_bits.specs.Digits.{digits_of_bytes, word_digits};
ghost use Rattle.llrp_c.specs.declared.status.Status.{Status};
ghost use Rattle.llrp_c.specs.declared.status.Status.TheVariants.{Length, Room, Utf8};
ghost use Rattle.llrp_c.specs.Status.{code_of};
ghost use Rattle.llrp_c.specs.Tags.{ReadsText, SaysWhy, WritesText};

use crate::status::Status;
use std::str;
use tag_bits::Word;
use tag_epc::Epc;
use tag_uri::{put_text_of_word, word_of_text};

/// How many octets a tag's word has.
pub(crate) const WORD_OCTETS: usize = 12;

/// The room that is enough for each text of a word.
pub(crate) const TEXT_ROOM: usize = 64;

/// The word of these twelve octets.
pub(crate) fn word_of(octets: &[u8]) -> Word
    requires { length octets.now ≡ 12 }
    ensures { word_digits result ≡ digits_of_bytes octets.now }
{
    let mut bytes = [0; WORD_OCTETS];
    bytes.copy_from_slice(octets);
    Word::of_bytes(bytes)
}

/// Whether the word has a tag URI; if not, the first part that fails, and its bit.
fn why(word: Word) -> (Status, u32)
    ensures { SaysWhy word result.0 result.1 }
{
    match Epc::from_word(word) {
        Ok(_) => (Status::Done, 0),
        Err(fault) => (Status::Word(fault.reason), fault.bit),
    }
}

/// Writes the text of a tag's word, its tag URI or else its raw URI, to `text`, which needs room
/// for 64 octets, its length to `count`, and to `bit` the first bit of the part of the word because
/// of which it has no tag URI.
#[unsafe(no_mangle)]
pub extern "C" fn llrp_text_of_word(
    word: &[u8],
    text: &mut [u8],
    count: &mut usize,
    bit: &mut u32,
) -> u32
    // The text was written, and the status says why it is not a tag URI.
    ensures written { length word.now ≡ 12 → 64 ≤ length text.old
        → (status : Status) × (result ≡ code_of status)
        × WritesText word.now text.old text.new count.new bit.new status }

    // Otherwise nothing was written.
    ensures length { length word.now ≢ 12
        → (result ≡ code_of Length) × (text.new ≡ text.old) × (count.new ≡ count.old)
        × (bit.new ≡ bit.old) }
    ensures room { length word.now ≡ 12 → length text.old < 64
        → (result ≡ code_of Room) × (text.new ≡ text.old) × (count.new ≡ count.old)
        × (bit.new ≡ bit.old) }
{
    if word.len() != WORD_OCTETS {
        return Status::Length.code();
    }
    if text.len() < TEXT_ROOM {
        return Status::Room.code();
    }
    let word = word_of(word);
    *count = put_text_of_word(text, 0, word);
    let (status, first) = why(word);
    *bit = first;
    status.code()
}

/// Writes the word of a text, or returns the first rule that refuses it.
fn read(text: &str, word: &mut [u8]) -> Status
    requires { length word.old ≡ 12 }
    ensures { ReadsText text.now word.old word.new result }
{
    match word_of_text(text) {
        Ok(read) => {
            word.copy_from_slice(&read.to_bytes());
            Status::Done
        }
        Err(fault) => Status::Uri(fault),
    }
}

/// Writes the twelve octets of the word of a text, a tag URI or a raw URI, to `word`.
#[unsafe(no_mangle)]
pub extern "C" fn llrp_word_of_text(text: &[u8], word: &mut [u8]) -> u32
    // The word was written, or the status is the first rule that refuses the text.
    ensures read { length word.old ≡ 12 → IsUtf8 text.now
        → (status : Status) × (result ≡ code_of status)
        × ReadsText text.now word.old word.new status }

    // Otherwise nothing was written.
    ensures length { length word.old ≢ 12 → (result ≡ code_of Length) × (word.new ≡ word.old) }
    ensures utf8 { length word.old ≡ 12 → ¬ IsUtf8 text.now → (result ≡ code_of Utf8)
        × (word.new ≡ word.old) }
{
    if word.len() != WORD_OCTETS {
        return Status::Length.code();
    }
    match str::from_utf8(text) {
        Ok(text) => read(text, word).code(),
        Err(_) => Status::Utf8.code(),
    }
}
