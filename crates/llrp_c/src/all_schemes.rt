//! Tags in the set of all schemes: the twelve octets of a 96-bit word, and their text.

ghost use Rattle.std.specs.Prelude.{◌≡◌, ◌≢◌, ◌<◌, ◌≤◌, length};
ghost use Rattle.std.specs.Str.{IsUtf8};
ghost use Rattle.tag_uri.specs.Room.{HasText};
ghost use Rattle.llrp_c.specs.declared.status.Status.{Status};
ghost use Rattle.llrp_c.specs.declared.status.Status.TheVariants.{Length, Room, Utf8};
ghost use Rattle.llrp_c.specs.Status.{code_of};
ghost use Rattle.llrp_c.specs.AllSchemes.{ReadsTextInAll, SaysWhyInAll, WritesTextInAll, fault_status};

use crate::room::put_at;
use crate::status::Status;
use crate::tags::{TEXT_ROOM, WORD_OCTETS, word_of};
use std::str;
use tag_bits::Word;
use tag_schemes::{PartReason, SchemeFault, fault_in_all, text_in_all, word_in_all};

/// Whether the word has a tag URI in the set of all schemes; if not, the first part that fails, and its bit.
fn why(word: Word) -> (Status, u32)
    ensures { SaysWhyInAll word result.0 result.1 }
{
    match fault_in_all(word) {
        None => (Status::Done, 0),
        Some(fault) => match fault.reason {
            PartReason::Word(reason) => (Status::Word(reason), fault.bit),
            PartReason::Serial => (Status::Serial, fault.bit),
            PartReason::Code => (Status::Code, fault.bit),
        },
    }
}

/// Writes the text of a tag's word in the set of all schemes, its tag URI or else its raw URI, to `text`,
/// which needs room for 64 octets, its length to `count`, and to `bit` the first bit of the part of the word
/// because of which it has no tag URI.
#[unsafe(no_mangle)]
pub extern "C" fn llrp_text_in_all(
    word: &[u8],
    text: &mut [u8],
    count: &mut usize,
    bit: &mut u32,
) -> u32
    // The text was written, and the status says why it is not a tag URI.
    ensures written { length word.now ≡ 12 → 64 ≤ length text.old
        → (status : Status) × (result ≡ code_of status)
        × WritesTextInAll word.now text.old text.new count.new bit.new status }

    // Otherwise nothing was written.
    ensures length { length word.now ≢ 12
        → (result ≡ code_of Length) × (text.new ≡ text.old) × (count.new ≡ count.old)
        × (bit.new ≡ bit.old) }
    ensures room { length word.now ≡ 12 → length text.old < 64
        → (result ≡ code_of Room) × (text.new ≡ text.old) × (count.new ≡ count.old)
        × (bit.new ≡ bit.old) }
{
    if word.len() != WORD_OCTETS {
        return Status::Length.code();
    }
    if text.len() < TEXT_ROOM {
        return Status::Room.code();
    }
    let word = word_of(word);
    *count = put_at(text, 0, text_in_all(word).as_str().as_bytes());
    let (status, first) = why(word);
    *bit = first;
    status.code()
}

/// The status of a rule that refuses a text.
pub(crate) fn fault_status(fault: SchemeFault) -> Status
    ensures { result ≡ fault_status fault }
{
    match fault {
        SchemeFault::Long => Status::Long,
        SchemeFault::Code => Status::Code,
        SchemeFault::Tag(fault) => Status::Uri(fault),
    }
}

/// Writes the word of a text, or returns the first rule that refuses it.
fn read(text: &str, word: &mut [u8]) -> Status
    requires { length word.old ≡ 12 }
    ensures { ReadsTextInAll text.now word.old word.new result }
{
    match word_in_all(text) {
        Ok(read) => {
            word.copy_from_slice(&read.to_bytes());
            Status::Done
        }
        Err(fault) => fault_status(fault),
    }
}

/// Writes the twelve octets of the word of a text in the set of all schemes, a tag URI or a raw URI, to
/// `word`.
#[unsafe(no_mangle)]
pub extern "C" fn llrp_word_in_all(text: &[u8], word: &mut [u8]) -> u32
    // The word was written, or the status is the first rule that refuses the text.
    ensures read { length word.old ≡ 12 → IsUtf8 text.now
        → (status : Status) × (result ≡ code_of status)
        × ReadsTextInAll text.now word.old word.new status }

    // Otherwise nothing was written.
    ensures length { length word.old ≢ 12 → (result ≡ code_of Length) × (word.new ≡ word.old) }
    ensures utf8 { length word.old ≡ 12 → ¬ IsUtf8 text.now → (result ≡ code_of Utf8)
        × (word.new ≡ word.old) }
{
    if word.len() != WORD_OCTETS {
        return Status::Length.code();
    }
    match str::from_utf8(text) {
        Ok(text) => read(text, word).code(),
        Err(_) => Status::Utf8.code(),
    }
}
