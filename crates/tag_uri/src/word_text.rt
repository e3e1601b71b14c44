//! Texts of words, and words of texts.

ghost use Rattle.std.specs.Prelude.{◌≡◌, ℕ, ◌+◌, ◌^◌, ◌<◌, ◌≤◌, ◌++◌, List, length, Ok, IfOk, IfErr, IfSome};
ghost use Rattle.tag_uri.specs.Room.{HasText};
ghost use Rattle.tag_uri.specs.TagText.{IsTextOf, HasTextFault, HasRawFault, raw_start, raw_uri};

use crate::fault::UriFault;
use crate::parse_fast::quick_parts;
use crate::parse_uri::parse;
use crate::print_uri::put_tag_uri;
use crate::put_digits::{put_text, text_before};
use crate::raw_uri::{put_hexadecimal, word_of_hexadecimal};
use arrayvec::ArrayString;
use tag_bits::Word;
use tag_epc::Epc;

/// The text of a word: the tag URI of its EPC or, if it has none, its raw URI, as
/// `urn:epc:raw:96.x3003A3529440000000000000` (EPC Tag Data Standard 1.13, section 12).
pub fn text_of_word(word: Word) -> ArrayString<64>
    ensures { IsTextOf word result.bytes }
{
    let mut room = [0; 64];
    let end = put_text_of_word(&mut room, 0, word);
    text_before(&room, end)
}

/// Writes the text of a word into `room` from `at` on, and returns where it ends. The room must have 64
/// octets from `at` on; those that the text does not take stay as they were.
pub fn put_text_of_word(room: &mut [u8], at: usize, word: Word) -> usize
    requires { at + 64 ≤ length room.old }
    ensures text { (text : List ℕ) × IsTextOf word text × HasText room.old room.new at result text }
    ensures most { result ≤ at + 64 }
{
    match Epc::from_word(word) {
        Ok(epc) => put_tag_uri(room, at, &epc),
        Err(_) => put_raw_uri(room, at, word),
    }
}

/// The raw URI of a word, as `urn:epc:raw:96.x3003A3529440000000000000` (EPC Tag Data Standard
/// 1.13, section 12). It is the word's text only if the word carries no EPC.
pub fn print_raw(word: Word) -> ArrayString<64>
    ensures { result.bytes ≡ raw_uri word }
{
    let mut room = [0; 64];
    let end = put_raw_uri(&mut room, 0, word);
    text_before(&room, end)
}

/// Writes the raw URI of a word.
fn put_raw_uri(room: &mut [u8], at: usize, word: Word) -> usize
    requires { at + 64 ≤ length room.old }
    ensures text { HasText room.old room.new at result (raw_uri word) }
    ensures most { result ≤ at + 64 }
{
    let start = *b"urn:epc:raw:96.x";
    let digits_at = put_text(room, at, &start);
    put_hexadecimal(room, digits_at, word)
}

/// The word of a text, or the first rule that refuses it: one of the rules of raw URIs if it begins
/// with `urn:epc:raw:`, and of those of tag URIs otherwise (EPC Tag Data Standard 1.13, section
/// 12).
pub fn word_of_text(text: &str) -> Result<Word, UriFault>
    ensures ok { IfOk result (λ word. IsTextOf word text.now) }
    ensures accepts { (word : ℕ) → word < 2 ^ 96 → IsTextOf word text.now → result ≡ Ok word }
    ensures err { IfErr result (λ fault. HasTextFault text.now fault) }
{
    match read(text) {
        Ok(word) => Ok(word),
        Err(fault) => Err(fault),
    }
}

/// The word of a tag URI. `None` does not mean that the octets are no text of a word: `word_of_text` then reads them, or says why it
/// refuses them, so only speed depends on when it comes.
#[inline(always)]
pub fn word_of_octets(octets: &[u8]) -> Option<Word>
    ensures { IfSome result (λ word. IsTextOf word octets.now) }
{
    let Some(parts) = quick_parts(octets) else {
        return None;
    };
    Some(Epc::of_parts(parts).to_word())
}

/// The word of a text, or the first rule that refuses it.
#[inline(always)]
fn read(text: &str) -> Result<Word, UriFault>
    ensures ok { IfOk result (λ word. IsTextOf word text.now) }
    ensures err { IfErr result (λ fault. HasTextFault text.now fault) }
{
    if let Some(rest) = text.strip_prefix("urn:epc:raw:") {
        return match raw_word(rest) {
            Ok(word) => Ok(word),
            Err(fault) => Err(fault),
        };
    }
    match parse(text) {
        Ok(epc) => Ok(epc.to_word()),
        Err(fault) => Err(fault),
    }
}

/// The word of a raw URI, read from what follows `urn:epc:raw:`.
fn raw_word(rest: &str) -> Result<Word, UriFault>
    ensures ok { IfOk result (λ word. IsTextOf word (raw_start ++ rest.now)) }
    ensures err { IfErr result (λ fault. HasRawFault (raw_start ++ rest.now) fault) }
{
    let Some(digits) = rest.strip_prefix("96.x") else {
        return Err(UriFault::RawForm);
    };
    let Some(word) = word_of_hexadecimal(digits) else {
        return Err(UriFault::RawForm);
    };
    match Epc::from_word(word) {
        Ok(_) => Err(UriFault::RawOfLawful),
        Err(_) => Ok(word),
    }
}
