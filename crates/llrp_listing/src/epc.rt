//! The command `epc`: from a word's digits to its text, and from a text to its word's digits.

ghost use Rattle.std.specs.Prelude.{◌≡◌, ◌++◌, ◌^◌, ◌<◌, List, ℕ, IfNone, IfOk, IfSome, OnOk};
ghost use Rattle.tag_bits.specs.Digits.{digits_of_bytes, word_digits};
ghost use Rattle.tag_uri.specs.Hexadecimal.{hexadecimal};
ghost use Rattle.llrp_listing.specs.Calls.EpcLines.{AreDigitsOf, AreWordLines, IsRemark, IsTextLine, Prints, PrintsEpc, line, refusal_line, remark_line};
ghost use Rattle.llrp_stream.specs.Device.{IsFreshSink};

use crate::devices::write_all;
use crate::outcome::{ToolErr, Verdict};
use hex::FromHex;
use itoa::Buffer;
use llrp_stream::Sink;
use std::alloc::{AllocError, Global};
use tag_bits::Word;
use tag_epc::{Epc, WordFault};
use tag_uri::{UriFault, print, print_raw, word_of_text};

/// The word of 24 hexadecimal digits of either case.
fn word_of_digits(text: &str) -> Option<Word>
    ensures some { IfSome result (λ word. AreDigitsOf text.now word) }
    ensures none { IfNone result ((word : ℕ) → AreDigitsOf text.now word → ⊥) }
{
    let bytes = <[u8; 12]>::from_hex(text).ok()?;
    Some(Word::of_bytes(bytes))
}

/// Appends the line of a word's 24 upper-case digits.
fn push_digits(alloc: Global, lines: &mut Vec<u8>, word: Word) -> Result<(), AllocError>
    ensures { OnOk result (lines.new.items ≡ lines.old.items ++ line (hexadecimal 24 word)) }
{
    push_bytes(alloc, lines, &word.to_bytes())
}

/// Appends the line of these twelve bytes in upper-case digits, and so of the word that they spell.
fn push_bytes(alloc: Global, lines: &mut Vec<u8>, bytes: &[u8]) -> Result<(), AllocError>
    ensures { (word : ℕ) → word < 2 ^ 96 → digits_of_bytes bytes.now ≡ word_digits word
        → OnOk result (lines.new.items ≡ lines.old.items ++ line (hexadecimal 24 word)) }
{
    let digits = hex::encode_upper(alloc, bytes)?;
    lines.extend_from_slice(digits.as_bytes())?;
    lines.extend_from_slice(b"\n")?;
    Ok(())
}

/// Appends the line that says why a word has no tag URI.
fn push_remark(lines: &mut Vec<u8>, fault: WordFault) -> Result<(), AllocError>
    ensures { OnOk result (lines.new.items ≡ lines.old.items ++ remark_line fault) }
{
    let mut digits = Buffer::new();
    lines.extend_from_slice(b"# ")?;
    lines.extend_from_slice(fault.reason.name().as_bytes())?;
    lines.extend_from_slice(b" ")?;
    lines.extend_from_slice(digits.format(fault.bit).as_bytes())?;
    lines.extend_from_slice(b"\n")?;
    Ok(())
}

/// Appends the line that says which rule refuses a text.
fn push_refusal(lines: &mut Vec<u8>, fault: UriFault) -> Result<(), AllocError>
    ensures { OnOk result (lines.new.items ≡ lines.old.items ++ refusal_line fault) }
{
    lines.extend_from_slice(b"! ")?;
    lines.extend_from_slice(fault.name().as_bytes())?;
    lines.extend_from_slice(b"\n")?;
    Ok(())
}

/// Appends the lines of a word.
fn push_word(lines: &mut Vec<u8>, word: Word) -> Result<(), AllocError>
    ensures { OnOk result ((text : List ℕ) × AreWordLines word text
        × (lines.new.items ≡ lines.old.items ++ text)) }
{
    match Epc::from_word(word) {
        Ok(epc) => push_line(lines, print(&epc).as_str()),
        Err(fault) => {
            push_line(lines, print_raw(word).as_str())?;
            push_remark(lines, fault)
        }
    }
}

/// Appends a line.
fn push_line(lines: &mut Vec<u8>, text: &str) -> Result<(), AllocError>
    ensures { OnOk result (lines.new.items ≡ lines.old.items ++ line text.now) }
{
    lines.extend_from_slice(text.as_bytes())?;
    lines.extend_from_slice(b"\n")
}

/// Appends the line of a text that is not a word's digits.
fn push_text(alloc: Global, lines: &mut Vec<u8>, text: &str) -> Result<Verdict, AllocError>
    ensures { IfOk result (λ verdict. (answer : List ℕ) × IsTextLine text.now verdict answer
        × (lines.new.items ≡ lines.old.items ++ answer)) }
{
    match word_of_text(text) {
        Ok(word) => {
            push_digits(alloc, lines, word)?;
            Ok(Verdict::Lawful)
        }
        Err(fault) => {
            push_refusal(lines, fault)?;
            Ok(Verdict::Faulty)
        }
    }
}

/// Appends the lines that answer a text.
fn push_answer(alloc: Global, lines: &mut Vec<u8>, text: &str) -> Result<Verdict, AllocError>
    ensures { IfOk result (λ verdict. (answer : List ℕ) × Prints text.now verdict answer
        × (lines.new.items ≡ lines.old.items ++ answer)) }
{
    match word_of_digits(text) {
        Some(word) => {
            push_word(lines, word)?;
            Ok(Verdict::Lawful)
        }
        None => push_text(alloc, lines, text),
    }
}

/// Writes the answer to a text. For the 24 hexadecimal digits of a word, in either case, it is the
/// word's text and, if the word has no tag URI, `# REASON BIT` with the part of the word that fails
/// and its first bit. For a word's text it is the word's 24 upper-case digits. For any other text
/// it is `! REASON` with the first rule that refuses it, and the verdict is `Faulty` (EPC Tag Data
/// Standard 1.13, section 12). The errors are `Memory`, and `Write`, after which some first part of
/// the lines was written.
pub fn run_epc<W: Sink>(alloc: Global, text: &str, w: &mut W) -> Result<Verdict, ToolErr>
    requires { IsFreshSink (W.log w.old) }
    ensures { PrintsEpc text.now (W.log w.old) (W.log w.new) result }
{
    let mut lines = Vec::new(alloc);
    let verdict = push_answer(alloc, &mut lines, text)?;
    write_all(w, lines.as_slice())?;
    Ok(verdict)
}
