//! The text of a word, and the word of a text, in the set of all schemes.

ghost use Rattle.std.specs.Prelude.{◌≡◌, ◌++◌, ◌<◌, ◌^◌, List, ℕ, IfNone, IfOk, IfSome, OnOk};
ghost use Rattle.tag_forms.specs.Hexadecimal.{IsHexOf};
ghost use Rattle.tag_uri.specs.Hexadecimal.{hexadecimal};
ghost use Rattle.llrp_listing.specs.Calls.EpcLines.{line};
ghost use Rattle.llrp_keys.specs.TextLines.{Prints};
ghost use Rattle.llrp_keys.specs.AllSchemes.{ArePrintedInAll, AreWordLinesInAll, IsTextLineInAll, refusal_in_all, remark_in_all};
ghost use Rattle.llrp_stream.specs.Device.{IsFreshSink};

use llrp_listing::{Text, ToolErr, Verdict, write_all};
use llrp_stream::Sink;
use std::alloc::{AllocError, Global};
use tag_bits::Word;
use tag_forms::{Form, text_in, word_in};
use tag_schemes::{PartFault, SchemeFault, fault_in_all, text_in_all, word_in_all};

/// The word of 24 hexadecimal digits, with or without `0x`, blanks and colons.
fn word_of_digits(text: &str) -> Option<Word>
    ensures some { IfSome result (λ word. IsHexOf text.now word) }
    ensures none { IfNone result ((word : ℕ) → IsHexOf text.now word → ⊥) }
{
    match word_in(text, Form::Hex, 0, None) {
        Ok(word) => Some(word),
        Err(_) => None,
    }
}

/// Appends a line.
fn push_line(lines: &mut Text, text: &str) -> Result<(), AllocError>
    ensures { OnOk result (lines.new ≡ lines.old ++ line text.now) }
{
    lines.push_text(text.as_bytes())?;
    lines.push_text(b"\n")
}

/// Appends the line that says why a word has no tag URI.
fn push_remark(lines: &mut Text, fault: PartFault) -> Result<(), AllocError>
    ensures { OnOk result (lines.new ≡ lines.old ++ remark_in_all fault) }
{
    lines.push_text(b"# ")?;
    lines.push_text(fault.reason.name().as_bytes())?;
    lines.push_text(b" ")?;
    lines.push_number(fault.bit as u128)?;
    lines.push_text(b"\n")
}

/// Appends the lines of a word.
fn push_word(lines: &mut Text, word: Word) -> Result<(), AllocError>
    ensures { OnOk result ((text : List ℕ) × AreWordLinesInAll word text
        × (lines.new ≡ lines.old ++ text)) }
{
    push_line(lines, text_in_all(word).as_str())?;
    match fault_in_all(word) {
        Some(fault) => push_remark(lines, fault),
        None => Ok(()),
    }
}

/// Appends the line of a word's digits.
fn push_digits(lines: &mut Text, word: Word) -> Result<(), AllocError>
    ensures { OnOk result (lines.new ≡ lines.old ++ line (hexadecimal 24 word)) }
{
    match text_in(word, Form::Hex) {
        Some(digits) => push_line(lines, digits.as_str()),
        None => unreachable!(),
    }
}

/// Appends the line that says which rule refuses a text.
fn push_refusal(lines: &mut Text, fault: SchemeFault) -> Result<(), AllocError>
    ensures { OnOk result (lines.new ≡ lines.old ++ refusal_in_all fault) }
{
    lines.push_text(b"! ")?;
    lines.push_text(fault.name().as_bytes())?;
    lines.push_text(b"\n")
}

/// Appends the line of a text that is not a word's digits.
fn push_text(lines: &mut Text, text: &str) -> Result<Verdict, AllocError>
    ensures { IfOk result (λ verdict. (answer : List ℕ) × IsTextLineInAll text.now verdict answer
        × (lines.new ≡ lines.old ++ answer)) }
{
    match word_in_all(text) {
        Ok(word) => {
            push_digits(lines, word)?;
            Ok(Verdict::Lawful)
        }
        Err(fault) => {
            push_refusal(lines, fault)?;
            Ok(Verdict::Faulty)
        }
    }
}

/// Appends the lines that answer a text.
fn push_answer(lines: &mut Text, text: &str) -> Result<Verdict, AllocError>
    ensures { IfOk result (λ verdict. (answer : List ℕ) × ArePrintedInAll text.now verdict answer
        × (lines.new ≡ lines.old ++ answer)) }
{
    match word_of_digits(text) {
        Some(word) => {
            push_word(lines, word)?;
            Ok(Verdict::Lawful)
        }
        None => push_text(lines, text),
    }
}

/// Writes the answer to a text in the set of all schemes. For the 24 hexadecimal digits of a word, in either case, with or without `0x`,
/// blanks and colons, it is the word's text and, if the word has no tag URI, `# REASON BIT` with the part of the word that fails and its
/// first bit. For a word's text it is the word's 24 upper-case digits. For any other text it is `! REASON` with the first rule that
/// refuses it, and the verdict is `Faulty` (EPC Tag Data Standard 1.13, section 12). The errors are those of
/// [`run_forms`](crate::run_forms).
pub fn run_epc_in_all<W: Sink>(alloc: Global, text: &str, w: &mut W) -> Result<Verdict, ToolErr>
    requires { IsFreshSink (W.log w.old) }
    ensures { Prints (ArePrintedInAll text.now) (W.log w.old) (W.log w.new) result }
{
    let mut lines = Text::new(alloc);
    let verdict = push_answer(&mut lines, text)?;
    write_all(w, lines.as_slice())?;
    Ok(verdict)
}
