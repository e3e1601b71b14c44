//! Texts of words, and words of texts, in the set of all schemes.

ghost use Rattle.std.specs.Prelude.{◌≡◌, ℕ, ◌^◌, ◌<◌, ◌↔◌, List, Ok, IfOk, IfErr, IsTrue};
ghost use Rattle.tag_schemes.specs.declared.numbers.Numbers.{Numbers};
ghost use Rattle.tag_schemes.specs.declared.scheme.Scheme.{Scheme};
ghost use Rattle.tag_schemes.specs.LawfulWord.{HasWord};
ghost use Rattle.tag_schemes.specs.Suppliers.{IsFurtherWord};
ghost use Rattle.tag_schemes.specs.AllTexts.{IsTextInAll, HasFaultInAll, BeginsIn, BeginsInNone};

use crate::fault::SchemeFault;
use crate::read_text::{read_further, scheme_in_front};
use crate::read_word::numbers_of;
use crate::supplier_text::{print_supplier, read_supplier_text, supplier_in_front};
use crate::supplier_word::{supplier_of, word_of_supplier};
use crate::write_text::print_further;
use crate::write_word::word_of;
use arrayvec::ArrayString;
use tag_bits::Word;
use tag_uri::{UriFault, text_of_word, word_of_text};

/// The text of a word: the tag URI of its EPC of a further scheme, or else what `text_of_word` of `tag_uri` gives (EPC Tag Data
/// Standard 1.13, section 12).
pub fn text_in_all(word: Word) -> ArrayString<64>
    ensures { IsTextInAll word result.bytes }
{
    match numbers_of(word) {
        Some(epc) => print_further(epc),
        None => text_without_company(word),
    }
}

/// The text of a word that no EPC of a further scheme with a company prefix has.
fn text_without_company(word: Word) -> ArrayString<64>
    requires { (epc : Numbers) → HasWord epc word → ⊥ }
    ensures { IsTextInAll word result.bytes }
{
    match supplier_of(word) {
        Some(epc) => print_supplier(epc),
        None => text_of_word(word),
    }
}

/// The word of a text in the set of all schemes, or the first rule that refuses it.
pub fn word_in_all(text: &str) -> Result<Word, SchemeFault>
    ensures ok { IfOk result (λ word. IsTextInAll word text.now) }
    ensures accepts { (word : ℕ) → word < 2 ^ 96 → IsTextInAll word text.now → result ≡ Ok word }
    ensures err { IfErr result (λ fault. HasFaultInAll text.now fault) }
{
    match read_any(text) {
        Ok(word) => Ok(word),
        Err(fault) => Err(fault),
    }
}

/// The word of a text, or the first rule that refuses it.
fn read_any(text: &str) -> Result<Word, SchemeFault>
    ensures ok { IfOk result (λ word. IsTextInAll word text.now) }
    ensures err { IfErr result (λ fault. HasFaultInAll text.now fault) }
{
    let Some((scheme, rest)) = scheme_in_front(text) else {
        return read_without_company(text);
    };
    if text.len() > 96 {
        return Err(SchemeFault::Long);
    }
    match read_further(scheme, rest) {
        Ok(epc) => Ok(word_of(epc)),
        Err(fault) => Err(SchemeFault::Tag(fault)),
    }
}

/// The word of a text that begins as the tag URI of no further scheme with a company prefix.
fn read_without_company(text: &str) -> Result<Word, SchemeFault>
    requires { (scheme : Scheme) (rest : List ℕ) → BeginsIn text.now scheme rest → ⊥ }
    ensures ok { IfOk result (λ word. IsTextInAll word text.now) }
    ensures err { IfErr result (λ fault. HasFaultInAll text.now fault) }
{
    let Some(rest) = supplier_in_front(text) else {
        return read_older(text);
    };
    if text.len() > 96 {
        return Err(SchemeFault::Long);
    }
    match read_supplier_text(rest) {
        Ok(epc) => Ok(word_of_supplier(epc)),
        Err(fault) => Err(fault),
    }
}

/// Whether some EPC of a further scheme has a word.
pub fn is_further(word: Word) -> bool
    ensures { IsTrue result ↔ IsFurtherWord word }
{
    if let Some(_) = numbers_of(word) {
        return true;
    }
    match supplier_of(word) {
        Some(_) => true,
        None => false,
    }
}

/// The word of a text that begins as the tag URI of no further scheme. A raw URI is refused if its word has one.
fn read_older(text: &str) -> Result<Word, SchemeFault>
    requires { BeginsInNone text.now }
    ensures ok { IfOk result (λ word. IsTextInAll word text.now) }
    ensures err { IfErr result (λ fault. HasFaultInAll text.now fault) }
{
    match word_of_text(text) {
        Ok(word) => {
            if is_further(word) {
                Err(SchemeFault::Tag(UriFault::RawOfLawful))
            } else {
                Ok(word)
            }
        }
        Err(fault) => Err(SchemeFault::Tag(fault)),
    }
}
