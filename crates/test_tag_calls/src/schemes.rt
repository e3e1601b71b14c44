//! Words in the set of all schemes, and their texts.

use anyhow::{Context, Result, bail};
use std::alloc::Global;
use tag_bits::Word;
use tag_schemes::{
    fault_in_all, numbers_of, supplier_of, text_in_all, word_in_all, word_of, word_of_supplier,
};
use test_devices::rows::{octets_of, text_of};

/// Makes a call of this module, and returns whether it has one of this name.
pub fn make(rt: &HostRuntime, call: &str, row: &[String]) -> Result<bool> {
    match call {
        "all-text" => all_text(rt, row)?,
        "all-word" => all_word(rt, row)?,
        "all-parts" => all_parts(rt, row)?,
        _ => return Ok(false),
    }
    Ok(true)
}

/// The word of twelve octets.
pub fn word_from(alloc: Global, digits: &str) -> Result<Word> {
    let octets = octets_of(alloc, digits)?;
    let octets: [u8; 12] = octets
        .as_slice()
        .try_into()
        .ok()
        .context("no twelve octets")?;
    Ok(Word::of_bytes(octets))
}

/// The word of a row.
fn only_word(alloc: Global, row: &[String]) -> Result<Word> {
    let [digits] = row else {
        bail!("no word");
    };
    word_from(alloc, digits.as_str())
}

/// Calls `text_in_all` on a word.
fn all_text(rt: &HostRuntime, row: &[String]) -> Result<()> {
    let word = only_word(rt.alloc(), row)?;
    println!(rt; "answer {}", text_in_all(word).as_str())?;
    Ok(())
}

/// Prints the octets of a word.
pub fn print_word(rt: &HostRuntime, word: Word) -> Result<()> {
    let digits = hex::encode(rt.alloc(), word.to_bytes().as_slice())?;
    println!(rt; "answer {digits}")?;
    Ok(())
}

/// Calls `word_in_all` on a text.
fn all_word(rt: &HostRuntime, row: &[String]) -> Result<()> {
    let [text] = row else {
        bail!("no text");
    };
    let text = text_of(rt.alloc(), text.as_str())?;
    match word_in_all(text.as_str()) {
        Ok(word) => print_word(rt, word)?,
        Err(fault) => println!(rt; "answer {fault:?} {}", fault.name())?,
    }
    Ok(())
}

/// Calls `fault_in_all`, `numbers_of` and `supplier_of` on a word, and what makes a word of their numbers.
fn all_parts(rt: &HostRuntime, row: &[String]) -> Result<()> {
    let word = only_word(rt.alloc(), row)?;
    match fault_in_all(word) {
        Some(fault) => {
            let (name, bit) = (fault.reason.name(), fault.bit);
            println!(rt; "answer {name} {bit}")?;
        }
        None => println!(rt; "answer lawful")?,
    }
    match numbers_of(word) {
        Some(epc) => {
            let (name, header) = (epc.scheme.name(), epc.scheme.header());
            println!(rt; "scheme {name} {header}")?;
            print_word(rt, word_of(epc))?;
        }
        None => println!(rt; "scheme none")?,
    }
    match supplier_of(word) {
        Some(epc) => print_word(rt, word_of_supplier(epc)),
        None => {
            println!(rt; "supplier none")?;
            Ok(())
        }
    }
}
