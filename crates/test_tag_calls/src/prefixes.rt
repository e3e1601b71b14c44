//! Tables of company prefixes.

use anyhow::{Context, Result, bail};
use std::alloc::Global;
use tag_forms::{Company, Prefixes};
use test_devices::rows::text_of;

/// Makes a call of this module, and returns whether it has one of this name.
pub fn make(rt: &HostRuntime, call: &str, row: &[String]) -> Result<bool> {
    match call {
        "prefix" => prefix(rt, row)?,
        "add-prefix" => add_last(rt, row)?,
        "count-digits" => count_digits(rt, row)?,
        _ => return Ok(false),
    }
    Ok(true)
}

/// The first digits of company prefixes and how many digits these have, of a word with a colon between them.
fn entry_of(word: &str) -> Result<(&str, u8)> {
    let (start, digits) = word.split_once(":").context("no entry")?;
    Ok((start, digits.parse()?))
}

/// The table of words.
fn table_of(alloc: Global, words: &[String]) -> Result<Prefixes> {
    let mut table = Prefixes::new(alloc);
    for word in words {
        let (start, digits) = entry_of(word.as_str())?;
        if table.add(alloc, start.as_bytes(), digits).is_err() {
            bail!("an entry is refused");
        }
    }
    Ok(table)
}

/// Prints a number of digits, or that there is none.
fn print_digits(rt: &HostRuntime, digits: Option<u8>) -> Result<()> {
    match digits {
        Some(digits) => println!(rt; "answer {digits}")?,
        None => println!(rt; "answer none")?,
    }
    Ok(())
}

/// Calls `Prefixes::company_digits` on the digits of the first word, with the table of the others.
fn prefix(rt: &HostRuntime, row: &[String]) -> Result<()> {
    let [digits, entries @ ..] = row else {
        bail!("no digits");
    };
    let table = table_of(rt.alloc(), entries)?;
    print_digits(rt, table.company_digits(digits.as_bytes()))
}

/// Calls `Prefixes::add` on the first word, with the table of the others.
fn add_last(rt: &HostRuntime, row: &[String]) -> Result<()> {
    let [entry, entries @ ..] = row else {
        bail!("no entry");
    };
    let mut table = table_of(rt.alloc(), entries)?;
    let (start, digits) = entry_of(entry.as_str())?;
    let added = table.add(rt.alloc(), start.as_bytes(), digits);
    println!(rt; "answer {added:?}")?;
    Ok(())
}

/// Calls `Company::digits_of` on a text, with the table of the other words; or with their number where the only other
/// word is one.
fn count_digits(rt: &HostRuntime, row: &[String]) -> Result<()> {
    let [text, entries @ ..] = row else {
        bail!("no text");
    };
    let text = text_of(rt.alloc(), text.as_str())?;
    if let [word] = entries {
        if !word.as_str().contains(":") {
            let digits = crate::keys::company_digits_of(word.as_str())?;
            return print_digits(rt, Company::Digits(Some(digits)).digits_of(text.as_str()));
        }
    }
    let table = table_of(rt.alloc(), entries)?;
    print_digits(rt, Company::Table(&table).digits_of(text.as_str()))
}
