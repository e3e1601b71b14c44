//! Keys and pure identities of EPCs.

ghost use Rattle.std.specs.Prelude.{◌≤◌, IfOk};

use anyhow::{Context, Result, bail};
use std::alloc::Global;
use tag_keys::{KeyFault, Spelling, digits_from_company, parse_id, parse_key, print_id, print_key};
use tag_scheme_keys::{
    parse_id_in, parse_key_in, parse_supplier_id, print_id_in, print_key_in, print_supplier_id,
};
use tag_uri::{parse, print};
use test_devices::rows::text_of;

/// Makes a call of this module, and returns whether it has one of this name.
pub fn make(rt: &HostRuntime, call: &str, row: &[String]) -> Result<bool> {
    match call {
        "key" => key(rt, row)?,
        "key-of" => key_of(rt, row)?,
        "id" => id(rt, row)?,
        "id-of" => id_of(rt, row)?,
        "company" => company(rt, row)?,
        "further-key" => further_key(rt, row)?,
        "further-key-of" => further_key_of(rt, row)?,
        "further-id" => further_id(rt, row)?,
        "supplier-id" => supplier_id(rt, row)?,
        _ => return Ok(false),
    }
    Ok(true)
}

/// How a key is spelled.
fn spelling_of(word: &str) -> Result<Spelling> {
    Ok(match word {
        "element" => Spelling::Element,
        "link" => Spelling::Link,
        "named" => Spelling::Named,
        _ => bail!("no spelling"),
    })
}

/// The text of a row's first word, and the spelling that its second one names.
fn text_and_spelling(alloc: Global, row: &[String]) -> Result<(String, Spelling)> {
    let [text, spelling, ..] = row else {
        bail!("the words are a text and a spelling");
    };
    let text = text_of(alloc, text.as_str())?;
    Ok((text, spelling_of(spelling.as_str())?))
}

/// A filter value.
pub fn filter_of(word: &str) -> Result<u8>
    ensures { IfOk result (λ filter. filter ≤ 7) }
{
    let filter: u8 = word.parse()?;
    if filter > 7 {
        bail!("no filter value");
    }
    Ok(filter)
}

/// How many digits a company prefix has.
pub fn company_digits_of(word: &str) -> Result<u8>
    ensures least { IfOk result (λ digits. 6 ≤ digits) }
    ensures most { IfOk result (λ digits. digits ≤ 12) }
{
    let digits: u8 = word.parse()?;
    if digits < 6 || digits > 12 {
        bail!("no number of digits");
    }
    Ok(digits)
}

/// Prints the rule that refuses a text, with the right check digit where that one is wrong.
fn print_fault(rt: &HostRuntime, fault: KeyFault) -> Result<()> {
    let name = fault.name();
    match fault {
        KeyFault::Check(digit) => {
            let digit = digit.wrapping_sub(b'0');
            println!(rt; "answer {name} {digit}")?;
        }
        _ => println!(rt; "answer {name}")?,
    }
    Ok(())
}

/// Calls `print_key` on the EPC of a tag URI.
fn key(rt: &HostRuntime, row: &[String]) -> Result<()> {
    let (tag, spelling) = text_and_spelling(rt.alloc(), row)?;
    let epc = parse(tag.as_str()).ok().context("no EPC")?;
    match print_key(&epc, spelling) {
        Some(text) => println!(rt; "answer {}", text.as_str())?,
        None => println!(rt; "answer none")?,
    }
    Ok(())
}

/// Calls `parse_key` on a text, a spelling, a filter value and the number of a company prefix's digits.
fn key_of(rt: &HostRuntime, row: &[String]) -> Result<()> {
    let (text, spelling) = text_and_spelling(rt.alloc(), row)?;
    let [_, _, filter, digits] = row else {
        bail!("no filter value and number of digits");
    };
    let filter = filter_of(filter.as_str())?;
    let digits = company_digits_of(digits.as_str())?;
    match parse_key(text.as_str(), spelling, filter, digits) {
        Ok(epc) => println!(rt; "answer {}", print(&epc).as_str())?,
        Err(fault) => print_fault(rt, fault)?,
    }
    Ok(())
}

/// Calls `print_id` on the EPC of a tag URI.
fn id(rt: &HostRuntime, row: &[String]) -> Result<()> {
    let [tag] = row else {
        bail!("no tag URI");
    };
    let tag = text_of(rt.alloc(), tag.as_str())?;
    let epc = parse(tag.as_str()).ok().context("no EPC")?;
    println!(rt; "answer {}", print_id(&epc).as_str())?;
    Ok(())
}

/// The text and the filter value of two words.
fn text_and_filter(alloc: Global, row: &[String]) -> Result<(String, u8)>
    ensures { IfOk result (λ both. both.1 ≤ 7) }
{
    let [text, filter] = row else {
        bail!("the words are a text and a filter value");
    };
    let text = text_of(alloc, text.as_str())?;
    Ok((text, filter_of(filter.as_str())?))
}

/// Calls `parse_id` on a text and a filter value.
fn id_of(rt: &HostRuntime, row: &[String]) -> Result<()> {
    let (text, filter) = text_and_filter(rt.alloc(), row)?;
    match parse_id(text.as_str(), filter) {
        Ok(epc) => println!(rt; "answer {}", print(&epc).as_str())?,
        Err(fault) => print_fault(rt, fault)?,
    }
    Ok(())
}

/// Calls `digits_from_company` on a text and a spelling.
fn company(rt: &HostRuntime, row: &[String]) -> Result<()> {
    let (text, spelling) = text_and_spelling(rt.alloc(), row)?;
    let digits = digits_from_company(text.as_str(), spelling).unwrap_or("none");
    println!(rt; "answer {digits}")?;
    Ok(())
}

/// Calls `print_key_in` on the EPC of a pure identity URI of the further schemes.
fn further_key(rt: &HostRuntime, row: &[String]) -> Result<()> {
    let (text, spelling) = text_and_spelling(rt.alloc(), row)?;
    match parse_id_in(text.as_str(), 3) {
        Ok(epc) => println!(rt; "answer {}", print_key_in(epc, spelling).as_str())?,
        Err(fault) => print_fault(rt, fault)?,
    }
    Ok(())
}

/// Calls `parse_key_in` on a text and a spelling, for the filter value 3 and a company prefix of seven digits.
fn further_key_of(rt: &HostRuntime, row: &[String]) -> Result<()> {
    let (text, spelling) = text_and_spelling(rt.alloc(), row)?;
    match parse_key_in(text.as_str(), spelling, 3, 7) {
        Ok(epc) => println!(rt; "answer {}", print_id_in(epc).as_str())?,
        Err(fault) => print_fault(rt, fault)?,
    }
    Ok(())
}

/// Calls `parse_id_in` on a text and a filter value, and `print_id_in` on the EPC.
fn further_id(rt: &HostRuntime, row: &[String]) -> Result<()> {
    let (text, filter) = text_and_filter(rt.alloc(), row)?;
    match parse_id_in(text.as_str(), filter) {
        Ok(epc) => {
            let filter = epc.filter;
            println!(rt; "answer {} {filter}", print_id_in(epc).as_str())?;
        }
        Err(fault) => print_fault(rt, fault)?,
    }
    Ok(())
}

/// Calls `parse_supplier_id` on a text, for the filter value 15, and `print_supplier_id` on the EPC.
fn supplier_id(rt: &HostRuntime, row: &[String]) -> Result<()> {
    let [text] = row else {
        bail!("no text");
    };
    let text = text_of(rt.alloc(), text.as_str())?;
    match parse_supplier_id(text.as_str(), 15) {
        Ok(epc) => {
            let (filter, serial) = (epc.filter, epc.serial);
            let code = hex::encode(rt.alloc(), epc.code.as_slice())?;
            println!(rt;
                "answer {} {filter} {code} {serial}",
                print_supplier_id(epc).as_str()
            )?;
        }
        Err(fault) => println!(rt; "answer {fault:?}")?,
    }
    Ok(())
}
