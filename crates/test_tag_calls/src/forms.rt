//! The texts of words in each of their forms, and lists of them.

ghost use Rattle.std.specs.Int.{IsInRange};
ghost use Rattle.std.specs.Prelude.{IfOk, IfSome};

use crate::keys::{company_digits_of, filter_of};
use crate::schemes::{print_word, word_from};
use anyhow::{Context, Result, bail};
use std::alloc::Global;
use tag_forms::{
    Company, Form, FormFault, TextList, Wanted, form_in_all, form_named, form_of, push_forms,
    push_forms_in_all, push_wanted, read_in_all, text_in, word_in,
};
use tag_keys::KeyFault;
use test_devices::rows::{octets_of, print_octets, text_of};

/// Makes a call of this module, and returns whether it has one of this name.
pub fn make(rt: &HostRuntime, call: &str, row: &[String]) -> Result<bool> {
    match call {
        "form" => form(rt, row)?,
        "read-form" => read_form(rt, row)?,
        "form-of" => name_of_form(rt, row)?,
        "form-named" => named(rt, row)?,
        "forms" => forms(rt, row)?,
        "object" => object(rt, row)?,
        "list-of-texts" => list(rt, row)?,
        _ => return Ok(false),
    }
    Ok(true)
}

/// The form that a word names.
fn form_from(word: &str) -> Result<Form> {
    form_named(word).context("no form")
}

/// Whether a word names the set of all schemes, and not that of the seven.
fn takes_all(word: &str) -> Result<bool> {
    match word {
        "all" => Ok(true),
        "seven" => Ok(false),
        _ => bail!("no set of schemes"),
    }
}

/// How many digits company prefixes have; nothing for `-`.
fn known_digits(word: &str) -> Result<Option<u8>>
    ensures { IfOk result (λ known. IfSome known (λ count. IsInRange 6 12 count)) }
{
    if word == "-" {
        return Ok(None);
    }
    Ok(Some(company_digits_of(word)?))
}

/// Calls `text_in` or `form_in_all` on a set of schemes, a word and a form.
fn form(rt: &HostRuntime, row: &[String]) -> Result<()> {
    let [set, word, form] = row else {
        bail!("the words are a set, a word and a form");
    };
    let word = word_from(rt.alloc(), word.as_str())?;
    let form = form_from(form.as_str())?;
    let text = if takes_all(set.as_str())? {
        form_in_all(word, form)
    } else {
        text_in(word, form)
    };
    match text {
        Some(text) => println!(rt; "answer {}", text.as_str())?,
        None => println!(rt; "answer none")?,
    }
    Ok(())
}

/// Prints why a text is refused, with the right check digit where that one is wrong.
fn print_fault(rt: &HostRuntime, fault: FormFault) -> Result<()> {
    match fault {
        FormFault::Key(KeyFault::Check(digit)) => {
            let digit = digit.wrapping_sub(b'0');
            println!(rt; "answer Check {digit}")?;
        }
        _ => println!(rt; "answer {}", fault.name())?,
    }
    Ok(())
}

/// Calls `word_in` or `read_in_all` on a set of schemes, a text, a form, a filter value and the number of a
/// company prefix's digits.
fn read_form(rt: &HostRuntime, row: &[String]) -> Result<()> {
    let [set, text, form, filter, digits] = row else {
        bail!("the words are a set, a text, a form, a filter value and digits");
    };
    let text = text_of(rt.alloc(), text.as_str())?;
    let form = form_from(form.as_str())?;
    let filter = filter_of(filter.as_str())?;
    let digits = known_digits(digits.as_str())?;
    if takes_all(set.as_str())? {
        match read_in_all(text.as_str(), form, filter, digits) {
            Ok(word) => print_word(rt, word)?,
            Err(fault) => println!(rt; "answer {}", fault.name())?,
        }
        return Ok(());
    }
    match word_in(text.as_str(), form, filter, digits) {
        Ok(word) => print_word(rt, word),
        Err(fault) => print_fault(rt, fault),
    }
}

/// Calls `form_of` on a text.
fn name_of_form(rt: &HostRuntime, row: &[String]) -> Result<()> {
    let [text] = row else {
        bail!("no text");
    };
    let text = text_of(rt.alloc(), text.as_str())?;
    let form = form_of(text.as_str());
    println!(rt; "answer {form:?}")?;
    Ok(())
}

/// Calls `form_named` on a name.
fn named(rt: &HostRuntime, row: &[String]) -> Result<()> {
    let [name] = row else {
        bail!("no name");
    };
    let form = form_named(name.as_str());
    println!(rt; "answer {form:?}")?;
    Ok(())
}

/// Calls `push_forms` or `push_forms_in_all` on a set of schemes and a word.
fn forms(rt: &HostRuntime, row: &[String]) -> Result<()> {
    let alloc = rt.alloc();
    let [set, word] = row else {
        bail!("the words are a set and a word");
    };
    let word = word_from(alloc, word.as_str())?;
    let mut lines = Vec::new(alloc);
    if takes_all(set.as_str())? {
        push_forms_in_all(&mut lines, word)?;
    } else {
        push_forms(&mut lines, word)?;
    }
    print_octets(rt, "wrote", lines.as_slice())
}

/// What is wanted of a text: an object of all its forms, or of the one that a word names.
fn wanted_from(word: &str) -> Result<Wanted> {
    if word == "all" {
        return Ok(Wanted::Object);
    }
    Ok(Wanted::Member(form_from(word)?))
}

/// Calls `push_wanted` on a text and the form that is wanted, for the filter value 3 and a company prefix of
/// seven digits.
fn object(rt: &HostRuntime, row: &[String]) -> Result<()> {
    let alloc = rt.alloc();
    let [text, wanted] = row else {
        bail!("the words are a text and a form");
    };
    let text = text_of(alloc, text.as_str())?;
    let mut answers = Vec::new(alloc);
    let wanted = wanted_from(wanted.as_str())?;
    let refused = push_wanted(&mut answers, text.as_str(), wanted, 3, Some(7))?;
    println!(rt; "answer {refused}")?;
    print_octets(rt, "wrote", answers.as_slice())
}

/// The answers to a list that comes in two pieces, and whether a line is refused.
fn answered(alloc: Global, list: &[u8], form: Form, cut: usize) -> Result<(Vec<u8>, bool)> {
    let mut answers = Vec::new(alloc);
    let mut texts = TextList::new(alloc, Wanted::Text(form), 3, Company::Digits(Some(7)));
    let (first, rest) = list.split_at(cut.min(list.len()));
    texts.take(first, &mut answers)?;
    texts.take(rest, &mut answers)?;
    texts.end(&mut answers)?;
    Ok((answers, texts.refused()))
}

/// The places at which a list is cut: each of a short one.
fn last_cut(list: &[u8]) -> usize {
    list.len().min(1024)
}

/// Calls `TextList::take` on a list of texts that is cut in two at each of its places, for a form, the filter
/// value 3 and a company prefix of seven digits.
fn list(rt: &HostRuntime, row: &[String]) -> Result<()> {
    let alloc = rt.alloc();
    let [text, form] = row else {
        bail!("the words are a list and a form");
    };
    let text = octets_of(alloc, text.as_str())?;
    let form = form_from(form.as_str())?;
    let (answers, refused) = answered(alloc, text.as_slice(), form, 0)?;
    for cut in 1..last_cut(text.as_slice()) {
        let (found, is_refused) = answered(alloc, text.as_slice(), form, cut)?;
        if found != answers || is_refused != refused {
            bail!("other answers to the list cut after {cut}");
        }
    }
    println!(rt; "answer {refused}")?;
    print_octets(rt, "wrote", answers.as_slice())
}
