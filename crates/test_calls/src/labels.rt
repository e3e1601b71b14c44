//! Listings and lines of tags with labels, of all schemes with keys.

use anyhow::{Result, bail};
use llrp_labels::{
    LabelErr, LabelFault, Labels, PlainErr, label_tags, label_text, list_labelled, plain_text,
    read_plain, run_show_labelled,
};
use llrp_schema::KindSet;
use llrp_stream::{Input, Output};
use std::alloc::Global;
use test_devices::rows::{octets_of, only_octets, print_octets};

/// Makes a call of this module, and returns whether it has one of this name.
pub fn make(rt: &HostRuntime, call: &str, row: &[String]) -> Result<bool> {
    match call {
        "label" => label(rt, row)?,
        "plain" => plain(rt, row)?,
        "label-tags" => tags(rt, row)?,
        "read-plain" => read(rt, row)?,
        "show-labelled" => show(rt, row)?,
        "list-labelled" => list(rt, row)?,
        _ => return Ok(false),
    }
    Ok(true)
}

/// The labels of the set of all schemes and of keys.
const BOTH: Labels = Labels {
    schemes: true,
    keys: true,
};

/// The labels that a word names: `both`, or `keys` alone.
fn labels_of(word: &str) -> Result<Labels> {
    match word {
        "both" => Ok(BOTH),
        "keys" => Ok(Labels {
            schemes: false,
            keys: true,
        }),
        _ => bail!("no labels"),
    }
}

/// The labels and the text of two words.
fn labels_and_text(alloc: Global, row: &[String]) -> Result<(Labels, Vec<u8>)> {
    let [labels, text] = row else {
        bail!("the words are labels and a text");
    };
    let labels = labels_of(labels.as_str())?;
    Ok((labels, octets_of(alloc, text.as_str())?))
}

/// Calls `label_text` on labels and a listing.
fn label(rt: &HostRuntime, row: &[String]) -> Result<()> {
    let (labels, text) = labels_and_text(rt.alloc(), row)?;
    let labelled = label_text(rt.alloc(), labels, text.as_slice())?;
    print_octets(rt, "wrote", labelled.as_slice())
}

/// Prints which line is refused, and the words that an error line has for it.
fn print_fault(rt: &HostRuntime, line: u64, fault: LabelFault) -> Result<()> {
    let (name, inner) = fault.names();
    println!(rt; "answer {line} {name}{inner}")?;
    Ok(())
}

/// Calls `plain_text` on labels and a listing with them.
fn plain(rt: &HostRuntime, row: &[String]) -> Result<()> {
    let (labels, text) = labels_and_text(rt.alloc(), row)?;
    match plain_text(rt.alloc(), labels, text.as_slice()) {
        Ok(plain) => print_octets(rt, "wrote", plain.as_slice()),
        Err(PlainErr::Line { line, fault }) => print_fault(rt, line, fault),
        Err(PlainErr::Memory) => bail!("no memory"),
    }
}

/// Calls `label_tags` on a form of lines, `json` or `words`, and lines of tags.
fn tags(rt: &HostRuntime, row: &[String]) -> Result<()> {
    let [form, text] = row else {
        bail!("the words are a form and lines");
    };
    let text = octets_of(rt.alloc(), text.as_str())?;
    let is_json = form.as_str() == "json";
    let labelled = label_tags(rt.alloc(), BOTH, is_json, text.as_slice())?;
    print_octets(rt, "wrote", labelled.as_slice())
}

/// Calls `read_plain` on a listing with labels.
fn read(rt: &HostRuntime, row: &[String]) -> Result<()> {
    let text = only_octets(rt.alloc(), row)?;
    match read_plain(rt.alloc(), BOTH, &mut Input::new(text.as_slice())) {
        Ok(plain) => print_octets(rt, "wrote", plain.as_slice()),
        Err(LabelErr::Line { line, fault }) => print_fault(rt, line, fault),
        Err(LabelErr::Stopped(error)) => {
            println!(rt; "answer {error:?}")?;
            Ok(())
        }
    }
}

/// Calls `run_show_labelled` on the hexadecimal digits of a stream.
fn show(rt: &HostRuntime, row: &[String]) -> Result<()> {
    let alloc = rt.alloc();
    let digits = only_octets(alloc, row)?;
    let mut input = Input::new(digits.as_slice());
    let mut output = Output::new(Vec::new(alloc));
    let set = KindSet::Profile;
    let shown = run_show_labelled(alloc, BOTH, true, set, &mut input, &mut output, 65_536);
    println!(rt; "answer {shown:?}")?;
    print_octets(rt, "wrote", output.into_inner().as_slice())
}

/// Calls `list_labelled` on a stream.
fn list(rt: &HostRuntime, row: &[String]) -> Result<()> {
    let alloc = rt.alloc();
    let stream = only_octets(alloc, row)?;
    let mut output = Output::new(Vec::new(alloc));
    let set = KindSet::Profile;
    let listed = list_labelled(alloc, BOTH, set, stream.as_slice(), &mut output, 65_536);
    println!(rt; "answer {listed:?}")?;
    print_octets(rt, "wrote", output.into_inner().as_slice())
}
