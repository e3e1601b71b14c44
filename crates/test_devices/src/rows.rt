//! What a program that makes one call of a row of tests reads and prints: words, and octets, texts, numbers and
//! messages in them; the lines of a run.

ghost use Rattle.std.specs.Prelude.{◌≤◌, IfOk};
ghost use Rattle.llrp_tree.specs.declared.TheConstants.{MAX_LIMIT};

use anyhow::{Context, Result, bail};
use llrp_listing::bytes_of_hex;
use llrp_tree::{MAX_LIMIT, Message, decode_frame, encode_into};
use std::alloc::Global;
use std::io;
use tag_bits::get;

/// The words on standard input, a line each: a call and what it is given.
pub fn words_given(rt: &HostRuntime) -> Result<Vec<String>> {
    let mut words = Vec::new(rt.alloc());
    for line in rt.lines(rt.alloc()) {
        words.push(line?)?;
    }
    Ok(words)
}

/// Marks the place from which on requests for memory may be refused.
pub fn refuse_growths(rt: &HostRuntime) -> io::Result<()> {
    println!(rt; "@refuse")
}

/// Marks the place from which on there is enough memory.
pub fn allow_growths(rt: &HostRuntime) -> io::Result<()> {
    println!(rt; "@ample")
}

/// The octets of hexadecimal digits.
pub fn octets_of(alloc: Global, digits: &str) -> Result<Vec<u8>> {
    bytes_of_hex(alloc, digits.as_bytes())
        .ok()
        .context("no hexadecimal digits")
}

/// The octets of the only word of a row.
pub fn only_octets(alloc: Global, row: &[String]) -> Result<Vec<u8>> {
    let [word] = row else {
        bail!("one word is needed");
    };
    octets_of(alloc, word.as_str())
}

/// The text that octets in hexadecimal digits spell.
pub fn text_of(alloc: Global, digits: &str) -> Result<String> {
    String::from_utf8(octets_of(alloc, digits)?)
        .ok()
        .context("no text")
}

/// The octets of a row's first word, and the limit that its second one is, or else 65,536.
pub fn octets_and_limit(alloc: Global, row: &[String]) -> Result<(Vec<u8>, u32)>
    ensures least { IfOk result (λ both. 10 ≤ both.1) }
    ensures most { IfOk result (λ both. both.1 ≤ MAX_LIMIT) }
{
    let (octets, limit) = match row {
        [octets] => (octets_of(alloc, octets.as_str())?, 65_536),
        [octets, limit] => (octets_of(alloc, octets.as_str())?, limit.as_str().parse()?),
        _ => bail!("the words are octets, and a limit or none"),
    };
    if limit < 10 || limit > MAX_LIMIT {
        bail!("no limit");
    }
    Ok((octets, limit))
}

/// The message of a frame.
pub fn message_of(alloc: Global, frame: &[u8]) -> Result<Message> {
    if frame.len() < 10 || get(frame, 16, 32) != frame.len() as u128 {
        bail!("the frame's length field is not its number of octets");
    }
    decode_frame(alloc, frame, MAX_LIMIT)
        .ok()
        .context("no message has the frame")
}

/// The octets of messages, one after another.
pub fn spelled(alloc: Global, messages: &[Message]) -> Result<Vec<u8>> {
    let mut all = Vec::new(alloc);
    for message in messages {
        encode_into(alloc, message, &mut all, MAX_LIMIT)
            .ok()
            .context("a message is not written")?;
    }
    Ok(all)
}

/// Prints a line: a name, and octets in hexadecimal.
pub fn print_octets(rt: &HostRuntime, what: &str, octets: &[u8]) -> Result<()> {
    let digits = hex::encode(rt.alloc(), octets)?;
    println!(rt; "{what} {digits}")?;
    Ok(())
}
