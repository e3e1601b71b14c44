//! The calls on whole frames and on pieces of a stream.

use anyhow::{Context, Result, bail};
use llrp_stream::{Decoder, FeedErr, Item};
use llrp_tree::{FrameErr, MAX_LIMIT, Message, decode_frame, encode_into};
use std::alloc::Global;
use tag_bits::get;
use test_devices::rows::{
    allow_growths, message_of, octets_of, only_octets, print_octets, refuse_growths, spelled,
};

/// Makes a call of this module, and returns whether it has one of this name.
pub fn make(rt: &HostRuntime, call: &str, row: &[String]) -> Result<bool> {
    match call {
        "decode" => decode(rt, row)?,
        "feed" => feed(rt, row)?,
        "skip" => skip(rt, row)?,
        "encode" => encode(rt, row)?,
        "clone" => clone(rt, row)?,
        "clone-node" => clone_node(rt, row)?,
        _ => return Ok(false),
    }
    Ok(true)
}

/// Prints what `decode_frame` answered, and returns whether that was Memory.
fn print_decoded(rt: &HostRuntime, what: &str, decoded: Result<Message, FrameErr>) -> Result<bool> {
    match decoded {
        Ok(message) => {
            let octets = spelled(rt.alloc(), &[message])?;
            print_octets(rt, what, octets.as_slice())?;
            Ok(false)
        }
        Err(FrameErr::Bad(fault)) => {
            println!(rt; "{what} {fault:?}")?;
            Ok(false)
        }
        Err(FrameErr::Memory) => {
            println!(rt; "{what} Memory")?;
            Ok(true)
        }
    }
}

/// Calls `decode_frame` on a frame.
fn decode(rt: &HostRuntime, row: &[String]) -> Result<()> {
    let alloc = rt.alloc();
    let frame = only_octets(alloc, row)?;
    let frame = frame.as_slice();
    if frame.len() < 10 || get(frame, 16, 32) != frame.len() as u128 {
        bail!("the frame's length field is not its number of octets");
    }
    refuse_growths(rt)?;
    let decoded = decode_frame(alloc, frame, MAX_LIMIT);
    allow_growths(rt)?;
    if print_decoded(rt, "answer", decoded)? {
        println!(rt; "after same")?;
        print_decoded(rt, "again", decode_frame(alloc, frame, MAX_LIMIT))?;
    }
    Ok(())
}

/// Feeds a decoder all of a stream. `items` has room for all of its items.
fn feed_all(decoder: &mut Decoder, stream: &[u8], items: &mut Vec<Item>) -> Option<FeedErr> {
    let mut rest = stream;
    for _ in 0..stream.len() {
        if rest.is_empty() {
            return None;
        }
        match decoder.feed(rest) {
            Ok(fed) => {
                rest = rest.split_at(fed.used).1;
                match fed.item {
                    None => return None,
                    Some(item) => {
                        if items.push(item).is_err() {
                            return Some(FeedErr::Memory);
                        }
                    }
                }
            }
            Err(error) => return Some(error),
        }
    }
    None
}

/// Prints the items that the decoder gave.
fn print_items(rt: &HostRuntime, items: Vec<Item>) -> Result<()> {
    print!(rt; "answer")?;
    for item in items {
        match item {
            Item::Msg(message) => {
                let octets = spelled(rt.alloc(), &[message])?;
                let digits = hex::encode(rt.alloc(), octets.as_slice())?;
                print!(rt; " {digits}")?;
            }
            Item::Bad { id, fault } => print!(rt; " {id} {fault:?}")?,
        }
    }
    Ok(())
}

/// Feeds a decoder a stream in two halves, so that a frame is cut between them.
fn feed(rt: &HostRuntime, row: &[String]) -> Result<()> {
    let alloc = rt.alloc();
    let stream = only_octets(alloc, row)?;
    let mut items = Vec::new(alloc);
    items.reserve(stream.len() + 1)?;
    let mut decoder = Decoder::new(alloc, MAX_LIMIT);
    let half = stream.len() / 2;
    let (front, back) = stream.as_slice().split_at(half);
    refuse_growths(rt)?;
    let mut error = feed_all(&mut decoder, front, &mut items);
    if error.is_none() {
        error = feed_all(&mut decoder, back, &mut items);
    }
    allow_growths(rt)?;
    print_items(rt, items)?;
    match error {
        None => {
            let end = decoder.finish();
            println!(rt; " {end:?}")?;
        }
        Some(error) => {
            println!(rt; " {error:?}")?;
            let held = decoder.held();
            let end = decoder.finish();
            let later = match decoder.feed(back) {
                Ok(_) => None,
                Err(error) => Some(error),
            };
            println!(rt; "after held {held} {end:?} {later:?}")?;
        }
    }
    Ok(())
}

/// Feeds a decoder the octets of the first word, the front of a frame whose fault they decide, and then,
/// within the call, as many zeros as the second word says, which are the rest of the frame.
fn skip(rt: &HostRuntime, row: &[String]) -> Result<()> {
    let alloc = rt.alloc();
    let [front, count] = row else {
        bail!("a front and the number of octets that follow it");
    };
    let front = octets_of(alloc, front.as_str())?;
    let mut rest = Vec::new(alloc);
    rest.resize(count.parse::<usize>().ok().context("a number")?, 0)?;
    let mut items = Vec::new(alloc);
    items.reserve(2)?;
    let mut decoder = Decoder::new(alloc, MAX_LIMIT);
    let mut error = feed_all(&mut decoder, front.as_slice(), &mut items);
    let held = decoder.held();
    refuse_growths(rt)?;
    if error.is_none() {
        error = feed_all(&mut decoder, rest.as_slice(), &mut items);
    }
    allow_growths(rt)?;
    print_items(rt, items)?;
    let end = decoder.finish();
    println!(rt; " held {held} {error:?} {end:?}")?;
    Ok(())
}

/// Prints what `encode_into` left in its buffer, or that it answered Memory.
fn print_appended(rt: &HostRuntime, what: &str, ok: bool, out: &Vec<u8>) -> Result<()> {
    if ok {
        print_octets(rt, what, out.as_slice())
    } else {
        println!(rt; "{what} Memory")?;
        Ok(())
    }
}

/// Calls `encode_into` on the message of a frame, with a buffer that holds three octets.
fn encode(rt: &HostRuntime, row: &[String]) -> Result<()> {
    let alloc = rt.alloc();
    let message = message_of(alloc, only_octets(alloc, row)?.as_slice())?;
    let mut out = Vec::new(alloc);
    out.extend_from_slice(b"\x01\x02\x03")?;
    refuse_growths(rt)?;
    let written = encode_into(alloc, &message, &mut out, MAX_LIMIT);
    allow_growths(rt)?;
    print_appended(rt, "answer", written.is_ok(), &out)?;
    if written.is_err() {
        let stands = if out.as_slice() == b"\x01\x02\x03".as_slice() {
            "same"
        } else {
            "changed"
        };
        println!(rt; "after {stands}")?;
        let written = encode_into(alloc, &message, &mut out, MAX_LIMIT);
        print_appended(rt, "again", written.is_ok(), &out)?;
    }
    Ok(())
}

/// Prints a copy of a message, or that copying answered Memory.
fn print_copy(rt: &HostRuntime, what: &str, copy: Option<Message>) -> Result<()> {
    match copy {
        Some(copy) => {
            let octets = spelled(rt.alloc(), &[copy])?;
            print_octets(rt, what, octets.as_slice())
        }
        None => {
            println!(rt; "{what} Memory")?;
            Ok(())
        }
    }
}

/// Calls `Message::try_clone` on the message of a frame.
fn clone(rt: &HostRuntime, row: &[String]) -> Result<()> {
    let alloc = rt.alloc();
    let message = message_of(alloc, only_octets(alloc, row)?.as_slice())?;
    refuse_growths(rt)?;
    let copy = message.try_clone(alloc).ok();
    allow_growths(rt)?;
    let is_refused = copy.is_none();
    print_copy(rt, "answer", copy)?;
    if is_refused {
        println!(rt; "after same")?;
        print_copy(rt, "again", message.try_clone(alloc).ok())?;
    }
    Ok(())
}

/// Calls `Node::try_clone` on the first parameter of the message of a frame, and prints the length of the
/// copy.
fn clone_node(rt: &HostRuntime, row: &[String]) -> Result<()> {
    let alloc = rt.alloc();
    let message = message_of(alloc, only_octets(alloc, row)?.as_slice())?;
    let node = message
        .children()
        .as_slice()
        .first()
        .context("the message has no parameter")?;
    refuse_growths(rt)?;
    let copy = node.try_clone(alloc);
    allow_growths(rt)?;
    match copy {
        Ok(copy) => {
            let octets = copy.length();
            println!(rt; "answer {octets}")?;
        }
        Err(_) => {
            println!(rt; "answer Memory")?;
            println!(rt; "after same")?;
            let octets = node.try_clone(alloc)?.length();
            println!(rt; "again {octets}")?;
        }
    }
    Ok(())
}
