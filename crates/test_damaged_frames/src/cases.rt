//! A stream as it is, in two pieces, each of its fronts, and each change of one of its octets.

use crate::reading::{Cut, found};
use anyhow::{Context, Result, bail};
use llrp_tree::KindSet;
use std::alloc::Global;

/// What a stream holds, read at once and octet by octet.
fn read_both(alloc: Global, set: KindSet, stream: &[u8]) -> Result<Vec<u8>> {
    let at_once = found(alloc, set, stream, Cut::Nowhere)?;
    if found(alloc, set, stream, Cut::Everywhere)? != at_once {
        bail!("other items octet by octet than at once");
    }
    Ok(at_once)
}

/// Prints a line of what was found wrong.
fn print_wrong(rt: &HostRuntime, what: &str, stream: &[u8]) -> Result<()> {
    let digits = hex::encode(rt.alloc(), stream)?;
    println!(rt; "WRONG {what}: {digits}")?;
    Ok(())
}

/// Prints what a stream holds.
pub fn same(rt: &HostRuntime, set: KindSet, stream: &[u8]) -> Result<()> {
    match read_both(rt.alloc(), set, stream) {
        Ok(found) => {
            let text = String::from_utf8(found).ok().context("text")?;
            println!(rt; "same {text}")?;
            Ok(())
        }
        Err(error) => {
            let what = format!(in rt.alloc(); "{error}")?;
            print_wrong(rt, what.as_str(), stream)
        }
    }
}

/// Whether a stream of this many octets is cut at a place: a long one only at 40 places at each end.
fn is_cut_at(octets: usize, place: usize) -> bool {
    octets <= 100 || place <= 40 || octets.saturating_sub(place) <= 40
}

/// Whether a stream in two pieces holds what it holds at once.
fn is_same_cut_at(
    alloc: Global,
    set: KindSet,
    stream: &[u8],
    place: usize,
    at_once: &[u8],
) -> bool {
    match found(alloc, set, stream, Cut::At(place)) {
        Ok(found) => found.as_slice() == at_once,
        Err(_) => false,
    }
}

/// Reads a stream that is cut into two at each place.
pub fn pieces(rt: &HostRuntime, set: KindSet, stream: &[u8]) -> Result<()> {
    let at_once = read_both(rt.alloc(), set, stream)?;
    let mut places = 0u32;
    for place in 1..stream.len() {
        if !is_cut_at(stream.len(), place) {
            continue;
        }
        if !is_same_cut_at(rt.alloc(), set, stream, place, at_once.as_slice()) {
            let what = format!(in rt.alloc(); "cut at {place}")?;
            print_wrong(rt, what.as_str(), stream)?;
        }
        places = places.saturating_add(1);
    }
    println!(rt; "pieces {places} places")?;
    Ok(())
}

/// What the front of a frame has to be: nothing, or a rest of its length.
fn wanted(alloc: Global, octets: usize) -> Result<String> {
    if octets == 0 {
        return Ok(String::from_str(alloc, "Clean")?);
    }
    Ok(format!(in alloc; "Rest({octets})")?)
}

/// Reads each front of a frame that is shorter than the frame.
pub fn cuts(rt: &HostRuntime, set: KindSet, frame: &[u8]) -> Result<()> {
    let alloc = rt.alloc();
    for octets in 0..frame.len() {
        let (front, _) = frame.split_at(octets);
        let is_right = match read_both(alloc, set, front) {
            Ok(found) => found.as_slice() == wanted(alloc, octets)?.as_bytes(),
            Err(_) => false,
        };
        if !is_right {
            print_wrong(rt, "a front", front)?;
        }
    }
    let count = frame.len();
    println!(rt; "cuts {count}")?;
    Ok(())
}

/// Reads a stream with the octet at a place changed to each other value, and returns how many of these
/// streams hold messages alone.
fn changes_at(rt: &HostRuntime, set: KindSet, stream: &mut Vec<u8>, place: usize) -> Result<u32> {
    let Some(octet) = stream.as_slice().get(place).copied() else {
        return Ok(0);
    };
    let mut lawful = 0u32;
    for value in 0..=255u8 {
        if value == octet {
            continue;
        }
        if let Some(changed) = stream.as_mut_slice().get_mut(place) {
            *changed = value;
        }
        match read_both(rt.alloc(), set, stream.as_slice()) {
            Ok(found) => {
                if found.as_slice() == b"message, Clean".as_slice() {
                    lawful = lawful.saturating_add(1);
                }
            }
            Err(error) => {
                let what = format!(in rt.alloc(); "{error}")?;
                print_wrong(rt, what.as_str(), stream.as_slice())?;
            }
        }
    }
    if let Some(changed) = stream.as_mut_slice().get_mut(place) {
        *changed = octet;
    }
    Ok(lawful)
}

/// Reads a stream with each single octet changed to each other value.
pub fn changes(rt: &HostRuntime, set: KindSet, stream: &[u8]) -> Result<()> {
    let mut changed = stream.to_vec(rt.alloc())?;
    let mut lawful = 0u32;
    for place in 0..stream.len() {
        lawful = lawful.saturating_add(changes_at(rt, set, &mut changed, place)?);
    }
    let octets = stream.len();
    println!(rt; "changes {octets} octets, {lawful} lawful")?;
    Ok(())
}
