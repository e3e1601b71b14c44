//! Reads a stream many times, for a script that measures it: by the decoder, and for a listener that does nothing.
//!
//! The two words say how often; standard input is the stream, a line of hexadecimal digits.

mod decoding;
mod reading;
mod silent;

use crate::numbers::two_numbers;
use anyhow::{Context, Result};
use decoding::decode_all;
use reading::read_all;

/// Reads the stream as often as the words say.
pub fn read_often(rt: &HostRuntime, words: &[String]) -> Result<()> {
    let alloc = rt.alloc();
    let (decodes, readings) = two_numbers(words)?;
    let line = rt.lines(alloc).next().context("no stream")??;
    let stream = hex::decode(alloc, line.as_str())?;
    let mut items = 0;
    for _ in 0..decodes {
        items = decode_all(alloc, stream.as_slice());
    }
    let mut frames = 0;
    for _ in 0..readings {
        frames = read_all(stream.as_slice());
    }
    println!(rt; "{items} items {decodes} times and {frames} frames {readings} times")?;
    Ok(())
}
