//! Decodes a frame and encodes its message, each a given number of times, for a script that measures it.
//!
//! The two words say how often; standard input is the frame, a line of hexadecimal digits.

ghost use Rattle.std.specs.Prelude.{◌≤◌, IfOk};
ghost use Rattle.llrp_tree.specs.declared.TheConstants.{MAX_LIMIT};
ghost use Rattle.llrp_tree.specs.Frame.{Frame};

use crate::numbers::two_numbers;
use anyhow::{Context, Result, bail};
use llrp_tree::{MAX_LIMIT, Message, decode_frame, encode_into};
use std::alloc::Global;
use tag_bits::get;

/// The message of a frame, which is decoded this many times, and once at least.
fn decode_often(alloc: Global, frame: &[u8], times: u32) -> Result<Message>
    ensures { IfOk result (λ message. Frame message frame.now MAX_LIMIT) }
{
    if frame.len() < 10 || get(frame, 16, 32) != frame.len() as u128 {
        bail!("the frame's length field is not its number of octets");
    }
    for _ in 1..times {
        let message = decode_frame(alloc, frame, MAX_LIMIT).ok();
        message.context("no message has the frame")?;
    }
    let message = decode_frame(alloc, frame, MAX_LIMIT).ok();
    message.context("no message has the frame")
}

/// The frame of a message, which is encoded this many times, and once at least.
fn encode_often(alloc: Global, message: &Message, times: u32) -> Result<Vec<u8>>
    ensures { IfOk result (λ frame. Frame message.now frame.items MAX_LIMIT) }
{
    for _ in 1..times {
        let mut frame = Vec::new(alloc);
        let written = encode_into(alloc, message, &mut frame, MAX_LIMIT).ok();
        written.context("the frame is not written")?;
    }
    let mut frame = Vec::new(alloc);
    let written = encode_into(alloc, message, &mut frame, MAX_LIMIT).ok();
    written.context("the frame is not written")?;
    Ok(frame)
}

/// Decodes and encodes the frame as often as the words say.
pub fn code_often(rt: &HostRuntime, words: &[String]) -> Result<()> {
    let alloc = rt.alloc();
    let (decodes, encodes) = two_numbers(words)?;
    let line = rt.lines(alloc).next().context("no frame")??;
    let frame = hex::decode(alloc, line.as_str())?;
    let message = decode_often(alloc, frame.as_slice(), decodes)?;
    let again = encode_often(alloc, &message, encodes)?;
    if again != frame {
        bail!("the frame is not the one that was read");
    }
    let octets = frame.len();
    println!(rt; "{octets} octets decoded {decodes} times and encoded {encodes} times")?;
    Ok(())
}
