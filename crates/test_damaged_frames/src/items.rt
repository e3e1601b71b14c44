//! What a frame is, as text: `message, `, or its id, the bit and the reason of its fault.

use anyhow::{Result, bail};
use llrp_stream::Item;
use llrp_tree::{Fault, FrameErr, KindSet, MAX_LIMIT, Message, decode_frame_in, encode_into};
use std::alloc::Global;
use tag_bits::get;

/// The text of a message, which has to spell the octets that it was read from.
fn text_of_message(alloc: Global, message: &Message, frame: &[u8]) -> Result<String> {
    let mut spelled = Vec::new(alloc);
    if encode_into(alloc, message, &mut spelled, MAX_LIMIT).is_err()
        || spelled.as_slice() != frame
    {
        bail!("a message does not spell the octets that it was read from");
    }
    Ok(String::from_str(alloc, "message, ")?)
}

/// The text of a faulty frame.
fn text_of_fault(alloc: Global, id: u32, fault: Fault) -> Result<String> {
    let (bit, reason) = (fault.bit, fault.reason);
    Ok(format!(in alloc; "{id} {bit} {reason:?}, ")?)
}

/// The text of the item that a decoder gave for a frame.
fn text_of_item(alloc: Global, item: Item, frame: &[u8]) -> Result<String> {
    match item {
        Item::Msg(message) => text_of_message(alloc, &message, frame),
        Item::Bad { id, fault } => text_of_fault(alloc, id, fault),
    }
}

/// The text of a whole frame, as `decode_frame_in` reads it.
fn text_of_frame(alloc: Global, set: KindSet, frame: &[u8]) -> Result<String> {
    if frame.len() < 10 || get(frame, 16, 32) != frame.len() as u128 {
        bail!("a frame ends elsewhere than its length field says");
    }
    match decode_frame_in(alloc, set, frame, MAX_LIMIT) {
        Ok(message) => text_of_message(alloc, &message, frame),
        Err(FrameErr::Bad(fault)) => text_of_fault(alloc, get(frame, 48, 32) as u32, fault),
        Err(FrameErr::Memory) => bail!("memory"),
    }
}

/// Appends the text of an item, which has to be that of the whole frame.
pub fn push_item(
    alloc: Global,
    set: KindSet,
    found: &mut Vec<u8>,
    item: Item,
    frame: &[u8],
) -> Result<()> {
    let text = text_of_item(alloc, item, frame)?;
    if text.as_str() != text_of_frame(alloc, set, frame)?.as_str() {
        bail!("another item than that of the whole frame");
    }
    found.extend_from_slice(text.as_bytes())?;
    Ok(())
}
