//! Octets in tests, as hexadecimal digits among spaces.

use llrp_listing::{ToolErr, bytes_of_hex};
use llrp_tree::{FrameErr, KindSet, Message, decode_frame_in, encode_into};
use std::alloc::Global;
use tag_bits::get;

/// The octets of hexadecimal texts in a row, whose spaces are passed over.
pub fn octets(alloc: Global, texts: &[&str]) -> Result<Vec<u8>, ToolErr> {
    let mut digits = Vec::new(alloc);
    for text in texts {
        digits.extend_from_slice(text.as_bytes())?;
    }
    bytes_of_hex(alloc, digits.as_slice())
}

/// Whether hexadecimal texts in a row spell these octets.
pub fn spell(alloc: Global, texts: &[&str], found: &[u8]) -> Result<bool, ToolErr> {
    Ok(octets(alloc, texts)?.as_slice() == found)
}

/// Whether messages, one after another, have the octets of hexadecimal texts in a row.
pub fn are_spelled(alloc: Global, messages: &[Message], texts: &[&str]) -> Result<bool, ToolErr> {
    let mut found = Vec::new(alloc);
    for message in messages {
        if encode_into(alloc, message, &mut found, 65536).is_err() {
            return Ok(false);
        }
    }
    spell(alloc, texts, found.as_slice())
}

/// The message of octets or their first fault; nothing where the length field is not their number.
pub fn decoded(alloc: Global, frame: &[u8]) -> Option<Result<Message, FrameErr>> {
    decoded_in(alloc, KindSet::Profile, frame)
}

/// The same in a set of kinds.
pub fn decoded_in(alloc: Global, set: KindSet, frame: &[u8]) -> Option<Result<Message, FrameErr>> {
    if frame.len() < 10 {
        return None;
    }
    if get(frame, 16, 32) != frame.len() as u128 {
        return None;
    }
    Some(decode_frame_in(alloc, set, frame, 65536))
}
