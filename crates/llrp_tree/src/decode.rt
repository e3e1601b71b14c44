//! Reads frames from left to right.

ghost use Rattle.std.specs.Prelude.{◌≡◌, ◌≤◌, length, MatchResult};
ghost use Rattle.tag_bits.specs.Digits.{digits_of_bytes};
ghost use Rattle.llrp_tree.specs.declared.TheConstants.{HEADER_OCTETS, MAX_LIMIT};
ghost use Rattle.llrp_tree.specs.Frame.{Frame};
ghost use Rattle.llrp_tree.specs.FirstFault.{number};
ghost use Rattle.llrp_tree.specs.FirstFault.{IsFirst, IsFirstIn};
ghost use Rattle.llrp_schema.specs.declared.kinds.Kind.TheVariants.{Message as AsMessage};
ghost use Rattle.llrp_schema.specs.Schema.{set_of_kind};
ghost use Rattle.llrp_schema.specs.declared.kinds.KindSet.TheVariants.{Profile};

mod body;
mod children;
mod fields;
mod groups;
mod tail;

use crate::header::read_header_in;
use crate::{FrameErr, HEADER_OCTETS, MAX_LIMIT, Message};
use arrayvec::ArrayVec;
use llrp_schema::{Kind, KindSet};
use std::alloc::Global;

/// Reads the message of the profile of a frame (LLRP 1.1, section 17). The error is the frame's first fault, or
/// that memory ran out.
pub fn decode_frame(alloc: Global, frame: &[u8], limit: u32) -> Result<Message, FrameErr>
    requires header { HEADER_OCTETS ≤ length frame.now }
    requires own_length { number (digits_of_bytes frame.now) 16 32 ≡ length frame.now }
    requires least { HEADER_OCTETS ≤ limit }
    requires most { limit ≤ MAX_LIMIT }
    ensures { MatchResult result (λ m. Frame m frame.now limit
        × (set_of_kind (AsMessage m.kind) ≡ Profile)) (IsFirst frame.now limit) }
{
    decode_frame_in(alloc, KindSet::Profile, frame, limit)
}

/// Reads the message of a set of kinds of a frame.
pub fn decode_frame_in(
    alloc: Global,
    set: KindSet,
    frame: &[u8],
    limit: u32,
) -> Result<Message, FrameErr>
    requires header { HEADER_OCTETS ≤ length frame.now }
    requires own_length { number (digits_of_bytes frame.now) 16 32 ≡ length frame.now }
    requires least { HEADER_OCTETS ≤ limit }
    requires most { limit ≤ MAX_LIMIT }
    ensures { MatchResult result (λ m. Frame m frame.now limit
        × (set_of_kind (AsMessage m.kind) ≡ set)) (IsFirstIn set frame.now limit) }
{
    let header = read_header_in(set, frame, limit)?;
    let mut fields = ArrayVec::new();
    let body = body::read_body(
        alloc,
        frame,
        0,
        HEADER_OCTETS,
        frame.len(),
        Kind::Message(header.kind),
        &mut fields,
    )?;
    Ok(Message::of_lawful(
        header.version,
        header.id,
        header.kind,
        fields.as_slice(),
        body.tail,
        body.children,
    ))
}
