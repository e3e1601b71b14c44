//! The messages that a text lists.

ghost use Rattle.std.specs.Prelude.{◌≡◌, ◌≤◌, IfErr, IfOk, List};
ghost use Rattle.llrp_tree.specs.Tree.{MessageTree};
ghost use Rattle.llrp_tree.specs.declared.TheConstants.{MAX_LIMIT};
ghost use Rattle.llrp_listing.specs.Encoding.{AreSpelled, EncodesIn};
ghost use Rattle.llrp_listing.specs.Calls.ListingLaws.{IsListing};
ghost use Rattle.llrp_texts.specs.Calls.Texts.{RefusesText};
ghost use Rattle.llrp_texts.specs.declared.texts.TextErr.TheVariants.{Memory};

use llrp_listing::{Refusal, ToolErr, run_encode_in};
use llrp_schema::KindSet;
use llrp_stream::{Input, Output};
use llrp_tree::{FrameErr, Message, decode_frame_in};
use std::alloc::{AllocError, AllocFailed, Global};
use tag_bits::get;

/// Why a text has no messages.
#[derive(Clone, Copy, Debug, PartialEq, Eq)]
pub enum TextErr {
    /// A line, counted from 1, is refused.
    Line { line: u64, reason: Refusal },
    /// Memory ran out.
    Memory,
}

impl From<AllocError> for TextErr {
    ghost from_gives = { λ _ e. e ≡ Memory };

    fn from(_e: AllocError) -> TextErr {
        TextErr::Memory
    }
}

impl<T: Drop> From<AllocFailed<T>> for TextErr {
    ghost from_gives = { λ _ e. e ≡ Memory };

    fn from(_e: AllocFailed<T>) -> TextErr {
        TextErr::Memory
    }
}

/// The octets of the messages of a text.
fn encoded(alloc: Global, set: KindSet, text: &[u8], limit: u32) -> Result<Vec<u8>, TextErr>
    requires least { 10 ≤ limit }
    requires most { limit ≤ MAX_LIMIT }
    ensures done { IfOk result (λ octets. EncodesIn set limit text.now octets.items) }
    ensures refused { IfErr result (λ e. RefusesText set limit text.now e) }
{
    let mut listing = Input::new(text);
    let mut gathered = Output::new(Vec::new(alloc));
    let outcome = run_encode_in(alloc, set, &mut listing, &mut gathered, limit);
    let octets = gathered.into_inner();
    match outcome {
        Ok(()) => Ok(octets),
        Err(ToolErr::Listing { line, reason }) => Err(TextErr::Line { line, reason }),
        Err(_) => Err(TextErr::Memory),
    }
}

/// The messages that the octets spell.
fn decoded(alloc: Global, set: KindSet, octets: &[u8], limit: u32) -> Result<Vec<Message>, TextErr>
    requires least { 10 ≤ limit }
    requires most { limit ≤ MAX_LIMIT }
    requires spelled { (ms : List MessageTree) × AreSpelled set limit ms octets.now }
    ensures messages { IfOk result (λ all. (ms : List MessageTree)
        → AreSpelled set limit ms octets.now → all.items ≡ ms) }
    ensures err { IfErr result (λ e. e ≡ Memory) }
{
    let mut messages = Vec::new(alloc);
    let mut rest = octets;
    while !rest.is_empty() {
        let count = get(rest, 16, 32) as usize;
        let (frame, later) = rest.split_at(count);
        match decode_frame_in(alloc, set, frame, limit) {
            Ok(message) => messages.push(message)?,
            Err(FrameErr::Memory) => return Err(TextErr::Memory),
            Err(FrameErr::Bad(_)) => unreachable!(),
        }
        rest = later;
    }
    Ok(messages)
}

/// The messages of a set of kinds that a text lists, each of `limit` octets at most. The error is
/// the first line that is refused, with the reason, or `Memory`.
pub fn messages_of(
    alloc: Global,
    set: KindSet,
    text: &[u8],
    limit: u32,
) -> Result<Vec<Message>, TextErr>
    requires least { 10 ≤ limit }
    requires most { limit ≤ MAX_LIMIT }
    ensures messages { IfOk result (λ all. IsListing set limit text.now all.items) }
    ensures refused { IfErr result (λ e. RefusesText set limit text.now e) }
{
    let octets = encoded(alloc, set, text, limit)?;
    match decoded(alloc, set, octets.as_slice(), limit) {
        Ok(messages) => Ok(messages),
        Err(_) => Err(TextErr::Memory),
    }
}
