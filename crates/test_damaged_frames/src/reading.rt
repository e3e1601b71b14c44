//! What a decoder finds in a stream that comes in pieces.

use crate::items::push_item;
use anyhow::{Result, bail};
use llrp_stream::{Decoder, FeedErr};
use llrp_tree::{KindSet, MAX_LIMIT};
use std::alloc::Global;

/// Where a stream is cut into pieces.
#[derive(Clone, Copy)]
pub enum Cut {
    /// Nowhere: it comes at once.
    Nowhere,
    /// At one place.
    At(usize),
    /// After each octet.
    Everywhere,
}

impl Cut {
    /// Where the piece ends that begins at a place of a stream.
    fn end_of_piece(self, begin: usize, stream: &[u8]) -> usize {
        match self {
            Cut::At(place) if begin < place => place,
            Cut::At(_) | Cut::Nowhere => stream.len(),
            Cut::Everywhere => begin.saturating_add(1),
        }
    }
}

/// The octets from one place to another.
fn between(stream: &[u8], from: usize, to: usize) -> &[u8] {
    let (front, _) = stream.split_at_checked(to).unwrap_or((stream, &[]));
    front.split_at_checked(from).map_or(&[], |parts| parts.1)
}

/// What the decoder of a set of kinds finds in a stream that is cut so: each item, and how the stream ends.
pub fn found(alloc: Global, set: KindSet, stream: &[u8], cut: Cut) -> Result<Vec<u8>> {
    let mut decoder = Decoder::new_in(alloc, set, MAX_LIMIT);
    let mut found = Vec::new(alloc);
    let (mut begun, mut at) = (0, 0);
    for _ in 0..=stream.len() {
        if at >= stream.len() {
            break;
        }
        match decoder.feed(between(stream, at, cut.end_of_piece(at, stream))) {
            Ok(fed) => {
                at = at.saturating_add(fed.used);
                if let Some(item) = fed.item {
                    push_item(alloc, set, &mut found, item, between(stream, begun, at))?;
                    begun = at;
                }
            }
            Err(FeedErr::Broken) => break,
            Err(_) => bail!("memory"),
        }
    }
    let end = decoder.finish();
    let end = format!(in alloc; "{end:?}")?;
    found.extend_from_slice(end.as_bytes())?;
    Ok(found)
}
