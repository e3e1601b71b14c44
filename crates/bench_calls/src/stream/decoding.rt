//! The items of a stream, which are counted and dropped.

use llrp_stream::Decoder;
use llrp_tree::MAX_LIMIT;
use std::alloc::Global;

/// How many items there are.
pub fn decode_all(alloc: Global, bytes: &[u8]) -> u64 {
    let mut piece = bytes;
    let mut count = 0u64;
    let mut decoder = Decoder::new(alloc, MAX_LIMIT);
    for _ in 0..u64::MAX {
        let Ok(fed) = decoder.feed(piece) else {
            return count;
        };
        piece = piece.split_at(fed.used).1;
        if fed.item.is_none() {
            return count;
        }
        count = count.wrapping_add(1);
    }
    count
}
