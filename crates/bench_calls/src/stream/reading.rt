//! The frames of a stream, of which nothing is kept.

use crate::stream::silent::Silent;
use llrp_stream::Frames;
use llrp_tree::MAX_LIMIT;

/// How many frames there are.
pub fn read_all(bytes: &[u8]) -> u64 {
    let mut piece = bytes;
    let mut count = 0u64;
    let mut frames = Frames::new(MAX_LIMIT);
    let mut listener = Silent {};
    'more: for _ in 0..u64::MAX {
        let Ok(came) = frames.feed(&mut listener, piece) else {
            return count;
        };
        piece = piece.split_at(came.used).1;
        if came.outcome.is_none() {
            return count;
        }
        count = count.wrapping_add(1);
    }
    count
}
