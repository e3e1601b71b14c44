//! Which frames are asked for, by their ids.

ghost use Rattle.std.specs.Prelude.{◌≡◌, ℕ, ◌≤◌, List, ◌++◌, OnOk, length, take};
ghost use Rattle.llrp_stream.specs.Items.{id_field};
ghost use Rattle.llrp_explain.specs.Calls.Explained.{is_asked};

use llrp_tree::HEADER_OCTETS;
use llrp_tree::numbers::from_bit;
use std::alloc::AllocError;

/// Keeps those octets of the piece that are among the first ten of a frame, of which these came before.
pub(crate) fn keep_head(head: &mut Vec<u8>, piece: &[u8]) -> Result<(), AllocError>
    ensures { OnOk result ((front : List ℕ) → head.old.items ≡ take 10 front
        → head.new.items ≡ take 10 (front ++ piece.now)) }
{
    let room = HEADER_OCTETS.saturating_sub(head.len());
    let count = room.min(piece.len());
    head.extend_from_slice(piece.split_at(count).0)
}

/// The id of the frame that begins with these octets; 0 where they are fewer than ten.
fn id_of(head: &[u8]) -> u128
    ensures { (frame : List ℕ) → head.now ≡ take 10 frame → 10 ≤ length frame
        → result ≡ id_field frame }
{
    if head.len() < HEADER_OCTETS {
        return 0;
    }
    from_bit(head, 48, 32)
}

/// Whether a frame with this id is asked for.
fn has_id(only: Option<u32>, id: u128) -> bool
    ensures { result ≡ is_asked only id }
{
    match only {
        None => true,
        Some(only) => only as u128 == id,
    }
}

/// Whether the frame that begins with these octets is asked for.
pub(crate) fn is_asked(only: Option<u32>, head: &[u8]) -> bool
    ensures { (frame : List ℕ) → head.now ≡ take 10 frame → 10 ≤ length frame
        → result ≡ is_asked only (id_field frame) }
{
    has_id(only, id_of(head))
}
