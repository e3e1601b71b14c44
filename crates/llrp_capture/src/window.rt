//! The octets that wait for one before them: a list of places, each with its octet if it came.

ghost use Rattle.std.specs.Prelude.{ℕ, ◌≡◌, ◌≢◌, ◌+◌, ◌++◌, ◌<◌, ◌≤◌, List, OnOk, IfOk, None, Some, drop, length, max};
ghost use Rattle.llrp_capture.specs.Calls.Pieces.{at_place, octet_in, or_else};
ghost use Rattle.llrp_capture.specs.Private.Windows.{Leads, AreMissing};

use std::alloc::AllocError;

/// Puts octets into the places from one on, where none came yet.
pub(crate) fn cover(
    waiting: &mut Vec<Option<u8>>,
    ahead: usize,
    octets: &[u8],
) -> Result<(), AllocError>
    requires { ahead < 4611686018427387904 }
    ensures places { OnOk result ((k : ℕ) → at_place waiting.new.items k
        ≡ or_else (at_place waiting.old.items k) (octet_in (record { place = ahead; octets = octets.now }) k)) }
    ensures length { OnOk result (length waiting.new.items ≡ max (length waiting.old.items) (ahead + length octets.now)) }
{
    let end = ahead + octets.len();
    if waiting.len() < end {
        waiting.resize(end, None)?;
    }
    for i in 0..octets.len() {
        put_first(waiting.as_mut_slice(), ahead + i, octets[i]);
    }
    Ok(())
}

/// Puts an octet into a place, if none came before.
fn put_first(waiting: &mut [Option<u8>], at: usize, octet: u8)
    requires { at < length waiting.old }
    ensures length { length waiting.new ≡ length waiting.old }
    ensures place { at_place waiting.new at ≡ or_else (at_place waiting.old at) (Some octet) }
    ensures others { (k : ℕ) → k ≢ at → at_place waiting.new k ≡ at_place waiting.old k }
{
    if waiting[at].is_none() {
        waiting[at] = Some(octet);
    }
}

/// Appends the octets that stand from the first place on without a gap, and returns how many.
pub(crate) fn push_leading(
    waiting: &[Option<u8>],
    handed: &mut Vec<u8>,
) -> Result<usize, AllocError>
    ensures leads { IfOk result (λ count. (more : List ℕ) × Leads waiting.now more
        × (count ≡ length more) × (handed.new.items ≡ handed.old.items ++ more)) }
    ensures most { IfOk result (λ count. count ≤ length waiting.now) }
{
    for (i, place) in waiting.iter().enumerate() {
        match place {
            Some(octet) => handed.push(*octet)?,
            None => return Ok(i),
        }
    }
    Ok(waiting.len())
}

/// How many places are missing before the first octet; `None` where no octet came.
pub(crate) fn missing(waiting: &[Option<u8>]) -> Option<usize>
    ensures { AreMissing waiting.now result }
{
    for (i, place) in waiting.iter().enumerate() {
        if place.is_some() {
            return Some(i);
        }
    }
    None
}

/// Drops the first places.
pub(crate) fn drop_front(waiting: &mut Vec<Option<u8>>, count: usize)
    requires { count ≤ length waiting.old.items }
    ensures { waiting.new.items ≡ drop count waiting.old.items }
{
    waiting.rotate_left(count);
    waiting.truncate(waiting.len() - count);
}
