//! Places along one side of a connection, and the sequence numbers that they have modulo 2^32.

ghost use Rattle.std.specs.Prelude.{ℕ, ◌≡◌, ◌+◌, ◌-◌, ◌<◌, ◌≤◌, length};
ghost use Rattle.llrp_capture.specs.Calls.Pieces.{IsPlace, octet_in};

/// How many sequence numbers there are.
pub(crate) const TURN: u64 = 1 << 32;

/// The place nearest to the next one that has a sequence number.
pub(crate) fn place_of(here: u64, sequence: u32) -> u64
    requires low { 4294967296 ≤ here }
    requires high { here < 4611686018427387904 }
    ensures { IsPlace here sequence result }
{
    let place = here / TURN * TURN + sequence as u64;
    if place + TURN / 2 < here {
        place + TURN
    } else if place >= here + TURN / 2 {
        place - TURN
    } else {
        place
    }
}

/// What of some octets from a place on stands from the next place on, and how far ahead of it.
pub(crate) fn part_from<'a>(here: u64, place: u64, octets: &'a [u8]) -> (u64, &'a [u8])
    ensures same { (k : ℕ) → octet_in (record { place = result.0; octets = result.1.now }) k
        ≡ octet_in (record { place = place; octets = octets.now }) (here + k) }
    ensures ahead { result.0 ≡ place - here }
    ensures length { length result.1.now ≤ length octets.now }
{
    if place >= here {
        return (place - here, octets);
    }
    let passed = here - place;
    if passed >= octets.len() as u64 {
        (0, &[])
    } else {
        (0, octets.split_at(passed as usize).1)
    }
}
