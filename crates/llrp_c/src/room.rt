//! Room that a caller lends.

ghost use Rattle.std.specs.Prelude.{◌≡◌, ◌+◌, ◌≤◌, length};
ghost use Rattle.tag_uri.specs.Room.{HasText};

/// Writes the octets to the front of the room; the others stay as they were.
pub(crate) fn put(octets: &[u8], room: &mut [u8])
    requires { length octets.now ≤ length room.old }
    ensures { HasText room.old room.new 0 (length octets.now) octets.now }
{
    room.split_at_mut(octets.len()).0.copy_from_slice(octets);
}

/// Writes the octets from a place on, and returns where they end; the others stay as they were.
pub(crate) fn put_at(room: &mut [u8], at: usize, octets: &[u8]) -> usize
    requires { at + length octets.now ≤ length room.old }
    ensures { HasText room.old room.new at result octets.now }
{
    let end = at + octets.len();
    room[at..end].copy_from_slice(octets);
    end
}
