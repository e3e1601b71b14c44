//! The names of statuses.

ghost use Rattle.std.specs.Prelude.{◌≡◌, ◌<◌, ◌≤◌, None, Some, length};
ghost use Rattle.tag_uri.specs.Room.{HasText};
ghost use Rattle.llrp_c.specs.declared.status.Status.{Status};
ghost use Rattle.llrp_c.specs.Status.{status_name, status_with};

use crate::room::put_at;
use crate::status::{Status, status_with};

/// The room that is enough for each name.
const NAME_ROOM: usize = 16;

/// Writes the name of a status to the front of the room, and returns its length.
fn put_name(status: Status, room: &mut [u8]) -> usize
    requires { 16 ≤ length room.old }
    ensures { HasText room.old room.new 0 result (status_name status) }
{
    let (name, inner) = status.names();
    let inner_at = put_at(room, 0, name.as_bytes());
    put_at(room, inner_at, inner.as_bytes())
}

/// Writes the name of the status with this code to `name`, which needs room for 16 octets, and
/// returns its length: 0 if no status has the code or the room is too small.
#[unsafe(no_mangle)]
pub extern "C" fn llrp_name(code: u32, name: &mut [u8]) -> usize
    ensures named { (status : Status) → status_with code ≡ Some status → 16 ≤ length name.old
        → HasText name.old name.new 0 result (status_name status) }
    ensures none { status_with code ≡ None → (result ≡ 0) × (name.new ≡ name.old) }
    ensures room { length name.old < 16 → (result ≡ 0) × (name.new ≡ name.old) }
{
    if name.len() < NAME_ROOM {
        return 0;
    }
    match status_with(code) {
        Some(status) => put_name(status, name),
        None => 0,
    }
}
