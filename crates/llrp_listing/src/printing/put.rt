//! Puts text into lent room at a place. Each function returns the place after its text; what
//! follows that place is overwritten by what is put next.

ghost use Rattle.std.specs.Prelude.{◌≡◌, ◌+◌, ◌-◌, ◌<◌, ◌≤◌, [], ◌∷◌, length, take, drop};
ghost use Rattle.llrp_listing.specs.Private.Place.{Puts};

/// Puts an octet.
#[inline(always)]
pub(crate) fn put_octet(room: &mut [u8], at: usize, octet: u8) -> usize
    requires { at + 1 ≤ length room.old }
    ensures { Puts room.old room.new at result (octet ∷ []) }
{
    room[at] = octet;
    at + 1
}

/// Puts two octets.
#[inline(always)]
pub(crate) fn put_two(room: &mut [u8], at: usize, octets: [u8; 2]) -> usize
    requires { at + 2 ≤ length room.old }
    ensures { Puts room.old room.new at result octets }
{
    room[at..at + 2].copy_from_slice(&octets);
    at + 2
}

/// Puts eight octets.
#[inline(always)]
pub(crate) fn put_eight(room: &mut [u8], at: usize, octets: [u8; 8]) -> usize
    requires { at + 8 ≤ length room.old }
    ensures { Puts room.old room.new at result octets }
{
    room[at..at + 8].copy_from_slice(&octets);
    at + 8
}

/// Eight octets, of which the first `count` are the last `count` of these.
#[inline(always)]
fn from_last(octets: [u8; 8], count: usize) -> [u8; 8]
    requires { count ≤ 8 }
    ensures { take count result ≡ drop (8 - count) octets }
{
    let mut wide = [0; 16];
    wide[..8].copy_from_slice(&octets);
    let mut last = [0; 8];
    last.copy_from_slice(&wide[8 - count..16 - count]);
    last
}

/// Puts the last `count` of eight octets. Eight octets of the room may change.
#[inline(always)]
pub(crate) fn put_last(room: &mut [u8], at: usize, octets: [u8; 8], count: usize) -> usize
    requires few { count ≤ 8 }
    requires room { at + 8 ≤ length room.old }
    ensures { Puts room.old room.new at result (drop (8 - count) octets) }
{
    put_eight(room, at, from_last(octets, count));
    at + count
}

/// Puts 16 octets.
#[inline(always)]
fn put_sixteen(room: &mut [u8], at: usize, octets: [u8; 16]) -> usize
    requires { at + 16 ≤ length room.old }
    ensures { Puts room.old room.new at result octets }
{
    room[at..at + 16].copy_from_slice(&octets);
    at + 16
}

/// Puts 32 octets.
#[inline(always)]
fn put_all(room: &mut [u8], at: usize, octets: [u8; 32]) -> usize
    requires { at + 32 ≤ length room.old }
    ensures { Puts room.old room.new at result octets }
{
    room[at..at + 32].copy_from_slice(&octets);
    at + 32
}

/// The first 16 of 32 octets.
#[inline(always)]
fn first_half(octets: [u8; 32]) -> [u8; 16]
    ensures { result ≡ take 16 octets }
{
    let mut half = [0; 16];
    half.copy_from_slice(&octets[..16]);
    half
}

/// Puts the first `count` of 32 octets. 32 octets of the room may change, but no more than 16 where
/// the count is so small.
#[inline(always)]
pub(crate) fn put_first(room: &mut [u8], at: usize, octets: [u8; 32], count: usize) -> usize
    requires few { count ≤ 32 }
    requires room { at + 32 ≤ length room.old }
    ensures { Puts room.old room.new at result (take count octets) }
{
    if count <= 16 {
        put_sixteen(room, at, first_half(octets));
        at + count
    } else {
        put_all(room, at, octets);
        at + count
    }
}

/// Puts a text.
#[inline(always)]
pub(crate) fn put_text(room: &mut [u8], at: usize, text: &[u8]) -> usize
    requires { at + length text.now ≤ length room.old }
    ensures { Puts room.old room.new at result text.now }
{
    let end = at + text.len();
    room[at..end].copy_from_slice(text);
    end
}

/// Copies octets, no more than 1,024 in one call: of more the C library makes one instruction, which is
/// slower up to some thousands.
fn copy_apart(to: &mut [u8], from: &[u8])
    requires { length to.old ≡ length from.now }
    ensures { to.new ≡ from.now }
{
    if from.len() <= 1024 {
        to.copy_from_slice(from);
        return;
    }
    let (near, far) = from.split_at(1024);
    let (first, others) = to.split_at_mut(1024);
    first.copy_from_slice(near);
    copy_apart(others, far);
}

/// Moves what is between two places to the front. Where it does not reach its new place, it is copied
/// without regard to order, which takes a small part of the time.
pub(crate) fn move_front(room: &mut [u8], from: usize, end: usize)
    requires order { from ≤ end }
    requires within { end ≤ length room.old }
    ensures text { take (end - from) room.new ≡ drop from (take end room.old) }
    ensures same { length room.new ≡ length room.old }
{
    let left = end - from;
    if left <= from {
        let (front, back) = room.split_at_mut(from);
        copy_apart(&mut front[..left], &back[..left]);
    } else {
        room.copy_within(from..end, 0);
    }
}
