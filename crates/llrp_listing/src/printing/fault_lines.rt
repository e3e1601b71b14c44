//! The lines of faulty frames and of a stream's end, put into lent room at a place.

ghost use Rattle.std.specs.Prelude.{◌≡◌, ◌+◌, ◌≤◌, ◌++◌, [], ◌∷◌, decimal, length};
ghost use Rattle.llrp_stream.specs.declared.item.End.TheVariants as at_end;
ghost use Rattle.llrp_listing.specs.Private.Place.{Puts};
ghost use Rattle.llrp_listing.specs.StreamListing.{end_text, fault_text, frame_fault_name};

use crate::printing::decimal::put_decimal;
use crate::printing::put::{put_octet, put_text, put_two};
use crate::reason::reason_name;
use llrp_stream::End;
use llrp_tree::{Fault, Reason};

/// Puts a number, followed by an octet.
#[inline(always)]
fn put_ended(room: &mut [u8], at: usize, number: u64, end: u8) -> usize
    requires { at + 21 ≤ length room.old }
    ensures text { Puts room.old room.new at result (decimal number ++ (end ∷ [])) }
    ensures most { result ≤ at + 21 }
{
    let end_at = put_decimal(room, at, number);
    put_octet(room, end_at, end)
}

/// Puts the name of a fault and the end of its line.
#[inline(always)]
fn put_reason(room: &mut [u8], at: usize, reason: Reason) -> usize
    requires { at + 17 ≤ length room.old }
    ensures text { Puts room.old room.new at result (frame_fault_name reason ++ (10 ∷ [])) }
    ensures most { result ≤ at + 17 }
{
    let end_at = put_text(room, at, reason_name(reason).as_bytes());
    put_octet(room, end_at, b'\n')
}

/// Puts the line of a faulty frame.
pub(crate) fn put_fault(room: &mut [u8], at: usize, id: u32, fault: Fault) -> usize
    requires { at + 64 ≤ length room.old }
    ensures text { Puts room.old room.new at result (fault_text id fault) }
    ensures most { result ≤ at + 64 }
{
    let id_at = put_two(room, at, *b"! ");
    let bit_at = put_ended(room, id_at, id as u64, b' ');
    let name_at = put_ended(room, bit_at, fault.bit, b' ');
    put_reason(room, name_at, fault.reason)
}

/// Puts the line of the octets after the last whole frame.
fn put_rest(room: &mut [u8], at: usize, octets: u64) -> usize
    requires { at + 64 ≤ length room.old }
    ensures text { Puts room.old room.new at result (end_text (at_end.Rest octets)) }
    ensures most { result ≤ at + 64 }
{
    let octets_at = put_two(room, at, *b"? ");
    put_ended(room, octets_at, octets, b'\n')
}

/// Puts the line of a stream's end, if it has one.
pub(crate) fn put_end(room: &mut [u8], at: usize, end: End) -> usize
    requires { at + 64 ≤ length room.old }
    ensures text { Puts room.old room.new at result (end_text end) }
    ensures most { result ≤ at + 64 }
{
    match end {
        End::Clean => at,
        End::Dead => at,
        End::Rest(octets) => put_rest(room, at, octets),
        End::Broken => put_text(room, at, b"! BROKEN\n"),
    }
}
