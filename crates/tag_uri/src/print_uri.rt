//! Writes the tag URI of an EPC. The components are written from the last to the first, since each
//! component ends where the text after it begins.

ghost use Rattle.std.specs.Prelude.{◌≡◌, ℕ, ◌+◌, ◌^◌, ◌<◌, ◌≤◌, ◌++◌, ◌∷◌, [], Some, length, take, drop, if◌then◌else◌};
ghost use Rattle.tag_epc.specs.Layout.{layout_of};
ghost use Rattle.tag_epc.specs.LawfulWord.{IsLawfulEpc};
ghost use Rattle.tag_uri.specs.Decimal.{plain};
ghost use Rattle.tag_uri.specs.Room.{HasText};
ghost use Rattle.tag_uri.specs.TagText.{tag_uri, tag_start};

use crate::put_digits::{count_of, put_octet, put_padded, put_plain, put_text, text_before};
use arrayvec::ArrayString;
use tag_epc::scheme::Scheme;
use tag_epc::{Epc, Kind, Parts, at_scheme};

/// The tag URI of an EPC, as `urn:epc:tag:sgtin-96:3.0614141.812345.6789` (EPC Tag Data Standard
/// 1.13, section 12). It takes no memory; no tag URI is longer than 64 octets.
pub fn print(epc: &Epc) -> ArrayString<64>
    ensures { result.bytes ≡ tag_uri epc.now }
{
    let parts = epc.parts();
    let mut room = [0; 64];
    let end = put_parts(&mut room, 0, parts);
    text_before(&room, end)
}

/// Writes the tag URI of an EPC into `room` from `at` on, and returns where it ends. The room must have
/// 64 octets from `at` on; those that the text does not take stay as they were.
#[inline]
pub fn put_tag_uri(room: &mut [u8], at: usize, epc: &Epc) -> usize
    requires { at + 64 ≤ length room.old }
    ensures text { HasText room.old room.new at result (tag_uri epc.now) }
    ensures most { result ≤ at + 64 }
{
    put_parts(room, at, epc.parts())
}

/// Writes the tag URI of the parts of an EPC.
#[inline(always)]
fn put_parts(room: &mut [u8], at: usize, parts: Parts) -> usize
    requires lawful { IsLawfulEpc parts }
    requires room { at + 64 ≤ length room.old }
    ensures text { HasText room.old room.new at result (tag_uri parts) }
    ensures most { result ≤ at + 64 }
{
    match parts {
        Parts::Partitioned {
            kind,
            filter,
            company_digits,
            company,
            reference,
            last,
        } => at_scheme!(
            kind,
            put_partitioned(
                room,
                at,
                kind,
                filter,
                company_digits,
                company,
                reference,
                last
            ),
            unreachable!()
        ),
        Parts::General {
            manager,
            object_class,
            serial,
        } => put_general(room, at, manager, object_class, serial),
    }
}

/// Writes the front of a tag URI, up to the colon after the scheme's name.
#[inline(always)]
fn put_start(room: &mut [u8], at: usize, name: &str) -> usize
    requires { at + 13 + length name.now ≤ length room.old }
    ensures { HasText room.old room.new at result (tag_start ++ (name.now ++ 58 ∷ [])) }
{
    let start = *b"urn:epc:tag:";
    let name_at = put_text(room, at, &start);
    let colon_at = put_text(room, name_at, name.as_bytes());
    let colon = *b":";
    put_text(room, colon_at, &colon)
}

/// How many octets the last component and its dot take; 0 if the last segment is all zeros.
#[inline(always)]
fn tail_length(last: u64, zero_tail: bool) -> usize
    requires { last < 10 ^ 13 }
    ensures count { result ≡ length (if zero_tail then [] else 46 ∷ plain last) }
    ensures few { result ≤ 14 }
{
    if zero_tail { 0 } else { 1 + count_of(last) }
}

/// Writes a dot and the last number in front of `end`, or nothing if the last segment is all zeros,
/// and returns where that begins.
#[inline(always)]
fn put_tail(room: &mut [u8], end: usize, last: u64, zero_tail: bool, tail: usize) -> usize
    requires fits { last < 10 ^ 13 }
    requires few { tail ≤ 14 }
    requires counted { tail ≡ length (if zero_tail then [] else 46 ∷ plain last) }
    requires ahead { 16 ≤ end }
    requires within { end ≤ length room.old }
    ensures begin { result + tail ≡ end }
    ensures written { drop result room.new ≡ (if zero_tail then [] else 46 ∷ plain last)
        ++ drop end room.old }
    ensures kept { (p : ℕ) → p + 16 ≤ end → take p room.new ≡ take p room.old }
    ensures len { length room.new ≡ length room.old }
{
    if zero_tail {
        return end;
    }
    let behind = put_plain(room, end, last, tail - 1);
    put_octet(room, behind, b'.')
}

/// Writes the tag URI of an EPC with a company prefix.
fn put_partitioned<S: Scheme>(
    room: &mut [u8],
    at: usize,
    kind: Kind,
    filter: u8,
    company_digits: u8,
    company: u64,
    reference: u64,
    last: u64,
) -> usize
    requires known { layout_of kind ≡ Some S.layout }
    requires lawful { IsLawfulEpc (Parts.Partitioned kind filter company_digits company
        reference last) }
    requires room { at + 64 ≤ length room.old }
    ensures text { HasText room.old room.new at result (tag_uri
        (Parts.Partitioned kind filter company_digits company reference last)) }
    ensures most { result ≤ at + 64 }
{
    let Some(row) = S::row(12 - company_digits) else {
        unreachable!()
    };
    let name = S::name();
    let digits = row.reference_digits as usize;
    let tail = tail_length(last, S::ZERO_TAIL);
    let end = at + 16 + name.len() + company_digits as usize + digits + tail;
    let last_at = put_tail(room, end, last, S::ZERO_TAIL, tail);
    let reference_at = put_padded(room, last_at, reference, digits);
    let dot_at = put_octet(room, reference_at, b'.');
    let company_at = put_padded(room, dot_at, company, company_digits as usize);
    let first_dot_at = put_octet(room, company_at, b'.');
    put_octet(room, first_dot_at, b'0' + filter);
    put_start(room, at, name);
    end
}

/// Writes the tag URI of an EPC of GID-96.
fn put_general(room: &mut [u8], at: usize, manager: u64, object_class: u64, serial: u64) -> usize
    requires lawful { IsLawfulEpc (Parts.General manager object_class serial) }
    requires room { at + 64 ≤ length room.old }
    ensures text { HasText room.old room.new at result (tag_uri
        (Parts.General manager object_class serial)) }
    ensures most { result ≤ at + 64 }
{
    let name = Kind::Gid.name();
    let managers = count_of(manager);
    let classes = count_of(object_class);
    let serials = count_of(serial);
    let end = at + 15 + name.len() + managers + classes + serials;
    let serial_at = put_plain(room, end, serial, serials);
    let dot_at = put_octet(room, serial_at, b'.');
    let class_at = put_plain(room, dot_at, object_class, classes);
    let first_dot_at = put_octet(room, class_at, b'.');
    put_plain(room, first_dot_at, manager, managers);
    put_start(room, at, name);
    end
}
