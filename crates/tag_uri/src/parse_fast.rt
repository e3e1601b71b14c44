//! Reads the EPC of a tag URI by the places of its dots. A text that cannot be read so is left to
//! the rules, which read it or say why it is refused.

ghost use Rattle.std.specs.Prelude.{◌≡◌, ℕ, ◌+◌, ◌^◌, ◌<◌, ◌≤◌, ◌++◌, ◌∷◌, [], Some, length, drop, IfSome, if◌then◌else◌};
ghost use Rattle.tag_epc.specs.declared.kind.Kind.TheVariants.{Gid};
ghost use Rattle.tag_epc.specs.Layout.{layout_of};
ghost use Rattle.tag_epc.specs.LawfulWord.{IsLawfulEpc};
ghost use Rattle.tag_uri.specs.Decimal.{plain};
ghost use Rattle.tag_uri.specs.TagText.{tag_uri, tag_start, scheme_text};

use crate::read_digits::{digits_before, plain_between};
use tag_epc::kind::{GID_CLASS_BITS, GID_MANAGER_BITS, GID_SERIAL_BITS, KINDS};
use tag_epc::scheme::Scheme;
use tag_epc::{Kind, Parts, at_scheme};

/// What follows the start of each tag URI.
#[inline(always)]
fn behind_start(text: &[u8]) -> Option<&[u8]>
    ensures { IfSome result (λ rest. text.now ≡ tag_start ++ rest.now) }
{
    let [
        b'u',
        b'r',
        b'n',
        b':',
        b'e',
        b'p',
        b'c',
        b':',
        b't',
        b'a',
        b'g',
        b':',
        rest @ ..,
    ] = text
    else {
        return None;
    };
    Some(rest)
}

/// What follows the octets with which a text begins.
#[inline(always)]
fn behind<'a>(text: &'a [u8], start: &[u8]) -> Option<&'a [u8]>
    ensures { IfSome result (λ rest. text.now ≡ start.now ++ rest.now) }
{
    if text.len() < start.len() {
        return None;
    }
    let (front, rest) = text.split_at(start.len());
    if front != start {
        return None;
    }
    Some(rest)
}

/// The parts of the EPC of a tag URI. `None` does not mean that the text is refused: it is then read
/// by the rules, so only speed depends on when it comes.
#[inline(always)]
pub(crate) fn quick_parts(text: &[u8]) -> Option<Parts>
    ensures lawful { IfSome result (λ parts. IsLawfulEpc parts) }
    ensures text { IfSome result (λ parts. text.now ≡ tag_uri parts) }
{
    let Some(rest) = behind_start(text) else {
        return None;
    };
    let Some((kind, numbers)) = scheme_in_front(rest) else {
        return None;
    };
    let from = rest.len() - numbers.len();
    let Some(parts) = quick_components(kind, rest, from) else {
        return None;
    };
    Some(parts)
}

/// The parts of a scheme's EPC, whose components begin at `from`.
#[inline(always)]
fn quick_components(kind: Kind, text: &[u8], from: usize) -> Option<Parts>
    requires ahead { 7 ≤ from }
    requires within { from ≤ length text.now }
    ensures lawful { IfSome result (λ parts. IsLawfulEpc parts) }
    ensures text { IfSome result (λ parts. tag_start ++ scheme_text kind (drop from text.now)
        ≡ tag_uri parts) }
{
    at_scheme!(
        kind,
        quick_partitioned(kind, text, from),
        quick_general(text, from)
    )
}

/// The scheme at the front of a text, which begins with its name and a colon, and the text after
/// them.
#[inline(always)]
fn scheme_in_front(text: &[u8]) -> Option<(Kind, &[u8])>
    ensures { IfSome result (λ x. text.now ≡ scheme_text x.0 x.1.now) }
{
    for kind in KINDS {
        let Some(rest) = behind(text, kind.name().as_bytes()) else {
            continue;
        };
        if let [b':', numbers @ ..] = rest {
            return Some((kind, numbers));
        }
    }
    None
}

/// The filter value in front of a dot, if at least 13 octets follow: those of a company prefix of
/// twelve digits with its dot.
#[inline(always)]
fn filter_at(text: &[u8], from: usize) -> Option<u8>
    requires { from ≤ length text.now }
    ensures below { IfSome result (λ f. f < 8) }
    ensures room { IfSome result (λ f. from + 15 ≤ length text.now) }
    ensures text { IfSome result (λ f. drop from text.now ≡ (48 + f) ∷ 46
        ∷ drop (from + 2) text.now) }
{
    if text.len() - from < 15 {
        return None;
    }
    let octet = text[from];
    if octet < b'0' {
        return None;
    }
    if octet > b'7' {
        return None;
    }
    if text[from + 1] != b'.' {
        return None;
    }
    Some(octet - b'0')
}

/// How many octets are in front of the next dot, from six to twelve.
#[inline(always)]
fn company_digits(text: &[u8], at: usize) -> Option<usize>
    requires { at + 13 ≤ length text.now }
    ensures least { IfSome result (λ k. 6 ≤ k) }
    ensures most { IfSome result (λ k. k ≤ 12) }
    ensures dot { IfSome result (λ k. drop (at + k) text.now ≡ 46 ∷ drop (at + k + 1) text.now) }
{
    for count in 6..13 {
        if text[at + count] == b'.' {
            return Some(count);
        }
    }
    None
}

/// The number of the last component, from its dot to the end of the text, if it has at most `width`
/// bits; 0 if the last segment is all zeros and the text ends here.
#[inline(always)]
fn last_from(text: &[u8], at: usize, zero_tail: bool, width: u32) -> Option<u64>
    requires ahead { 7 ≤ at }
    requires within { at ≤ length text.now }
    requires narrow { width < 64 }
    ensures fits { IfSome result (λ n. n < (if zero_tail then 1 else 2 ^ width)) }
    ensures text { IfSome result (λ n. drop at text.now ≡ (if zero_tail then [] else 46
        ∷ plain n)) }
{
    if zero_tail {
        if at == text.len() {
            return Some(0);
        }
        return None;
    }
    if at == text.len() {
        return None;
    }
    if text[at] != b'.' {
        return None;
    }
    let Some(last) = plain_between(text, at + 1, text.len()) else {
        return None;
    };
    if last >> width != 0 {
        return None;
    }
    Some(last)
}

/// The parts of an EPC of a scheme with a company prefix, whose components begin at `from`. The row of the
/// partition says where each ends.
#[inline(always)]
fn quick_partitioned<S: Scheme>(kind: Kind, text: &[u8], from: usize) -> Option<Parts>
    requires known { layout_of kind ≡ Some S.layout }
    requires ahead { 7 ≤ from }
    requires within { from ≤ length text.now }
    ensures lawful { IfSome result (λ parts. IsLawfulEpc parts) }
    ensures text { IfSome result (λ parts. tag_start ++ scheme_text kind (drop from text.now)
        ≡ tag_uri parts) }
{
    let Some(filter) = filter_at(text, from) else {
        return None;
    };
    let Some(digits) = company_digits(text, from + 2) else {
        return None;
    };
    let company_end = from + 2 + digits;
    let Some(company) = digits_before(text, company_end, digits) else {
        return None;
    };
    let Some(row) = S::row(12 - digits as u8) else {
        return None;
    };
    let end = company_end + 1 + row.reference_digits as usize;
    if end > text.len() {
        return None;
    }
    let Some(reference) = digits_before(text, end, row.reference_digits as usize) else {
        return None;
    };
    let Some(last) = last_from(text, end, S::ZERO_TAIL, S::LAST_BITS) else {
        return None;
    };
    Some(Parts::Partitioned {
        kind,
        filter,
        company_digits: digits as u8,
        company,
        reference,
        last,
    })
}

/// The place of the next dot.
#[inline(always)]
fn dot_from(text: &[u8], from: usize) -> Option<usize>
    requires { from ≤ length text.now }
    ensures least { IfSome result (λ at. from ≤ at) }
    ensures within { IfSome result (λ at. at < length text.now) }
    ensures dot { IfSome result (λ at. drop at text.now ≡ 46 ∷ drop (at + 1) text.now) }
{
    for at in from..text.len() {
        if text[at] == b'.' {
            return Some(at);
        }
    }
    None
}

/// The parts of an EPC of GID-96, whose components begin at `from`.
#[inline(always)]
fn quick_general(text: &[u8], from: usize) -> Option<Parts>
    requires ahead { 7 ≤ from }
    requires within { from ≤ length text.now }
    ensures lawful { IfSome result (λ parts. IsLawfulEpc parts) }
    ensures text { IfSome result (λ parts. tag_start ++ scheme_text Gid (drop from text.now)
        ≡ tag_uri parts) }
{
    let Some(first) = dot_from(text, from) else {
        return None;
    };
    let Some(second) = dot_from(text, first + 1) else {
        return None;
    };
    let Some(manager) = plain_between(text, from, first) else {
        return None;
    };
    let Some(object_class) = plain_between(text, first + 1, second) else {
        return None;
    };
    let Some(serial) = plain_between(text, second + 1, text.len()) else {
        return None;
    };
    if manager >> GID_MANAGER_BITS != 0 {
        return None;
    }
    if object_class >> GID_CLASS_BITS != 0 {
        return None;
    }
    if serial >> GID_SERIAL_BITS != 0 {
        return None;
    }
    Some(Parts::General {
        manager,
        object_class,
        serial,
    })
}
