//! The digits and the serial number of a CPID, the key of a CPI-96.

ghost use Rattle.std.specs.Prelude.{◌≡◌, ℕ, List, ◌∷◌, ◌++◌, drop, slice_index, IfSome, IfNone};
ghost use Rattle.tag_keys.specs.KeyFaults.{IsNumber};
ghost use Rattle.tag_scheme_keys.specs.KeyFaults.{part_front, serial_mark as mark_in};

use crate::digits::is_number;
use tag_keys::Spelling;

/// The mark of the serial number.
pub(crate) fn serial_mark(spelling: Spelling) -> &'static str
    ensures { result.now ≡ mark_in spelling }
{
    match spelling {
        Spelling::Element => "(8011)",
        Spelling::Link => "/8011/",
        Spelling::Named => " ",
    }
}

/// Its first character.
fn mark_head(spelling: Spelling) -> char
    ensures { result ≡ slice_index (mark_in spelling) 0 }
{
    match spelling {
        Spelling::Element => '(',
        Spelling::Link => '/',
        Spelling::Named => ' ',
    }
}

/// Its other characters.
fn mark_tail(spelling: Spelling) -> &'static str
    ensures { result.now ≡ drop 1 (mark_in spelling) }
{
    match spelling {
        Spelling::Element => "8011)",
        Spelling::Link => "8011/",
        Spelling::Named => "",
    }
}

/// The characters in front of the first one of the mark, and the text after that, if it is there.
fn cut_at_mark<'a>(spelling: Spelling, rest: &'a str) -> (&'a str, Option<&'a str>)
    ensures front { result.0.now ≡ part_front spelling rest.now }
    ensures some { IfSome result.1 (λ x. rest.now
        ≡ result.0.now ++ slice_index (mark_in spelling) 0 ∷ x.now) }
    ensures none { IfNone result.1 (rest.now ≡ result.0.now) }
{
    match rest.split_once(mark_head(spelling)) {
        Some((front, after)) => (front, Some(after)),
        None => (rest, None),
    }
}

/// The serial number after the first character of the mark, if the others and a number follow.
fn number_after<'a>(spelling: Spelling, after: &'a str) -> Option<&'a str>
    ensures number { IfSome result (λ x. IsNumber x.now) }
    ensures some { IfSome result (λ x. after.now ≡ drop 1 (mark_in spelling) ++ x.now) }
    ensures none { IfNone result ((serial : List ℕ) → IsNumber serial
        → after.now ≡ drop 1 (mark_in spelling) ++ serial → ⊥) }
{
    let Some(serial) = after.strip_prefix(mark_tail(spelling)) else {
        return None;
    };
    if is_number(serial) {
        Some(serial)
    } else {
        None
    }
}

/// The characters in front of the mark, and the serial number, if the mark and one follow.
pub(crate) fn part_pieces<'a>(spelling: Spelling, rest: &'a str) -> (&'a str, Option<&'a str>)
    ensures front { result.0.now ≡ part_front spelling rest.now }
    ensures number { IfSome result.1 (λ x. IsNumber x.now) }
    ensures some { IfSome result.1 (λ x. rest.now
        ≡ part_front spelling rest.now ++ (mark_in spelling ++ x.now)) }
    ensures none { IfNone result.1 ((serial : List ℕ) → IsNumber serial
        → rest.now ≡ part_front spelling rest.now ++ (mark_in spelling ++ serial) → ⊥) }
{
    let (front, found) = cut_at_mark(spelling, rest);
    let Some(after) = found else {
        return (front, None);
    };
    match number_after(spelling, after) {
        Some(serial) => (front, Some(serial)),
        None => (front, None),
    }
}
