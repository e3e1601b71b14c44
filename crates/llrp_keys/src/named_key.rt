//! The parts of a key that is written by its name.

ghost use Rattle.std.specs.Prelude.{MatchOption, option_map};
ghost use Rattle.llrp_listing.specs.Calls.Splits.{Lacks};
ghost use Rattle.llrp_keys.specs.NamedKey.{IsNamedKey};

use llrp_listing::split_once;

/// The parts of a key that is written by its name.
#[derive(Clone, Copy, Debug, PartialEq, Eq)]
pub struct NamedKey<'a> {
    /// Its name, as `gtin`.
    pub name: &'a [u8],
    /// The key, with its check digit.
    pub number: &'a [u8],
    /// Its serial number, if it has one.
    pub serial: Option<&'a [u8]>,
}

/// The parts of the text of a key by its name, which blanks divide; `None` for a text without a blank, which no key has.
pub fn named_key_of(text: &[u8]) -> Option<NamedKey<'_>>
    ensures { MatchOption result (Lacks 32 text.now)
        (λ parts. IsNamedKey text.now parts.name.now parts.number.now (option_map (λ s. s.now) parts.serial)) }
{
    let (name, rest) = split_once(text, b' ')?;
    match split_once(rest, b' ') {
        Some((number, serial)) => Some(NamedKey {
            name,
            number,
            serial: Some(serial),
        }),
        None => Some(NamedKey {
            name,
            number: rest,
            serial: None,
        }),
    }
}
