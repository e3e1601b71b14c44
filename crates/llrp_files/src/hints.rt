//! Hints for a person at a terminal: a second line where the input of a command was not what the command
//! takes.

ghost use Rattle.std.specs.Prelude.{◌≡◌};

use llrp_stream::Source;
use std::io;

/// How many of the first octets of an input are kept.
const KEPT: usize = 16;

/// Passes each read on to a source, and keeps the first octets that it gave.
#[derive(Drop)]
pub struct Noticing<R: Source + Drop> {
    source: R,
    /// The octets that are kept, as one number, the first the most significant.
    kept: u128,
    count: usize,
}

impl<R: Source + Drop> Noticing<R> {
    /// A source of which nothing was read yet.
    pub fn new(source: R) -> Noticing<R>
        ensures { ⟦<Noticing<R> as Source>⟧.log result ≡ R.log source }
    {
        Noticing {
            source,
            kept: 0,
            count: 0,
        }
    }

    /// Keeps the first of these octets, as long as fewer than sixteen are kept.
    fn keep(&mut self, octets: &[u8])
        ensures { self.new.source ≡ self.old.source }
    {
        let room = KEPT.saturating_sub(self.count);
        let count = room.min(octets.len());
        for &octet in octets.split_at(count).0 {
            self.kept = self.kept.wrapping_mul(256).wrapping_add(octet as u128);
            self.count = self.count.saturating_add(1);
        }
    }

    /// What a person can do where a command refused this input, if its first octets show that.
    pub fn hint(&self, reading: Reading) -> Option<&'static str> {
        let octets = self.kept.to_be_bytes();
        let unused = octets.len().saturating_sub(self.count);
        hint(reading, octets.as_slice().split_at(unused).1)
    }
}

impl<R: Source + Drop> Source for Noticing<R> {
    ghost log = { λ s. R.log s.source };

    fn read(&mut self, buf: &mut [u8]) -> io::Result<usize> {
        let n = self.source.read(buf)?;
        self.keep(buf.split_at(n).0);
        Ok(n)
    }
}

/// What a command reads, where there are hints for it.
#[derive(Clone, Copy, Debug, PartialEq, Eq)]
pub enum Reading {
    /// `show` of octets.
    Octets,
    /// `show` of hexadecimal digits.
    Digits,
    /// `encode`.
    Listing,
    /// `encode` of lines of JSON.
    Lines,
}

/// What the words of a command read, if they are those of `show` or `encode`.
pub fn reading_of(words: &[String]) -> Option<Reading> {
    let first = words.first()?;
    let hex = words.iter().any(|word| word.as_str() == "--hex");
    let json = words.iter().any(|word| word.as_str() == "--json");
    match first.as_str() {
        "show" if hex => Some(Reading::Digits),
        "show" => Some(Reading::Octets),
        "encode" if json => Some(Reading::Lines),
        "encode" => Some(Reading::Listing),
        _ => None,
    }
}

/// Whether octets are hexadecimal digits and white space, with a digit among them.
fn are_digits(octets: &[u8]) -> bool {
    let mut digits = 0usize;
    for octet in octets {
        if octet.is_ascii_hexdigit() {
            digits = digits.saturating_add(1);
        } else if !octet.is_ascii_whitespace() {
            return false;
        }
    }
    digits > 0
}

/// Whether one of the octets is neither a visible character of ASCII nor white space.
fn are_binary(octets: &[u8]) -> bool {
    for octet in octets {
        if !octet.is_ascii_graphic() && !octet.is_ascii_whitespace() {
            return true;
        }
    }
    false
}

/// Whether these octets have a carriage return.
fn has_return(octets: &[u8]) -> bool {
    for octet in octets {
        if *octet == b'\r' {
            return true;
        }
    }
    false
}

/// A hint at what `show` was given in place of the octets of messages.
fn octets_hint(first: &[u8]) -> Option<&'static str> {
    match first {
        [0xD4, 0xC3, 0xB2, 0xA1, ..]
        | [0xA1, 0xB2, 0xC3, 0xD4, ..]
        | [0x0A, 0x0D, 0x0D, 0x0A, ..] => {
            Some("this is a capture file; llrp-capture FILE lists the messages in it")
        }
        [b'H', b'T', b'T', b'P', ..] | [b'S', b'S', b'H', b'-', ..] => {
            Some("this is not LLRP but another protocol")
        }
        [b'0', b' ', b'A'..=b'Z', ..] => Some("this is a listing; llrp encode makes octets of it"),
        [b'{', ..] => Some("this is JSON; llrp encode --json makes octets of it"),
        _ if are_digits(first) => Some("these are hexadecimal digits; add --hex"),
        _ => None,
    }
}

/// A hint at what `show --hex` was given in place of digits.
fn digits_hint(first: &[u8]) -> Option<&'static str> {
    match first {
        [b'0', b'x' | b'X', ..] => Some("leave out 0x: only digits and white space are read"),
        [b'0', b' ', b'A'..=b'Z', ..] => Some(
            "this is a listing; llrp encode --hex makes digits of it",
        ),
        _ if are_binary(first) => Some("these are octets and no digits; leave out --hex"),
        [_, _, b':' | b',' | b'-', ..] => Some(
            "only digits and white space are read; tr -d ':,-' leaves out the rest",
        ),
        _ => None,
    }
}

/// A hint at what `encode` was given in place of a listing.
fn listing_hint(first: &[u8]) -> Option<&'static str> {
    match first {
        [b'1'..=b'9', b' ', ..] => Some("a message comes first: a line that begins with 0"),
        [b'{', ..] => Some("this is JSON; add --json"),
        [b'#', ..] => Some("a listing has no comments"),
        _ if are_binary(first) => Some("these are octets; llrp show lists them"),
        _ if has_return(first) => Some("lines end with only LF; tr -d '\\r' leaves out the rest"),
        _ if are_digits(first) => Some("these are hexadecimal digits; llrp show --hex lists them"),
        _ => None,
    }
}

/// A hint at what `encode --json` was given in place of lines of JSON.
fn lines_hint(first: &[u8]) -> Option<&'static str> {
    match first {
        [b'0', b' ', b'A'..=b'Z', ..] => Some("this is a listing; leave out --json"),
        [b'[', ..] => Some("each line is one object; jq -c '.[]' makes lines of an array"),
        [b'{', b'\n' | b'\r', ..] => Some("each object is one line; jq -c . makes it one"),
        _ if are_binary(first) => Some("these are octets; llrp show --json makes lines of them"),
        _ => None,
    }
}

/// What a person can do where a command refused its input, by the first octets of that, if these show it.
fn hint(reading: Reading, first: &[u8]) -> Option<&'static str> {
    match reading {
        Reading::Octets => octets_hint(first),
        Reading::Digits => digits_hint(first),
        Reading::Listing => listing_hint(first),
        Reading::Lines => lines_hint(first),
    }
}
