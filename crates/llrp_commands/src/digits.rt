//! The octets that hexadecimal digits spell, where the digits come in pieces.

ghost use Rattle.std.specs.Prelude.{◌≡◌, ◌<◌, ◌++◌, ℕ, List, [], IfOk, MatchOption, OnOk};
ghost use Rattle.std.specs.Option.{ForSome, is_some};
ghost use Rattle.llrp_listing.specs.Calls.Hexadecimal.{IsHexDigit, is_space};
ghost use Rattle.llrp_commands.specs.Calls.Digits.{IsNoDigit, Spells, SpellsFront};
ghost use Rattle.llrp_commands.specs.Private.Digits.{IsPushed};

use std::alloc::{AllocError, Global};

/// Whether the octet may stand between digits: space, tab, LF or CR.
fn is_space(octet: u8) -> bool
    ensures { result ≡ is_space octet }
{
    octet == b' ' || octet == b'\t' || octet == b'\n' || octet == b'\r'
}

/// The value of a digit of either case.
fn value_of(octet: u8) -> Option<u8>
    ensures { MatchOption result (IsNoDigit octet) (IsHexDigit octet) }
{
    match octet {
        b'0'..=b'9' => Some(octet - b'0'),
        b'A'..=b'F' => Some(octet - b'A' + 10),
        b'a'..=b'f' => Some(octet - b'a' + 10),
        _ => None,
    }
}

/// Hexadecimal digits that come in pieces of any size: two an octet, of either case, with space,
/// tab, LF and CR anywhere between them. It keeps the octets of the last piece alone.
#[derive(Drop)]
pub(crate) struct Digits {
    /// The value of a first digit whose second did not come.
    pub(crate) half: Option<u8>,
    /// The octets of which the last digit came with the last piece.
    pub(crate) octets: Vec<u8>,

    ghost small: { ForSome half (λ high. high < 16) },
}

impl Digits {
    /// The digits of which no piece came.
    pub(crate) fn new(alloc: Global) -> Digits
        ensures { SpellsFront [] [] result.half }
    {
        Digits {
            half: None,
            octets: Vec::new(alloc),
        }
    }

    /// Takes one digit of this value.
    fn push(&mut self, value: u8) -> Result<(), AllocError>
        requires { value < 16 }
        ensures { OnOk result (IsPushed self.old.octets.items self.old.half
            self.new.octets.items self.new.half value) }
    {
        match self.half {
            None => self.half = Some(value),
            Some(high) => {
                self.octets.push(16 * high + value)?;
                self.half = None;
            }
        }
        Ok(())
    }

    /// Takes the next piece. Returns whether all of it is digits and spaces: else what stands
    /// before its first other octet was taken.
    pub(crate) fn feed(&mut self, piece: &[u8]) -> Result<bool, AllocError>
        ensures { IfOk result (λ right. (text octets : List ℕ)
            → SpellsFront text octets self.old.half → Spells (text ++ piece.now)
            (octets ++ self.new.octets.items) self.new.half right) }
    {
        self.octets.clear();
        for octet in piece {
            if is_space(*octet) {
                continue;
            }
            let Some(value) = value_of(*octet) else {
                return Ok(false);
            };
            self.push(value)?;
        }
        Ok(true)
    }

    /// The octets of which the last digit came with the last piece.
    pub(crate) fn octets(&self) -> &[u8]
        ensures { result.now ≡ self.now.octets.items }
    {
        self.octets.as_slice()
    }

    /// Whether the second digit of an octet is still to come.
    pub(crate) fn is_odd(&self) -> bool
        ensures { result ≡ is_some self.now.half }
    {
        self.half.is_some()
    }
}
