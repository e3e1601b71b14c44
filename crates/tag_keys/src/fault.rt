//! Why a text is refused.

use std::fmt;
use tag_uri::UriFault;

/// The rules that refuse a text; the first in this order that applies is named.
#[derive(Clone, Copy, PartialEq, Eq, Debug)]
pub enum KeyFault {
    /// The text has more than 96 octets.
    Long,
    /// The text does not begin with `urn:epc:id:`, or with the application identifier of a key.
    Start,
    /// No name of a scheme with its colon comes next. Only of pure identity URIs.
    Scheme,
    /// The key has fewer digits than it has to have, with its check digit.
    Length,
    /// One of these characters is not 0 to 9.
    Digit,
    /// The check digit is wrong; this one, a character 0 to 9, would be right.
    Check(u8),
    /// What follows the check digit is not what the scheme has there: nothing, or a serial number
    /// of one digit or more.
    Serial,
    /// The tag URI with the same components is refused by this rule: of a key that can only be
    /// `LeadingZero` or `Range`, for its serial number.
    Tag(UriFault),
}

impl KeyFault {
    ghost use Rattle.std.specs.Prelude.{◌≡◌};
    ghost use Rattle.tag_keys.specs.KeyFaults.{key_fault_name};

    /// The name of the rule.
    pub fn name(self) -> &'static str
        ensures { result.now ≡ key_fault_name self }
    {
        match self {
            KeyFault::Long => "Long",
            KeyFault::Start => "Start",
            KeyFault::Scheme => "Scheme",
            KeyFault::Length => "Length",
            KeyFault::Digit => "Digit",
            KeyFault::Check(_) => "Check",
            KeyFault::Serial => "Serial",
            KeyFault::Tag(fault) => fault.name(),
        }
    }
}

impl fmt::Display for KeyFault {
    ghost use Rattle.std.specs.Prelude.{Some};
    ghost use Rattle.tag_keys.specs.KeyFaults.{key_fault_name};

    ghost output = { λ f. Some (key_fault_name f) };

    fn fmt<W: fmt::Write>(&self, f: &mut fmt::Formatter<W>) -> fmt::Result {
        f.pad(self.name())
    }
}
