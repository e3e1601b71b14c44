//! Why a text is refused.

use std::fmt;
use tag_epc::WordReason;
use tag_uri::UriFault;

/// The rules that refuse a text; the first in this order that applies is named.
#[derive(Clone, Copy, PartialEq, Eq, Debug)]
pub enum SchemeFault {
    /// The text begins as a tag URI of a further scheme, and has more than 96 octets.
    Long,
    /// The code of a USDoD-96 is not five or six characters, each a digit or a capital letter other than I and O.
    Code,
    /// This rule refuses the text. After the colon of GSRNP-96 it is the rule that refuses the tag URI
    /// of GSRN-96 with the same components, of SGCN-96 that of GDTI-96 with a 1 before the last one; a raw URI
    /// is also refused if its word has a further scheme.
    Tag(UriFault),
}

impl SchemeFault {
    ghost use Rattle.std.specs.Prelude.{◌≡◌};
    ghost use Rattle.tag_schemes.specs.Calls.Faults.{scheme_fault_name};

    /// The name of the rule.
    pub fn name(self) -> &'static str
        ensures { result.now ≡ scheme_fault_name self }
    {
        match self {
            SchemeFault::Long => "Long",
            SchemeFault::Code => "Code",
            SchemeFault::Tag(fault) => fault.name(),
        }
    }
}

impl fmt::Display for SchemeFault {
    ghost use Rattle.std.specs.Prelude.{Some};
    ghost use Rattle.tag_schemes.specs.Calls.Faults.{scheme_fault_name};

    ghost output = { λ f. Some (scheme_fault_name f) };

    fn fmt<W: fmt::Write>(&self, f: &mut fmt::Formatter<W>) -> fmt::Result {
        f.pad(self.name())
    }
}

/// The first part of a word that fails, in the set of all schemes.
#[derive(Clone, Copy, PartialEq, Eq, Debug)]
pub enum PartReason {
    /// A part that words of the seven schemes have too.
    Word(WordReason),
    /// The digits of the last segment's number are not a 1 and then those of a serial number (SGCN-96).
    Serial,
    /// A character of the code is neither a digit nor a capital letter other than I and O, nor a space before five others (USDoD-96).
    Code,
}

/// The first part of a word that fails, and its first bit; bit 0 is the most significant of 96.
#[derive(Clone, Copy, PartialEq, Eq, Debug)]
pub struct PartFault {
    pub bit: u32,
    pub reason: PartReason,
}

impl PartReason {
    ghost use Rattle.std.specs.Prelude.{◌≡◌};
    ghost use Rattle.tag_schemes.specs.Calls.Faults.{part_reason_name};

    /// The name of the part.
    pub fn name(self) -> &'static str
        ensures { result.now ≡ part_reason_name self }
    {
        match self {
            PartReason::Word(reason) => reason.name(),
            PartReason::Serial => "Serial",
            PartReason::Code => "Code",
        }
    }
}
