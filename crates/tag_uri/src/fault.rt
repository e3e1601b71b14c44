//! Why a text is refused.

use std::fmt;

/// The rules that refuse a text; the first in this order that applies is named.
#[derive(Clone, Copy, PartialEq, Eq, Debug)]
pub enum UriFault {
    /// The text does not begin with `urn:epc:tag:` or, if a raw URI may come, with `urn:epc:raw:`.
    Start,
    /// No name of a scheme with its colon comes next.
    Scheme,
    /// The number of components between dots is not the scheme's.
    Parts,
    /// A character other than 0 to 9, or an empty component other than the reference.
    Digit,
    /// A number without fixed digits has two or more digits and begins with 0.
    LeadingZero,
    /// The filter value is not one digit from 0 to 7.
    Filter,
    /// The company prefix does not have 6 to 12 digits, or the reference not as many as the table
    /// has for it.
    Digits,
    /// A number without fixed digits has more bits than its segment.
    Range,
    /// After `urn:epc:raw:` the text is not `96.x` and exactly 24 digits 0 to 9, A to F.
    RawForm,
    /// The word of a raw URI has a tag URI.
    RawOfLawful,
}

impl UriFault {
    ghost use Rattle.std.specs.Prelude.{◌≡◌};
    ghost use Rattle.tag_uri.specs.TagText.{fault_name};

    /// The name of the rule.
    pub fn name(self) -> &'static str
        ensures { result.now ≡ fault_name self }
    {
        match self {
            UriFault::Start => "Start",
            UriFault::Scheme => "Scheme",
            UriFault::Parts => "Parts",
            UriFault::Digit => "Digit",
            UriFault::LeadingZero => "LeadingZero",
            UriFault::Filter => "Filter",
            UriFault::Digits => "Digits",
            UriFault::Range => "Range",
            UriFault::RawForm => "RawForm",
            UriFault::RawOfLawful => "RawOfLawful",
        }
    }
}

impl fmt::Display for UriFault {
    ghost use Rattle.std.specs.Prelude.{Some};
    ghost use Rattle.tag_uri.specs.TagText.{fault_name};

    ghost output = { λ f. Some (fault_name f) };

    fn fmt<W: fmt::Write>(&self, f: &mut fmt::Formatter<W>) -> fmt::Result {
        f.pad(self.name())
    }
}
