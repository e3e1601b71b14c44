//! Why a text is refused in a form.

use std::fmt;
use tag_keys::KeyFault;
use tag_uri::UriFault;

/// The rules that refuse a text in a form; the first in the order of its form that applies is named.
#[derive(Clone, Copy, PartialEq, Eq, Debug)]
pub enum FormFault {
    /// The text is not exactly 24 hexadecimal digits, which blanks and colons may divide, and which `0x` may come before.
    Hex,
    /// It is not known how many digits the company prefix of a key has, and no other rule refuses the text.
    Prefix,
    /// This rule of tag URIs and raw URIs refuses the text.
    Tag(UriFault),
    /// This rule of pure identity URIs, or of keys, refuses the text.
    Key(KeyFault),
}

impl FormFault {
    ghost use Rattle.std.specs.Prelude.{◌≡◌};
    ghost use Rattle.tag_forms.specs.Faults.{form_fault_name};

    /// The name of the rule.
    pub fn name(self) -> &'static str
        ensures { result.now ≡ form_fault_name self }
    {
        match self {
            FormFault::Hex => "Hex",
            FormFault::Prefix => "Prefix",
            FormFault::Tag(fault) => fault.name(),
            FormFault::Key(fault) => fault.name(),
        }
    }
}

impl fmt::Display for FormFault {
    ghost use Rattle.std.specs.Prelude.{Some};
    ghost use Rattle.tag_forms.specs.Faults.{form_fault_name};

    ghost output = { λ f. Some (form_fault_name f) };

    fn fmt<W: fmt::Write>(&self, f: &mut fmt::Formatter<W>) -> fmt::Result {
        f.pad(self.name())
    }
}
