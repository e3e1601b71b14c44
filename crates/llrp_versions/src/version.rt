//! The versions that a simulated reader knows.

ghost use Rattle.std.specs.Prelude.{◌≡◌};
ghost use Rattle.llrp_versions.specs.Calls.Versions.{number_of, version_of};

/// A version of LLRP.
#[derive(Clone, Copy, Debug, PartialEq, Eq)]
pub enum Version {
    /// LLRP 1.0.1, whose messages have 1 in their first octets.
    First,
    /// LLRP 1.1, whose messages have 2 there.
    Second,
}

impl Version {
    /// The number that messages of the version have.
    pub fn number(self) -> u8
        ensures { result ≡ number_of self }
    {
        match self {
            Version::First => 1,
            Version::Second => 2,
        }
    }
}

/// The version of a number, if it is known.
pub(crate) fn version_of(number: u128) -> Option<Version>
    ensures { result ≡ version_of number }
{
    match number {
        1 => Some(Version::First),
        2 => Some(Version::Second),
        _ => None,
    }
}
