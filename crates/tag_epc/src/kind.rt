//! The schemes by name, and the way from a scheme's name to its layout. A new scheme gets a line in
//! each of the three lists below: the enum, the list of all kinds, and the macro.

ghost use Rattle.std.specs.Prelude.{◌≡◌, ◌≢◌, ℕ, MatchOption};

use crate::scheme::Scheme;

/// The first eight bits of each word of GID-96.
pub const GID_HEADER: u8 = 0x35;

/// How many bits the manager number of GID-96 has.
pub const GID_MANAGER_BITS: u32 = 28;

/// How many bits the object class of GID-96 has.
pub const GID_CLASS_BITS: u32 = 24;

/// How many bits the serial number of GID-96 has.
pub const GID_SERIAL_BITS: u32 = 36;

/// The schemes of 96-bit EPCs (EPC Tag Data Standard 1.13, section 14.2).
#[derive(Clone, Copy, PartialEq, Eq, Hash, Debug)]
pub enum Kind {
    /// Trade items, SGTIN-96.
    Sgtin,
    /// Logistic units, SSCC-96.
    Sscc,
    /// Locations, SGLN-96.
    Sgln,
    /// Returnable assets, GRAI-96.
    Grai,
    /// Documents, GDTI-96.
    Gdti,
    /// Service relations, GSRN-96.
    Gsrn,
    /// General identifiers, GID-96, which have no company prefix.
    Gid,
}

/// Each scheme once.
pub const KINDS: [Kind; 7] = [
    Kind::Sgtin,
    Kind::Sscc,
    Kind::Sgln,
    Kind::Grai,
    Kind::Gdti,
    Kind::Gsrn,
    Kind::Gid,
];

/// Calls a generic function with the scheme of a kind, or gives a value for GID-96.
#[macro_export]
macro_rules! at_scheme {
    ($kind:expr, $f:ident($($argument:expr),*), $general:expr) => {
        match $kind {
            $crate::kind::Kind::Sgtin => $f::<$crate::scheme::Sgtin96>($($argument),*),
            $crate::kind::Kind::Sscc => $f::<$crate::scheme::Sscc96>($($argument),*),
            $crate::kind::Kind::Sgln => $f::<$crate::scheme::Sgln96>($($argument),*),
            $crate::kind::Kind::Grai => $f::<$crate::scheme::Grai96>($($argument),*),
            $crate::kind::Kind::Gdti => $f::<$crate::scheme::Gdti96>($($argument),*),
            $crate::kind::Kind::Gsrn => $f::<$crate::scheme::Gsrn96>($($argument),*),
            $crate::kind::Kind::Gid => $general,
        }
    };
}

impl Kind {
    ghost use Rattle.tag_epc.specs.Layout.{scheme_name, header_of};

    /// The scheme's name in tag URIs, as `sgtin-96`.
    pub fn name(self) -> &'static str
        ensures { result.now ≡ scheme_name self }
    {
        at_scheme!(self, name_under(), "gid-96")
    }

    /// The first eight bits of each word of the scheme.
    pub fn header(self) -> u8
        ensures { result ≡ header_of self }
    {
        at_scheme!(self, header_under(), GID_HEADER)
    }

    /// The kind with that header, the first eight bits of a word.
    pub fn of_header(header: u8) -> Option<Kind>
        ensures { MatchOption result ((k : Kind)
            → header_of k ≢ header) (λ k. header_of k ≡ header) }
    {
        for kind in KINDS {
            if kind.header() == header {
                return Some(kind);
            }
        }
        None
    }
}

/// The name of a scheme.
fn name_under<S: Scheme>() -> &'static str
    ensures { result.now ≡ S.layout.name }
{
    S::name()
}

/// The header of a scheme.
fn header_under<S: Scheme>() -> u8
    ensures { result ≡ S.layout.header }
{
    S::HEADER
}
