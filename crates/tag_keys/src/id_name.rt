//! The names of schemes in pure identity URIs.

ghost use Rattle.std.specs.Prelude.{◌≡◌, ℕ, List, MatchOption, IfSome, IfNone};
ghost use Rattle.tag_keys.specs.PureIdentity.{id_name as name_of, id_text};

use tag_epc::Kind;
use tag_epc::kind::KINDS;

/// A scheme's name in pure identity URIs, as `sgtin`.
pub(crate) fn id_name(kind: Kind) -> &'static str
    ensures { result.now ≡ name_of kind }
{
    match kind {
        Kind::Sgtin => "sgtin",
        Kind::Sscc => "sscc",
        Kind::Sgln => "sgln",
        Kind::Grai => "grai",
        Kind::Gdti => "gdti",
        Kind::Gsrn => "gsrn",
        Kind::Gid => "gid",
    }
}

/// The scheme with this name.
fn kind_named(name: &str) -> Option<Kind>
    ensures { MatchOption result ((kind : Kind) → name.now ≡ name_of kind
        → ⊥) (λ kind. name.now ≡ name_of kind) }
{
    for kind in KINDS {
        if id_name(kind) == name {
            return Some(kind);
        }
    }
    None
}

/// The scheme at the front of a text, which begins with its name and a colon, and the text after
/// them.
pub(crate) fn scheme_of<'a>(text: &'a str) -> Option<(Kind, &'a str)>
    ensures some { IfSome result (λ x. text.now ≡ id_text x.0 x.1.now) }
    ensures none { IfNone result ((kind : Kind) (rest : List ℕ)
        → text.now ≡ id_text kind rest → ⊥) }
{
    let (name, rest) = text.split_once(':')?;
    let kind = kind_named(name)?;
    Some((kind, rest))
}
