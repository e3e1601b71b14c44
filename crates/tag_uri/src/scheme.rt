//! Finds the scheme that a text names.

ghost use Rattle.std.specs.Prelude.{◌≡◌, ℕ, List, MatchOption, IfSome, IfNone};
ghost use Rattle.tag_epc.specs.Layout.{scheme_name};
ghost use Rattle.tag_uri.specs.TagText.{scheme_text};

use tag_epc::Kind;
use tag_epc::kind::KINDS;

/// The scheme with this name.
fn kind_named(name: &str) -> Option<Kind>
    ensures { MatchOption result ((kind : Kind) → name.now ≡ scheme_name kind
        → ⊥) (λ kind. name.now ≡ scheme_name kind) }
{
    for kind in KINDS {
        if kind.name() == name {
            return Some(kind);
        }
    }
    None
}

/// The scheme at the front of a text, which begins with its name and a colon, and the text after
/// them.
pub(crate) fn scheme_of<'a>(text: &'a str) -> Option<(Kind, &'a str)>
    ensures some { IfSome result (λ x. text.now ≡ scheme_text x.0 x.1.now) }
    ensures none { IfNone result ((kind : Kind) (rest : List ℕ)
        → text.now ≡ scheme_text kind rest → ⊥) }
{
    let (name, rest) = text.split_once(':')?;
    let kind = kind_named(name)?;
    Some((kind, rest))
}
