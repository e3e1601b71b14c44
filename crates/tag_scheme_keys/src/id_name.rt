//! The names of schemes in pure identity URIs.

ghost use Rattle.std.specs.Prelude.{◌≡◌, ℕ, List, IfSome, IfNone};
ghost use Rattle.tag_scheme_keys.specs.PureIdentity.{id_name_in, id_text_in};

use tag_schemes::Scheme;

/// A scheme's name in pure identity URIs, as `giai`.
pub(crate) fn id_name(scheme: Scheme) -> &'static str
    ensures { result.now ≡ id_name_in scheme }
{
    match scheme {
        Scheme::Giai => "giai",
        Scheme::Gsrnp => "gsrnp",
        Scheme::Sgcn => "sgcn",
        Scheme::Cpi => "cpi",
    }
}

/// The scheme with whose name and a colon a text begins, and the text after them.
pub(crate) fn scheme_named<'a>(text: &'a str) -> Option<(Scheme, &'a str)>
    ensures some { IfSome result (λ x. text.now ≡ id_text_in x.0 x.1.now) }
    ensures none { IfNone result ((scheme : Scheme) (rest : List ℕ)
        → text.now ≡ id_text_in scheme rest → ⊥) }
{
    if let Some(rest) = text.strip_prefix("giai:") {
        return Some((Scheme::Giai, rest));
    }
    if let Some(rest) = text.strip_prefix("gsrnp:") {
        return Some((Scheme::Gsrnp, rest));
    }
    if let Some(rest) = text.strip_prefix("sgcn:") {
        return Some((Scheme::Sgcn, rest));
    }
    if let Some(rest) = text.strip_prefix("cpi:") {
        return Some((Scheme::Cpi, rest));
    }
    None
}
