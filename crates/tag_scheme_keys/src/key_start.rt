//! What the texts of keys begin with.

ghost use Rattle.std.specs.Prelude.{◌≡◌, ℕ, List, ◌++◌, IfSome, IfNone};
ghost use Rattle.tag_scheme_keys.specs.KeyText.{start_in};
ghost use Rattle.tag_scheme_keys.specs.KeyFaults.{BeginsKeyIn};

use tag_keys::Spelling;
use tag_schemes::Scheme;

/// What the text of a scheme's key begins with, as it is spelled.
pub(crate) fn key_start(spelling: Spelling, scheme: Scheme) -> &'static str
    ensures { result.now ≡ start_in spelling scheme }
{
    match (spelling, scheme) {
        (Spelling::Element, Scheme::Giai) => "(8004)",
        (Spelling::Element, Scheme::Gsrnp) => "(8017)",
        (Spelling::Element, Scheme::Sgcn) => "(255)",
        (Spelling::Element, Scheme::Cpi) => "(8010)",
        (Spelling::Link, Scheme::Giai) => "https://id.gs1.org/8004/",
        (Spelling::Link, Scheme::Gsrnp) => "https://id.gs1.org/8017/",
        (Spelling::Link, Scheme::Sgcn) => "https://id.gs1.org/255/",
        (Spelling::Link, Scheme::Cpi) => "https://id.gs1.org/8010/",
        (Spelling::Named, Scheme::Giai) => "giai ",
        (Spelling::Named, Scheme::Gsrnp) => "gsrnp ",
        (Spelling::Named, Scheme::Sgcn) => "gcn ",
        (Spelling::Named, Scheme::Cpi) => "cpi ",
    }
}

/// What follows the start of a scheme's key in a text that begins with it.
fn after_start<'a>(spelling: Spelling, scheme: Scheme, text: &'a str) -> Option<&'a str>
    ensures some { IfSome result (λ rest. BeginsKeyIn spelling text.now scheme rest.now) }
    ensures none { IfNone result ((rest : List ℕ)
        → BeginsKeyIn spelling text.now scheme rest → ⊥) }
{
    match text.strip_prefix(key_start(spelling, scheme)) {
        Some(rest) => Some(rest),
        None => None,
    }
}

/// The scheme with the start of whose key a text begins, and the text after it.
pub(crate) fn key_in_front<'a>(spelling: Spelling, text: &'a str) -> Option<(Scheme, &'a str)>
    ensures some { IfSome result (λ x. BeginsKeyIn spelling text.now x.0 x.1.now) }
    ensures none { IfNone result ((scheme : Scheme) (rest : List ℕ)
        → BeginsKeyIn spelling text.now scheme rest → ⊥) }
{
    if let Some(rest) = after_start(spelling, Scheme::Giai, text) {
        return Some((Scheme::Giai, rest));
    }
    if let Some(rest) = after_start(spelling, Scheme::Gsrnp, text) {
        return Some((Scheme::Gsrnp, rest));
    }
    if let Some(rest) = after_start(spelling, Scheme::Sgcn, text) {
        return Some((Scheme::Sgcn, rest));
    }
    if let Some(rest) = after_start(spelling, Scheme::Cpi, text) {
        return Some((Scheme::Cpi, rest));
    }
    None
}
