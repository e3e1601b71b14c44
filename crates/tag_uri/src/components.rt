//! Divides a text into its components, which dots separate.

ghost use Rattle.std.specs.Prelude.{◌≡◌, ◌≢◌, ◌+◌, ◌<◌, ◌∷◌, [], length, MatchOption, IfSome, IfNone};
ghost use Rattle.tag_uri.specs.TagText.{components};

/// The first component, and the text of the others.
fn cut<'a>(text: &'a str) -> (&'a str, Option<&'a str>)
    ensures parts { MatchOption result.1 (components text.now ≡ result.0.now
        ∷ []) (λ rest. components text.now ≡ result.0.now ∷ components rest.now) }
    ensures some { IfSome result.1 (λ rest. 0 < length (components rest.now)) }
{
    match text.split_once('.') {
        Some((first, rest)) => (first, Some(rest)),
        None => (text, None),
    }
}

/// The components of a text that has three.
pub fn three<'a>(text: &'a str) -> Option<(&'a str, &'a str, &'a str)>
    ensures some { IfSome result (λ x. components text.now ≡ x.0.now ∷ x.1.now ∷ x.2.now ∷ []) }
    ensures none { IfNone result (length (components text.now) ≢ 3) }
{
    let (first, Some(rest)) = cut(text) else {
        return None;
    };
    let (second, Some(rest)) = cut(rest) else {
        return None;
    };
    let (third, None) = cut(rest) else {
        return None;
    };
    Some((first, second, third))
}

/// The components of a text that has four.
pub fn four<'a>(text: &'a str) -> Option<(&'a str, &'a str, &'a str, &'a str)>
    ensures some { IfSome result (λ x. components text.now ≡ x.0.now ∷ x.1.now ∷ x.2.now
        ∷ x.3.now ∷ []) }
    ensures none { IfNone result (length (components text.now) ≢ 4) }
{
    let (first, Some(rest)) = cut(text) else {
        return None;
    };
    let (second, third, fourth) = three(rest)?;
    Some((first, second, third, fourth))
}
