//! Divides the components of a tag URI, which dots separate.

ghost use Rattle.std.specs.Prelude.{◌≡◌, ◌<◌, ◌≤◌, ◌∷◌, ◌++◌, [], length, MatchOption, IfSome, IfNone};
ghost use Rattle.tag_uri.specs.TagText.{components};
ghost use Rattle.tag_keys.specs.Private.Pieces.{components_after};

/// The first component, and the text of the others.
pub(crate) fn cut<'a>(text: &'a str) -> (&'a str, Option<&'a str>)
    ensures parts { MatchOption result.1 (components text.now ≡ result.0.now
        ∷ []) (λ rest. components text.now ≡ result.0.now ∷ components rest.now) }
    ensures some { IfSome result.1 (λ rest. 0 < length (components rest.now)) }
    ensures short { IfSome result.1 (λ rest. length rest.now ≤ length text.now) }
{
    match text.split_once('.') {
        Some((first, rest)) => (first, Some(rest)),
        None => (text, None),
    }
}

/// The first three components, and the text of the others.
#[derive(Clone, Copy)]
pub(crate) struct Components<'a> {
    pub(crate) first: &'a str,
    pub(crate) second: &'a str,
    pub(crate) third: &'a str,
    pub(crate) others: Option<&'a str>,
}

/// The components of a text that has three or more.
pub(crate) fn split<'a>(text: &'a str) -> Option<Components<'a>>
    ensures some { IfSome result (λ x. components text.now ≡ x.first.now ∷ x.second.now
        ∷ x.third.now ∷ components_after x.others) }
    ensures none { IfNone result (length (components text.now) < 3) }
{
    let (first, Some(rest)) = cut(text) else {
        return None;
    };
    let (second, Some(rest)) = cut(rest) else {
        return None;
    };
    let (third, others) = cut(rest);
    Some(Components {
        first,
        second,
        third,
        others,
    })
}
