//! The line of a pause.

ghost use Rattle.std.specs.Prelude.{◌≡◌, ◌≤◌, ◌*◌, ◌+◌, ◌∷◌, ◌++◌, [], List, MatchOption, ℕ, decimal};
ghost use Rattle.llrp_ask.specs.Calls.Pause.{IsPause, IsTime};

use llrp_listing::{number_of, split_once};

/// The greatest number of whole seconds of a pause: those of a day.
const MOST_SECONDS: u64 = 86_400;

/// The milliseconds of a number of seconds up to that of a day.
fn whole_time(word: &[u8]) -> Option<u32>
    ensures { MatchOption result
        ((s : ℕ) → s ≤ MOST_SECONDS → word.now ≡ decimal s → ⊥)
        (λ ms. (s : ℕ) × (s ≤ MOST_SECONDS) × (word.now ≡ decimal s) × (ms ≡ 1000 * s)) }
{
    let seconds = number_of(word, MOST_SECONDS)?;
    Some(seconds as u32 * 1000)
}

/// The milliseconds of these seconds and tenths of a second.
fn split_time(whole: &[u8], tenth: &[u8]) -> Option<u32>
    ensures { MatchOption result
        ((s d : ℕ) → s ≤ MOST_SECONDS → d ≤ 9 → whole.now ≡ decimal s → tenth.now ≡ decimal d → ⊥)
        (λ ms. (s d : ℕ) × (s ≤ MOST_SECONDS) × (d ≤ 9) × (whole.now ≡ decimal s)
        × (tenth.now ≡ decimal d) × (ms ≡ 1000 * s + 100 * d)) }
{
    let seconds = number_of(whole, MOST_SECONDS)?;
    let tenths = number_of(tenth, 9)?;
    Some(seconds as u32 * 1000 + tenths as u32 * 100)
}

/// The milliseconds of a number of seconds with at most one digit after the point.
fn time_of(word: &[u8]) -> Option<u32>
    ensures { MatchOption result ((ms : ℕ) → IsTime word.now ms → ⊥) (IsTime word.now) }
{
    match split_once(word, b'.') {
        Some((whole, tenth)) => split_time(whole, tenth),
        None => whole_time(word),
    }
}

/// What follows `= ` in a line.
fn after_mark(line: &[u8]) -> Option<&[u8]>
    ensures { MatchOption result ((x : List ℕ) → line.now ≡ 61 ∷ 32 ∷ x → ⊥)
        (λ x. line.now ≡ 61 ∷ 32 ∷ x.now) }
{
    let (first, rest) = line.split_first()?;
    let (second, after) = rest.split_first()?;
    if *first == b'=' && *second == b' ' {
        Some(after)
    } else {
        None
    }
}

/// What comes before the `s` at the end of a line.
fn before_unit(line: &[u8]) -> Option<&[u8]>
    ensures { MatchOption result ((x : List ℕ) → line.now ≡ x ++ 115 ∷ [] → ⊥)
        (λ x. line.now ≡ x.now ++ 115 ∷ []) }
{
    let (last, before) = line.split_last()?;
    if *last == b's' { Some(before) } else { None }
}

/// The milliseconds of the line of a pause, without its LF.
pub(crate) fn pause_of(line: &[u8]) -> Option<u32>
    ensures { MatchOption result ((ms : ℕ) → IsPause line.now ms → ⊥) (IsPause line.now) }
{
    let after = after_mark(line)?;
    let word = before_unit(after)?;
    time_of(word)
}
