//! The line of octets as they are.

ghost use Rattle.std.specs.Prelude.{◌≡◌, ◌<◌, ◌∷◌, [], IfOk, List, MatchOption, length, ℕ};
ghost use Rattle.llrp_ask.specs.Calls.Raw.{IsRaw};

use llrp_listing::{ToolErr, bytes_of_hex};
use std::alloc::{AllocError, Global};

/// What follows `! ` in a line.
fn after_mark(line: &[u8]) -> Option<&[u8]>
    ensures { MatchOption result ((x : List ℕ) → line.now ≡ 33 ∷ 32 ∷ x → ⊥)
        (λ x. line.now ≡ 33 ∷ 32 ∷ x.now) }
{
    let (first, rest) = line.split_first()?;
    let (second, after) = rest.split_first()?;
    if *first == b'!' && *second == b' ' {
        Some(after)
    } else {
        None
    }
}

/// These octets, if there is one at least.
fn some_octets(octets: Vec<u8>) -> Option<Vec<u8>>
    ensures { MatchOption result (octets.items ≡ []) (λ some. (some.items ≡ octets.items) × (0 < length some.items)) }
{
    if octets.is_empty() {
        None
    } else {
        Some(octets)
    }
}

/// The octets of such a line, without its LF, if it is one. The only error is that memory ran out.
pub(crate) fn octets_of_line(alloc: Global, line: &[u8]) -> Result<Option<Vec<u8>>, AllocError>
    ensures { IfOk result (λ octets. MatchOption octets
        ((octets : List ℕ) → IsRaw line.now octets → ⊥)
        (λ octets. IsRaw line.now octets.items)) }
{
    let Some(word) = after_mark(line) else {
        return Ok(None);
    };
    match bytes_of_hex(alloc, word) {
        Ok(octets) => Ok(some_octets(octets)),
        Err(ToolErr::Memory) => Err(AllocError),
        Err(_) => Ok(None),
    }
}
