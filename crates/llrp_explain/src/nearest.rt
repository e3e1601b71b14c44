//! The names of kinds that are nearest to a name that no kind has.

ghost use Rattle.std.specs.Prelude.{◌≡◌, IfOk, filter, fold, min, nat_eq, take};
ghost use Rattle.llrp_explain.specs.Calls.Nearest.{at_distance, distance, least, nearest, nearest_text};

use crate::kind_texts::push_names;
use crate::rows::kinds_of;
use llrp_schema::{Kind, KindSet, name as name_of};
use std::alloc::{AllocError, Global};
use strsim::generic_levenshtein;

/// How many names are given at most.
const MOST_NAMES: usize = 5;

/// How many octets have to be put in, left out or changed to make the name of a kind of a name, where
/// a letter counts as itself in either case.
fn distance(alloc: Global, name: &[u8], kind: Kind) -> Result<usize, AllocError>
    ensures { IfOk result (λ d. d ≡ distance name.now kind) }
{
    let one = name.to_ascii_lowercase(alloc)?;
    let other = name_of(kind).as_bytes().to_ascii_lowercase(alloc)?;
    generic_levenshtein(alloc, one.as_slice(), other.as_slice())
}

/// The least distance of a name from those of kinds; the greatest `usize` where there are none.
fn least(alloc: Global, name: &[u8], kinds: &[Kind]) -> Result<usize, AllocError>
    ensures { IfOk result (λ d. d ≡ least name.now kinds.now) }
{
    let mut least = usize::MAX;
    for kind in kinds {
        least = least.min(distance(alloc, name, *kind)?);
    }
    Ok(least)
}

/// The kinds among these whose names are at this distance from a name.
fn at_distance(
    alloc: Global,
    name: &[u8],
    count: usize,
    kinds: &[Kind],
) -> Result<Vec<Kind>, AllocError>
    ensures { IfOk result (λ found. found.items ≡ at_distance name.now count kinds.now) }
{
    let mut found = Vec::new(alloc);
    for kind in kinds {
        if distance(alloc, name, *kind)? == count {
            found.push(*kind)?;
        }
    }
    Ok(found)
}

/// The first kinds, as many as are named.
fn first_few(kinds: &[Kind]) -> &[Kind]
    ensures { result.now ≡ take 5 kinds.now }
{
    if kinds.len() > MOST_NAMES {
        &kinds[..MOST_NAMES]
    } else {
        kinds
    }
}

/// The names in a set that are nearest to a name, with a comma between each two: of those at the least distance
/// the first five, by the numbers of their kinds.
pub fn nearest_names(alloc: Global, set: KindSet, name: &[u8]) -> Result<Vec<u8>, AllocError>
    ensures { IfOk result (λ text. text.items ≡ nearest_text set name.now) }
{
    let kinds = kinds_of(alloc, set)?;
    let count = least(alloc, name, kinds.as_slice())?;
    let found = at_distance(alloc, name, count, kinds.as_slice())?;
    let mut text = Vec::new(alloc);
    push_names(&mut text, first_few(found.as_slice()))?;
    Ok(text)
}
