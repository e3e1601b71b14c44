//! Whether all that was asked for was done, and the words that a tag gave back.

ghost use Rattle.std.specs.Prelude.{◌≡◌, ◌++◌, IfOk, drop, filter, length};
ghost use Rattle.std.specs.Str.{bytes_eq};
ghost use Rattle.llrp_operations.specs.Calls.Changes.{IsHeadAt, is_done, is_meant, is_verified};
ghost use Rattle.llrp_operations.specs.Calls.Messages.{epc_in};
ghost use Rattle.llrp_operations.specs.Calls.Operations.{words_octets as the_octets};
ghost use Rattle.llrp_operations.specs.Calls.Results as results;
ghost use Rattle.llrp_tree.specs.Tree.{trees};

use crate::message::epc_of;
use crate::operation::Operation;
use crate::parameters::{SpecErr, words_octets};
use crate::results::{has_succeeded, is_result};
use llrp_tree::Node;
use std::alloc::Global;

/// The result at a place among the results of these parameters, from 0.
pub(crate) fn result_at(nodes: &[Node], place: usize) -> Option<&Node>
    ensures { IsHeadAt place (filter results.is_result nodes.now) result }
{
    let mut left = place;
    for node in nodes {
        if is_result(node) {
            if left == 0 {
                return Some(node);
            }
            left -= 1;
        }
    }
    None
}

/// The result at a place among those of a TagReportData, from 0, if it has as many.
pub fn result_of(tag: &Node, place: usize) -> Option<&Node>
    ensures { IsHeadAt place (filter results.is_result (trees tag.now.children)) result }
{
    result_at(tag.children().as_slice(), place)
}

/// Whether the tail of a parameter is these words.
fn has_words(alloc: Global, node: &Node, words: &[u16]) -> Result<bool, SpecErr>
    ensures { IfOk result (λ has. has ≡ bytes_eq node.now.tail (the_octets words.now)) }
{
    let octets = words_octets(alloc, words)?;
    Ok(node.tail().as_slice() == octets.as_slice())
}

/// Whether TagReportData gives back, after the results of these operations, the words that each of them
/// wrote, in order.
fn are_verified(alloc: Global, operations: &[Operation], tag: &Node) -> Result<bool, SpecErr>
    ensures { IfOk result (λ are. are ≡ is_verified operations.now tag.now) }
{
    let said = tag.children().as_slice();
    let mut place = operations.len();
    for operation in operations {
        if let Operation::Write { words, .. } = operation {
            let Some(node) = result_at(said, place) else {
                return Ok(false);
            };
            if !has_words(alloc, node, words.as_slice())? {
                return Ok(false);
            }
            place += 1;
        }
    }
    Ok(true)
}

/// The tag that an AccessSpec is for.
#[derive(Clone, Copy)]
pub struct Meant<'a> {
    /// Its EPC; of no octets for any tag.
    pub epc: &'a [u8],
    /// The EPC that it is to be given; of no octets where it keeps its own.
    pub given: &'a [u8],
}

/// Whether TagReportData is of the tag that is meant, by its EPC or by the one that it was to be given.
pub fn is_meant(alloc: Global, meant: Meant<'_>, tag: &Node) -> Result<bool, SpecErr>
    ensures { IfOk result (λ is. is
        ≡ is_meant meant.entry.epc.now meant.entry.given.now (epc_in (trees tag.now.children))) }
{
    let epc = epc_of(alloc, tag)?;
    let epc = epc.as_slice();
    let is_given = !meant.given.is_empty() && epc == meant.given;
    Ok(meant.epc.is_empty() || epc == meant.epc || is_given)
}

/// Whether TagReportData says that the AccessSpec with this id did all that was asked for, to the tag that is
/// meant. `sent` are its operations: those asked for, and where it verifies, their checks
/// ([`crate::with_checks`]), whose words then have to be those that were written. The error is that memory
/// ran out.
pub fn is_done(
    alloc: Global,
    id: u32,
    asked: &[Operation],
    sent: &[Operation],
    verifies: bool,
    meant: Meant<'_>,
    tag: &Node,
) -> Result<bool, SpecErr>
    ensures { IfOk result (λ is. is ≡ is_done verifies id asked.now sent.now meant.entry.epc.now
        meant.entry.given.now tag.now) }
{
    if !is_meant(alloc, meant, tag)? || !has_succeeded(id, sent, tag) {
        return Ok(false);
    }
    if verifies {
        are_verified(alloc, asked, tag)
    } else {
        Ok(true)
    }
}
