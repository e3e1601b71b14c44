//! What a reader says of the operations of an AccessSpec.

ghost use Rattle.std.specs.Prelude.{◌≡◌, ◌≤◌, length};
ghost use Rattle.llrp_operations.specs.Calls.Results as results;
ghost use Rattle.llrp_tree.specs.Tree.{trees};

use crate::operation::Operation;
use llrp_schema::{Kind, number};
use llrp_tree::{Node, ParamKind};

/// Whether a parameter is of a kind.
pub(crate) fn is_parameter(kind: ParamKind, node: &Node) -> bool
    ensures { result ≡ results.is_parameter kind node.now }
{
    number(Kind::Parameter(node.kind())) == number(Kind::Parameter(kind))
}

/// The field at a place of a parameter; 0 if it has none.
pub(crate) fn field_at(node: &Node, place: usize) -> u128
    ensures { result ≡ results.field_at place node.now }
{
    node.fields().get(place).copied().unwrap_or(0)
}

/// Whether a parameter is the result of a read, a write or a lock.
pub(crate) fn is_result(node: &Node) -> bool
    ensures { result ≡ results.is_result node.now }
{
    let reads = is_parameter(ParamKind::WholeC1G2ReadOpSpecResult, node);
    let writes = is_parameter(ParamKind::WholeC1G2WriteOpSpecResult, node);
    let locks = is_parameter(ParamKind::WholeC1G2LockOpSpecResult, node);
    reads || writes || locks
}

/// The kind of the result of an operation.
fn result_kind(operation: &Operation) -> ParamKind
    ensures { result ≡ results.result_kind operation.now }
{
    match operation {
        Operation::Read { .. } => ParamKind::WholeC1G2ReadOpSpecResult,
        Operation::Write { .. } => ParamKind::WholeC1G2WriteOpSpecResult,
        Operation::Lock { .. } => ParamKind::WholeC1G2LockOpSpecResult,
    }
}

/// Whether a result says that all words were read, or written, that its operation asked for.
fn is_whole(operation: &Operation, node: &Node) -> bool
    ensures { result ≡ results.is_whole operation.now node.now }
{
    match operation {
        Operation::Read { count: 0, .. } => !node.tail().as_slice().is_empty(),
        Operation::Read { count, .. } => node.tail().as_slice().len() == 2 * *count as usize,
        Operation::Write { words, .. } => field_at(node, 2) == words.len() as u128,
        Operation::Lock { .. } => true,
    }
}

/// Whether a parameter is the result of the operation with this OpSpecID.
fn is_result_of(id: usize, operation: &Operation, node: &Node) -> bool
    ensures { result ≡ results.is_result_of id operation.now node.now }
{
    is_parameter(result_kind(operation), node) && field_at(node, 1) == id as u128
}

/// Whether a parameter says that the operation with this OpSpecID was done, and all of it.
fn says_done(id: usize, operation: &Operation, node: &Node) -> bool
    ensures { result ≡ results.says_done id operation.now node.now }
{
    is_result_of(id, operation, node) && field_at(node, 0) == 0 && is_whole(operation, node)
}

/// Whether a failure leaves open what became of the tag.
fn is_open(operation: &Operation, number: u128) -> bool
    ensures { result ≡ results.is_open operation.now number }
{
    match operation {
        Operation::Read { .. } => false,
        Operation::Write { .. } => number == 4 || number == 5 || number == 6 || number > 7,
        Operation::Lock { .. } => number == 2 || number == 3 || number == 4 || number > 7,
    }
}

/// How many words a write wrote, as its result says.
fn written(operation: &Operation, node: &Node) -> u128
    ensures { result ≡ results.written operation.now node.now }
{
    match operation {
        Operation::Write { .. } => field_at(node, 2),
        Operation::Read { .. } | Operation::Lock { .. } => 0,
    }
}

/// Whether a result says that all of its operation was done, or that it failed and changed nothing.
fn is_settled(operation: &Operation, node: &Node) -> bool
    ensures { result ≡ results.is_settled operation.now node.now }
{
    let number = field_at(node, 0);
    if number == 0 {
        return is_whole(operation, node);
    }
    !is_open(operation, number) && written(operation, node) == 0
}

/// The same of a parameter that is the result of the operation with this OpSpecID.
fn says_clearly(id: usize, operation: &Operation, node: &Node) -> bool
    ensures { result ≡ results.says_clearly id operation.now node.now }
{
    is_result_of(id, operation, node) && is_settled(operation, node)
}

/// Whether these parameters say that all operations were done, in their order.
fn say_done(operations: &[Operation], nodes: &[Node]) -> bool
    ensures { result ≡ results.say_done 1 operations.now nodes.now }
{
    let mut done = 0;
    for node in nodes {
        if is_result(node) {
            match operations.get(done) {
                Some(operation) if says_done(done + 1, operation, node) => done += 1,
                _ => return false,
            }
        }
    }
    done == operations.len()
}

/// Whether these parameters say clearly of each operation, in their order, what became of it.
fn say_clearly(operations: &[Operation], nodes: &[Node]) -> bool
    ensures { result ≡ results.say_clearly 1 operations.now nodes.now }
{
    let mut done = 0;
    for node in nodes {
        if is_result(node) {
            match operations.get(done) {
                Some(operation) if says_clearly(done + 1, operation, node) => done += 1,
                _ => return false,
            }
        }
    }
    done == operations.len()
}

/// Whether TagReportData says clearly of each operation what became of it: all of it was done, or it failed
/// and changed nothing.
pub fn is_clear(operations: &[Operation], tag: &Node) -> bool
    ensures { result ≡ results.say_clearly 1 operations.now (trees tag.now.children) }
{
    say_clearly(operations, tag.children().as_slice())
}

/// Whether these parameters are of an AccessSpec with this id, by the first that says one.
pub(crate) fn are_of(id: u32, nodes: &[Node]) -> bool
    ensures { result ≡ results.are_of id nodes.now }
{
    for node in nodes {
        if is_parameter(ParamKind::WholeAccessSpecId, node) {
            return field_at(node, 0) == id as u128;
        }
    }
    false
}

/// Whether TagReportData says that all operations of the AccessSpec with this id were done to the tag: it
/// names that AccessSpec, and has one result for each operation, in order, which is of its kind, has its
/// OpSpecID, counted from 1, is 0, and has as many words as were to be read or written.
pub fn has_succeeded(id: u32, operations: &[Operation], tag: &Node) -> bool
    ensures { result ≡ results.has_succeeded id operations.now tag.now }
{
    let said = tag.children().as_slice();
    let is_own = are_of(id, said);
    is_own && say_done(operations, said)
}
