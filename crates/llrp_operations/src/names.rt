//! The names of the results of operations.

ghost use Rattle.std.specs.Prelude.{◌≡◌};
ghost use Rattle.llrp_operations.specs.Calls.ResultNames as names;

use crate::operation::Operation;

/// The name of the Result of a C1G2ReadOpSpecResult.
fn read_name(number: u128) -> &'static str
    ensures { result.now ≡ names.read_name number }
{
    match number {
        0 => "Success",
        1 => "NonspecificTagError",
        2 => "NoResponseFromTag",
        3 => "NonspecificReaderError",
        4 => "MemoryOverrunError",
        5 => "MemoryLockedError",
        6 => "IncorrectPasswordError",
        _ => "Unknown",
    }
}

/// The name of the Result of a C1G2WriteOpSpecResult.
fn write_name(number: u128) -> &'static str
    ensures { result.now ≡ names.write_name number }
{
    match number {
        0 => "Success",
        1 => "TagMemoryOverrunError",
        2 => "TagMemoryLockedError",
        3 => "InsufficientPower",
        4 => "NonspecificTagError",
        5 => "NoResponseFromTag",
        6 => "NonspecificReaderError",
        7 => "IncorrectPasswordError",
        _ => "Unknown",
    }
}

/// The name of the Result of a C1G2LockOpSpecResult.
fn lock_name(number: u128) -> &'static str
    ensures { result.now ≡ names.lock_name number }
{
    match number {
        0 => "Success",
        1 => "InsufficientPower",
        2 => "NonspecificTagError",
        3 => "NoResponseFromTag",
        4 => "NonspecificReaderError",
        5 => "IncorrectPasswordError",
        6 => "TagMemoryOverrunError",
        7 => "TagMemoryLockedError",
        _ => "Unknown",
    }
}

/// The name of the Result of an operation (LLRP 1.1, section 16); `Unknown` for a number that the standard
/// does not have.
pub fn result_name(operation: &Operation, number: u128) -> &'static str
    ensures { result.now ≡ names.result_name operation.now number }
{
    match operation {
        Operation::Read { .. } => read_name(number),
        Operation::Write { .. } => write_name(number),
        Operation::Lock { .. } => lock_name(number),
    }
}

/// Whether the standard has this number of a Result.
pub(crate) fn has_name(operation: &Operation, number: u128) -> bool
    ensures { result ≡ names.has_name operation.now number }
{
    match operation {
        Operation::Read { .. } => number <= 6,
        Operation::Write { .. } | Operation::Lock { .. } => number <= 7,
    }
}
