//! The operations of an AccessSpec, and their results.

ghost use Rattle.std.specs.Prelude.{◌≡◌, IfErr, IfOk, OnErr, OnOk, map, take, ℕ};
ghost use Rattle.llrp_access.specs.Calls.Operations as by_spec;

use std::alloc::{AllocError, Global};
use tag_memory::{Bank, TagMemory};

/// An operation on a tag's memory.
#[derive(Drop)]
pub enum Operation {
    /// C1G2Read: this many words from a place on; 0 are all.
    Read {
        id: u16,
        password: u32,
        bank: Bank,
        pointer: u16,
        count: u16,
    },
    /// C1G2Write and C1G2BlockWrite: these words from a place on.
    Write {
        id: u16,
        password: u32,
        bank: Bank,
        pointer: u16,
        words: Vec<u16>,
    },
}

/// What an operation gave. A result of 0 is success.
#[derive(Drop)]
pub enum OperationResult {
    /// C1G2ReadOpSpecResult, with the words that were read.
    Read {
        id: u16,
        result: u8,
        words: Vec<u16>,
    },
    /// C1G2WriteOpSpecResult, with how many words were written.
    Write {
        id: u16,
        result: u8,
        count: u16,
    },
}

/// Reads words of a tag.
fn read(
    alloc: Global,
    memory: &TagMemory,
    id: u16,
    password: u32,
    bank: Bank,
    pointer: u16,
    count: u16,
) -> Result<OperationResult, AllocError>
    ensures { IfOk result (λ r. by_spec.meaning r
        ≡ by_spec.read_outcome id password bank pointer count memory.now) }
{
    match memory.read(password, bank, pointer, count) {
        Ok(words) => {
            let words = words.to_vec(alloc)?;
            Ok(OperationResult::Read {
                id,
                result: 0,
                words,
            })
        }
        Err(fault) => Ok(OperationResult::Read {
            id,
            result: fault.of_read(),
            words: Vec::new(alloc),
        }),
    }
}

/// Writes words of a tag.
fn write(
    memory: &mut TagMemory,
    id: u16,
    password: u32,
    bank: Bank,
    pointer: u16,
    words: &[u16],
) -> OperationResult
    ensures result { by_spec.meaning result
        ≡ by_spec.write_outcome id password bank pointer words.now memory.old }
    ensures memory { memory.new ≡ by_spec.written password bank pointer words.now memory.old }
{
    match memory.write(password, bank, pointer, words) {
        Ok(()) => OperationResult::Write {
            id,
            result: 0,
            count: words.len().min(65_535) as u16,
        },
        Err(fault) => OperationResult::Write {
            id,
            result: fault.of_write(),
            count: 0,
        },
    }
}

/// Does one operation.
fn perform_one(
    alloc: Global,
    operation: &Operation,
    memory: &mut TagMemory,
) -> Result<OperationResult, AllocError>
    ensures result { IfOk result (λ r. by_spec.meaning r
        ≡ by_spec.outcome operation.now memory.old) }
    ensures memory { OnOk result (memory.new ≡ by_spec.after operation.now memory.old) }
    ensures unchanged { OnErr result (memory.new ≡ memory.old) }
{
    match operation {
        Operation::Read {
            id,
            password,
            bank,
            pointer,
            count,
        } => read(alloc, memory, *id, *password, *bank, *pointer, *count),
        Operation::Write {
            id,
            password,
            bank,
            pointer,
            words,
        } => Ok(write(memory, *id, *password, *bank, *pointer, words.as_slice())),
    }
}

/// Does operations in order, whatever each gives, and returns their results. If memory runs out, the
/// first of them were done, and no result is there.
pub fn perform(
    alloc: Global,
    operations: &[Operation],
    memory: &mut TagMemory,
) -> Result<Vec<OperationResult>, AllocError>
    ensures results { IfOk result (λ rs. map by_spec.meaning rs.items
        ≡ by_spec.outcomes operations.now memory.old) }
    ensures memory { OnOk result (memory.new ≡ by_spec.after_all operations.now memory.old) }
    ensures some { OnErr result ((done : ℕ)
        × (memory.new ≡ by_spec.after_all (take done operations.now) memory.old)) }
{
    let mut results = Vec::new(alloc);
    for operation in operations {
        let result = perform_one(alloc, operation, memory)?;
        results.push(result)?;
    }
    Ok(results)
}
