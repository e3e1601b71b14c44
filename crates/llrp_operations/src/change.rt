//! The operations that follow from others: a new EPC, and the reads that verify what was written.

ghost use Rattle.std.specs.Prelude.{◌≡◌, ◌++◌, ◌<◌, ◌⊎◌, ◌%◌, IfErr, IfOk, length};
ghost use Rattle.llrp_operations.specs.Calls.Changes.{IsEpcWrite, changes, checks};
ghost use Rattle.llrp_operations.specs.Private.Changes.{IsCheckOf};
ghost use Rattle.std.specs.List.{list_any};
ghost use Rattle.llrp_operations.specs.declared.request.TheConstants.{LONGEST_EPC};

use crate::operation::Operation;
use crate::request::LONGEST_EPC;
use crate::word::{WordErr, push_words};
use std::alloc::{AllocError, Global};
use tag_memory::Bank;

/// The word of the EPC bank at which an EPC begins, after the checksum and the protocol control word (EPC
/// C1G2).
const EPC_WORD: u16 = 2;

/// The write that gives a tag an EPC of these octets in place of its old one, which has no octets where it is
/// not known. It writes the EPC's words and, where the length differs, the protocol control word with them:
/// its five highest bits count the EPC's words, and its others are 0. The errors are `Digits` for an EPC that
/// is not of whole words, or of more than [`LONGEST_EPC`] octets, and `Memory`.
pub fn epc_write(alloc: Global, old: &[u8], epc: &[u8]) -> Result<Operation, WordErr>
    ensures write { IfOk result (IsEpcWrite old.now epc.now) }
    ensures refused { IfErr result (λ e. (e ≡ WordErr.Memory) ⊎ ((e ≡ WordErr.Digits)
        × ((LONGEST_EPC < length epc.now) ⊎ (length epc.now % 2 ≡ 1)))) }
{
    if epc.len() > LONGEST_EPC || epc.len() % 2 != 0 {
        return Err(WordErr::Digits);
    }
    let mut words = Vec::new(alloc);
    if old.len() == epc.len() {
        push_words(epc, &mut words)?;
        return Ok(Operation::Write {
            bank: Bank::Epc,
            pointer: EPC_WORD,
            words,
        });
    }
    words.push(1_024 * epc.len() as u16)?;
    push_words(epc, &mut words)?;
    Ok(Operation::Write {
        bank: Bank::Epc,
        pointer: EPC_WORD - 1,
        words,
    })
}

/// Whether an operation changes the tag.
fn changes(operation: &Operation) -> bool
    ensures { result ≡ changes operation.now }
{
    !matches!(operation, Operation::Read { .. })
}

/// Whether one of these operations changes the tag.
pub fn change_tag(operations: &[Operation]) -> bool
    ensures { result ≡ list_any changes operations.now }
{
    operations.iter().any(|operation| changes(operation))
}

/// The read that verifies an operation, if it writes.
fn check_of(operation: &Operation) -> Option<Operation>
    ensures { IsCheckOf operation.now result }
{
    match operation {
        Operation::Write {
            bank,
            pointer,
            words,
        } => Some(Operation::Read {
            bank: *bank,
            pointer: *pointer,
            count: words.len().min(65_535) as u16,
        }),
        Operation::Read { .. } | Operation::Lock { .. } => None,
    }
}

/// The reads that verify these operations.
fn checks_of(alloc: Global, operations: &[Operation]) -> Result<Vec<Operation>, AllocError>
    ensures { IfOk result (λ all. all.items ≡ checks operations.now) }
{
    let mut all = Vec::new(alloc);
    for operation in operations {
        if let Some(check) = check_of(operation) {
            all.push(check)?;
        }
    }
    Ok(all)
}

/// The operations, and after them a read of what each of them writes, in the same order.
pub fn with_checks(alloc: Global, operations: Vec<Operation>) -> Result<Vec<Operation>, AllocError>
    ensures { IfOk result (λ all. all.items ≡ operations.items ++ checks operations.items) }
{
    let mut reads = checks_of(alloc, operations.as_slice())?;
    let mut all = operations;
    all.append(&mut reads)?;
    Ok(all)
}
