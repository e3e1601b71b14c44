//! Operations on a tag, and the numbers that LLRP has for their parts.

ghost use Rattle.std.specs.Prelude.{◌≡◌};
ghost use Rattle.llrp_operations.specs.Calls.Operations as operations;

use tag_memory::Bank;

/// What is locked: a password, or a bank.
#[derive(Clone, Copy, Debug, PartialEq, Eq)]
pub enum LockField {
    KillPassword,
    AccessPassword,
    Epc,
    Tid,
    User,
}

/// How it is locked. What is locked is written, and a password read, with the access password alone.
#[derive(Clone, Copy, Debug, PartialEq, Eq)]
pub enum LockManner {
    Lock,
    /// It is never unlocked again, and a bank never written.
    PermanentLock,
    /// It is never locked again.
    PermanentUnlock,
    Unlock,
}

/// An operation on a tag.
#[derive(Drop)]
pub enum Operation {
    /// C1G2Read: `count` words from a place on; 0 for all.
    Read {
        bank: Bank,
        pointer: u16,
        count: u16,
    },
    /// C1G2Write: these words from a place on.
    Write {
        bank: Bank,
        pointer: u16,
        words: Vec<u16>,
    },
    /// C1G2Lock.
    Lock {
        field: LockField,
        manner: LockManner,
    },
}

/// MB, the number of a bank.
pub(crate) fn bank_number(bank: Bank) -> u128
    ensures { result ≡ operations.bank_number bank }
{
    match bank {
        Bank::Reserved => 0,
        Bank::Epc => 1,
        Bank::Tid => 2,
        Bank::User => 3,
    }
}

impl LockField {
    /// DataField of C1G2LockPayload.
    pub(crate) fn number(self) -> u128
        ensures { result ≡ operations.data_field self }
    {
        match self {
            LockField::KillPassword => 0,
            LockField::AccessPassword => 1,
            LockField::Epc => 2,
            LockField::Tid => 3,
            LockField::User => 4,
        }
    }
}

impl LockManner {
    /// Privilege of C1G2LockPayload.
    pub(crate) fn number(self) -> u128
        ensures { result ≡ operations.privilege self }
    {
        match self {
            LockManner::Lock => 0,
            LockManner::PermanentLock => 1,
            LockManner::PermanentUnlock => 2,
            LockManner::Unlock => 3,
        }
    }
}
