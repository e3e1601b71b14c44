//! The words by which a person says an operation: `tid:0:6` of a read, `user:0=1234ABCD` of a write,
//! `user=lock` of a lock.

ghost use Rattle.std.specs.Prelude.{◌≡◌, ◌≤◌, ◌/◌, ◌%◌, IfErr, IfOk, MatchOption, OnOk, length};
ghost use Rattle.llrp_listing.specs.Calls.Hexadecimal.{IsHexOf};
ghost use Rattle.llrp_operations.specs.Calls.Operations.{words_octets};
ghost use Rattle.llrp_operations.specs.Calls.Words.{IsField, IsLock, IsManner, IsBank, IsNumber, IsRead, IsWrite, NoBank, NoField, NoManner, NoNumber, RefusesLock, RefusesRead, RefusesWrite};
ghost use Rattle.llrp_operations.specs.declared.word.WordErr.TheVariants.{Memory};
ghost use Rattle.llrp_operations.specs.Private.Words.{AppendsWords, RefusesDigits};

use crate::operation::{LockField, LockManner, Operation};
use llrp_listing::{ToolErr, bytes_of_hex, number_of, split_once};
use std::alloc::{AllocError, AllocFailed, Global};
use tag_memory::Bank;

/// The greatest number of a word of a bank, and the greatest count of them.
const MOST: u64 = 65_535;

/// Why a word says no operation.
#[derive(Clone, Copy, Debug, PartialEq, Eq)]
pub enum WordErr {
    /// It lacks the colons or the sign of equality that it needs.
    Form,
    /// It names no bank.
    Bank,
    /// The place is no number from 0 to 65,535.
    Place,
    /// The count is no number from 0 to 65,535.
    Count,
    /// The digits are not those of whole words of 16 bits, one at least.
    Digits,
    /// It names nothing that can be locked.
    Field,
    /// It names no way of locking.
    Manner,
    /// Memory ran out.
    Memory,
}

impl From<AllocError> for WordErr {
    ghost from_gives = { λ _ e. e ≡ Memory };

    fn from(_e: AllocError) -> WordErr {
        WordErr::Memory
    }
}

impl<T: Drop> From<AllocFailed<T>> for WordErr {
    ghost from_gives = { λ _ e. e ≡ Memory };

    fn from(_e: AllocFailed<T>) -> WordErr {
        WordErr::Memory
    }
}

/// The bank with this name.
fn bank_named(name: &[u8]) -> Option<Bank>
    ensures { MatchOption result (NoBank name.now) (IsBank name.now) }
{
    match name {
        b"reserved" => Some(Bank::Reserved),
        b"epc" => Some(Bank::Epc),
        b"tid" => Some(Bank::Tid),
        b"user" => Some(Bank::User),
        _ => None,
    }
}

/// What is locked, by this name.
fn field_named(name: &[u8]) -> Option<LockField>
    ensures { MatchOption result (NoField name.now) (IsField name.now) }
{
    match name {
        b"kill" => Some(LockField::KillPassword),
        b"access" => Some(LockField::AccessPassword),
        b"epc" => Some(LockField::Epc),
        b"tid" => Some(LockField::Tid),
        b"user" => Some(LockField::User),
        _ => None,
    }
}

/// How it is locked, by this name.
fn manner_named(name: &[u8]) -> Option<LockManner>
    ensures { MatchOption result (NoManner name.now) (IsManner name.now) }
{
    if name == b"lock".as_slice() {
        Some(LockManner::Lock)
    } else if name == b"unlock".as_slice() {
        Some(LockManner::Unlock)
    } else if name == b"permanent-lock".as_slice() {
        Some(LockManner::PermanentLock)
    } else if name == b"permanent-unlock".as_slice() {
        Some(LockManner::PermanentUnlock)
    } else {
        None
    }
}

/// The number from 0 to 65,535 that a text is in decimal.
fn word_number(text: &[u8]) -> Option<u16>
    ensures { MatchOption result (NoNumber text.now) (IsNumber text.now) }
{
    let number = number_of(text, MOST)?;
    Some(number as u16)
}

/// The word of these octets.
fn word_of(high: u8, low: u8) -> u16
    ensures { (result / 256 ≡ high) × (result % 256 ≡ low) }
{
    256 * high as u16 + low as u16
}

/// Appends the words of 16 bits that an even number of octets are, the high one first.
#[tactic(auto, using(crate::proofs::WordLemmas::one_more))]
pub(crate) fn push_words(octets: &[u8], words: &mut Vec<u16>) -> Result<(), AllocError>
    ensures { OnOk result (AppendsWords octets.now words.old.items words.new.items) }
{
    let mut rest = octets;
    while let Some((high, after)) = rest.split_first() {
        let Some((low, later)) = after.split_first() else {
            return Ok(());
        };
        words.push(word_of(*high, *low))?;
        rest = later;
    }
    Ok(())
}

/// The words that hexadecimal digits are, with spaces between them or without: one at least, and whole ones.
fn words_of_digits(alloc: Global, digits: &[u8]) -> Result<Vec<u16>, WordErr>
    ensures words { IfOk result (λ words. (1 ≤ length words.items)
        × IsHexOf digits.now (words_octets words.items)) }
    ensures refused { IfErr result (RefusesDigits digits.now) }
{
    let octets = match bytes_of_hex(alloc, digits) {
        Ok(octets) => octets,
        Err(ToolErr::Memory) => return Err(WordErr::Memory),
        Err(_) => return Err(WordErr::Digits),
    };
    if octets.is_empty() || octets.len() % 2 != 0 {
        return Err(WordErr::Digits);
    }
    let mut words = Vec::new(alloc);
    push_words(octets.as_slice(), &mut words)?;
    Ok(words)
}

/// The read that `BANK:WORD:COUNT` says: COUNT words of the bank, from WORD on; 0 for all. BANK is
/// `reserved`, `epc`, `tid` or `user`. The error is the first of the parts that is not as it has to be.
pub fn read_of(text: &[u8]) -> Result<Operation, WordErr>
    ensures read { IfOk result (IsRead text.now) }
    ensures refused { IfErr result (RefusesRead text.now) }
{
    let Some((name, rest)) = split_once(text, b':') else {
        return Err(WordErr::Form);
    };
    let Some((place, count)) = split_once(rest, b':') else {
        return Err(WordErr::Form);
    };
    let Some(bank) = bank_named(name) else {
        return Err(WordErr::Bank);
    };
    let Some(pointer) = word_number(place) else {
        return Err(WordErr::Place);
    };
    let Some(count) = word_number(count) else {
        return Err(WordErr::Count);
    };
    Ok(Operation::Read {
        bank,
        pointer,
        count,
    })
}

/// The write that `BANK:WORD=HEX` says: these words into the bank, from this one on. The errors are those of
/// [`read_of`], and `Memory`.
pub fn write_of(alloc: Global, text: &[u8]) -> Result<Operation, WordErr>
    ensures write { IfOk result (IsWrite text.now) }
    ensures refused { IfErr result (RefusesWrite text.now) }
{
    let Some((name, rest)) = split_once(text, b':') else {
        return Err(WordErr::Form);
    };
    let Some((place, digits)) = split_once(rest, b'=') else {
        return Err(WordErr::Form);
    };
    let Some(bank) = bank_named(name) else {
        return Err(WordErr::Bank);
    };
    let Some(pointer) = word_number(place) else {
        return Err(WordErr::Place);
    };
    match words_of_digits(alloc, digits) {
        Ok(words) => Ok(Operation::Write {
            bank,
            pointer,
            words,
        }),
        Err(error) => Err(error),
    }
}

/// The lock that `FIELD=HOW` says. FIELD is `kill`, `access`, `epc`, `tid` or `user`; HOW is `lock`,
/// `unlock`, `permanent-lock` or `permanent-unlock`. The errors are those of [`read_of`].
pub fn lock_of(text: &[u8]) -> Result<Operation, WordErr>
    ensures lock { IfOk result (IsLock text.now) }
    ensures refused { IfErr result (RefusesLock text.now) }
{
    let Some((name, how)) = split_once(text, b'=') else {
        return Err(WordErr::Form);
    };
    let Some(field) = field_named(name) else {
        return Err(WordErr::Field);
    };
    let Some(manner) = manner_named(how) else {
        return Err(WordErr::Manner);
    };
    Ok(Operation::Lock { field, manner })
}
