//! A tag's memory.

ghost use Rattle.std.specs.Prelude.{◌≡◌, ◌+◌, ◌≤◌, IfErr, IfOk, OnOk, Ok, Err, length};
ghost use Rattle.tag_memory.specs.Calls.Memory as memory;

use crate::bank::{Bank, Fault};
use std::marker::Model;

/// The words of a tag's four banks. It takes no memory of its own.
#[derive(Drop)]
pub struct TagMemory {
    reserved: Vec<u16>,
    epc: Vec<u16>,
    tid: Vec<u16>,
    user: Vec<u16>,
}

impl Model for TagMemory {
    ghost use Rattle.tag_memory.specs.Calls.Memory.{Memory};

    ghost Value = { Memory };

    ghost view = { λ m. record {
      reserved = m.reserved.items;
      epc = m.epc.items;
      tid = m.tid.items;
      user = m.user.items;
    } };
}

/// Puts words from a place on; the others stay.
fn put(bank: &mut [u16], pointer: usize, words: &[u16])
    requires { pointer + length words.now ≤ length bank.old }
    ensures put { bank.new ≡ memory.put bank.old pointer words.now }
    ensures length { length bank.new ≡ length bank.old }
{
    let end = pointer + words.len();
    bank[pointer..end].copy_from_slice(words);
}

/// The access password that the words of a reserved bank have.
fn password_in(reserved: &[u16]) -> u32
    ensures { result ≡ memory.password_in reserved.now }
{
    if reserved.len() < 4 {
        return 0;
    }
    reserved[2] as u32 * 65_536 + reserved[3] as u32
}

/// Why an operation is not done.
fn refused(admitted: bool, may: bool, within: bool) -> Option<Fault>
    ensures { result ≡ memory.refused admitted may within }
{
    if !admitted {
        Some(Fault::Password)
    } else if !may {
        Some(Fault::Locked)
    } else if within {
        None
    } else {
        Some(Fault::Overrun)
    }
}

/// Whether a bank may be read.
fn may_read(bank: Bank, secured: bool) -> bool
    ensures { result ≡ memory.may_read bank secured }
{
    match bank {
        Bank::Reserved => secured,
        Bank::Epc | Bank::Tid | Bank::User => true,
    }
}

/// Whether a bank may be written from a place on.
fn may_write(bank: Bank, secured: bool, pointer: u16) -> bool
    ensures { result ≡ memory.may_write bank secured pointer }
{
    match bank {
        Bank::Reserved => secured,
        Bank::Epc => pointer > 0,
        Bank::Tid => false,
        Bank::User => true,
    }
}

/// This many words from a place on; a count of 0 means all.
fn words_from(words: &[u16], pointer: usize, count: usize) -> &[u16]
    requires { pointer + count ≤ length words.now }
    ensures { result.now ≡ memory.words_from words.now pointer count }
{
    let rest = words.split_at(pointer).1;
    if count == 0 {
        rest
    } else {
        rest.split_at(count).0
    }
}

impl TagMemory {
    /// A memory of these banks.
    pub fn new(reserved: Vec<u16>, epc: Vec<u16>, tid: Vec<u16>, user: Vec<u16>) -> TagMemory
        ensures { result ≡ record {
          reserved = reserved.items;
          epc = epc.items;
          tid = tid.items;
          user = user.items;
        } }
    {
        TagMemory {
            reserved,
            epc,
            tid,
            user,
        }
    }

    /// The words of a bank.
    pub fn words(&self, bank: Bank) -> &[u16]
        ensures { result.now ≡ memory.words_of bank self.now }
    {
        match bank {
            Bank::Reserved => self.reserved.as_slice(),
            Bank::Epc => self.epc.as_slice(),
            Bank::Tid => self.tid.as_slice(),
            Bank::User => self.user.as_slice(),
        }
    }

    /// Whether this password is the tag's.
    fn is_secured(&self, password: u32) -> bool
        ensures { result ≡ memory.is_secured password self.now }
    {
        password == password_in(self.words(Bank::Reserved))
    }

    /// Why words are not read.
    fn read_fault(&self, password: u32, bank: Bank, pointer: u16, count: u16) -> Option<Fault>
        ensures { result ≡ memory.read_fault password bank pointer count self.now }
    {
        let secured = self.is_secured(password);
        let within = pointer as usize + count as usize <= self.words(bank).len();
        refused(password == 0 || secured, may_read(bank, secured), within)
    }

    /// Why words are not written.
    fn write_fault(&self, password: u32, bank: Bank, pointer: u16, words: &[u16]) -> Option<Fault>
        ensures { result ≡ memory.write_fault password bank pointer words.now self.now }
    {
        let secured = self.is_secured(password);
        let there = self.words(bank).len();
        let pointer_there = pointer as usize;
        let within = pointer_there <= there && words.len() <= there - pointer_there;
        refused(
            password == 0 || secured,
            may_write(bank, secured, pointer),
            within,
        )
    }

    /// Reads this many words of a bank from a place on; 0 words are all. A password of 0 is none.
    pub fn read(&self, password: u32, bank: Bank, pointer: u16, count: u16) -> Result<&[u16], Fault>
        ensures ok { IfOk result (λ words. memory.read password bank pointer count self.now
            ≡ Ok words.now) }
        ensures err { IfErr result (λ fault. memory.read password bank pointer count self.now
            ≡ Err fault) }
    {
        match self.read_fault(password, bank, pointer, count) {
            Some(fault) => Err(fault),
            None => Ok(words_from(self.words(bank), pointer as usize, count as usize)),
        }
    }

    /// Writes words to a bank from a place on: all of them, or none if there is a fault.
    pub fn write(
        &mut self,
        password: u32,
        bank: Bank,
        pointer: u16,
        words: &[u16],
    ) -> Result<(), Fault>
        ensures ok { OnOk result (memory.write password bank pointer words.now self.old
            ≡ Ok self.new) }
        ensures err { IfErr result (λ fault. (memory.write password bank pointer words.now self.old
            ≡ Err fault) × (self.new ≡ self.old)) }
    {
        if let Some(fault) = self.write_fault(password, bank, pointer, words) {
            return Err(fault);
        }
        let pointer = pointer as usize;
        match bank {
            Bank::Reserved => put(self.reserved.as_mut_slice(), pointer, words),
            Bank::Epc => put(self.epc.as_mut_slice(), pointer, words),
            Bank::Tid => put(self.tid.as_mut_slice(), pointer, words),
            Bank::User => put(self.user.as_mut_slice(), pointer, words),
        }
        Ok(())
    }
}
