//! EPCs that a 96-bit word can carry, and their words.

ghost use Rattle.std.specs.Prelude.{◌≡◌, ◌≢◌, ◌↔◌, ℕ, IsOk, IfOk, IfErr};

use crate::fault::{EpcFault, WordFault};
use crate::from_word::parts_of;
use crate::kind::Kind;
use crate::lawful_parts::{checked_at, checked_general};
use crate::to_word::word_of;
use std::marker::Model;
use tag_bits::Word;

/// The parts of an EPC.
#[derive(Clone, Copy, PartialEq, Eq, Hash, Debug)]
pub enum Parts {
    /// Those of a scheme with a company prefix: the reference is the part after the prefix; `last`
    /// is the serial number, the extension, or 0 if the word ends in zeros.
    Partitioned {
        kind: Kind,
        filter: u8,
        company_digits: u8,
        company: u64,
        reference: u64,
        last: u64,
    },
    /// Those of GID-96.
    General {
        manager: u64,
        object_class: u64,
        serial: u64,
    },
}

/// An EPC that a 96-bit word can carry.
#[derive(Clone, Copy, PartialEq, Eq, Hash, Debug)]
pub struct Epc {
    parts: Parts,
}

impl Model for Epc {
    ghost use Rattle.tag_epc.specs.declared.epc.Parts.{Parts};
    ghost use Rattle.tag_epc.specs.LawfulWord.{IsLawfulEpc};

    ghost Value = { Parts };

    ghost view = { λ a. a.parts };

    ghost invariant = { λ a. IsLawfulEpc a.parts };

    ghost inverse = { λ parts. record { parts = parts } };
}

impl Epc {
    ghost use Rattle.tag_epc.specs.LawfulWord.{IsLawfulEpc, IsLawfulWord, HasWord, kind_of_parts};
    ghost use Rattle.tag_epc.specs.Calls.Faults.{HasEpcFault};
    ghost use Rattle.tag_epc.specs.Faults.{HasWordFault};

    /// The EPC of a scheme with a company prefix of this many digits. `reference` is the part after
    /// the prefix, and `last` the serial number or extension, or 0 if the word ends in zeros.
    ///
    /// The error is the first part that fails (EPC Tag Data Standard 1.13, section 14.5).
    pub fn partitioned(
        kind: Kind,
        filter: u8,
        company_digits: u8,
        company: u64,
        reference: u64,
        last: u64,
    ) -> Result<Epc, EpcFault>
        requires has_company_prefix { kind ≢ Kind.Gid }
        ensures exactly { IsOk result ↔ IsLawfulEpc (Parts.Partitioned kind filter company_digits
            company reference last) }
        ensures ok { IfOk result (λ e. e ≡ Parts.Partitioned kind filter company_digits company
            reference last) }
        ensures err { IfErr result (λ f. HasEpcFault (Parts.Partitioned kind filter company_digits
            company reference last) f) }
    {
        let parts = checked_at(kind, filter, company_digits, company, reference, last)?;
        Ok(Epc { parts })
    }

    /// The EPC of GID-96 with these numbers. The error is the first number that is too large:
    /// `Prefix` for the manager number, `Reference` for the object class, `Last` for the serial
    /// number.
    pub fn gid(manager: u64, object_class: u64, serial: u64) -> Result<Epc, EpcFault>
        ensures exactly { IsOk result ↔ IsLawfulEpc (Parts.General manager object_class serial) }
        ensures ok { IfOk result (λ e. e ≡ Parts.General manager object_class serial) }
        ensures err { IfErr result (λ f. HasEpcFault (Parts.General manager
            object_class serial) f) }
    {
        let parts = checked_general(manager, object_class, serial)?;
        Ok(Epc { parts })
    }

    /// The EPC of parts that are proved to be an EPC's, without a check.
    pub fn of_parts(parts: Parts) -> Epc
        requires { IsLawfulEpc parts }
        ensures { result ≡ parts }
    {
        Epc { parts }
    }

    /// The EPC that a word carries, or the first part of the word that fails, and its bit (EPC Tag
    /// Data Standard 1.13, section 14).
    #[inline(always)]
    pub fn from_word(word: Word) -> Result<Epc, WordFault>
        ensures exactly { IsOk result ↔ IsLawfulWord word }
        ensures ok { IfOk result (λ e. HasWord e word) }
        ensures err { IfErr result (λ f. HasWordFault word f) }
    {
        let parts = parts_of(word)?;
        Ok(Epc { parts })
    }

    /// The word that carries the EPC (EPC Tag Data Standard 1.13, section 14).
    #[inline(always)]
    pub fn to_word(&self) -> Word
        ensures { HasWord self.now result }
    {
        word_of(self.parts)
    }

    /// The scheme.
    pub fn kind(&self) -> Kind
        ensures { result ≡ kind_of_parts self.now }
    {
        match self.parts {
            Parts::Partitioned { kind, .. } => kind,
            Parts::General { .. } => Kind::Gid,
        }
    }

    /// The parts.
    pub fn parts(&self) -> Parts
        ensures parts { result ≡ self.now }
        ensures lawful { IsLawfulEpc result }
    {
        self.parts
    }
}
