//! Reads the parts that a word carries.

ghost use Rattle.std.specs.Prelude.{◌≡◌, ℕ, [], ◌++◌, Some, length, IfOk, IfErr};
ghost use Rattle.tag_bits.specs.Digits.{digits};
ghost use Rattle.tag_epc.specs.Layout.{layout_of, gid_header};
ghost use Rattle.tag_epc.specs.LawfulWord.{Spells, HasWord};
ghost use Rattle.tag_epc.specs.Faults.{HasDigitsFault, HasWordFault};

use crate::at_scheme;
use crate::bit_cursor::WordReader;
use crate::epc::Parts;
use crate::fault::{WordFault, WordReason};
use crate::kind::{GID_CLASS_BITS, GID_MANAGER_BITS, GID_SERIAL_BITS, Kind};
use crate::lawful_parts::{Number, first_unfit};
use crate::scheme::Scheme;
use tag_bits::Word;

/// The parts that a word carries, or the first part that fails.
#[inline(always)]
pub(crate) fn parts_of(word: Word) -> Result<Parts, WordFault>
    ensures ok { IfOk result (λ parts. HasWord parts word) }
    ensures err { IfErr result (λ f. HasWordFault word f) }
{
    let mut reader = WordReader::new(word);
    let header = reader.take(8) as u8;
    let Some(kind) = Kind::of_header(header) else {
        return Err(WordReason::Header.at(0));
    };
    at_scheme!(kind, partitioned(kind, reader), Ok(general(reader)))
}

/// The parts after the header of a scheme with a company prefix.
#[inline(always)]
fn partitioned<S: Scheme>(kind: Kind, reader: WordReader) -> Result<Parts, WordFault>
    requires known { layout_of kind ≡ Some S.layout }
    requires whole { length reader ≡ 88 }
    ensures ok { IfOk result (λ parts. Spells parts (digits 8 S.layout.header ++ reader)) }
    ensures err { IfErr result (λ f. HasDigitsFault (digits 8 S.layout.header ++ reader) f) }
{
    let mut reader = reader;
    let filter = reader.take(3) as u8;
    let partition = reader.take(3) as u8;
    let Some(row) = S::row(partition) else {
        return Err(WordReason::Partition.at(11));
    };
    let company = reader.take(row.company_bits);
    let reference = reader.take(row.reference_bits);
    let last = reader.take(S::LAST_BITS);
    match first_unfit::<S>(row, company, reference, last) {
        Some(Number::Company) => Err(WordReason::Prefix.at(14)),
        Some(Number::Reference) => Err(WordReason::Reference.at(14 + row.company_bits)),
        Some(Number::Last) => {
            Err(WordReason::Zeros.at(14 + row.company_bits + row.reference_bits))
        }
        None => Ok(Parts::Partitioned {
            kind,
            filter,
            company_digits: row.company_digits as u8,
            company,
            reference,
            last,
        }),
    }
}

/// The parts after the header of GID-96.
#[inline(always)]
fn general(reader: WordReader) -> Parts
    requires { length reader ≡ 88 }
    ensures { Spells result (digits 8 gid_header ++ reader) }
{
    let mut reader = reader;
    let manager = reader.take(GID_MANAGER_BITS);
    let object_class = reader.take(GID_CLASS_BITS);
    let serial = reader.take(GID_SERIAL_BITS);
    Parts::General {
        manager,
        object_class,
        serial,
    }
}
