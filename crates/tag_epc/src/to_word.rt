//! Makes the word that carries the parts of an EPC.

ghost use Rattle.std.specs.Prelude.{◌≡◌, ℕ, [], ◌∷◌, ◌++◌, Some};
ghost use Rattle.tag_bits.specs.Digits.{word_digits};
ghost use Rattle.tag_epc.specs.Layout.{layout_of, row_at, gid_header, leading_segments, number_segments};
ghost use Rattle.tag_epc.specs.LawfulWord.{IsLawfulEpc, HasWord, AllFit, fill, fields_digits};

use crate::at_scheme;
use crate::bit_cursor::WordWriter;
use crate::epc::Parts;
use crate::kind::{GID_CLASS_BITS, GID_HEADER, GID_MANAGER_BITS, GID_SERIAL_BITS, Kind};
use crate::scheme::Scheme;
use tag_bits::Word;

/// The word of the parts of an EPC.
#[inline(always)]
pub(crate) fn word_of(parts: Parts) -> Word
    requires { IsLawfulEpc parts }
    ensures { HasWord parts result }
{
    match parts {
        Parts::Partitioned {
            kind,
            filter,
            company_digits,
            company,
            reference,
            last,
        } => at_scheme!(
            kind,
            partitioned(kind, filter, company_digits, company, reference, last),
            unreachable!()
        ),
        Parts::General {
            manager,
            object_class,
            serial,
        } => general(manager, object_class, serial),
    }
}

/// The word of an EPC of a scheme with a company prefix.
#[inline(always)]
fn partitioned<S: Scheme>(
    kind: Kind,
    filter: u8,
    company_digits: u8,
    company: u64,
    reference: u64,
    last: u64,
) -> Word
    requires known { layout_of kind ≡ Some S.layout }
    requires lawful { IsLawfulEpc (Parts.Partitioned kind filter company_digits company
        reference last) }
    ensures { HasWord (Parts.Partitioned kind filter company_digits company reference last) result }
{
    let partition = 12 - company_digits;
    let Some(row) = S::row(partition) else {
        unreachable!()
    };
    let mut writer = WordWriter::new();
    writer.push(8, S::HEADER as u64);
    writer.push(3, filter as u64);
    writer.push(3, partition as u64);
    writer.push(row.company_bits, company);
    writer.push(row.reference_bits, reference);
    writer.push(S::LAST_BITS, last);
    writer.word()
}

/// The word of an EPC of GID-96.
#[inline(always)]
fn general(manager: u64, object_class: u64, serial: u64) -> Word
    requires { IsLawfulEpc (Parts.General manager object_class serial) }
    ensures { HasWord (Parts.General manager object_class serial) result }
{
    let mut writer = WordWriter::new();
    writer.push(8, GID_HEADER as u64);
    writer.push(GID_MANAGER_BITS, manager);
    writer.push(GID_CLASS_BITS, object_class);
    writer.push(GID_SERIAL_BITS, serial);
    writer.word()
}
