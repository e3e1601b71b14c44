//! Why numbers are not an EPC's, and why a word carries no EPC.

ghost use Rattle.std.specs.Prelude.{◌≡◌};

/// The first check that the numbers of an EPC fail, in this order.
#[derive(Clone, Copy, PartialEq, Eq, Hash, Debug)]
pub enum EpcFault {
    /// The filter value is above 7.
    Filter,
    /// The company prefix does not have 6 to 12 digits.
    Digits,
    /// The company prefix has more digits than given, or the manager number more than 28 bits.
    Prefix,
    /// The reference has more digits than the partition table gives it, or the object class more than 24 bits.
    Reference,
    /// The last part has more bits than its segment, or is not 0 although the segment is all zeros.
    Last,
}

/// The first part of a word that fails.
#[derive(Clone, Copy, PartialEq, Eq, Hash, Debug)]
pub enum WordReason {
    /// The header is not that of a scheme.
    Header,
    /// The partition value has no row.
    Partition,
    /// The company prefix has more digits than the partition value says.
    Prefix,
    /// The reference has more digits than the partition value says.
    Reference,
    /// The last segment is not all zeros although it has to be.
    Zeros,
}

/// The first part of a word that fails, and its first bit; bit 0 is the most significant of 96.
#[derive(Clone, Copy, PartialEq, Eq, Hash, Debug)]
pub struct WordFault {
    pub bit: u32,
    pub reason: WordReason,
}

impl WordReason {
    ghost use Rattle.tag_epc.specs.Faults.{word_fault_name};

    /// The name of the part.
    pub fn name(self) -> &'static str
        ensures { result.now ≡ word_fault_name self }
    {
        match self {
            WordReason::Header => "Header",
            WordReason::Partition => "Partition",
            WordReason::Prefix => "Prefix",
            WordReason::Reference => "Reference",
            WordReason::Zeros => "Zeros",
        }
    }

    /// The fault for this reason at that bit.
    pub(crate) fn at(self, bit: u32) -> WordFault
        ensures { result ≡ record { bit = bit; reason = self } }
    {
        WordFault { bit, reason: self }
    }
}
