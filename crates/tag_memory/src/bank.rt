//! The banks of a tag's memory, and why an operation fails.

ghost use Rattle.std.specs.Prelude.{◌≡◌};
ghost use Rattle.tag_memory.specs.Calls.Results.{read_result, write_result};

/// A bank of a tag's memory. MB of LLRP counts them from 0.
#[derive(Clone, Copy, Debug, PartialEq, Eq)]
pub enum Bank {
    /// The kill password and the access password, two words each.
    Reserved,
    /// The checksum, the protocol control word and the EPC.
    Epc,
    /// What the maker says of the tag.
    Tid,
    /// What the user says.
    User,
}

/// Why a tag does not do an operation.
#[derive(Clone, Copy, Debug, PartialEq, Eq)]
pub enum Fault {
    /// The password is not the tag's.
    Password,
    /// The words may not be read, or not written.
    Locked,
    /// The bank has no such words.
    Overrun,
}

impl Fault {
    /// The Result of a C1G2ReadOpSpecResult.
    pub fn of_read(self) -> u8
        ensures { result ≡ read_result self }
    {
        match self {
            Fault::Overrun => 4,
            Fault::Locked => 5,
            Fault::Password => 6,
        }
    }

    /// The Result of a C1G2WriteOpSpecResult and of a C1G2BlockWriteOpSpecResult.
    pub fn of_write(self) -> u8
        ensures { result ≡ write_result self }
    {
        match self {
            Fault::Overrun => 1,
            Fault::Locked => 2,
            Fault::Password => 7,
        }
    }
}
