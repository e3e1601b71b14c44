//! Why a line with labels is refused.

ghost use Rattle.std.specs.Prelude.{◌≡◌};
ghost use Rattle.llrp_labels.specs.declared.fault.PlainErr.TheVariants.{Memory};

use llrp_listing::ToolErr;
use std::alloc::{AllocError, AllocFailed};
use tag_schemes::SchemeFault;

/// Why a line with labels is refused.
#[derive(Clone, Copy, PartialEq, Eq, Debug)]
pub enum LabelFault {
    /// What follows the tab is not the key of the EPC before it.
    Key,
    /// The last word begins as a URI of an EPC; this rule refuses it in the set of all schemes.
    Epc(SchemeFault),
}

/// Why there is no listing without labels. Lines are counted from 1.
#[derive(Clone, Copy, PartialEq, Eq, Debug)]
pub enum PlainErr {
    /// This line is refused.
    Line { line: u64, fault: LabelFault },
    /// Memory ran out.
    Memory,
}

impl From<AllocError> for PlainErr {
    ghost from_gives = { λ _ e. e ≡ Memory };

    fn from(_e: AllocError) -> PlainErr {
        PlainErr::Memory
    }
}

impl<T: Drop> From<AllocFailed<T>> for PlainErr {
    ghost from_gives = { λ _ e. e ≡ Memory };

    fn from(_e: AllocFailed<T>) -> PlainErr {
        PlainErr::Memory
    }
}

/// Why a listing with labels that a source gives is not read. Lines are counted from 1.
#[derive(Clone, Copy, PartialEq, Eq, Debug)]
pub enum LabelErr {
    /// This line is refused.
    Line { line: u64, fault: LabelFault },
    /// This error came before.
    Stopped(ToolErr),
}

impl LabelFault {
    ghost use Rattle.std.specs.Prelude.{◌++◌};
    ghost use Rattle.llrp_labels.specs.LabelledRuns.{label_fault_name};

    /// The words that an error line has for it: `Epc `, and the name of the rule.
    pub fn names(self) -> (&'static str, &'static str)
        ensures { result.0.now ++ result.1.now ≡ label_fault_name self }
    {
        match self {
            LabelFault::Key => ("Epc ", "Key"),
            LabelFault::Epc(fault) => ("Epc ", fault.name()),
        }
    }
}
