//! Why a text is refused as a pure identity URI of USDoD-96.

use tag_schemes::SchemeFault;

/// The rules that refuse a text as a pure identity URI of USDoD-96; the first in this order that applies is named.
#[derive(Clone, Copy, PartialEq, Eq, Debug)]
pub enum SupplierFault {
    /// The text has more than 72 octets.
    Long,
    /// The text does not begin with `urn:epc:id:usdod:`.
    Start,
    /// This rule refuses the tag URI with the filter value 0, and the same code and serial number.
    Tag(SchemeFault),
}

impl SupplierFault {
    ghost use Rattle.std.specs.Prelude.{◌≡◌};
    ghost use Rattle.tag_scheme_keys.specs.SupplierIdentity.{supplier_fault_name};

    /// The name of the rule.
    pub fn name(self) -> &'static str
        ensures { result.now ≡ supplier_fault_name self }
    {
        match self {
            SupplierFault::Long => "Long",
            SupplierFault::Start => "Start",
            SupplierFault::Tag(fault) => fault.name(),
        }
    }
}
