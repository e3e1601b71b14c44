//! Laws of this crate's definitions.

ghost use Rattle.std.specs.Prelude.{◌≡◌, ℕ, List};
ghost use Rattle.tag_schemes.specs.declared.numbers.Numbers.{Numbers};
ghost use Rattle.tag_schemes.specs.LawfulWord.{IsLawful};
ghost use Rattle.tag_keys.specs.declared.fault.KeyFault.{KeyFault};
ghost use Rattle.tag_scheme_keys.specs.PureIdentity.{id_uri_in};
ghost use Rattle.tag_keys.specs.declared.spelling.Spelling.{Spelling};
ghost use Rattle.tag_scheme_keys.specs.KeyText.{key_in};
ghost use Rattle.tag_scheme_keys.specs.KeyFaults.{HasIdFaultIn, HasKeyFaultIn};
ghost use Rattle.tag_schemes.specs.declared.supplier.Supplier.{Supplier};
ghost use Rattle.tag_schemes.specs.Suppliers.{IsSupplier};
ghost use Rattle.tag_scheme_keys.specs.declared.supplier_fault.SupplierFault.{SupplierFault};
ghost use Rattle.tag_scheme_keys.specs.SupplierIdentity.{supplier_id_uri, HasSupplierIdFault};

/// Two lawful EPCs with the same filter value have different pure identity URIs, no rule refuses one of
/// these, and at most one rule is the first to refuse a text.
pub fn one_id_uri_in()
    ensures one { (d e : Numbers) → IsLawful d → IsLawful e → d.filter ≡ e.filter
        → id_uri_in d ≡ id_uri_in e → d ≡ e }
    ensures no_fault { (epc : Numbers) (filter : ℕ) (fault : KeyFault) → IsLawful epc
        → epc.filter ≡ filter → HasIdFaultIn filter (id_uri_in epc) fault → ⊥ }
    ensures one_fault { (filter : ℕ) (text : List ℕ) (f g : KeyFault) → HasIdFaultIn filter text f
        → HasIdFaultIn filter text g → f ≡ g }
{}

/// Two lawful EPCs with the same filter value and as long a company prefix have different texts of keys,
/// no rule refuses one of these, and at most one rule is the first to refuse a text.
pub fn one_key_text_in()
    ensures one { (s : Spelling) (d e : Numbers) → IsLawful d → IsLawful e → d.filter ≡ e.filter
        → d.company_digits ≡ e.company_digits → key_in s d ≡ key_in s e → d ≡ e }
    ensures no_fault { (s : Spelling) (epc : Numbers) (filter digits : ℕ) (fault : KeyFault)
        → IsLawful epc → epc.filter ≡ filter → epc.company_digits ≡ digits
        → HasKeyFaultIn s filter digits (key_in s epc) fault → ⊥ }
    ensures one_fault { (s : Spelling) (filter digits : ℕ) (text : List ℕ) (f g : KeyFault)
        → HasKeyFaultIn s filter digits text f → HasKeyFaultIn s filter digits text g → f ≡ g }
{}

/// Two USDoD-96 with the same filter value have different pure identity URIs, no rule refuses one of these, and at most one
/// rule is the first to refuse a text.
pub fn one_supplier_id()
    ensures one { (d e : Supplier) → IsSupplier d → IsSupplier e → d.filter ≡ e.filter
        → supplier_id_uri d ≡ supplier_id_uri e → d ≡ e }
    ensures no_fault { (epc : Supplier) (fault : SupplierFault) → IsSupplier epc
        → HasSupplierIdFault (supplier_id_uri epc) fault → ⊥ }
    ensures one_fault { (text : List ℕ) (f g : SupplierFault) → HasSupplierIdFault text f
        → HasSupplierIdFault text g → f ≡ g }
{}
