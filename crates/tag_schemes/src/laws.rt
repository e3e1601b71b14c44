//! Laws of this crate's definitions.

ghost use Rattle.std.specs.Prelude.{◌≡◌, ℕ, ◌^◌, ◌<◌, List};
ghost use Rattle.tag_epc.specs.declared.kind.Kind.{Kind};
ghost use Rattle.tag_epc.specs.declared.epc.Parts.{Parts};
ghost use Rattle.tag_epc.specs.LawfulWord as older;
ghost use Rattle.tag_epc.specs.Layout.{header_of};
ghost use Rattle.tag_schemes.specs.declared.scheme.Scheme.{Scheme};
ghost use Rattle.tag_schemes.specs.declared.numbers.Numbers.{Numbers};
ghost use Rattle.tag_schemes.specs.declared.supplier.Supplier.{Supplier};
ghost use Rattle.tag_schemes.specs.Suppliers.{supplier_header, HasSupplierWord};
ghost use Rattle.tag_schemes.specs.declared.fault.SchemeFault.{SchemeFault};
ghost use Rattle.tag_schemes.specs.Schemes.{layout_in};
ghost use Rattle.tag_schemes.specs.LawfulWord.{HasWord};
ghost use Rattle.tag_schemes.specs.declared.fault.PartFault.{PartFault};
ghost use Rattle.tag_schemes.specs.AllTexts.{IsTextInAll, HasFaultInAll};
ghost use Rattle.tag_schemes.specs.WordFaults.{HasWordFaultInAll, IsLawfulInAll};

/// No further scheme has a header of the seven, so no word has an EPC in both sets.
pub fn sets_are_apart()
    ensures headers { (k : Kind) (s : Scheme) → header_of k ≡ (layout_in s).header → ⊥ }
    ensures words { (d : Parts) (e : Numbers) (w : ℕ) → older.HasWord d w → HasWord e w → ⊥ }
    ensures supplier_headers { (k : Kind) → header_of k ≡ supplier_header → ⊥ }
    ensures supplier_words { (d : Parts) (e : Supplier) (w : ℕ) → older.HasWord d w → HasSupplierWord e w → ⊥ }
{}

/// No further scheme with a company prefix has the header of USDoD-96, so no word has an EPC of both.
pub fn suppliers_are_apart()
    ensures headers { (s : Scheme) → (layout_in s).header ≡ supplier_header → ⊥ }
    ensures words { (d : Numbers) (e : Supplier) (w : ℕ) → HasWord d w → HasSupplierWord e w → ⊥ }
{}

/// A USDoD-96 has one word, and a word at most one of them.
pub fn one_supplier_epc()
    ensures one_word { (epc : Supplier) (v w : ℕ) → v < 2 ^ 96 → w < 2 ^ 96 → HasSupplierWord epc v
        → HasSupplierWord epc w → v ≡ w }
    ensures one_epc { (d e : Supplier) (w : ℕ) → HasSupplierWord d w → HasSupplierWord e w → d ≡ e }
{}

/// An EPC of a further scheme with a company prefix has one word, and a word at most one of these EPCs.
pub fn one_further_epc()
    ensures one_word { (epc : Numbers) (v w : ℕ) → v < 2 ^ 96 → w < 2 ^ 96 → HasWord epc v
        → HasWord epc w → v ≡ w }
    ensures one_epc { (d e : Numbers) (w : ℕ) → HasWord d w → HasWord e w → d ≡ e }
{}

/// In the set of all schemes two words never share a text, a word has one text, and no rule refuses it.
pub fn one_text_in_all()
    ensures one { (v w : ℕ) (text : List ℕ) → v < 2 ^ 96 → w < 2 ^ 96 → IsTextInAll v text
        → IsTextInAll w text → v ≡ w }
    ensures same { (w : ℕ) (s t : List ℕ) → IsTextInAll w s → IsTextInAll w t → s ≡ t }
    ensures no_fault { (w : ℕ) (text : List ℕ) (fault : SchemeFault) → w < 2 ^ 96
        → IsTextInAll w text → HasFaultInAll text fault → ⊥ }
{}

/// In the set of all schemes a word has no fault if an EPC has it, and at most one if none has.
pub fn one_word_fault_in_all()
    ensures none_if_lawful { (w : ℕ) (f : PartFault) → IsLawfulInAll w → HasWordFaultInAll w f → ⊥ }
    ensures one { (w : ℕ) (f g : PartFault) → HasWordFaultInAll w f → HasWordFaultInAll w g → f ≡ g }
{}
