//! Laws of this crate's definitions.

ghost use Rattle.std.specs.Prelude.{◌≡◌, ℕ, ◌^◌, ◌<◌};
ghost use Rattle.tag_epc.specs.declared.epc.Parts.{Parts};
ghost use Rattle.tag_epc.specs.declared.fault.EpcFault.{EpcFault};
ghost use Rattle.tag_epc.specs.declared.fault.WordFault.{WordFault};
ghost use Rattle.tag_epc.specs.LawfulWord.{HasWord, IsLawfulEpc, IsLawfulWord};
ghost use Rattle.tag_epc.specs.Calls.Faults.{HasEpcFault};
ghost use Rattle.tag_epc.specs.Faults.{HasWordFault};

/// A lawful EPC has one word, and a lawful word one EPC.
pub fn one_word_one_epc()
    ensures word { (epc : Parts) → IsLawfulEpc epc → (w : ℕ) × (w < 2 ^ 96) × HasWord epc w }
    ensures one_word { (epc : Parts) (v w : ℕ) → v < 2 ^ 96 → w < 2 ^ 96 → HasWord epc v
        → HasWord epc w → v ≡ w }
    ensures one_epc { (d e : Parts) (w : ℕ) → HasWord d w → HasWord e w → d ≡ e }
{}

/// A word has no fault if it is lawful, and at most one if it is not.
pub fn one_word_fault()
    ensures none_if_lawful { (w : ℕ) (f : WordFault) → IsLawfulWord w → HasWordFault w f → ⊥ }
    ensures one { (w : ℕ) (f g : WordFault) → HasWordFault w f → HasWordFault w g → f ≡ g }
{}

/// Numbers have no fault if they are an EPC's, and at most one if they are not.
pub fn one_epc_fault()
    ensures none_if_lawful { (epc : Parts) (f : EpcFault) → IsLawfulEpc epc → HasEpcFault epc f → ⊥ }
    ensures one { (epc : Parts) (f g : EpcFault) → HasEpcFault epc f → HasEpcFault epc g → f ≡ g }
{}
