//! Laws of this crate's definitions.

ghost use Rattle.std.specs.Prelude.{◌≡◌, ℕ, ◌^◌, ◌<◌, List, Option};
ghost use Rattle.tag_epc.specs.declared.epc.Parts.{Parts};
ghost use Rattle.tag_epc.specs.LawfulWord.{HasWord};
ghost use Rattle.tag_keys.specs.PureIdentity.{HasFilter};
ghost use Rattle.tag_keys.specs.KeyText.{HasCompanyDigits};
ghost use Rattle.tag_forms.specs.declared.form.Form.{Form};
ghost use Rattle.tag_forms.specs.declared.fault.FormFault.{FormFault};
ghost use Rattle.tag_forms.specs.Forms.{IsTextIn, ReadsAs};
ghost use Rattle.tag_forms.specs.Faults.{HasFaultIn};
ghost use Rattle.tag_forms.specs.declared.all_forms.AllFault.{AllFault};
ghost use Rattle.tag_forms.specs.AllForms.{IsFormInAll, ReadsInAll, RefusesInAll};

/// A word has at most one text in a form, and what the text does not say being given, exactly that text is read as the word.
pub fn one_text_in_form()
    ensures same { (form : Form) (word : ℕ) (s t : List ℕ) → IsTextIn form word s
        → IsTextIn form word t → s ≡ t }
    ensures reads { (form : Form) (epc : Parts) (word filter count : ℕ) (text : List ℕ) → word < 2 ^ 96
        → HasWord epc word → HasFilter filter epc → HasCompanyDigits count epc
        → IsTextIn form word text → ReadsAs form filter (Option.Some count) text word }
{}

/// A text is read as one word at most.
pub fn one_word_in_form()
    ensures { (form : Form) (filter : ℕ) (count : Option ℕ) (text : List ℕ) (v w : ℕ) → v < 2 ^ 96
        → w < 2 ^ 96 → ReadsAs form filter count text v → ReadsAs form filter count text w → v ≡ w }
{}

/// At most one rule is the first to refuse a text in a form.
pub fn one_fault_in_form()
    ensures { (form : Form) (filter : ℕ) (count : Option ℕ) (text : List ℕ) (f g : FormFault)
        → HasFaultIn form filter count text f → HasFaultIn form filter count text g → f ≡ g }
{}

/// In the set of all schemes a word has at most one text in a form, a text is read as one word at most, and no rule refuses a text that
/// is read.
pub fn one_form_in_all()
    ensures same { (form : Form) (word : ℕ) (s t : List ℕ) → IsFormInAll form word s
        → IsFormInAll form word t → s ≡ t }
    ensures one { (form : Form) (filter : ℕ) (count : Option ℕ) (text : List ℕ) (v w : ℕ) → v < 2 ^ 96
        → w < 2 ^ 96 → ReadsInAll form filter count text v → ReadsInAll form filter count text w
        → v ≡ w }
    ensures no_fault { (form : Form) (filter : ℕ) (count : Option ℕ) (text : List ℕ) (word : ℕ)
        (fault : AllFault) → word < 2 ^ 96 → ReadsInAll form filter count text word
        → RefusesInAll form filter count text fault → ⊥ }
{}
