//! Laws of this crate's definitions.

ghost use Rattle.std.specs.Prelude.{◌≡◌, ◌≢◌, ℕ, ◌+◌, ◌<◌, ◌≤◌, List, [], ◌∷◌, ◌++◌, ◌⊎◌, true, false};
ghost use Rattle.std.specs.Int.{IsInRange};
ghost use Rattle.tag_epc.specs.declared.epc.Parts.{Parts};
ghost use Rattle.tag_epc.specs.LawfulWord.{IsLawfulEpc};
ghost use Rattle.tag_uri.specs.declared.fault.UriFault.{UriFault};
ghost use Rattle.tag_uri.specs.declared.fault.UriFault.TheVariants.{LeadingZero, Range};
ghost use Rattle.tag_keys.specs.declared.fault.KeyFault.{KeyFault};
ghost use Rattle.tag_keys.specs.declared.fault.KeyFault.TheVariants.{Tag};
ghost use Rattle.tag_keys.specs.declared.spelling.Spelling.{Spelling};
ghost use Rattle.tag_keys.specs.CheckDigit.{is_checked, check_digit, with_check_digit};
ghost use Rattle.tag_keys.specs.PureIdentity.{id_uri, HasFilter};
ghost use Rattle.tag_keys.specs.KeyText.{IsKeyText, HasCompanyDigits};
ghost use Rattle.tag_keys.specs.KeyFaults.{HasIdFault, HasKeyFault};

/// Digits have one check digit.
pub fn one_check_digit()
    ensures is { (digits : List ℕ) → is_checked (with_check_digit digits) ≡ true }
    ensures only { (digits : List ℕ) (c : ℕ) → IsInRange 48 57 c
        → is_checked (digits ++ c ∷ []) ≡ true → c ≡ check_digit digits }
{}

/// Where one digit is another, the check digit is wrong. Where two different neighbours are in each
/// other's place it is wrong too, unless they differ by five.
pub fn slips_are_refused()
    ensures one_digit { (front back : List ℕ) (c d : ℕ) → IsInRange 48 57 c → IsInRange 48 57 d
        → c ≢ d → is_checked (front ++ c ∷ back) ≡ true → is_checked (front ++ d ∷ back)
        ≡ false }
    ensures neighbours { (front back : List ℕ) (c d : ℕ) → IsInRange 48 57 c → IsInRange 48 57 d
        → c ≢ d → c + 5 ≢ d → d + 5 ≢ c → is_checked (front ++ c ∷ d ∷ back) ≡ true
        → is_checked (front ++ d ∷ c ∷ back) ≡ false }
{}

/// Two lawful EPCs with the same filter value have different pure identity URIs, and no rule refuses
/// one of these.
pub fn one_id_uri()
    ensures one { (d e : Parts) (filter : ℕ) → IsLawfulEpc d → IsLawfulEpc e → HasFilter filter d
        → HasFilter filter e → id_uri d ≡ id_uri e → d ≡ e }
    ensures no_fault { (epc : Parts) (filter : ℕ) (fault : KeyFault) → IsLawfulEpc epc
        → HasFilter filter epc → HasIdFault filter (id_uri epc) fault → ⊥ }
{}

/// Two lawful EPCs with the same filter value and as long a company prefix have different texts of
/// keys, no rule refuses one of these, and an EPC has one such text.
pub fn one_key_text()
    ensures one { (s : Spelling) (d e : Parts) (filter digits : ℕ) (text : List ℕ) → IsLawfulEpc d
        → IsLawfulEpc e → HasFilter filter d → HasFilter filter e → HasCompanyDigits digits d
        → HasCompanyDigits digits e → IsKeyText s d text → IsKeyText s e text → d ≡ e }
    ensures same { (s : Spelling) (epc : Parts) (t u : List ℕ) → IsKeyText s epc t
        → IsKeyText s epc u → t ≡ u }
    ensures no_fault { (s : Spelling) (epc : Parts) (filter digits : ℕ) (text : List ℕ)
        (fault : KeyFault) → IsLawfulEpc epc → HasFilter filter epc → HasCompanyDigits digits epc
        → IsKeyText s epc text → HasKeyFault s filter digits text fault → ⊥ }
{}

/// At most one rule is the first to refuse a text.
pub fn one_fault()
    ensures id { (filter : ℕ) (text : List ℕ) (f g : KeyFault) → HasIdFault filter text f
        → HasIdFault filter text g → f ≡ g }
    ensures key { (s : Spelling) (filter digits : ℕ) (text : List ℕ) (f g : KeyFault)
        → HasKeyFault s filter digits text f → HasKeyFault s filter digits text g → f ≡ g }
{}

/// A text that is put together as a key is refused, if at all, for its serial number: it has a leading
/// zero, or too many bits.
pub fn serial_faults()
    ensures { (s : Spelling) (filter digits : ℕ) (text : List ℕ) (fault : UriFault) → filter < 8
        → 6 ≤ digits → digits ≤ 12 → HasKeyFault s filter digits text (Tag fault)
        → (fault ≡ LeadingZero) ⊎ (fault ≡ Range) }
{}
