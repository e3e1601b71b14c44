//! Laws of this crate's definitions.

ghost use Rattle.std.specs.Prelude.{◌≡◌, ℕ, ◌^◌, ◌<◌, ◌≤◌, List};
ghost use Rattle.tag_epc.specs.declared.epc.Parts.{Parts};
ghost use Rattle.tag_epc.specs.LawfulWord.{IsLawfulEpc};
ghost use Rattle.tag_uri.specs.declared.fault.UriFault.{UriFault};
ghost use Rattle.tag_uri.specs.Decimal.{padded, plain};
ghost use Rattle.tag_uri.specs.Calls.Decimal.{IsPadded, IsPlain};
ghost use Rattle.tag_uri.specs.TagText.{tag_uri, HasTagFault, HasTextFault, IsTextOf};

/// A number below 10 ^ k has exactly one text of k digits whose sum of digits times powers of ten
/// is the number.
pub fn one_padded_text()
    ensures is { (k n : ℕ) → n < 10 ^ k → IsPadded k n (padded k n) }
    ensures only { (k n : ℕ) (text : List ℕ) → n < 10 ^ k → IsPadded k n text → text ≡ padded k n }
{}

/// A number below 2 ^ 64 has exactly one decimal text without leading zeros.
pub fn one_plain_text()
    ensures is { (n : ℕ) → n < 2 ^ 64 → IsPlain n (plain n) }
    ensures only { (n : ℕ) (text : List ℕ) → n < 2 ^ 64 → IsPlain n text → text ≡ plain n }
{}

/// Two lawful EPCs have different tag URIs, and no rule refuses one of these.
pub fn one_tag_uri()
    ensures one { (d e : Parts) → IsLawfulEpc d → IsLawfulEpc e → tag_uri d ≡ tag_uri e → d ≡ e }
    ensures no_fault { (epc : Parts) (fault : UriFault) → IsLawfulEpc epc
        → HasTagFault (tag_uri epc) fault → ⊥ }
{}

/// Two words never share a text, a word has one text, and no rule refuses it.
pub fn one_text()
    ensures one { (v w : ℕ) (text : List ℕ) → v < 2 ^ 96 → w < 2 ^ 96 → IsTextOf v text
        → IsTextOf w text → v ≡ w }
    ensures same { (w : ℕ) (s t : List ℕ) → IsTextOf w s → IsTextOf w t → s ≡ t }
    ensures no_fault { (w : ℕ) (text : List ℕ) (fault : UriFault) → w < 2 ^ 96 → IsTextOf w text
        → HasTextFault text fault → ⊥ }
{}

/// At most one rule is the first to refuse a text.
pub fn one_fault()
    ensures tag { (text : List ℕ) (f g : UriFault) → HasTagFault text f
        → HasTagFault text g → f ≡ g }
    ensures any { (text : List ℕ) (f g : UriFault) → HasTextFault text f → HasTextFault text g → f ≡ g }
{}
