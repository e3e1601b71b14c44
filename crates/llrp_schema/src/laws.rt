//! Laws of the tables, over every kind.

ghost use Rattle.std.specs.Prelude.{◌≡◌, ◌↔◌, ◌⊎◌, ◌≤◌, ◌<◌, ◌%◌, ◌^◌, ◌-◌, ℕ, List, [], ◌∷◌, true, false, length, None, Some, IfSome, All, AllPairs, Contains};
ghost use Rattle.llrp_schema.specs.declared.kinds.MsgKind.{MsgKind};
ghost use Rattle.llrp_schema.specs.declared.kinds.ParamKind.{ParamKind};
ghost use Rattle.llrp_schema.specs.declared.kinds.Kind.{Kind};
ghost use Rattle.llrp_schema.specs.declared.kinds.Kind.TheVariants.{Message, Parameter};
ghost use Rattle.llrp_schema.specs.declared.kinds.Tail.TheVariants.{Absent, Bits, Data};
ghost use Rattle.llrp_schema.specs.declared.kinds.KindSet.{KindSet};
ghost use Rattle.llrp_schema.specs.declared.kinds.KindSet.TheVariants.{Profile};
ghost use Rattle.llrp_schema.specs.Schema.{FieldRule, number_of, name_of, fields_of, plain_fields_of, bits_of, tail_of, groups_of, is_tv, any_field, set_of_kind, message_in, tlv_in, tv_in};
ghost use Rattle.llrp_schema.specs.Calls.Schema.{message_named_in, param_named_in};
ghost use Rattle.llrp_schema.specs.Schema.{has_place};
ghost use Rattle.llrp_schema.specs.Calls.ProfilePart.{IsPartOfMessage, IsPartOfParameter};

/// No two messages of one set have the same number, and no two parameters have.
#[tactic(auto, using(crate::proofs::TableLaws::message_numbers_in, crate::proofs::TableLaws::param_numbers_in))]
pub fn numbers_are_distinct()
    ensures message { (a b : MsgKind) → set_of_kind (Message a) ≡ set_of_kind (Message b) → number_of (Message a) ≡ number_of (Message b) → a ≡ b }
    ensures parameter { (a b : ParamKind) → set_of_kind (Parameter a) ≡ set_of_kind (Parameter b) → number_of (Parameter a)
        ≡ number_of (Parameter b) → a ≡ b }
{}

/// No two kinds of one set have the same name.
pub fn names_are_distinct()
    ensures { (a b : Kind) → set_of_kind a ≡ set_of_kind b → name_of a ≡ name_of b → a ≡ b }
{}

/// A look-up by number finds exactly the kind of the profile with this number.
pub fn numbers_are_found()
    ensures message { (set : KindSet) (number : ℕ) (kind : MsgKind) →
        (message_in set number ≡ Some kind) ↔
        ((set_of_kind (Message kind) ≡ set) × (number_of (Message kind) ≡ number)) }
    ensures tlv { (set : KindSet) (number : ℕ) (kind : ParamKind) →
        (tlv_in set number ≡ Some kind) ↔
        ((set_of_kind (Parameter kind) ≡ set) × (is_tv kind ≡ false)
        × (number_of (Parameter kind) ≡ number)) }
    ensures tv { (set : KindSet) (number : ℕ) (kind : ParamKind) →
        (tv_in set number ≡ Some kind) ↔
        ((set_of_kind (Parameter kind) ≡ set) × (is_tv kind ≡ true)
        × (number_of (Parameter kind) ≡ number)) }
{}

/// A look-up by name finds exactly the kind of the profile with this name.
pub fn names_are_found()
    ensures message { (set : KindSet) (name : List ℕ) (kind : MsgKind) →
        (message_named_in set name ≡ Some kind) ↔
        ((set_of_kind (Message kind) ≡ set) × (name_of (Message kind) ≡ name)) }
    ensures parameter { (set : KindSet) (name : List ℕ) (kind : ParamKind) →
        (param_named_in set name ≡ Some kind) ↔
        ((set_of_kind (Parameter kind) ≡ set) × (name_of (Parameter kind) ≡ name)) }
{}

/// A child is of the set of its parent: no kind of one is a child of a kind of the other.
#[tactic(auto, using(crate::proofs::PlaceLemmas::child_set))]
pub fn children_are_of_one_set()
    ensures { (parent : Kind) (child : ParamKind) → has_place (groups_of parent) child ≡ true →
        set_of_kind (Parameter child) ≡ set_of_kind parent }
{}

/// The number of a message, or of a parameter with a length, fits the 10 bits of its header. That
/// of a parameter with a type and a value alone is below 128 by definition, and so fits 7 bits.
#[tactic(auto, using(crate::proofs::TableLaws::message_number_fits, crate::proofs::TableLaws::param_number_fits))]
pub fn numbers_fit_headers()
    ensures message { (kind : MsgKind) → number_of (Message kind) < 2 ^ 10 }
    ensures parameter { (kind : ParamKind) → number_of (Parameter kind) < 2 ^ 10 }
{}

/// A name begins with an upper-case letter, has no space and no control character, and is short.
#[tactic(auto, using(crate::proofs::TableLaws::name_begins, crate::proofs::TableLaws::name_visible, crate::proofs::TableLaws::name_short, crate::proofs::TableLaws::own_name_short))]
pub fn names_are_words()
    ensures begins { (kind : Kind) →
        (first : ℕ) × (rest : List ℕ) × (name_of kind ≡ first ∷ rest) × (65 ≤ first)
        × (first ≤ 90) }
    ensures visible { (kind : Kind) → All (λ c. (33 ≤ c) × (c ≤ 126)) (name_of kind) }
    ensures short { (kind : Kind) → length (name_of kind) ≤ 48 }
    ensures own { (kind : Kind) → set_of_kind kind ≡ Profile → length (name_of kind) ≤ 32 }
{}

/// The fields of a kind fill whole octets, at most twelve, and at most twelve are not reserved.
#[tactic(auto, using(crate::proofs::TableLaws::whole_octets, crate::proofs::TableLaws::few_bits, crate::proofs::TableLaws::few_plain_fields))]
pub fn fields_fill_octets()
    ensures whole { (kind : Kind) → bits_of (fields_of kind) % 8 ≡ 0 }
    ensures few { (kind : Kind) → bits_of (fields_of kind) ≤ 96 }
    ensures plain { (kind : Kind) → length (plain_fields_of kind) ≤ 12 }
{}

/// A field has 1 to 96 bits, which its greatest value fits. A reserved field is always zero. A
/// signed field is not reserved and has 8 bits, all of whose values are lawful.
#[tactic(auto, using(crate::proofs::TableLaws::field_widths, crate::proofs::TableLaws::field_values, crate::proofs::TableLaws::reserved_fields, crate::proofs::TableLaws::signed_fields))]
pub fn fields_are_sound()
    ensures width { (kind : Kind) → All (λ rule. (1 ≤ rule.width)
        × (rule.width ≤ 96)) (fields_of kind) }
    ensures value { (kind : Kind) → All (λ rule. rule.greatest
        < 2 ^ rule.width) (fields_of kind) }
    ensures reserved { (kind : Kind) → All (λ rule. rule.reserved ≡ true
        → rule.greatest ≡ 0) (fields_of kind) }
    ensures signed { (kind : Kind) →
        All
        (λ rule. rule.signed ≡ true →
        (rule.reserved ≡ false) × (rule.width ≡ 8) × (rule.greatest ≡ 255))
        (fields_of kind) }
{}

/// A parameter with a type and a value alone has one field, which is not reserved and all of whose
/// values are lawful; it has no tail and no children.
#[tactic(auto, using(crate::proofs::TableLaws::tv_field, crate::proofs::TableLaws::tv_tail, crate::proofs::TableLaws::tv_groups))]
pub fn tv_is_one_field()
    ensures field { (kind : ParamKind) → is_tv kind ≡ true →
        (rule : FieldRule) × (fields_of (Parameter kind) ≡ rule ∷ []) ×
        (rule.reserved ≡ false) × (rule.greatest ≡ 2 ^ rule.width - 1) }
    ensures tail { (kind : ParamKind) → is_tv kind ≡ true → tail_of (Parameter kind) ≡ Absent }
    ensures groups { (kind : ParamKind) → is_tv kind ≡ true → groups_of (Parameter kind) ≡ [] }
{}

/// A message of the profile has no tail, and any other none or data. A parameter whose tail is bits
/// has one field, which counts them; a node whose tail goes up to its end has no children.
#[tactic(auto, using(crate::proofs::TableLaws::message_tail, crate::proofs::TableLaws::message_form, crate::proofs::TableLaws::bits_field, crate::proofs::TableLaws::data_groups))]
pub fn tails_are_of_kinds()
    ensures message { (kind : MsgKind) → set_of_kind (Message kind) ≡ Profile →
        tail_of (Message kind) ≡ Absent }
    ensures form { (kind : MsgKind) →
        (tail_of (Message kind) ≡ Absent) ⊎ (tail_of (Message kind) ≡ Data) }
    ensures bits { (kind : ParamKind) → tail_of (Parameter kind) ≡ Bits →
        fields_of (Parameter kind) ≡ any_field "BitCount" 16 ∷ [] }
    ensures data { (kind : Kind) → tail_of kind ≡ Data → groups_of kind ≡ [] }
{}

/// A group has members, and its least number is at most its greatest. No kind is in two groups of
/// one parent.
#[tactic(auto, using(crate::proofs::TableLaws::group_members, crate::proofs::TableLaws::group_bounds))]
pub fn groups_are_sound()
    ensures members { (kind : Kind) → All (λ group. 1 ≤ length group.members) (groups_of kind) }
    ensures bounds { (kind : Kind) →
        All (λ group. IfSome group.most (λ most. group.least ≤ most)) (groups_of kind) }
    ensures apart { (kind : Kind) →
        AllPairs
        (λ g h. (child : ParamKind) → Contains g.members child → Contains h.members child → ⊥)
        (groups_of kind) }
{}

/// A group needs one child or none, and takes at most one or any number. A kind has at most 18
/// groups, so 32 bits have room for one bit a group.
#[tactic(auto, using(crate::proofs::PlaceLemmas::needs_one_at_most, crate::proofs::PlaceLemmas::takes_one_or_any, crate::proofs::PlaceLemmas::few_groups))]
pub fn groups_are_narrow()
    ensures least { (kind : Kind) → All (λ group. group.least ≤ 1) (groups_of kind) }
    ensures most { (kind : Kind) →
        All (λ group. (group.most ≡ None) ⊎ (group.most ≡ Some 1)) (groups_of kind) }
    ensures few { (kind : Kind) → length (groups_of kind) ≤ 18 }
{}

/// The profile is a part of the whole standard: each of its rows is that of the standard without the
/// kinds that the profile leaves out, but for the names of fields.
#[tactic(auto, using(crate::proofs::ProfileLemmas::message_part, crate::proofs::ProfileLemmas::param_part))]
pub fn profile_is_a_part()
    ensures message { (kind : MsgKind) → IsPartOfMessage kind }
    ensures parameter { (kind : ParamKind) → IsPartOfParameter kind }
{}
