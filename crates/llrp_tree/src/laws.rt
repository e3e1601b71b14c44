//! Laws of lawful parameters and messages, and of their octets.

ghost use Rattle.std.specs.Prelude.{◌≡◌, ◌↔◌, ◌^◌, ◌<◌, ◌≤◌, ◌+◌, ◌*◌, ℕ, List, [], None, length};
ghost use Rattle.llrp_schema.specs.declared.kinds.ParamKind.{ParamKind};
ghost use Rattle.llrp_schema.specs.declared.kinds.MsgKind.{MsgKind};
ghost use Rattle.llrp_schema.specs.declared.kinds.Kind.TheVariants.{Message, Parameter};
ghost use Rattle.llrp_schema.specs.declared.kinds.KindSet.{KindSet};
ghost use Rattle.llrp_schema.specs.declared.kinds.KindSet.TheVariants.{Profile};
ghost use Rattle.llrp_schema.specs.declared.kinds.Tail.TheVariants.{Data};
ghost use Rattle.llrp_schema.specs.Schema.{set_of_kind, tail_of};
ghost use Rattle.llrp_tree.specs.Tree.{Forest, Tree, MessageTree};
ghost use Rattle.llrp_tree.specs.Lawful.{AreOctets, AreLawful, AllLawful, IsLawfulMessage, tree_octets, message_octets};
ghost use Rattle.llrp_tree.specs.Calls.Lawful.{own_octets};
ghost use Rattle.llrp_tree.specs.Checks.{first_fault, first_message_fault};
ghost use Rattle.llrp_tree.specs.Calls.Spelling.{tree_digits};
ghost use Rattle.llrp_tree.specs.Frame.{Frame};
ghost use Rattle.llrp_tree.specs.declared.TheConstants.{MAX_LIMIT};
ghost use Rattle.llrp_tree.specs.Calls.Weight.{message_weight};
ghost use Rattle.llrp_tree.specs.Calls.FrameLaws.{OpenTreesAgree};
ghost use Rattle.llrp_tree.specs.FrameLaws.{FramesApart};
ghost use Rattle.llrp_tree.specs.Calls.Deciding.{FaultsAreDecided, NoneIsDecidedBefore};
ghost use Rattle.llrp_tree.specs.Calls.GrowthLaws.{FieldGrows, TailGrows, TlvOpens, TvOpens, TlvCloses, TvCloses};

/// Parts are lawful exactly if none of the ordered tests fails.
#[tactic(auto, using(crate::proofs::LawLemmas::lawful_exactly, crate::proofs::LawLemmas::message_exactly))]
pub fn lawful_where_no_test_fails()
    ensures parameter { (kind : ParamKind) (fields tail : List ℕ) (children : Forest)
        → AreOctets tail →
        AreLawful kind fields tail children ↔ (first_fault kind fields tail children ≡ None) }
    ensures message { (m : MessageTree) → m.id < 2 ^ 32 → AreOctets m.tail → AllLawful m.children →
        IsLawfulMessage m ↔ (first_message_fault m.version m.kind m.fields m.tail m.children ≡ None) }
{}

/// The octets of a message or parameter are as many as its length says.
#[tactic(auto, using(crate::proofs::LengthLemmas::tree_length, crate::proofs::LengthLemmas::frame_length))]
pub fn lengths_are_spelled()
    ensures parameter { (t : Tree) → length (tree_digits t) ≡ 8 * tree_octets t }
    ensures message { (m : MessageTree) (bytes : List ℕ) (limit : ℕ) → Frame m bytes limit
        → length bytes ≡ message_octets m }
{}

/// Two open trees with equally many parts over the same digits are equal.
pub fn open_trees_agree()
    ensures { OpenTreesAgree }
{}

/// A frame has one message or one first fault, and no message's octets begin another's.
pub fn frames_apart()
    ensures { (p : KindSet) (limit : ℕ) → limit ≤ MAX_LIMIT → FramesApart p limit }
{}

/// An open tree grows by a part that passes its checks: a field, a tail, or the head of a child.
pub fn open_trees_grow()
    ensures field { FieldGrows }
    ensures tail { TailGrows }
    ensures tlv { TlvOpens }
    ensures tv { TvOpens }
{}

/// A parameter that has all its parts can be closed, and is then a child of the node around it.
pub fn whole_parameters_close()
    ensures tlv { TlvCloses }
    ensures tv { TvCloses }
{}

/// A fault is decided at the end of the part that fails, and not before the next check of the open
/// tree is decided.
pub fn faults_are_decided()
    ensures at_end { FaultsAreDecided }
    ensures not_before { NoneIsDecidedBefore }
{}

/// What is kept of a message weighs no more than its frame has octets.
pub fn weights_are_within()
    ensures { (m : MessageTree) (bytes : List ℕ) (limit : ℕ) → Frame m bytes limit
        → message_weight m ≤ length bytes }
{}

/// A node of the profile has at most sixteen octets before its tail, and no data.
#[tactic(auto, using(crate::proofs::OwnLemmas::short_parameter, crate::proofs::OwnLemmas::short_message, crate::proofs::OwnLemmas::no_data))]
pub fn own_nodes_are_short()
    ensures parameter { (kind : ParamKind) → set_of_kind (Parameter kind) ≡ Profile → own_octets (Parameter kind) [] ≤ 16 }
    ensures message { (kind : MsgKind) → set_of_kind (Message kind) ≡ Profile → own_octets (Message kind) [] ≤ 16 }
    ensures data { (kind : ParamKind) → set_of_kind (Parameter kind) ≡ Profile → tail_of (Parameter kind) ≡ Data → ⊥ }
{}
