//! Listeners, which receive the parts of messages.

ghost use Rattle.std.specs.Prelude.{◌≡◌, ◌+◌, ◌*◌, ◌^◌, ◌<◌, ◌≤◌, ◌⊎◌, ℕ, List, [], ◌∷◌, Option, None, OnOk, true, length};
ghost use Rattle.llrp_schema.specs.Schema.{bits_of, fields_of, is_tv};
ghost use Rattle.llrp_schema.specs.Calls.Schema.{field_rule};
ghost use Rattle.llrp_tree.specs.declared.TheConstants.{MAX_DEPTH};
ghost use Rattle.llrp_tree.specs.Tree.{none, MessageTree};
ghost use Rattle.llrp_tree.specs.Spelling.{Head, message, tlv, tv};
ghost use Rattle.llrp_tree.specs.OpenTree.{Begun, kind_of_head, IsOpenTree};
ghost use Rattle.llrp_tree.specs.Calls.Standing.{leading};
ghost use Rattle.llrp_schema.specs.declared.kinds.Kind.TheVariants.{Parameter};
ghost use Rattle.llrp_stream.specs.Calls.Received.{with_field, with_octets, with_value, with_closed, AreWhole, CanClose, CanEnd, IsNextField, IsNextValue, IsBeforeTail, IsInTail, IsReady, IsMessageOf, IsRefusedIn};
ghost use Rattle.llrp_stream.specs.Calls.Reading.{IsStopped, ToldBy};
ghost use Rattle.llrp_schema.specs.declared.kinds.KindSet.{KindSet};
ghost use Rattle.llrp_tree.specs.declared.fault.Fault.{Fault};

use crate::engine::body_reader::Stage;
use crate::engine::stack::StackNode;
use llrp_schema::{Field, MsgKind, ParamKind, Tail};
use llrp_tree::Fault;
use std::alloc::AllocError;

/// How far the innermost node of a frame is read that has a fault.
#[derive(Clone, Copy)]
pub struct Stopped {
    pub node: StackNode,
    pub stage: Stage,
    /// The first field of the node, once it was read, while it awaits more of them or its tail.
    pub first: u128,
}

/// Receives the parts of a message, in the order in which they are read.
pub trait Listener {
    /// Holding this of earlier messages, it received this open tree, and awaits more fields or more
    /// octets of the innermost node's tail.
    ghost begins: { Self → List ℕ → List Begun → Type 0 };

    /// The same, where the innermost node has all its fields and its tail; without an open tree it
    /// awaits a message.
    ghost stands: { Self → List ℕ → List Begun → Type 0 };

    /// Holding this of earlier messages, it received this message, and now it holds that.
    ghost ends: { Self → List ℕ → MessageTree → List ℕ → Type 0 };

    /// Holding this of earlier messages, it received this open tree of a faulty frame, and was handed
    /// these octets and this fault.
    ghost faulty: { Self → List ℕ → List Begun → List ℕ → Fault → Type 0 };

    /// A message begins.
    fn message(
        &mut self,
        version: u8,
        kind: MsgKind,
        octets: u32,
        id: u32,
    ) -> Result<(), AllocError>
        requires { (was : List ℕ) × stands self.old was [] }
        ensures { OnOk result ((was : List ℕ) → stands self.old was []
            → begins self.new was (leading (message version kind octets id)
            (8 * octets) [] ∷ [])) };

    /// A parameter begins, this many levels below the message. It stops before this octet of the
    /// frame.
    fn parameter(&mut self, level: u8, kind: ParamKind, stop: u32) -> Result<(), AllocError>
        requires deep { level ≤ MAX_DEPTH }
        requires some { (was : List ℕ) × (t : List Begun) × stands self.old was t
            × (length t ≡ level) }
        ensures { OnOk result ((was : List ℕ) (t : List Begun) (h : Head)
            → stands self.old was t → length t ≡ level → kind_of_head h ≡ Parameter kind
            → IsOpenTree (leading h (8 * stop) [] ∷ t)
            → begins self.new was (leading h (8 * stop) [] ∷ t)) };

    /// The next field of the innermost node has this value.
    fn field(&mut self, rule: &Field, value: u128) -> Result<(), AllocError>
        requires fits { value < 2 ^ rule.now.width }
        requires signed { rule.now.signed ≡ true → rule.now.width ≡ 8 }
        requires some { (was : List ℕ) × (t : List Begun) × begins self.old was t
            × IsNextField t (field_rule rule.now) }
        ensures { OnOk result ((was : List ℕ) (t : List Begun) → begins self.old was t
            → IsNextField t (field_rule rule.now) → begins self.new was (with_field value t)) };

    /// The tail of the innermost node begins.
    fn tail(&mut self, form: Tail) -> Result<(), AllocError>
        ensures { OnOk result ((was : List ℕ) (t : List Begun) → begins self.old was t
            → IsBeforeTail t form → begins self.new was (with_octets [] t)) };

    /// These octets of the tail follow.
    fn octets(&mut self, form: Tail, octets: &[u8]) -> Result<(), AllocError>
        requires { AreWhole form octets.now }
        ensures { OnOk result ((was : List ℕ) (t : List Begun) → begins self.old was t
            → IsInTail t form → begins self.new was (with_octets octets.now t)) };

    /// The innermost node has all its fields and its tail.
    fn ready(&mut self) -> Result<(), AllocError>
        ensures { OnOk result ((was : List ℕ) (t : List Begun) → begins self.old was t
            → stands self.new was t) };

    /// A whole parameter of type and value, this many levels below the message, has this value.
    fn value(&mut self, level: u8, kind: ParamKind, value: u128) -> Result<(), AllocError>
        requires deep { level ≤ MAX_DEPTH }
        requires short { is_tv kind ≡ true }
        requires fits { value < 2 ^ bits_of (fields_of (Parameter kind)) }
        ensures { OnOk result ((was : List ℕ) (t : List Begun) → stands self.old was t
            → length t ≡ level → IsNextValue t kind value
            → stands self.new was (with_value kind value t)) };

    /// The innermost parameter is whole.
    fn close(&mut self) -> Result<(), AllocError>
        requires { (was : List ℕ) × CanClose (stands self.old was) }
        ensures { OnOk result ((was : List ℕ) (t : List Begun) → stands self.old was t → IsReady t
            → stands self.new was (with_closed t)) };

    /// The message is whole.
    fn end(&mut self) -> Result<(), AllocError>
        requires { (was : List ℕ) × CanEnd (stands self.old was) }
        ensures { OnOk result ((was : List ℕ) (b : Begun) (m : MessageTree)
            → stands self.old was (b ∷ []) → IsReady (b ∷ [])
            → IsMessageOf b.head b.fields b.tail b.children m → (now : List ℕ) × stands self.new now []
            × ends self.new was m now) };

    /// The frame has this fault, which is that of the open tree, and these octets come after what was
    /// received. Of a fault of the header nothing is read, nothing was received, and the octets are
    /// the header. Gives up the frame.
    fn fault(&mut self, fault: Fault, stopped: Option<Stopped>, octets: &[u8])
        ensures stands { (was : List ℕ) (t : List Begun) → (begins self.old was t)
            ⊎ (stands self.old was t) → stands self.new was [] }
        ensures faulty { (was : List ℕ) (t : List Begun)
            → ToldBy (begins self.old was) (stands self.old was) stopped t → (p : KindSet)
            (limit : ℕ) (front : List ℕ) (size : ℕ)
            → IsRefusedIn p limit front size t octets.now fault → IsStopped stopped t fault.reason
            → faulty self.new was t octets.now fault };

    /// Forgets what was received of an unfinished message.
    fn give_up(&mut self)
        ensures { (was : List ℕ) (t : List Begun) → (begins self.old was t)
            ⊎ (stands self.old was t) → stands self.new was [] };
}

/// Hands a fault on. It is a call, so that the readers of frames stay small enough to be inlined.
#[inline(never)]
pub(crate) fn hand<L: Listener>(
    listener: &mut L,
    fault: Fault,
    stopped: Option<Stopped>,
    octets: &[u8],
)
    ensures stands { (was : List ℕ) (t : List Begun) → (L.begins listener.old was t)
        ⊎ (L.stands listener.old was t) → L.stands listener.new was [] }
    ensures faulty { (was : List ℕ) (t : List Begun)
        → ToldBy (L.begins listener.old was) (L.stands listener.old was) stopped t → (p : KindSet)
        (limit : ℕ) (front : List ℕ) (size : ℕ)
        → IsRefusedIn p limit front size t octets.now fault → IsStopped stopped t fault.reason
        → L.faulty listener.new was t octets.now fault }
{
    listener.fault(fault, stopped, octets);
}
