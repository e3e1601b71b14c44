//! The listener that prints the lines of a frame.

ghost use Rattle.std.specs.Prelude.{◌≡◌, [], ◌∷◌, List, None, Some, OnOk, true};
ghost use Rattle.llrp_stream.specs.declared.engine.listener.Stopped.{Stopped};
ghost use Rattle.llrp_schema.specs.Schema.{is_tv};
ghost use Rattle.llrp_tree.specs.declared.TheConstants.{MAX_DEPTH};
ghost use Rattle.llrp_tree.specs.Tree.{none};
ghost use Rattle.llrp_explain.specs.Calls.Printed.{Adds};
ghost use Rattle.llrp_tree.specs.OpenTree.{Begun};
ghost use Rattle.llrp_stream.specs.Calls.Reading.{IsStopped, Told};
ghost use Rattle.llrp_explain.specs.Calls.Printing.{Begins, IsRefusal, RefusesPart, Stands};
ghost use Rattle.llrp_explain.specs.Private.Printing.{Ends};
ghost use Rattle.llrp_explain.specs.Private.Trees.{tree_lines};

use crate::lines::Lines;
use crate::refusals::push_refusal;
use crate::walk::{
    push_fields, push_head, push_header, push_long_head, push_short_head, push_tail,
};
use llrp_schema::{Field, Kind, MsgKind, ParamKind, Tail, fields, is_tv, tail};
use llrp_stream::{Listener, Stopped};
use llrp_tree::Fault;
use std::alloc::{AllocError, Global};

/// Appends the lines of a frame as its parts come. Of a frame that has a fault in its header it keeps
/// the header.
#[derive(Drop)]
pub struct FramePrinter {
    pub(crate) lines: Lines,
    /// How many nodes are begun.
    pub(crate) depth: u8,
    /// The form of the tail of the innermost node, once it is begun.
    pub(crate) form: Option<Tail>,
    /// The octets of that tail so far, or the header that has a fault.
    pub(crate) tail: Vec<u8>,
    /// The text of what is refused after that node, and of the fault.
    pub(crate) refused: Vec<u8>,
    /// The fault is one of the header.
    pub(crate) of_header: bool,
    /// Memory ran out at the fault.
    pub(crate) failed: bool,
}

/// Appends the lines of a parameter with type and value.
fn push_value(lines: &mut Lines, level: u8, kind: ParamKind, value: u128) -> Result<(), AllocError>
    requires { is_tv kind ≡ true }
    ensures { OnOk result (Adds (tree_lines level record {
      kind = kind;
      fields = value ∷ [];
      tail = [];
      children = none;
    }) lines.old lines.new) }
{
    let whole = Kind::Parameter(kind);
    push_head(lines, level, kind, 0)?;
    push_fields(lines, level, fields(whole), &[value])?;
    push_tail(lines, level, tail(whole), &[])
}

impl FramePrinter {
    /// A printer that has received nothing; it takes no memory.
    pub(crate) fn new(alloc: Global) -> FramePrinter {
        FramePrinter {
            lines: Lines::new(alloc),
            depth: 0,
            form: None,
            tail: Vec::new(alloc),
            refused: Vec::new(alloc),
            of_header: false,
            failed: false,
        }
    }

    /// Keeps the octets of a header that has a fault, and no lines.
    fn keep_header(&mut self, header: &[u8]) -> Result<(), AllocError>
        ensures kept { OnOk result (self.new.tail.items ≡ header.now) }
        ensures of_header { self.new.of_header ≡ self.old.of_header }
    {
        self.lines.text.clear();
        self.tail.clear();
        self.tail.extend_from_slice(header)
    }

    /// Keeps the text of what is refused after the lines, and of the fault.
    fn keep_refusal(
        &mut self,
        fault: Fault,
        stopped: Stopped,
        octets: &[u8],
    ) -> Result<(), AllocError>
        ensures kept { OnOk result ((b : Begun) (outer : List Begun)
            → Told (Begins self.old) (Stands self.old) stopped.stage (b ∷ outer)
            → IsStopped (Some stopped) (b ∷ outer) fault.reason
            → RefusesPart (b ∷ outer) octets.now fault self.new.refused.items) }
        ensures lines { self.new.lines ≡ self.old.lines }
        ensures of_header { self.new.of_header ≡ self.old.of_header }
    {
        self.refused.clear();
        let at = self.lines.bit;
        push_refusal(&mut self.refused, fault, stopped, self.depth, at, octets)
    }

    /// Keeps what the text of a faulty frame is made of.
    fn keep(
        &mut self,
        fault: Fault,
        stopped: Option<Stopped>,
        octets: &[u8],
    ) -> Result<(), AllocError>
        ensures header { OnOk result (stopped ≡ None → self.new.tail.items ≡ octets.now) }
        ensures part { OnOk result ((s : Stopped) → stopped ≡ Some s → (b : Begun)
            (outer : List Begun) → Told (Begins self.old) (Stands self.old) s.stage (b ∷ outer)
            → IsStopped (Some s) (b ∷ outer) fault.reason
            → RefusesPart (b ∷ outer) octets.now fault self.new.refused.items) }
        ensures lines { (s : Stopped) → stopped ≡ Some s → self.new.lines ≡ self.old.lines }
        ensures of_header { self.new.of_header ≡ self.old.of_header }
    {
        match stopped {
            None => self.keep_header(octets),
            Some(stopped) => self.keep_refusal(fault, stopped, octets),
        }
    }
}

impl Listener for FramePrinter {
    ghost begins = { λ self was t. Begins self t };

    ghost stands = { λ self was t. Stands self t };

    ghost ends = { λ self was m now. Ends self m };

    ghost faulty = { λ self was t octets fault. IsRefusal self t octets fault };

    fn message(
        &mut self,
        version: u8,
        kind: MsgKind,
        octets: u32,
        id: u32,
    ) -> Result<(), AllocError> {
        self.lines.begin();
        self.depth = 1;
        self.form = None;
        push_header(&mut self.lines, version, kind, octets, id)
    }

    fn parameter(&mut self, level: u8, kind: ParamKind, stop: u32) -> Result<(), AllocError> {
        self.depth = level + 1;
        self.form = None;
        if is_tv(kind) {
            return push_short_head(&mut self.lines, level, kind);
        }
        let octets = stop.saturating_sub(self.lines.bit / 8);
        push_long_head(&mut self.lines, level, kind, octets)
    }

    fn field(&mut self, rule: &Field, value: u128) -> Result<(), AllocError> {
        let level = self.depth.saturating_sub(1);
        self.lines
            .number(level, rule.name.as_bytes(), rule.width, value)
    }

    fn tail(&mut self, form: Tail) -> Result<(), AllocError> {
        self.tail.clear();
        self.form = Some(form);
        Ok(())
    }

    fn octets(&mut self, _form: Tail, octets: &[u8]) -> Result<(), AllocError> {
        self.tail.extend_from_slice(octets)
    }

    fn ready(&mut self) -> Result<(), AllocError> {
        let level = self.depth.saturating_sub(1);
        match self.form {
            None => Ok(()),
            Some(form) => push_tail(&mut self.lines, level, form, self.tail.as_slice()),
        }
    }

    fn value(&mut self, level: u8, kind: ParamKind, value: u128) -> Result<(), AllocError> {
        push_value(&mut self.lines, level, kind, value)
    }

    fn close(&mut self) -> Result<(), AllocError> {
        self.depth = self.depth.saturating_sub(1);
        Ok(())
    }

    fn end(&mut self) -> Result<(), AllocError> {
        Ok(())
    }

    fn fault(&mut self, fault: Fault, stopped: Option<Stopped>, octets: &[u8]) {
        self.of_header = stopped.is_none();
        let kept = self.keep(fault, stopped, octets);
        self.failed = kept.is_err();
    }

    fn give_up(&mut self) {}
}
