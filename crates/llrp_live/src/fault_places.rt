//! Where a frame that is no message is refused.

use llrp_schema::{Field, Kind, MsgKind, ParamKind, Tail, fields, number};
use llrp_stream::{Frames, Listener, Stage, Stopped};
use llrp_tree::{Fault, KindSet, MAX_LIMIT, Reason};
use std::alloc::AllocError;

/// The greatest number of parameters that stand one in another.
pub const MOST_LEVELS: usize = 17;

/// Where a frame is refused, and why.
#[derive(Clone, Copy, Debug, PartialEq, Eq)]
pub struct FaultPlace {
    /// The types of the parameters in which it is refused, the outermost first, and 0 after them.
    pub types: [u16; MOST_LEVELS],
    /// How many there are.
    pub depth: usize,
    /// The field that is refused, counted from 1 in its message or parameter, where those that are
    /// reserved do not count; `None` if it is none.
    pub field: Option<u16>,
    /// Why it is refused.
    pub reason: Reason,
}

/// A listener that notes where a frame is refused.
#[derive(Drop)]
struct Places {
    types: [u16; MOST_LEVELS],
    depth: usize,
    place: Option<FaultPlace>,
}

/// The number of the field at a place of a kind, or of the tail after its fields.
fn field_number(kind: Kind, index: u32) -> Option<u16> {
    let rules = fields(kind);
    let mut count: u16 = 1;
    for (at, rule) in rules.iter().enumerate() {
        if at as u64 >= index as u64 {
            return if rule.reserved { None } else { Some(count) };
        }
        if !rule.reserved {
            count = count.saturating_add(1);
        }
    }
    Some(count)
}

/// The type of the parameter that begins with these octets, or 0 if they do not have it.
fn type_of(octets: &[u8]) -> u16 {
    match octets {
        [first, ..] if *first >= 128 => (*first & 127) as u16,
        [first, second, ..] => u16::from_be_bytes([*first & 3, *second]),
        _ => 0,
    }
}

/// Whether a node is refused for what it has, and not for one part of it.
fn is_of_node(reason: Reason) -> bool {
    matches!(reason, Reason::Missing | Reason::Extra)
}

/// Whether a parameter is refused that has not begun.
fn is_of_child(reason: Reason, stage: Stage) -> bool {
    let is_head = matches!(
        reason,
        Reason::ParamType
            | Reason::Misplaced
            | Reason::TooMany
            | Reason::TooDeep
            | Reason::ParamLength
    );
    is_head || matches!(stage, Stage::Children)
}

impl Places {
    /// The place of a fault in these parameters.
    fn place_in(&self, reason: Reason, field: Option<u16>) -> FaultPlace {
        FaultPlace {
            types: self.types,
            depth: self.depth,
            field,
            reason,
        }
    }

    /// Notes a parameter that is `level` levels below the message, in which those are that follow.
    fn enter(&mut self, level: usize, kind: u16) {
        if 0 < level && level <= MOST_LEVELS {
            self.types[level - 1] = kind;
            self.depth = level;
        }
    }

    /// The place where a frame stopped for this reason, before these octets.
    fn place_at(&mut self, reason: Reason, stopped: Stopped, octets: &[u8]) -> FaultPlace {
        if is_of_node(reason) {
            return self.place_in(reason, None);
        }
        if is_of_child(reason, stopped.stage) {
            self.enter(self.depth.saturating_add(1), type_of(octets));
            return self.place_in(reason, None);
        }
        let field = match stopped.stage {
            Stage::Leading(index) => field_number(stopped.node.kind, index),
            Stage::Tail(_) => field_number(stopped.node.kind, u32::MAX),
            Stage::Children => None,
        };
        self.place_in(reason, field)
    }
}

impl Listener for Places {
    ghost use Rattle.std.specs.Prelude.{◌≡◌};

    ghost begins = { λ self was t. Unit {0} };

    ghost stands = { λ self was t. Unit {0} };

    ghost ends = { λ self was m now. Unit {0} };

    ghost faulty = { λ self was t octets fault. Unit {0} };

    fn message(
        &mut self,
        _version: u8,
        _kind: MsgKind,
        _octets: u32,
        _id: u32,
    ) -> Result<(), AllocError> {
        self.depth = 0;
        Ok(())
    }

    fn parameter(&mut self, level: u8, kind: ParamKind, _stop: u32) -> Result<(), AllocError> {
        self.enter(level as usize, number(Kind::Parameter(kind)));
        Ok(())
    }

    fn field(&mut self, _rule: &Field, _value: u128) -> Result<(), AllocError> {
        Ok(())
    }

    fn tail(&mut self, _form: Tail) -> Result<(), AllocError> {
        Ok(())
    }

    fn octets(&mut self, _form: Tail, _octets: &[u8]) -> Result<(), AllocError> {
        Ok(())
    }

    fn ready(&mut self) -> Result<(), AllocError> {
        Ok(())
    }

    fn value(&mut self, _level: u8, _kind: ParamKind, _value: u128) -> Result<(), AllocError> {
        Ok(())
    }

    fn close(&mut self) -> Result<(), AllocError> {
        self.depth = self.depth.saturating_sub(1);
        Ok(())
    }

    fn end(&mut self) -> Result<(), AllocError> {
        Ok(())
    }

    fn fault(&mut self, fault: Fault, stopped: Option<Stopped>, octets: &[u8]) {
        if let Some(stopped) = stopped {
            self.place = Some(self.place_at(fault.reason, stopped, octets));
        }
        self.give_up();
    }

    fn give_up(&mut self) {}
}

/// Where a frame of the whole standard is refused, if it is refused after its header. The octets are the
/// frame.
pub fn fault_place(frame: &[u8]) -> Option<FaultPlace> {
    let mut places = Places {
        types: [0; MOST_LEVELS],
        depth: 0,
        place: None,
    };
    let mut frames = Frames::new_in(KindSet::Standard, MAX_LIMIT);
    match frames.feed(&mut places, frame) {
        Ok(_) => places.place,
        Err(_) => None,
    }
}
