//! Which kinds the next line is likely to have. A listing repeats itself, so the kind that came after the last
//! line's kind before is tried first. Nothing rests on it: a line's name is always compared.

ghost use Rattle.std.specs.Prelude.{◌≡◌, All};
ghost use Rattle.llrp_schema.specs.declared.kinds.Kind.TheVariants.{Message, Parameter};
ghost use Rattle.llrp_schema.specs.declared.kinds.KindSet.{KindSet};
ghost use Rattle.llrp_schema.specs.Schema.{set_of_kind};
ghost use Rattle.llrp_listing.specs.Private.ShortLines.{short_node};
ghost use Rattle.llrp_listing.specs.Private.TakingLines.{line_node};

use crate::encode::read_short_line::ShortLine;
use crate::parse_line::Line;
use llrp_schema::{KindSet, MsgKind, ParamKind};
use std::marker::Model;

/// How many kinds of parameters there are.
const KINDS: usize = 177;

/// The kinds of the last lines, and those that came after each, all of one set.
#[derive(Drop)]
pub struct Guess {
    /// The set of kinds that the lines have.
    set: KindSet,
    /// For each kind of a parameter, the one that came after it the last time.
    after: [ParamKind; KINDS],
    /// The last kind of a parameter.
    last: ParamKind,
    /// The last kind of a message.
    message: MsgKind,
}

impl Model for Guess {
    ghost Value = { KindSet };

    ghost view = { λ g. g.set };

    ghost invariant = { λ g. All (λ kind. set_of_kind (Parameter kind) ≡ g.set) g.after
        × (set_of_kind (Parameter g.last) ≡ g.set) × (set_of_kind (Message g.message) ≡ g.set) };
}

/// A kind of a parameter of a set.
fn some_parameter(set: KindSet) -> ParamKind
    ensures { set_of_kind (Parameter result) ≡ set }
{
    match set {
        KindSet::Profile => ParamKind::TagReportData,
        KindSet::Standard => ParamKind::WholeTagReportData,
    }
}

/// A kind of a message of a set.
fn some_message(set: KindSet) -> MsgKind
    ensures { set_of_kind (Message result) ≡ set }
{
    match set {
        KindSet::Profile => MsgKind::RoAccessReport,
        KindSet::Standard => MsgKind::WholeRoAccessReport,
    }
}

impl Guess {
    /// No line was read yet, so any kinds of the set will do.
    pub fn new(set: KindSet) -> Guess
        ensures { result ≡ set }
    {
        let parameter = some_parameter(set);
        Guess {
            set,
            after: [parameter; KINDS],
            last: parameter,
            message: some_message(set),
        }
    }

    /// The set of kinds that the lines have.
    #[inline(always)]
    pub fn set(&self) -> KindSet
        ensures { result ≡ self.now }
    {
        self.set
    }

    /// The kind that the next line has if it is a message's.
    #[inline(always)]
    pub fn message(&self) -> MsgKind
        ensures { set_of_kind (Message result) ≡ self.now }
    {
        self.message
    }

    /// The kind that the next line has if it is a parameter's.
    #[inline(always)]
    pub fn parameter(&self) -> ParamKind
        ensures { set_of_kind (Parameter result) ≡ self.now }
    {
        self.after[self.last as usize]
    }

    /// Keeps the kind of a parameter's line.
    #[inline(always)]
    pub fn note_parameter(&mut self, kind: ParamKind)
        requires { set_of_kind (Parameter kind) ≡ self.old }
        ensures { self.new ≡ self.old }
    {
        self.after[self.last as usize] = kind;
        self.last = kind;
    }

    /// Whether the next line is likely to be that of a parameter with a type and a value alone.
    #[inline(always)]
    pub fn is_value(&self) -> bool {
        llrp_schema::is_tv(self.parameter())
    }

    /// Keeps the kind of a line that was read word by word.
    pub fn note_line(&mut self, line: &Line)
        requires { set_of_kind (line_node line.now).kind ≡ self.old }
        ensures { self.new ≡ self.old }
    {
        match line {
            Line::Message(line) => self.message = line.kind,
            Line::Parameter(line) => self.note_parameter(line.kind),
        }
    }

    /// Keeps the kind of a line that was read by the short way.
    #[inline(always)]
    pub fn note(&mut self, line: &ShortLine)
        requires { set_of_kind (short_node line.now).kind ≡ self.old }
        ensures { self.new ≡ self.old }
    {
        match line {
            ShortLine::Message { kind, .. } => self.message = *kind,
            ShortLine::Bare { kind, .. } | ShortLine::Number { kind, .. } => {
                self.note_parameter(*kind);
            }
        }
    }
}
