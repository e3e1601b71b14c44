//! The plan of an inventory: what a client asks of its reader.

ghost use Rattle.std.specs.Prelude.{◌≡◌, ◌≤◌, IfErr, IfNone, IfOk, Some, None, false, true};
ghost use Rattle.llrp_schema.specs.declared.kinds.KindSet.TheVariants.{Profile};
ghost use Rattle.llrp_tree.specs.Lawful.{tree_octets};
ghost use Rattle.llrp_session.specs.RoSpec.{is_kind};
ghost use Rattle.llrp_endpoints.specs.Asides.{no_asides};
ghost use Rattle.llrp_endpoints.specs.Calls.Asides.{asides_in, said_in};
ghost use Rattle.llrp_endpoints.specs.Plan as plan;
ghost use Rattle.llrp_endpoints.specs.Calls.Plans as plans;
ghost use Rattle.llrp_endpoints.specs.Calls.PlanLaws.{IsValid};

mod reading;
mod standard;
mod text;

use crate::asides::AsideMessages;
use crate::form::LineForm;
use crate::hearing::Hearing;
use llrp_schema::KindSet;
use llrp_session::{field, first};
use llrp_tree::{Message, Node, ParamKind};
pub use reading::{LONGEST_ROSPEC_TEXT, read_rospec};
pub(crate) use standard::{antenna_inventory, boundary, leaf};
pub use standard::{checked_plan, standard_plan};
use std::marker::Model;
use std::mem;
pub use text::PlanErr;

/// The greatest length of a ROSpec that is given, in octets: a message that adds or lists it alone
/// has at most 4,096.
const LONGEST_ROSPEC: u32 = 4_078;

/// Why a parameter is not taken for the ROSpec of a plan; the tests are made in this order.
#[derive(Clone, Copy, Debug, PartialEq, Eq)]
pub enum PlanFault {
    /// It is not a ROSpec.
    NotRoSpec,
    /// Its ROSpecID is 0, which stands for all ROSpecs, or its CurrentState is not 0.
    Value,
    /// It has more than 4,078 octets.
    OverLimit,
}

/// What a client does with its reader: it adds a ROSpec, enables and starts it, awaits some reports
/// with tags, asks some times for the reports that are held, stops and deletes it, and closes the
/// connection (LLRP 1.1, section 11). A ROSpec that the reader starts itself is not started. One
/// that was given is disabled in place of being stopped. A plan that cleans first deletes the
/// ROSpecs that are there, and one that renews the one with its own id, if there is one. One that
/// keeps alive then asks for KEEPALIVEs. A checked plan compares the reader's table with the
/// client's view before it deletes the ROSpec. One that passes over what is odd goes on where another ends. Its lines are words, unless it is given another form, and the reader's messages are of
/// the profile, unless it is given the whole standard.
#[derive(Drop)]
pub struct Plan {
    rospec: Node,
    /// What is said in place of the ADD_ROSPEC of this one.
    whole: Option<Message>,
    asides: Option<AsideMessages>,
    cleans: bool,
    renews: bool,
    passes: bool,
    adds: bool,
    starts: bool,
    keepalive: u32,
    reports: u64,
    polls: u16,
    checked: bool,
    disables: bool,
    form: LineForm,
    set: KindSet,
}

impl Model for Plan {
    ghost use Rattle.std.specs.Prelude.{◌≡◌, ◌≤◌};
    ghost use Rattle.std.specs.Coded.{codes};
    ghost use Rattle.llrp_tree.specs.Private.Stored.{message_code, tree_code};
    ghost use Rattle.llrp_endpoints.specs.Calls.Asides.{said_in};
    ghost use Rattle.llrp_schema.specs.declared.kinds.ParamKind.TheVariants.{RoSpec};
    ghost use Rattle.llrp_tree.specs.Lawful.{tree_octets};
    ghost use Rattle.llrp_session.specs.RoSpec.{is_kind};
    ghost use Rattle.llrp_endpoints.specs.Plan.{Plan as PlanValue};
    ghost use Rattle.llrp_endpoints.specs.Calls.Plans.{longest_rospec};

    ghost Value = { PlanValue };

    ghost coded = { Prim.hlevel (codes, message_code, tree_code) };

    ghost view = { λ p. record {
      rospec = p.rospec;
      asides = said_in p.asides p.whole;
      cleans = p.cleans;
      renews = p.renews;
      passes = p.passes;
      adds = p.adds;
      starts = p.starts;
      keepalive = p.keepalive;
      reports = p.reports;
      polls = p.polls;
      checked = p.checked;
      disables = p.disables;
      form = p.form;
      set = p.set;
    } };

    ghost invariant = { λ p. (p.rospec.kind ≡ RoSpec)
        × (tree_octets p.rospec ≤ longest_rospec) };
}

impl Plan {
    /// The plan of an inventory with a ROSpec of one's own. It has no other steps than those of the
    /// ROSpec, this many polls, and the check if there is one.
    ///
    /// The ROSpec has to be one, with an id other than 0 and the CurrentState 0, of at most 4,078
    /// octets; the first of these that does not hold is the error. It takes no memory.
    pub fn of(rospec: Node, polls: u16, checked: bool) -> Result<Plan, PlanFault>
        ensures plan { IfOk result (λ p. p ≡ plans.given rospec polls checked) }
        ensures taken { IfOk result (λ p. plans.plan_fault Profile rospec ≡ None) }
        ensures fault { IfErr result (λ fault. plans.plan_fault Profile rospec ≡ Some fault) }
    {
        if let Some(fault) = fault_of(KindSet::Profile, &rospec) {
            return Err(fault);
        }
        let starts = is_commanded(KindSet::Profile, &rospec);
        Ok(Plan {
            rospec,
            whole: None,
            asides: None,
            cleans: false,
            renews: false,
            passes: false,
            adds: true,
            starts,
            keepalive: 0,
            reports: 0,
            polls,
            checked,
            disables: true,
            form: LineForm::Words,
            set: KindSet::Profile,
        })
    }

    /// The same plan, but the reader's ROSpecs are deleted first.
    pub fn cleaning(self) -> Plan
        ensures { result ≡ record self { cleans = true } }
    {
        Plan {
            cleans: true,
            ..self
        }
    }

    /// The same plan, but the reader's ROSpec with the id of this one is deleted first. Whatever the
    /// reader answers to that, the plan goes on.
    pub fn renewing(self) -> Plan
        ensures { result ≡ record self { renews = true } }
    {
        Plan {
            renews: true,
            ..self
        }
    }

    /// The same plan, but what is odd is passed over once the reader has accepted the client: a frame
    /// with a fault, unless it has the id of the pending request, and a lawful message that answers
    /// nothing and that no reader says by itself. It is as if they had not come.
    pub fn passing_over(self) -> Plan
        ensures { result ≡ record self { passes = true } }
    {
        Plan {
            passes: true,
            ..self
        }
    }

    /// The plan that only deletes the reader's ROSpec with the id of this one, whatever the reader
    /// answers, and closes the connection.
    pub fn removing(self) -> Plan
        ensures { result ≡ record self { renews = true; adds = false } }
    {
        Plan {
            renews: true,
            adds: false,
            ..self
        }
    }

    /// The same plan, but the client says these messages besides: right before it enables its ROSpec,
    /// and right before it deletes that one. No answer to them is awaited.
    pub fn saying(self, asides: AsideMessages) -> Plan
        ensures { result ≡ record self {
          asides = record (asides_in (Some asides))
              { whole = self.asides.whole };
        } }
    {
        Plan {
            asides: Some(asides),
            ..self
        }
    }

    /// The same plan, but this message is said in place of ADD_ROSPEC, and the client starts the
    /// ROSpec or does not.
    fn instead(self, whole: Message, starts: bool) -> Plan
        ensures { result ≡ record self {
          asides = record self.asides { whole = Some whole };
          starts = starts;
        } }
    {
        Plan {
            whole: Some(whole),
            starts,
            ..self
        }
    }

    /// Takes what the client says besides, and what it says in place of ADD_ROSPEC, out of the plan.
    pub(crate) fn take_asides(&mut self) -> (Option<AsideMessages>, Option<Message>)
        ensures rest { self.new ≡ record self.old { asides = no_asides } }
        ensures asides { said_in result.0 result.1 ≡ self.old.asides }
    {
        let asides = mem::replace(&mut self.asides, None);
        let whole = mem::replace(&mut self.whole, None);
        (asides, whole)
    }

    /// The same plan, but the reader is asked for a KEEPALIVE each time this many milliseconds have
    /// passed; for 0 it is not asked.
    pub fn keeping(self, keepalive: u32) -> Plan
        ensures { result ≡ record self { keepalive = keepalive } }
    {
        Plan { keepalive, ..self }
    }

    /// The same plan, but this many reports with at least one tag are awaited before the first
    /// poll. With the greatest number a plan lasts: it ends with the connection.
    pub fn awaiting(self, reports: u64) -> Plan
        ensures { result ≡ record self { reports = reports } }
    {
        Plan { reports, ..self }
    }

    /// The same plan, but its lines are printed in this form.
    pub fn in_form(self, form: LineForm) -> Plan
        ensures { result ≡ record self { form = form } }
    {
        Plan { form, ..self }
    }

    /// The same plan, but the reader's messages are read in this set of kinds.
    pub fn in_set(self, set: KindSet) -> Plan
        ensures { result ≡ record self { set = set } }
    {
        Plan { set, ..self }
    }

    /// After how many tags the reader reports; 0 means no number, or that the ROSpec does not say.
    #[tactic(auto, unfolding(llrp_schema::specs::Schema::fields_of, llrp_schema::specs::Schema::rule_of, llrp_schema::specs::Schema::param_rule))]
    pub fn every(&self) -> u16
        ensures { result ≡ plans.every self.now }
    {
        let kind = ParamKind::RoReportSpec;
        field(kind, first(kind, self.rospec.children()), 1) as u16
    }

    /// Whether the client first deletes the ROSpecs that the reader has.
    pub fn cleans(&self) -> bool
        ensures { result ≡ self.now.cleans }
    {
        self.cleans
    }

    /// Whether the client first deletes the reader's ROSpec with the id of its own.
    pub fn renews(&self) -> bool
        ensures { result ≡ self.now.renews }
    {
        self.renews
    }

    /// Whether what is odd is passed over.
    pub fn passes(&self) -> bool
        ensures { result ≡ self.now.passes }
    {
        self.passes
    }

    /// Whether the client adds its ROSpec.
    pub fn adds(&self) -> bool
        ensures { result ≡ self.now.adds }
    {
        self.adds
    }

    /// How the client hears its reader: a plan that renews begins with a request that may be refused.
    pub fn hearing(&self) -> Hearing
        ensures { result ≡ plan.hearing_of self.now }
    {
        Hearing {
            set: self.set,
            excuses: self.renews && !self.cleans,
            passes: self.passes,
        }
    }

    /// How many milliseconds pass between two KEEPALIVEs; 0 if none are asked for.
    pub fn keepalive(&self) -> u32
        ensures { result ≡ self.now.keepalive }
    {
        self.keepalive
    }

    /// How many reports with at least one tag are awaited before the first poll.
    pub fn reports(&self) -> u64
        ensures { result ≡ self.now.reports }
    {
        self.reports
    }

    /// How often the client asks for the reports that are held.
    pub fn polls(&self) -> u16
        ensures { result ≡ self.now.polls }
    {
        self.polls
    }

    /// Whether the reader's table is compared with the client's view before the ROSpec is deleted.
    pub fn is_checked(&self) -> bool
        ensures { result ≡ self.now.checked }
    {
        self.checked
    }

    /// Whether the ROSpec is disabled at the end, in place of being stopped.
    pub fn disables(&self) -> bool
        ensures { result ≡ self.now.disables }
    {
        self.disables
    }

    /// In what form the lines are printed.
    pub fn form(&self) -> LineForm
        ensures { result ≡ self.now.form }
    {
        self.form
    }

    /// The set of kinds in which the reader's messages are read.
    pub fn kind_set(&self) -> KindSet
        ensures { result ≡ self.now.set }
    {
        self.set
    }

    /// The ROSpec.
    pub fn rospec(&self) -> &Node
        ensures { result.now ≡ self.now.rospec }
    {
        &self.rospec
    }

    /// Lets a proof use that a plan's ROSpec is lawful and not too long; does nothing at run time.
    pub fn valid(&self)
        ensures { IsValid self.now }
    {
        self.rospec.lawful();
        let _ = (self.keepalive(), self.reports(), self.polls());
    }

    /// The ROSpec's id.
    #[tactic(auto, unfolding(llrp_schema::specs::Schema::fields_of, llrp_schema::specs::Schema::rule_of, llrp_schema::specs::Schema::param_rule))]
    pub fn rospec_id(&self) -> u32
        ensures { result ≡ plan.rospec_id self.now }
    {
        self.rospec.lawful();
        field(ParamKind::RoSpec, Some(self.rospec()), 0) as u32
    }

    /// Whether the client starts the ROSpec.
    pub(crate) fn is_started(&self) -> bool
        ensures { result ≡ plan.is_started self.now }
    {
        self.starts
    }

    /// Takes the plan apart and returns the ROSpec.
    pub(crate) fn into_rospec(self) -> Node
        ensures rospec { result ≡ self.rospec }
        ensures kind { result.kind ≡ ParamKind.RoSpec }
    {
        self.rospec
    }
}

/// Whether a parameter is of a kind.
#[tactic(auto, using(llrp_tree::proofs::KindLemmas::same_by_number))]
fn is_of_kind(kind: ParamKind, node: &Node) -> bool
    ensures { result ≡ is_kind kind node.now }
{
    kind == node.kind()
}

/// The kind of a ROSpec.
fn rospec_kind(set: KindSet) -> ParamKind
    ensures { result ≡ plans.rospec_kind set }
{
    match set {
        KindSet::Profile => ParamKind::RoSpec,
        KindSet::Standard => ParamKind::WholeRoSpec,
    }
}

/// The kind of a ROBoundarySpec.
fn boundary_kind(set: KindSet) -> ParamKind
    ensures { result ≡ plans.boundary_kind set }
{
    match set {
        KindSet::Profile => ParamKind::RoBoundarySpec,
        KindSet::Standard => ParamKind::WholeRoBoundarySpec,
    }
}

/// The kind of a ROSpecStartTrigger.
fn start_kind(set: KindSet) -> ParamKind
    ensures { result ≡ plans.start_kind set }
{
    match set {
        KindSet::Profile => ParamKind::RoSpecStartTrigger,
        KindSet::Standard => ParamKind::WholeRoSpecStartTrigger,
    }
}

/// Whether a ROSpec starts on START_ROSPEC.
fn is_commanded(set: KindSet, rospec: &Node) -> bool
    ensures { result ≡ plans.is_commanded set rospec.now }
{
    match first(boundary_kind(set), rospec.children()) {
        Some(boundary) => {
            let kind = start_kind(set);
            field(kind, first(kind, boundary.children()), 0) == 0
        }
        None => true,
    }
}

/// Why a parameter cannot be the ROSpec of a plan, if it cannot.
#[tactic(auto, using(llrp_session::proofs::ReadFields::kind_of_test))]
fn fault_of(set: KindSet, rospec: &Node) -> Option<PlanFault>
    ensures fault { result ≡ plans.plan_fault set rospec.now }
    ensures kind { IfNone result (rospec.now.kind ≡ plans.rospec_kind set) }
    ensures short { IfNone result (tree_octets rospec.now ≤ plans.longest_rospec) }
{
    let kind = rospec_kind(set);
    if !is_of_kind(kind, rospec) {
        return Some(PlanFault::NotRoSpec);
    }
    rospec.lawful();
    let is_all = field(kind, Some(rospec), 0) == 0;
    if is_all || field(kind, Some(rospec), 2) != 0 {
        return Some(PlanFault::Value);
    }
    if rospec.length() > LONGEST_ROSPEC {
        return Some(PlanFault::OverLimit);
    }
    None
}
