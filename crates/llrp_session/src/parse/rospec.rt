//! ROSpecs and ROReportSpecs (LLRP 1.1, sections 11 and 14).

ghost use Rattle.std.specs.Prelude.{◌≡◌, ◌≤◌, IfOk, find as find_first, filter};
ghost use Rattle.std.specs.List.{list_any};
ghost use Rattle.llrp_tree.specs.Tree.{Tree, words_of};
ghost use Rattle.llrp_session.specs.RoSpec as spec;
ghost use Rattle.llrp_session.specs.Calls.ReadWords.{behind, IsOfKind};
ghost use Rattle.llrp_session.specs.Private.Settings.{settings_of};
ghost use Rattle.llrp_session.specs.Table.{as_listed, state_number as the_number};
ghost use Rattle.llrp_session.specs.Calls.LawfulWords.{IsToldOf};
ghost use Rattle.llrp_session.specs.Contents.{AddRoSpec};
ghost use Rattle.llrp_session.specs.Reading.{request_of};
ghost use Rattle.llrp_session.specs.ReaderMachine.{lists_antenna as the_test};

use super::find::{field, first, first_below, is_kind};
use super::parsed::Settings;
use super::stored_rospec::RoSpec;
use crate::types::{ContentSelector, ReportSpec, RoState};
use llrp_tree::{Message, Node, Nodes, Octets, ParamKind};
use std::alloc::{AllocError, Global};

/// The parts that a TagReportContentSelector selects.
fn selector(node: Option<&Node>) -> ContentSelector
    requires { IsOfKind ParamKind.TagReportContentSelector (behind node) }
    ensures { result ≡ spec.selector_in (behind node.entry) }
{
    let kind = ParamKind::TagReportContentSelector;
    ContentSelector {
        rospec_id: field(kind, node, 0) == 1,
        spec_index: field(kind, node, 1) == 1,
        inventory_parameter_spec_id: field(kind, node, 2) == 1,
        antenna_id: field(kind, node, 3) == 1,
        channel_index: field(kind, node, 4) == 1,
        peak_rssi: field(kind, node, 5) == 1,
        first_seen: field(kind, node, 6) == 1,
        last_seen: field(kind, node, 7) == 1,
        tag_seen_count: field(kind, node, 8) == 1,
    }
}

/// The first ROReportSpec among some parameters.
#[tactic(auto, unfolding(crate::specs::RoSpec::report_spec_of, llrp_schema::specs::Schema::fields_of, llrp_schema::specs::Schema::rule_of, llrp_schema::specs::Schema::param_rule))]
pub(crate) fn report_spec(nodes: &Nodes) -> Option<ReportSpec>
    ensures { result ≡ spec.report_spec_where (find_first
        (spec.is_kind ParamKind.RoReportSpec) nodes.now) }
{
    let kind = ParamKind::RoReportSpec;
    let node = first(kind, nodes)?;
    let chosen = first(ParamKind::TagReportContentSelector, node.children());
    Some(ReportSpec {
        trigger: field(kind, Some(node), 0) as u8,
        n: field(kind, Some(node), 1) as u16,
        selector: selector(chosen),
    })
}

/// Whether an AISpec has a stop trigger other than 0.
fn stops_by_itself(ai_spec: &Node) -> bool
    ensures { result ≡ spec.stops_by_itself ai_spec.now }
{
    let kind = ParamKind::AiSpecStopTrigger;
    field(kind, first(kind, ai_spec.children()), 0) != 0
}

/// Whether one of the AISpecs among some parameters has a stop trigger other than 0.
fn has_ai_stop(nodes: &Nodes) -> bool
    ensures { result ≡ list_any spec.stops_by_itself (filter
        (spec.is_kind ParamKind.AiSpec) nodes.now) }
{
    for node in nodes.as_slice() {
        if is_kind(ParamKind::AiSpec, node) && stops_by_itself(node) {
            return true;
        }
    }
    false
}

/// Everything that is read in a ROSpec but its antennas.
#[tactic(auto, unfolding(crate::specs::RoSpec::rospec_of, llrp_schema::specs::Schema::fields_of, llrp_schema::specs::Schema::rule_of, llrp_schema::specs::Schema::param_rule))]
pub(crate) fn settings(node: &Node) -> Settings
    requires { node.now.kind ≡ ParamKind.RoSpec }
    ensures { result ≡ settings_of (spec.rospec_of node.now) }
{
    node.lawful();
    let boundary = first(ParamKind::RoBoundarySpec, node.children());
    let start = first_below(ParamKind::RoSpecStartTrigger, boundary);
    let stop = first_below(ParamKind::RoSpecStopTrigger, boundary);
    let ai_spec = first(ParamKind::AiSpec, node.children());
    let inventory = first_below(ParamKind::InventoryParameterSpec, ai_spec);
    Settings {
        id: field(ParamKind::RoSpec, Some(node), 0) as u32,
        current_state: field(ParamKind::RoSpec, Some(node), 2) as u8,
        start_trigger: field(ParamKind::RoSpecStartTrigger, start, 0) as u8,
        stop_trigger: field(ParamKind::RoSpecStopTrigger, stop, 0) as u8,
        duration: field(ParamKind::RoSpecStopTrigger, stop, 1) as u32,
        has_ai_stop: has_ai_stop(node.children()),
        inventory: field(ParamKind::InventoryParameterSpec, inventory, 0) as u16,
        report: report_spec(node.children()),
        octets: node.length(),
    }
}

impl RoSpec {
    /// The ROSpec of an ADD_ROSPEC. It takes no memory.
    pub(crate) fn taken(message: Message) -> RoSpec
        requires { (rospec : Tree) × (request_of message ≡ AddRoSpec rospec) }
        ensures { (rospec : Tree) → request_of message ≡ AddRoSpec rospec
            → result ≡ spec.rospec_of rospec }
    {
        message.lawful();
        let mut children = message.into_children().into_vec();
        match children.pop() {
            Some(spec) => {
                let settings = settings(&spec);
                RoSpec { spec, settings }
            }
            None => unreachable!(),
        }
    }

    /// Lets a proof use that it is lawful and that its numbers fit their fields; does nothing at run time.
    pub(crate) fn told(&self)
        ensures { IsToldOf self.now }
    {
        self.spec.lawful();
    }

    /// The ROSpec as it was added, but with this state.
    pub(crate) fn listed(&self, alloc: Global, state: RoState) -> Result<Node, AllocError>
        ensures listed { IfOk result (λ node. node
            ≡ as_listed (record { spec = self.now; state = state })) }
    {
        self.told();
        let kind = ParamKind::RoSpec;
        let priority = field(kind, Some(&self.spec), 1);
        let fields = [self.settings.id as u128, priority, state_number(state)];
        let children = copies(alloc, self.spec.children())?;
        let tail = Octets::new(Vec::new(alloc));
        match Node::new(kind, &fields, tail, Nodes::new(children)) {
            Ok(node) => Ok(node),
            Err(_) => unreachable!(),
        }
    }

    /// Everything that is read in it but its antennas.
    pub(crate) fn settings(&self) -> &Settings
        ensures { result.now ≡ settings_of self.now }
    {
        &self.settings
    }

    /// Whether its first AISpec lists this antenna, or 0 for all.
    #[tactic(auto, unfolding(crate::specs::RoSpec::rospec_of))]
    pub(crate) fn lists_antenna(&self, antenna: u16) -> bool
        ensures { result ≡ the_test antenna self.now.antennas }
    {
        match first(ParamKind::AiSpec, self.spec.children()) {
            Some(ai_spec) => lists(ai_spec.tail().as_slice(), antenna),
            None => false,
        }
    }
}

/// The number of CurrentState for a state.
pub(crate) fn state_number(state: RoState) -> u128
    ensures number { result ≡ the_number state }
    ensures few { result ≤ 2 }
{
    match state {
        RoState::Disabled => 0,
        RoState::Inactive => 1,
        RoState::Active => 2,
    }
}

/// Copies of parameters.
fn copies(alloc: Global, nodes: &Nodes) -> Result<Vec<Node>, AllocError>
    ensures { IfOk result (λ copies. copies.items ≡ nodes.now) }
{
    let mut copies = Vec::with_capacity(alloc, nodes.as_slice().len())?;
    for node in nodes.as_slice() {
        copies.push(node.try_clone(alloc)?)?;
    }
    Ok(copies)
}

/// Whether the 16-bit words in these octets have this antenna, or 0 for all.
fn lists(octets: &[u8], antenna: u16) -> bool
    ensures { result ≡ the_test antenna (words_of octets.now) }
{
    match octets {
        [high, low, rest @ ..] => {
            let listed = *high as u16 * 256 + *low as u16;
            listed == 0 || listed == antenna || lists(rest, antenna)
        }
        _ => false,
    }
}
