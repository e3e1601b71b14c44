//! Where a reader's machine refuses a request with M_FieldError.

ghost use Rattle.std.specs.Prelude.{◌≡◌, IfOk, filter, find as find_first};
ghost use Rattle.std.specs.List.{list_any};
ghost use Rattle.llrp_session.specs.ReaderMachine as machine;
ghost use Rattle.llrp_session.specs.Reading.{config_in, request_of};
ghost use Rattle.llrp_session.specs.RoSpec as spec;
ghost use Rattle.llrp_live.specs.Calls.RefusedRequests as refused;
ghost use Rattle.llrp_live.specs.Private.RefusedRequests.{value_below};

use crate::fault_places::FaultPlace;
use crate::starts::is_parameter;
use llrp_endpoints::own_message;
use llrp_schema::{Kind, number};
use llrp_session::{field, first};
use llrp_tree::{Message, MsgKind, Node, Nodes, ParamKind, Reason};
use std::alloc::{AllocError, Global};

/// The status M_FieldError (LLRP 1.1, section 15).
const FIELD_ERROR: u128 = 101;

/// A field for whose value a reader's machine refuses a request.
#[derive(Clone, Copy, Debug, PartialEq, Eq)]
pub enum RefusedField {
    /// The ROSpecID of a request that names a ROSpec.
    NamedId,
    /// The ROSpecID of a new ROSpec.
    RoSpecId,
    /// Its CurrentState.
    CurrentState,
    /// The type of its ROSpecStartTrigger.
    StartTrigger,
    /// The type of its ROSpecStopTrigger.
    StopTrigger,
    /// The type of an AISpecStopTrigger in it.
    AiStopTrigger,
    /// The ROReportTrigger of its ROReportSpec.
    ReportTrigger,
    /// The ROReportTrigger of settings.
    DefaultReportTrigger,
    /// The period of a KeepaliveSpec in them.
    KeepalivePeriod,
}

/// The type of a kind of parameters.
fn type_of(kind: ParamKind) -> u16
    ensures { result ≡ refused.number kind }
{
    number(Kind::Parameter(kind))
}

/// A field of the innermost of this many parameters of these types, the outermost first.
fn value_at(levels: [u16; 3], depth: usize, field: u16) -> FaultPlace
    ensures { result ≡ value_below levels depth field }
{
    let [first, second, third] = levels;
    FaultPlace {
        types: [
            first, second, third, 0, 0, 0, 0, 0, 0, 0, 0, 0, 0, 0, 0, 0, 0,
        ],
        depth,
        field: Some(field),
        reason: Reason::Value,
    }
}

/// Where a field stands.
fn place_of(field: RefusedField) -> FaultPlace
    ensures { result ≡ refused.place_of field }
{
    let rospec = type_of(ParamKind::RoSpec);
    let boundary = type_of(ParamKind::RoBoundarySpec);
    let report = type_of(ParamKind::RoReportSpec);
    match field {
        RefusedField::NamedId => value_at([0, 0, 0], 0, 1),
        RefusedField::RoSpecId => value_at([rospec, 0, 0], 1, 1),
        RefusedField::CurrentState => value_at([rospec, 0, 0], 1, 3),
        RefusedField::StartTrigger => {
            let trigger = type_of(ParamKind::RoSpecStartTrigger);
            value_at([rospec, boundary, trigger], 3, 1)
        }
        RefusedField::StopTrigger => {
            let trigger = type_of(ParamKind::RoSpecStopTrigger);
            value_at([rospec, boundary, trigger], 3, 1)
        }
        RefusedField::AiStopTrigger => {
            let ai_spec = type_of(ParamKind::AiSpec);
            let trigger = type_of(ParamKind::AiSpecStopTrigger);
            value_at([rospec, ai_spec, trigger], 3, 1)
        }
        RefusedField::ReportTrigger => value_at([rospec, report, 0], 2, 1),
        RefusedField::DefaultReportTrigger => value_at([report, 0, 0], 1, 1),
        RefusedField::KeepalivePeriod => value_at([type_of(ParamKind::KeepaliveSpec), 0, 0], 1, 2),
    }
}

/// Whether the first ROReportSpec among some parameters has an ROReportTrigger above 2.
#[tactic(auto, unfolding(llrp_session::specs::RoSpec::report_spec_of))]
fn is_bad_report(nodes: &Nodes) -> bool
    ensures { result ≡ machine.is_bad_report (spec.report_spec_where (find_first
        (spec.is_kind ParamKind.RoReportSpec) nodes.now)) }
{
    match first(ParamKind::RoReportSpec, nodes) {
        Some(report) => field(ParamKind::RoReportSpec, Some(report), 0) > 2,
        None => false,
    }
}

/// Whether an AISpec has a stop trigger other than 0.
fn stops_by_itself(ai_spec: &Node) -> bool
    ensures { result ≡ spec.stops_by_itself ai_spec.now }
{
    let kind = ParamKind::AiSpecStopTrigger;
    field(kind, first(kind, ai_spec.children()), 0) != 0
}

/// Whether a parameter is of a kind of the profile.
#[tactic(auto, using(llrp_tree::proofs::KindLemmas::same_by_number))]
fn is_kind(kind: ParamKind, node: &Node) -> bool
    ensures { result ≡ spec.is_kind kind node.now }
{
    kind == node.kind()
}

/// Whether one of the AISpecs among some parameters has a stop trigger other than 0.
fn has_ai_stop(nodes: &Nodes) -> bool
    ensures { result ≡ list_any spec.stops_by_itself (filter
        (spec.is_kind ParamKind.AiSpec) nodes.now) }
{
    for node in nodes.as_slice() {
        if is_kind(ParamKind::AiSpec, node) && stops_by_itself(node) {
            return true;
        }
    }
    false
}

/// The type of a trigger in the first ROBoundarySpec among some parameters, or 0.
fn trigger_type(kind: ParamKind, nodes: &Nodes) -> u128
    ensures { result ≡ spec.field_of 0 (spec.first_below kind
        (find_first (spec.is_kind ParamKind.RoBoundarySpec) nodes.now)) }
{
    match first(ParamKind::RoBoundarySpec, nodes) {
        Some(boundary) => field(kind, first(kind, boundary.children()), 0),
        None => 0,
    }
}

/// The field for which a ROSpec is refused, where it is.
#[tactic(auto, unfolding(llrp_session::specs::RoSpec::rospec_of))]
fn rospec_field(rospec: &Node) -> RefusedField
    ensures { result ≡ refused.rospec_field (spec.rospec_of rospec.now) }
{
    let children = rospec.children();
    let start_trigger = trigger_type(ParamKind::RoSpecStartTrigger, children);
    if rospec.fields().get(2).copied().unwrap_or(0) != 0 {
        RefusedField::CurrentState
    } else if start_trigger == 2 || start_trigger == 3 {
        RefusedField::StartTrigger
    } else if trigger_type(ParamKind::RoSpecStopTrigger, children) == 2 {
        RefusedField::StopTrigger
    } else if has_ai_stop(children) {
        RefusedField::AiStopTrigger
    } else if is_bad_report(children) {
        RefusedField::ReportTrigger
    } else {
        RefusedField::RoSpecId
    }
}

/// The field for which settings are refused, where they are.
fn settings_field(message: &Message) -> RefusedField
    ensures { result ≡ refused.settings_field (config_in message.now.fields message.now.children) }
{
    if is_bad_report(message.children()) {
        RefusedField::DefaultReportTrigger
    } else {
        RefusedField::KeepalivePeriod
    }
}

/// The field for which a message of the profile is refused, where it is for one.
#[tactic(auto, unfolding(llrp_session::specs::Reading::request_of))]
fn refused_field(message: &Message) -> Option<RefusedField>
    ensures { result ≡ refused.refused_field (request_of message.now) }
{
    match message.kind() {
        MsgKind::AddRoSpec => match first(ParamKind::RoSpec, message.children()) {
            Some(rospec) => Some(rospec_field(rospec)),
            None => None,
        },
        MsgKind::SetReaderConfig => Some(settings_field(message)),
        MsgKind::DeleteRoSpec
        | MsgKind::EnableRoSpec
        | MsgKind::DisableRoSpec
        | MsgKind::StartRoSpec
        | MsgKind::StopRoSpec => Some(RefusedField::NamedId),
        _ => None,
    }
}

/// Whether parameters begin with an LLRPStatus of M_FieldError.
fn has_field_error(nodes: &[Node]) -> bool
    ensures { result ≡ refused.has_field_error nodes.now }
{
    match nodes {
        [first, ..] => {
            is_parameter(first, ParamKind::LlrpStatus)
                && first.fields().get(0).copied().unwrap_or(0) == FIELD_ERROR
        }
        [] => false,
    }
}

/// Whether the first of these messages begins with an LLRPStatus of M_FieldError.
fn says_field_error(said: &[Message]) -> bool
    ensures { result ≡ refused.says_field_error said.now }
{
    match said {
        [first, ..] => has_field_error(first.children().as_slice()),
        [] => false,
    }
}

/// Where what a reader takes of a request is refused, where it is for a field.
fn place_in(own: &Message) -> Option<FaultPlace>
    ensures { result ≡ refused.place_in own.now }
{
    match refused_field(own) {
        Some(field) => Some(place_of(field)),
        None => None,
    }
}

/// Where a request is refused to which a reader said these messages, if the first of them says
/// M_FieldError and the reader serves such requests. The only error is that memory ran out.
pub fn refused_place(
    alloc: Global,
    request: &Message,
    said: &[Message],
) -> Result<Option<FaultPlace>, AllocError>
    ensures { IfOk result (λ place. place ≡ refused.refused_place request.now said.now) }
{
    if !says_field_error(said) {
        return Ok(None);
    }
    match own_message(alloc, request)? {
        Some(own) => Ok(place_in(&own)),
        None => Ok(None),
    }
}
