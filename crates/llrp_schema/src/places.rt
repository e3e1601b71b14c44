//! The group of a parent in which a child is counted.

ghost use Rattle.std.specs.Prelude.{◌≡◌, ◌≤◌, ◌<◌, ◌==◌, false, IfNone, IfSome, [], ◌∷◌, length, map};
ghost use Rattle.std.specs.List.{list_any};
ghost use Rattle.llrp_schema.specs.declared.kinds.MsgKind.TheVariants.{SetReaderConfig, AddRoSpec, GetRoSpecsResponse, RoAccessReport, ReaderEventNotification, WholeRoAccessReport};
ghost use Rattle.llrp_schema.specs.declared.kinds.ParamKind.TheVariants.{RoSpec, RoBoundarySpec, RoSpecStartTrigger, PeriodicTriggerValue, RoSpecStopTrigger, AiSpec, AiSpecStopTrigger, InventoryParameterSpec, AntennaConfiguration, RoReportSpec, TagReportContentSelector, TagReportData, ReaderEventNotificationSpec, ReaderEventNotificationData, LlrpStatus, ParameterError, C1G2InventoryCommand, WholeTagReportData};
ghost use Rattle.llrp_schema.specs.Schema.{groups_of, key_of, one};
ghost use Rattle.llrp_schema.specs.Calls.Schema.{group_rule};
ghost use Rattle.llrp_schema.specs.Schema.{has_place};
ghost use Rattle.llrp_schema.specs.Private.Places.{first_place};
ghost use Rattle.llrp_schema.specs.Calls.Places.{IsPlace};

use crate::kinds::{Group, Kind, MsgKind, ParamKind, Place};
use crate::tables::groups;

/// A place in a group that takes one child at most.
macro_rules! once {
    ($index:literal) => {
        Some(Place {
            index: $index,
            once: true,
        })
    };
}

/// A place in a group that takes any number of children.
macro_rules! often {
    ($index:literal) => {
        Some(Place {
            index: $index,
            once: false,
        })
    };
}

/// Returns the place of a child among the groups of its parent: the index of the one group that has
/// the child's kind, from 0 on in the order of the tables (LLRP 1.1, sections 17.1 and 17.2), and
/// whether that group takes at most one child. Returns `None` if the parent has no such children.
///
/// An AntennaID is in the second group of a TagReportData, which takes one: its place is
/// `Some(Place { index: 1, once: true })`. A ROSpec is in none of them.
#[inline(always)]
pub fn place(parent: Kind, child: ParamKind) -> Option<Place>
    ensures none { IfNone result (has_place (groups_of parent) child ≡ false) }
    ensures some { IfSome result (IsPlace (groups_of parent) child) }
{
    first_place(parent, child)
}

/// The place of the first group that has the child's kind.
#[inline(always)]
fn first_place(parent: Kind, child: ParamKind) -> Option<Place>
    ensures { result ≡ first_place (groups_of parent) child }
{
    match parent {
        Kind::Message(kind) => in_message(kind, child),
        Kind::Parameter(kind) => in_parameter(kind, child),
    }
}

/// The place of a child among the groups in its parent's row.
#[inline(never)]
fn place_in_row(parent: Kind, child: ParamKind) -> Option<Place>
    ensures { result ≡ first_place (groups_of parent) child }
{
    place_among(groups(parent), child)
}

/// The place of a child among some groups: that of the first group that has its kind.
fn place_among(groups: &[Group], child: ParamKind) -> Option<Place>
    requires few { length groups.now ≤ 18 }
    ensures place { result ≡ first_place (map group_rule groups.now) child }
    ensures within { IfSome result (λ place. place.index < length groups.now) }
{
    let (group, rest) = groups.split_first()?;
    if has_member(group.members, child) {
        return Some(Place {
            index: 0,
            once: group.most.is_some(),
        });
    }
    let place = place_among(rest, child)?;
    Some(Place {
        index: place.index + 1,
        once: place.once,
    })
}

/// Whether two kinds are the same.
#[inline(always)]
#[tactic(auto, using(crate::proofs::PlaceLemmas::same_by_key))]
fn is_same(member: ParamKind, child: ParamKind) -> bool
    ensures { result ≡ (key_of member == key_of child) }
{
    member == child
}

/// Whether a kind is one of some kinds.
fn has_member(members: &[ParamKind], child: ParamKind) -> bool
    ensures { result ≡ list_any (λ member. key_of member == key_of child) members.now }
{
    members.iter().any(|member| is_same(*member, child))
}

/// The place of a child of a message.
#[tactic(auto, unfolding(crate::specs::Schema::groups_of, crate::specs::Schema::rule_of, crate::specs::Schema::message_rule))]
fn in_message(parent: MsgKind, child: ParamKind) -> Option<Place>
    ensures { result ≡ first_place (groups_of (Kind.Message parent)) child }
{
    match parent {
        MsgKind::SetReaderConfig => in_set_reader_config(child),
        MsgKind::AddRoSpec => in_add_ro_spec(child),
        MsgKind::GetRoSpecsResponse => in_get_ro_specs_response(child),
        MsgKind::RoAccessReport => in_ro_access_report(child),
        MsgKind::WholeRoAccessReport => in_whole_ro_access_report(child),
        MsgKind::ReaderEventNotification => in_reader_event_notification(child),
        MsgKind::CloseConnectionResponse
        | MsgKind::SetReaderConfigResponse
        | MsgKind::AddRoSpecResponse
        | MsgKind::DeleteRoSpecResponse
        | MsgKind::StartRoSpecResponse
        | MsgKind::StopRoSpecResponse
        | MsgKind::EnableRoSpecResponse
        | MsgKind::DisableRoSpecResponse
        | MsgKind::ErrorMessage => in_response(child),
        _ => place_in_row(Kind::Message(parent), child),
    }
}

/// The place of a child of a parameter.
#[tactic(auto, unfolding(crate::specs::Schema::groups_of, crate::specs::Schema::rule_of, crate::specs::Schema::param_rule))]
#[inline(always)]
fn in_parameter(parent: ParamKind, child: ParamKind) -> Option<Place>
    ensures { result ≡ first_place (groups_of (Kind.Parameter parent)) child }
{
    match parent {
        ParamKind::RoSpec => in_ro_spec(child),
        ParamKind::RoBoundarySpec => in_ro_boundary_spec(child),
        ParamKind::RoSpecStartTrigger => in_ro_spec_start_trigger(child),
        ParamKind::PeriodicTriggerValue => in_periodic_trigger_value(child),
        ParamKind::RoSpecStopTrigger => in_ro_spec_stop_trigger(child),
        ParamKind::AiSpec => in_ai_spec(child),
        ParamKind::AiSpecStopTrigger => in_ai_spec_stop_trigger(child),
        ParamKind::InventoryParameterSpec => in_inventory_parameter_spec(child),
        ParamKind::AntennaConfiguration => in_antenna_configuration(child),
        ParamKind::RoReportSpec => in_ro_report_spec(child),
        ParamKind::TagReportContentSelector => in_tag_report_content_selector(child),
        ParamKind::TagReportData => in_tag_report_data(child),
        ParamKind::WholeTagReportData => in_whole_tag_report_data(child),
        ParamKind::ReaderEventNotificationSpec => in_reader_event_notification_spec(child),
        ParamKind::ReaderEventNotificationData => in_reader_event_notification_data(child),
        ParamKind::LlrpStatus => in_llrp_status(child),
        ParamKind::ParameterError => in_parameter_error(child),
        ParamKind::C1G2InventoryCommand => in_c1g2_inventory_command(child),
        _ => place_in_row(Kind::Parameter(parent), child),
    }
}

/// The place of a child of a message whose only child is a status.
#[tactic(auto, unfolding(crate::specs::Schema::groups_of, crate::specs::Schema::rule_of, crate::specs::Schema::param_rule, crate::specs::Schema::number_of, crate::specs::Schema::set_of_kind, crate::specs::Schema::key_of))]
fn in_response(child: ParamKind) -> Option<Place>
    ensures { result ≡ first_place (one LlrpStatus ∷ []) child }
{
    match child {
        ParamKind::LlrpStatus => once!(0),
        _ => None,
    }
}

/// The place of a child of `SetReaderConfig`.
#[tactic(auto, unfolding(crate::specs::Schema::groups_of, crate::specs::Schema::rule_of, crate::specs::Schema::message_rule, crate::specs::Schema::param_rule, crate::specs::Schema::number_of, crate::specs::Schema::set_of_kind, crate::specs::Schema::key_of))]
fn in_set_reader_config(child: ParamKind) -> Option<Place>
    ensures { result ≡ first_place (groups_of (Kind.Message SetReaderConfig)) child }
{
    match child {
        ParamKind::KeepaliveSpec => once!(0),
        ParamKind::EventsAndReports => once!(1),
        ParamKind::RoReportSpec => once!(2),
        ParamKind::ReaderEventNotificationSpec => once!(3),
        ParamKind::AntennaConfiguration => often!(4),
        _ => None,
    }
}

/// The place of a child of `AddRoSpec`.
#[tactic(auto, unfolding(crate::specs::Schema::groups_of, crate::specs::Schema::rule_of, crate::specs::Schema::message_rule, crate::specs::Schema::param_rule, crate::specs::Schema::number_of, crate::specs::Schema::set_of_kind, crate::specs::Schema::key_of))]
fn in_add_ro_spec(child: ParamKind) -> Option<Place>
    ensures { result ≡ first_place (groups_of (Kind.Message AddRoSpec)) child }
{
    match child {
        ParamKind::RoSpec => once!(0),
        _ => None,
    }
}

/// The place of a child of `GetRoSpecsResponse`.
#[tactic(auto, unfolding(crate::specs::Schema::groups_of, crate::specs::Schema::rule_of, crate::specs::Schema::message_rule, crate::specs::Schema::param_rule, crate::specs::Schema::number_of, crate::specs::Schema::set_of_kind, crate::specs::Schema::key_of))]
fn in_get_ro_specs_response(child: ParamKind) -> Option<Place>
    ensures { result ≡ first_place (groups_of (Kind.Message GetRoSpecsResponse)) child }
{
    match child {
        ParamKind::LlrpStatus => once!(0),
        ParamKind::RoSpec => often!(1),
        _ => None,
    }
}

/// The place of a child of `RoAccessReport`.
#[tactic(auto, unfolding(crate::specs::Schema::groups_of, crate::specs::Schema::rule_of, crate::specs::Schema::message_rule, crate::specs::Schema::param_rule, crate::specs::Schema::number_of, crate::specs::Schema::set_of_kind, crate::specs::Schema::key_of))]
fn in_ro_access_report(child: ParamKind) -> Option<Place>
    ensures { result ≡ first_place (groups_of (Kind.Message RoAccessReport)) child }
{
    match child {
        ParamKind::TagReportData => often!(0),
        _ => None,
    }
}

/// The place of a child of `ReaderEventNotification`.
#[tactic(auto, unfolding(crate::specs::Schema::groups_of, crate::specs::Schema::rule_of, crate::specs::Schema::message_rule, crate::specs::Schema::param_rule, crate::specs::Schema::number_of, crate::specs::Schema::set_of_kind, crate::specs::Schema::key_of))]
fn in_reader_event_notification(child: ParamKind) -> Option<Place>
    ensures { result ≡ first_place (groups_of (Kind.Message ReaderEventNotification)) child }
{
    match child {
        ParamKind::ReaderEventNotificationData => once!(0),
        _ => None,
    }
}

/// The place of a child of `RoSpec`.
#[tactic(auto, unfolding(crate::specs::Schema::groups_of, crate::specs::Schema::rule_of, crate::specs::Schema::param_rule, crate::specs::Schema::number_of, crate::specs::Schema::set_of_kind, crate::specs::Schema::key_of))]
fn in_ro_spec(child: ParamKind) -> Option<Place>
    ensures { result ≡ first_place (groups_of (Kind.Parameter RoSpec)) child }
{
    match child {
        ParamKind::RoBoundarySpec => once!(0),
        ParamKind::AiSpec => often!(1),
        ParamKind::RoReportSpec => once!(2),
        _ => None,
    }
}

/// The place of a child of `RoBoundarySpec`.
#[tactic(auto, unfolding(crate::specs::Schema::groups_of, crate::specs::Schema::rule_of, crate::specs::Schema::param_rule, crate::specs::Schema::number_of, crate::specs::Schema::set_of_kind, crate::specs::Schema::key_of))]
fn in_ro_boundary_spec(child: ParamKind) -> Option<Place>
    ensures { result ≡ first_place (groups_of (Kind.Parameter RoBoundarySpec)) child }
{
    match child {
        ParamKind::RoSpecStartTrigger => once!(0),
        ParamKind::RoSpecStopTrigger => once!(1),
        _ => None,
    }
}

/// The place of a child of `RoSpecStartTrigger`.
#[tactic(auto, unfolding(crate::specs::Schema::groups_of, crate::specs::Schema::rule_of, crate::specs::Schema::param_rule, crate::specs::Schema::number_of, crate::specs::Schema::set_of_kind, crate::specs::Schema::key_of))]
fn in_ro_spec_start_trigger(child: ParamKind) -> Option<Place>
    ensures { result ≡ first_place (groups_of (Kind.Parameter RoSpecStartTrigger)) child }
{
    match child {
        ParamKind::PeriodicTriggerValue => once!(0),
        ParamKind::GpiTriggerValue => once!(1),
        _ => None,
    }
}

/// The place of a child of `PeriodicTriggerValue`.
#[tactic(auto, unfolding(crate::specs::Schema::groups_of, crate::specs::Schema::rule_of, crate::specs::Schema::param_rule, crate::specs::Schema::number_of, crate::specs::Schema::set_of_kind, crate::specs::Schema::key_of))]
fn in_periodic_trigger_value(child: ParamKind) -> Option<Place>
    ensures { result ≡ first_place (groups_of (Kind.Parameter PeriodicTriggerValue)) child }
{
    match child {
        ParamKind::UtcTimestamp => once!(0),
        _ => None,
    }
}

/// The place of a child of `RoSpecStopTrigger`.
#[tactic(auto, unfolding(crate::specs::Schema::groups_of, crate::specs::Schema::rule_of, crate::specs::Schema::param_rule, crate::specs::Schema::number_of, crate::specs::Schema::set_of_kind, crate::specs::Schema::key_of))]
fn in_ro_spec_stop_trigger(child: ParamKind) -> Option<Place>
    ensures { result ≡ first_place (groups_of (Kind.Parameter RoSpecStopTrigger)) child }
{
    match child {
        ParamKind::GpiTriggerValue => once!(0),
        _ => None,
    }
}

/// The place of a child of `AiSpec`.
#[tactic(auto, unfolding(crate::specs::Schema::groups_of, crate::specs::Schema::rule_of, crate::specs::Schema::param_rule, crate::specs::Schema::number_of, crate::specs::Schema::set_of_kind, crate::specs::Schema::key_of))]
fn in_ai_spec(child: ParamKind) -> Option<Place>
    ensures { result ≡ first_place (groups_of (Kind.Parameter AiSpec)) child }
{
    match child {
        ParamKind::AiSpecStopTrigger => once!(0),
        ParamKind::InventoryParameterSpec => often!(1),
        _ => None,
    }
}

/// The place of a child of `AiSpecStopTrigger`.
#[tactic(auto, unfolding(crate::specs::Schema::groups_of, crate::specs::Schema::rule_of, crate::specs::Schema::param_rule, crate::specs::Schema::number_of, crate::specs::Schema::set_of_kind, crate::specs::Schema::key_of))]
fn in_ai_spec_stop_trigger(child: ParamKind) -> Option<Place>
    ensures { result ≡ first_place (groups_of (Kind.Parameter AiSpecStopTrigger)) child }
{
    match child {
        ParamKind::GpiTriggerValue => once!(0),
        ParamKind::TagObservationTrigger => once!(1),
        _ => None,
    }
}

/// The place of a child of `InventoryParameterSpec`.
#[tactic(auto, unfolding(crate::specs::Schema::groups_of, crate::specs::Schema::rule_of, crate::specs::Schema::param_rule, crate::specs::Schema::number_of, crate::specs::Schema::set_of_kind, crate::specs::Schema::key_of))]
fn in_inventory_parameter_spec(child: ParamKind) -> Option<Place>
    ensures { result ≡ first_place (groups_of (Kind.Parameter InventoryParameterSpec)) child }
{
    match child {
        ParamKind::AntennaConfiguration => often!(0),
        _ => None,
    }
}

/// The place of a child of `AntennaConfiguration`.
#[tactic(auto, unfolding(crate::specs::Schema::groups_of, crate::specs::Schema::rule_of, crate::specs::Schema::param_rule, crate::specs::Schema::number_of, crate::specs::Schema::set_of_kind, crate::specs::Schema::key_of))]
fn in_antenna_configuration(child: ParamKind) -> Option<Place>
    ensures { result ≡ first_place (groups_of (Kind.Parameter AntennaConfiguration)) child }
{
    match child {
        ParamKind::RfReceiver => once!(0),
        ParamKind::RfTransmitter => once!(1),
        ParamKind::C1G2InventoryCommand => often!(2),
        _ => None,
    }
}

/// The place of a child of `RoReportSpec`.
#[tactic(auto, unfolding(crate::specs::Schema::groups_of, crate::specs::Schema::rule_of, crate::specs::Schema::param_rule, crate::specs::Schema::number_of, crate::specs::Schema::set_of_kind, crate::specs::Schema::key_of))]
fn in_ro_report_spec(child: ParamKind) -> Option<Place>
    ensures { result ≡ first_place (groups_of (Kind.Parameter RoReportSpec)) child }
{
    match child {
        ParamKind::TagReportContentSelector => once!(0),
        _ => None,
    }
}

/// The place of a child of `TagReportContentSelector`.
#[tactic(auto, unfolding(crate::specs::Schema::groups_of, crate::specs::Schema::rule_of, crate::specs::Schema::param_rule, crate::specs::Schema::number_of, crate::specs::Schema::set_of_kind, crate::specs::Schema::key_of))]
fn in_tag_report_content_selector(child: ParamKind) -> Option<Place>
    ensures { result ≡ first_place (groups_of (Kind.Parameter TagReportContentSelector)) child }
{
    match child {
        ParamKind::C1G2EpcMemorySelector => often!(0),
        _ => None,
    }
}

/// The place of a child of `TagReportData`.
#[tactic(auto, unfolding(crate::specs::Schema::groups_of, crate::specs::Schema::rule_of, crate::specs::Schema::param_rule, crate::specs::Schema::number_of, crate::specs::Schema::set_of_kind, crate::specs::Schema::key_of))]
#[inline(always)]
fn in_tag_report_data(child: ParamKind) -> Option<Place>
    ensures { result ≡ first_place (groups_of (Kind.Parameter TagReportData)) child }
{
    match child {
        ParamKind::Epc96 | ParamKind::EpcData => once!(0),
        ParamKind::AntennaId => once!(1),
        ParamKind::FirstSeenTimestampUtc => once!(2),
        ParamKind::FirstSeenTimestampUptime => once!(3),
        ParamKind::LastSeenTimestampUtc => once!(4),
        ParamKind::LastSeenTimestampUptime => once!(5),
        ParamKind::PeakRssi => once!(6),
        ParamKind::ChannelIndex => once!(7),
        ParamKind::TagSeenCount => once!(8),
        ParamKind::RoSpecId => once!(9),
        ParamKind::InventoryParameterSpecId => once!(10),
        ParamKind::SpecIndex => once!(11),
        ParamKind::AccessSpecId => once!(12),
        ParamKind::C1G2Crc => often!(13),
        ParamKind::C1G2Pc => often!(14),
        _ => None,
    }
}

/// The place of a child of `ReaderEventNotificationSpec`.
#[tactic(auto, unfolding(crate::specs::Schema::groups_of, crate::specs::Schema::rule_of, crate::specs::Schema::param_rule, crate::specs::Schema::number_of, crate::specs::Schema::set_of_kind, crate::specs::Schema::key_of))]
fn in_reader_event_notification_spec(child: ParamKind) -> Option<Place>
    ensures { result ≡ first_place (groups_of (Kind.Parameter ReaderEventNotificationSpec)) child }
{
    match child {
        ParamKind::EventNotificationState => often!(0),
        _ => None,
    }
}

/// The place of a child of `ReaderEventNotificationData`.
#[tactic(auto, unfolding(crate::specs::Schema::groups_of, crate::specs::Schema::rule_of, crate::specs::Schema::param_rule, crate::specs::Schema::number_of, crate::specs::Schema::set_of_kind, crate::specs::Schema::key_of))]
fn in_reader_event_notification_data(child: ParamKind) -> Option<Place>
    ensures { result ≡ first_place (groups_of (Kind.Parameter ReaderEventNotificationData)) child }
{
    match child {
        ParamKind::UtcTimestamp | ParamKind::Uptime => once!(0),
        ParamKind::GpiEvent => once!(1),
        ParamKind::RoSpecEvent => once!(2),
        ParamKind::ReportBufferLevelWarningEvent => once!(3),
        ParamKind::ReportBufferOverflowErrorEvent => once!(4),
        ParamKind::AiSpecEvent => once!(5),
        ParamKind::AntennaEvent => once!(6),
        ParamKind::ConnectionAttemptEvent => once!(7),
        ParamKind::ConnectionCloseEvent => once!(8),
        _ => None,
    }
}

/// The place of a child of `LlrpStatus`.
#[tactic(auto, unfolding(crate::specs::Schema::groups_of, crate::specs::Schema::rule_of, crate::specs::Schema::param_rule, crate::specs::Schema::number_of, crate::specs::Schema::set_of_kind, crate::specs::Schema::key_of))]
fn in_llrp_status(child: ParamKind) -> Option<Place>
    ensures { result ≡ first_place (groups_of (Kind.Parameter LlrpStatus)) child }
{
    match child {
        ParamKind::FieldError => once!(0),
        ParamKind::ParameterError => once!(1),
        _ => None,
    }
}

/// The place of a child of `ParameterError`.
#[tactic(auto, unfolding(crate::specs::Schema::groups_of, crate::specs::Schema::rule_of, crate::specs::Schema::param_rule, crate::specs::Schema::number_of, crate::specs::Schema::set_of_kind, crate::specs::Schema::key_of))]
fn in_parameter_error(child: ParamKind) -> Option<Place>
    ensures { result ≡ first_place (groups_of (Kind.Parameter ParameterError)) child }
{
    match child {
        ParamKind::FieldError => once!(0),
        ParamKind::ParameterError => once!(1),
        _ => None,
    }
}

/// The place of a child of `C1G2InventoryCommand`.
#[tactic(auto, unfolding(crate::specs::Schema::groups_of, crate::specs::Schema::rule_of, crate::specs::Schema::param_rule, crate::specs::Schema::number_of, crate::specs::Schema::set_of_kind, crate::specs::Schema::key_of))]
fn in_c1g2_inventory_command(child: ParamKind) -> Option<Place>
    ensures { result ≡ first_place (groups_of (Kind.Parameter C1G2InventoryCommand)) child }
{
    match child {
        ParamKind::C1G2RfControl => once!(0),
        ParamKind::C1G2SingulationControl => once!(1),
        _ => None,
    }
}

/// The place of a child of `TagReportData` in the whole standard; that of a value of the profile is found at once.
#[tactic(auto, unfolding(crate::specs::Schema::groups_of, crate::specs::Schema::rule_of, crate::specs::Schema::param_rule, crate::specs::Schema::number_of, crate::specs::Schema::set_of_kind, crate::specs::Schema::key_of))]
#[inline(always)]
fn in_whole_tag_report_data(child: ParamKind) -> Option<Place>
    ensures { result ≡ first_place (groups_of (Kind.Parameter WholeTagReportData)) child }
{
    match child {
        ParamKind::WholeEpc96 | ParamKind::WholeEpcData => once!(0),
        ParamKind::WholeAntennaId => once!(1),
        ParamKind::WholeFirstSeenTimestampUtc => once!(2),
        ParamKind::WholeFirstSeenTimestampUptime => once!(3),
        ParamKind::WholeLastSeenTimestampUtc => once!(4),
        ParamKind::WholeLastSeenTimestampUptime => once!(5),
        ParamKind::WholePeakRssi => once!(6),
        ParamKind::WholeChannelIndex => once!(7),
        ParamKind::WholeTagSeenCount => once!(8),
        ParamKind::WholeRoSpecId => once!(9),
        ParamKind::WholeInventoryParameterSpecId => once!(10),
        ParamKind::WholeSpecIndex => once!(11),
        ParamKind::WholeAccessSpecId => once!(12),
        ParamKind::WholeC1G2Crc => often!(13),
        ParamKind::WholeC1G2Pc => often!(14),
        ParamKind::WholeC1g2xpcw1 | ParamKind::WholeC1g2xpcw2 => often!(15),
        ParamKind::WholeCustom => often!(17),
        _ => place_in_row(Kind::Parameter(ParamKind::WholeTagReportData), child),
    }
}

/// The place of a child of `RoAccessReport` in the whole standard; that of a tag report is found at once.
#[tactic(auto, unfolding(crate::specs::Schema::groups_of, crate::specs::Schema::rule_of, crate::specs::Schema::message_rule, crate::specs::Schema::param_rule, crate::specs::Schema::number_of, crate::specs::Schema::set_of_kind, crate::specs::Schema::key_of))]
#[inline(always)]
fn in_whole_ro_access_report(child: ParamKind) -> Option<Place>
    ensures { result ≡ first_place (groups_of (Kind.Message WholeRoAccessReport)) child }
{
    match child {
        ParamKind::WholeTagReportData => often!(0),
        _ => place_in_row(Kind::Message(MsgKind::WholeRoAccessReport), child),
    }
}
