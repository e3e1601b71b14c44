//! The groups of a parent that need a child.

ghost use Rattle.std.specs.Prelude.{◌≡◌};
ghost use Rattle.llrp_schema.specs.Schema.{groups_of};
ghost use Rattle.llrp_schema.specs.Private.Places.{least_bits};
ghost use Rattle.llrp_schema.specs.Calls.Places.{AreRequired};

use crate::kinds::{Kind, MsgKind, ParamKind};

/// Returns the groups of a kind that need a child, as bits: bit k, from the lowest on, is set
/// exactly if the group with index k needs one, from 0 on in the order of the tables (LLRP 1.1,
/// sections 17.1 and 17.2).
///
/// A ROSpec needs a ROBoundarySpec (its first group) and an AISpec (its second), and may have a
/// ROReportSpec: `required` returns `0b011`.
#[inline(always)]
pub fn required(kind: Kind) -> u32
    ensures { AreRequired (groups_of kind) result }
{
    least_bits(kind)
}

/// The least numbers of a kind's groups, each as a bit.
#[inline(always)]
fn least_bits(kind: Kind) -> u32
    ensures { result ≡ least_bits (groups_of kind) }
{
    match kind {
        Kind::Message(kind) => message_bits(kind),
        Kind::Parameter(kind) => parameter_bits(kind),
    }
}

/// The least numbers of a message's groups, each as a bit.
#[inline(always)]
#[tactic(auto, unfolding(crate::specs::Schema::groups_of, crate::specs::Schema::rule_of, crate::specs::Schema::message_rule))]
fn message_bits(kind: MsgKind) -> u32
    ensures { result ≡ least_bits (groups_of (Kind.Message kind)) }
{
    match kind {
        MsgKind::CloseConnectionResponse
        | MsgKind::SetReaderConfigResponse
        | MsgKind::AddRoSpec
        | MsgKind::AddRoSpecResponse
        | MsgKind::DeleteRoSpecResponse
        | MsgKind::StartRoSpecResponse
        | MsgKind::StopRoSpecResponse
        | MsgKind::EnableRoSpecResponse
        | MsgKind::DisableRoSpecResponse
        | MsgKind::GetRoSpecsResponse
        | MsgKind::ReaderEventNotification
        | MsgKind::ErrorMessage
        | MsgKind::WholeCloseConnectionResponse
        | MsgKind::WholeGetReaderCapabilitiesResponse
        | MsgKind::WholeGetReaderConfigResponse
        | MsgKind::WholeSetReaderConfigResponse
        | MsgKind::WholeAddRoSpec
        | MsgKind::WholeAddRoSpecResponse
        | MsgKind::WholeDeleteRoSpecResponse
        | MsgKind::WholeStartRoSpecResponse
        | MsgKind::WholeStopRoSpecResponse
        | MsgKind::WholeEnableRoSpecResponse
        | MsgKind::WholeDisableRoSpecResponse
        | MsgKind::WholeGetRoSpecsResponse
        | MsgKind::WholeAddAccessSpec
        | MsgKind::WholeClientRequestOp
        | MsgKind::WholeAddAccessSpecResponse
        | MsgKind::WholeDeleteAccessSpecResponse
        | MsgKind::WholeEnableAccessSpecResponse
        | MsgKind::WholeDisableAccessSpecResponse
        | MsgKind::WholeGetAccessSpecsResponse
        | MsgKind::WholeClientRequestOpResponse
        | MsgKind::WholeGetSupportedVersionResponse
        | MsgKind::WholeSetProtocolVersionResponse
        | MsgKind::WholeReaderEventNotification
        | MsgKind::WholeErrorMessage => 0b1,
        _ => 0,
    }
}

/// The least numbers of a parameter's groups, each as a bit.
#[inline(always)]
#[tactic(auto, unfolding(crate::specs::Schema::groups_of, crate::specs::Schema::rule_of, crate::specs::Schema::param_rule))]
fn parameter_bits(kind: ParamKind) -> u32
    ensures { result ≡ least_bits (groups_of (Kind.Parameter kind)) }
{
    match kind {
        ParamKind::RoSpec
        | ParamKind::RoBoundarySpec
        | ParamKind::AiSpec
        | ParamKind::WholeRoSpec
        | ParamKind::WholeRoBoundarySpec
        | ParamKind::WholeAiSpec
        | ParamKind::WholeAccessSpec
        | ParamKind::WholeAccessCommand => 0b11,
        ParamKind::RoReportSpec
        | ParamKind::TagReportData
        | ParamKind::ReaderEventNotificationSpec
        | ParamKind::ReaderEventNotificationData
        | ParamKind::WholeRfSurveySpec
        | ParamKind::WholeClientRequestResponse
        | ParamKind::WholeRoReportSpec
        | ParamKind::WholeTagReportData
        | ParamKind::WholeFrequencyRssiLevelEntry
        | ParamKind::WholeReaderEventNotificationSpec
        | ParamKind::WholeReaderEventNotificationData
        | ParamKind::WholeC1G2UhfRfModeTable
        | ParamKind::WholeC1G2Filter
        | ParamKind::WholeC1G2TagSpec
        | ParamKind::WholeC1G2Lock => 0b1,
        ParamKind::WholeGeneralDeviceCapabilities => 0b1101,
        ParamKind::WholeUhfBandCapabilities => 0b111,
        ParamKind::WholeRfSurveyReportData => 0b100,
        _ => 0,
    }
}
