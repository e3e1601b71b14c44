//! The names of the kinds, each in 48 octets.

ghost use Rattle.std.specs.Prelude.{◌≡◌, ◌≤◌, take};
ghost use Rattle.llrp_schema.specs.Schema.{name_of};

use crate::kinds::{Kind, Label, MsgKind, ParamKind};
use crate::row_macros::label;
use crate::whole::labels;

/// The names of the messages of the profile, in the order in which `MsgKind` lists them.
static MESSAGES: [Label; 25] = [
    label!(17, b"SET_READER_CONFIG                               "),
    label!(25, b"CLOSE_CONNECTION_RESPONSE                       "),
    label!(26, b"SET_READER_CONFIG_RESPONSE                      "),
    label!(16, b"CLOSE_CONNECTION                                "),
    label!(10, b"ADD_ROSPEC                                      "),
    label!(13, b"DELETE_ROSPEC                                   "),
    label!(12, b"START_ROSPEC                                    "),
    label!(11, b"STOP_ROSPEC                                     "),
    label!(13, b"ENABLE_ROSPEC                                   "),
    label!(14, b"DISABLE_ROSPEC                                  "),
    label!(11, b"GET_ROSPECS                                     "),
    label!(19, b"ADD_ROSPEC_RESPONSE                             "),
    label!(22, b"DELETE_ROSPEC_RESPONSE                          "),
    label!(21, b"START_ROSPEC_RESPONSE                           "),
    label!(20, b"STOP_ROSPEC_RESPONSE                            "),
    label!(22, b"ENABLE_ROSPEC_RESPONSE                          "),
    label!(23, b"DISABLE_ROSPEC_RESPONSE                         "),
    label!(20, b"GET_ROSPECS_RESPONSE                            "),
    label!(10, b"GET_REPORT                                      "),
    label!(16, b"RO_ACCESS_REPORT                                "),
    label!(9, b"KEEPALIVE                                       "),
    label!(25, b"READER_EVENT_NOTIFICATION                       "),
    label!(25, b"ENABLE_EVENTS_AND_REPORTS                       "),
    label!(13, b"KEEPALIVE_ACK                                   "),
    label!(13, b"ERROR_MESSAGE                                   "),
];

/// The names of the parameters of the profile, in the order in which `ParamKind` lists them.
static PARAMETERS: [Label; 54] = [
    label!(9, b"AntennaID                                       "),
    label!(21, b"FirstSeenTimestampUTC                           "),
    label!(24, b"FirstSeenTimestampUptime                        "),
    label!(20, b"LastSeenTimestampUTC                            "),
    label!(23, b"LastSeenTimestampUptime                         "),
    label!(8, b"PeakRSSI                                        "),
    label!(12, b"ChannelIndex                                    "),
    label!(12, b"TagSeenCount                                    "),
    label!(8, b"ROSpecID                                        "),
    label!(24, b"InventoryParameterSpecID                        "),
    label!(8, b"C1G2-CRC                                        "),
    label!(7, b"C1G2-PC                                         "),
    label!(6, b"EPC-96                                          "),
    label!(9, b"SpecIndex                                       "),
    label!(12, b"AccessSpecID                                    "),
    label!(12, b"UTCTimestamp                                    "),
    label!(6, b"Uptime                                          "),
    label!(6, b"ROSpec                                          "),
    label!(14, b"ROBoundarySpec                                  "),
    label!(18, b"ROSpecStartTrigger                              "),
    label!(20, b"PeriodicTriggerValue                            "),
    label!(15, b"GPITriggerValue                                 "),
    label!(17, b"ROSpecStopTrigger                               "),
    label!(6, b"AISpec                                          "),
    label!(17, b"AISpecStopTrigger                               "),
    label!(21, b"TagObservationTrigger                           "),
    label!(22, b"InventoryParameterSpec                          "),
    label!(13, b"KeepaliveSpec                                   "),
    label!(20, b"AntennaConfiguration                            "),
    label!(10, b"RFReceiver                                      "),
    label!(13, b"RFTransmitter                                   "),
    label!(16, b"EventsAndReports                                "),
    label!(12, b"ROReportSpec                                    "),
    label!(24, b"TagReportContentSelector                        "),
    label!(13, b"TagReportData                                   "),
    label!(7, b"EPCData                                         "),
    label!(27, b"ReaderEventNotificationSpec                     "),
    label!(22, b"EventNotificationState                          "),
    label!(27, b"ReaderEventNotificationData                     "),
    label!(8, b"GPIEvent                                        "),
    label!(11, b"ROSpecEvent                                     "),
    label!(29, b"ReportBufferLevelWarningEvent                   "),
    label!(30, b"ReportBufferOverflowErrorEvent                  "),
    label!(11, b"AISpecEvent                                     "),
    label!(12, b"AntennaEvent                                    "),
    label!(22, b"ConnectionAttemptEvent                          "),
    label!(20, b"ConnectionCloseEvent                            "),
    label!(10, b"LLRPStatus                                      "),
    label!(10, b"FieldError                                      "),
    label!(14, b"ParameterError                                  "),
    label!(20, b"C1G2InventoryCommand                            "),
    label!(13, b"C1G2RFControl                                   "),
    label!(22, b"C1G2SingulationControl                          "),
    label!(21, b"C1G2EPCMemorySelector                           "),
];

/// Returns the name of a kind (LLRP 1.1, sections 17.1 and 17.2) at the front of 48 octets, so that
/// a fixed number of them can be copied, and how many octets it has. What follows the name has no
/// meaning.
///
/// The label of a KEEPALIVE has 9 octets.
#[inline(always)]
pub fn label(kind: Kind) -> &'static Label
    ensures name { take result.now.octets result.now.text ≡ name_of kind }
    ensures within { result.now.octets ≤ 48 }
{
    match kind {
        Kind::Message(kind) => message_label(kind),
        Kind::Parameter(kind) => parameter_label(kind),
    }
}

/// The name of a message.
#[inline(always)]
#[tactic(auto, unfolding(crate::specs::Schema::name_of, crate::specs::Schema::rule_of, crate::specs::Schema::message_rule))]
fn message_label(kind: MsgKind) -> &'static Label
    ensures name { take result.now.octets result.now.text ≡ name_of (Kind.Message kind) }
    ensures within { result.now.octets ≤ 48 }
{
    let index = kind as usize;
    if index < 25 {
        &MESSAGES[index]
    } else {
        &labels::MESSAGES[index - 25]
    }
}

/// The name of a parameter.
#[inline(always)]
#[tactic(auto, unfolding(crate::specs::Schema::name_of, crate::specs::Schema::rule_of, crate::specs::Schema::param_rule))]
fn parameter_label(kind: ParamKind) -> &'static Label
    ensures name { take result.now.octets result.now.text ≡ name_of (Kind.Parameter kind) }
    ensures within { result.now.octets ≤ 48 }
{
    let index = kind as usize;
    if index < 54 {
        &PARAMETERS[index]
    } else if index < 95 {
        &labels::EARLY_PARAMETERS[index - 54]
    } else if index < 136 {
        &labels::MIDDLE_PARAMETERS[index - 95]
    } else {
        &labels::LATE_PARAMETERS[index - 136]
    }
}
