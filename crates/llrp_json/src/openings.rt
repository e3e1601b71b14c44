//! What the objects begin with of the parameters that reports have most of.

ghost use Rattle.std.specs.Prelude.{◌≡◌, IfSome};
ghost use Rattle.llrp_json.specs.Private.Openings.{value_opening};

use llrp_schema::ParamKind;

/// What the object of a parameter of type and value begins with, up to its value, if a TagReportData
/// may have it. It is one text for each, so that it is copied at once.
#[tactic(auto, unfolding(llrp_schema::specs::Schema::name_of, llrp_schema::specs::Schema::fields_of, llrp_schema::specs::Schema::rule_of, llrp_schema::specs::Schema::param_rule))]
pub(crate) fn opening(kind: ParamKind) -> Option<&'static [u8]>
    ensures { IfSome result (λ text. text.now ≡ value_opening kind) }
{
    match kind {
        ParamKind::AntennaId | ParamKind::WholeAntennaId => Some(
            b"{\"parameter\":\"AntennaID\",\"AntennaID\":",
        ),
        ParamKind::FirstSeenTimestampUtc | ParamKind::WholeFirstSeenTimestampUtc => Some(
            b"{\"parameter\":\"FirstSeenTimestampUTC\",\"FirstSeenTimestampUTC\":",
        ),
        ParamKind::FirstSeenTimestampUptime | ParamKind::WholeFirstSeenTimestampUptime => Some(
            b"{\"parameter\":\"FirstSeenTimestampUptime\",\"FirstSeenTimestampUptime\":",
        ),
        ParamKind::LastSeenTimestampUtc | ParamKind::WholeLastSeenTimestampUtc => Some(
            b"{\"parameter\":\"LastSeenTimestampUTC\",\"LastSeenTimestampUTC\":",
        ),
        ParamKind::LastSeenTimestampUptime | ParamKind::WholeLastSeenTimestampUptime => Some(
            b"{\"parameter\":\"LastSeenTimestampUptime\",\"LastSeenTimestampUptime\":",
        ),
        ParamKind::PeakRssi | ParamKind::WholePeakRssi => Some(
            b"{\"parameter\":\"PeakRSSI\",\"PeakRSSI\":",
        ),
        ParamKind::ChannelIndex | ParamKind::WholeChannelIndex => Some(
            b"{\"parameter\":\"ChannelIndex\",\"ChannelIndex\":",
        ),
        ParamKind::TagSeenCount | ParamKind::WholeTagSeenCount => Some(
            b"{\"parameter\":\"TagSeenCount\",\"TagSeenCount\":",
        ),
        ParamKind::RoSpecId | ParamKind::WholeRoSpecId => Some(
            b"{\"parameter\":\"ROSpecID\",\"ROSpecID\":",
        ),
        ParamKind::InventoryParameterSpecId | ParamKind::WholeInventoryParameterSpecId => Some(
            b"{\"parameter\":\"InventoryParameterSpecID\",\"InventoryParameterSpecID\":",
        ),
        ParamKind::C1G2Crc | ParamKind::WholeC1G2Crc => Some(
            b"{\"parameter\":\"C1G2-CRC\",\"C1G2-CRC\":",
        ),
        ParamKind::C1G2Pc | ParamKind::WholeC1G2Pc => Some(
            b"{\"parameter\":\"C1G2-PC\",\"C1G2-PC\":",
        ),
        ParamKind::Epc96 | ParamKind::WholeEpc96 => Some(b"{\"parameter\":\"EPC-96\",\"EPC\":"),
        ParamKind::SpecIndex | ParamKind::WholeSpecIndex => Some(
            b"{\"parameter\":\"SpecIndex\",\"SpecIndex\":",
        ),
        ParamKind::AccessSpecId | ParamKind::WholeAccessSpecId => Some(
            b"{\"parameter\":\"AccessSpecID\",\"AccessSpecID\":",
        ),
        _ => None,
    }
}
