//! The objects of tags in JSON.

ghost use Rattle.std.specs.Prelude.{◌||◌, ◌≡◌, ◌++◌, List, OnOk, codes, false, ℕ};
ghost use Rattle.std.specs.List.{flat_map};
ghost use Rattle.std.specs.Option.{option_or};
ghost use Rattle.llrp_session.specs.Calls.ReadWords.{IsOfKind, behind};
ghost use Rattle.llrp_session.specs.RoSpec.{first_of};
ghost use Rattle.llrp_tree.specs.Tree.{forest};
ghost use Rattle.llrp_json.specs.JsonItems.{AreParameters, more_members, parameters_members};
ghost use Rattle.llrp_endpoints.specs.declared.form.LineForm.TheVariants.{Full, Json};
ghost use Rattle.llrp_endpoints.specs.Private.Objects.{AppendsWithEpc, added, epc_member, full_members, members_of, name_text, totals_object};
ghost use Rattle.llrp_endpoints.specs.TagLines.{antenna_text, full_line, other_member, rssi_text, tag_line};

use super::tag_lines::push_epc;
use crate::summary::Summary;
use llrp_json::push_parameters;
use llrp_listing::Text;
use llrp_schema::{Kind, name};
use llrp_session::{field, first};
use llrp_tree::{Node, ParamKind};
use std::alloc::AllocError;

/// Appends the name of a member and a colon, after a comma if other members come before.
fn push_name(text: &mut Text, begun: bool, name: &[u8]) -> Result<(), AllocError>
    ensures { OnOk result (text.new ≡ text.old ++ name_text begun name.now) }
{
    let before: &[u8] = if begun { b",\"" } else { b"\"" };
    text.push_text(before)?;
    text.push_text(name)?;
    text.push_text(b"\":")
}

/// The EPC of a tag, if it has one: an EPC-96, or else an EPCData.
fn epc_of(tag: &Node) -> Option<&Node>
    ensures { behind result ≡ option_or (first_of ParamKind.Epc96 tag.now)
        (first_of ParamKind.EpcData tag.now) }
{
    match first(ParamKind::Epc96, tag.children()) {
        Some(epc) => Some(epc),
        None => first(ParamKind::EpcData, tag.children()),
    }
}

/// Appends the first member, which has the EPC of a tag, if there is one.
fn push_epc_member(text: &mut Text, tag: &Node) -> Result<(), AllocError>
    ensures { OnOk result (AppendsWithEpc tag.now (epc_member tag.now) text.old text.new) }
{
    if epc_of(tag).is_none() {
        return Ok(());
    }
    push_name(text, false, b"epc")?;
    text.push(b'"')?;
    push_epc(text, tag)?;
    text.push(b'"')
}

/// Appends the member of the antenna, if there is one.
fn push_antenna_member(
    text: &mut Text,
    begun: bool,
    antenna: Option<&Node>,
) -> Result<(), AllocError>
    requires { IsOfKind ParamKind.AntennaId (behind antenna) }
    ensures { OnOk result (text.new ≡ text.old ++ added begun (codes "antenna")
        (behind antenna.entry) (antenna_text (behind antenna.entry))) }
{
    match antenna {
        None => Ok(()),
        Some(_) => {
            push_name(text, begun, b"antenna")?;
            text.push_number(field(ParamKind::AntennaId, antenna, 0))
        }
    }
}

/// Appends the member of the greatest RSSI, if there is one.
fn push_rssi_member(text: &mut Text, begun: bool, rssi: Option<&Node>) -> Result<(), AllocError>
    requires { IsOfKind ParamKind.PeakRssi (behind rssi) }
    ensures { OnOk result (text.new ≡ text.old ++ added begun (codes "rssi")
        (behind rssi.entry) (rssi_text (behind rssi.entry))) }
{
    match rssi {
        None => Ok(()),
        Some(_) => {
            push_name(text, begun, b"rssi")?;
            text.push_signed(field(ParamKind::PeakRssi, rssi, 0))
        }
    }
}

/// Appends the members that each object has.
fn push_members(text: &mut Text, tag: &Node) -> Result<(), AllocError>
    ensures { OnOk result (AppendsWithEpc tag.now (members_of tag.now) text.old text.new) }
{
    push_epc_member(text, tag)?;
    let epc = epc_of(tag).is_some();
    let antenna = first(ParamKind::AntennaId, tag.children());
    push_antenna_member(text, epc, antenna)?;
    let begun = epc || antenna.is_some();
    push_rssi_member(text, begun, first(ParamKind::PeakRssi, tag.children()))
}

/// Appends the line of a tag.
pub(crate) fn push_object(text: &mut Text, tag: &Node) -> Result<(), AllocError>
    ensures { OnOk result (AppendsWithEpc tag.now (tag_line Json tag.now) text.old text.new) }
{
    text.push(b'{')?;
    push_members(text, tag)?;
    text.push_text(b"}\n")
}

/// Appends the member of the first part of a kind after others, if it is there.
fn push_other(text: &mut Text, kind: ParamKind, tag: &Node) -> Result<(), AllocError>
    ensures { OnOk result (text.new ≡ text.old ++ other_member tag.now kind) }
{
    let part = first(kind, tag.children());
    match part {
        None => Ok(()),
        Some(_) => {
            text.push_text(b",\"")?;
            text.push_text(name(Kind::Parameter(kind)).as_bytes())?;
            text.push_text(b"\":")?;
            text.push_number(field(kind, part, 0))
        }
    }
}

/// Appends the members of parts of these kinds, in their order.
fn push_others(text: &mut Text, tag: &Node, kinds: &[ParamKind]) -> Result<(), AllocError>
    ensures { OnOk result (text.new ≡ text.old ++ flat_map (other_member tag.now) kinds.now) }
{
    for kind in kinds {
        push_other(text, *kind, tag)?;
    }
    Ok(())
}

/// Appends the line of a tag with all of its parts that have one number, up to the end of its object.
fn push_numbers(text: &mut Text, tag: &Node) -> Result<(), AllocError>
    ensures { OnOk result (AppendsWithEpc tag.now (full_members tag.now) text.old text.new) }
{
    text.push(b'{')?;
    push_members(text, tag)?;
    let others = [
        ParamKind::FirstSeenTimestampUtc,
        ParamKind::FirstSeenTimestampUptime,
        ParamKind::LastSeenTimestampUtc,
        ParamKind::LastSeenTimestampUptime,
        ParamKind::TagSeenCount,
        ParamKind::ChannelIndex,
        ParamKind::RoSpecId,
        ParamKind::SpecIndex,
        ParamKind::InventoryParameterSpecId,
        ParamKind::AccessSpecId,
        ParamKind::C1G2Pc,
        ParamKind::C1G2Crc,
    ];
    push_others(text, tag, &others)
}

/// Appends the line of a tag with all that the profile has of it.
pub(crate) fn push_full(text: &mut Text, tag: &Node) -> Result<(), AllocError>
    ensures { OnOk result (AppendsWithEpc tag.now (tag_line Full tag.now) text.old text.new) }
{
    push_numbers(text, tag)?;
    text.push_text(b"}\n")
}

/// Appends the line of a tag of which the profile has this, with these other parameters.
pub(crate) fn push_full_with(text: &mut Text, own: &Node, others: &[Node]) -> Result<(), AllocError>
    ensures { OnOk result ((texts : List (List ℕ)) × AreParameters (forest others.now) texts
        × AppendsWithEpc own.now
        (λ epc. full_line own.now epc (more_members (parameters_members texts)))
        text.old text.new) }
{
    push_numbers(text, own)?;
    push_parameters(text, others)?;
    text.push_text(b"}\n")
}

/// Appends the object of both numbers.
pub(crate) fn push_totals(text: &mut Text, summary: Summary) -> Result<(), AllocError>
    ensures { OnOk result (text.new ≡ text.old ++ totals_object summary.tags summary.reports) }
{
    text.push_text(b"{\"tags\":")?;
    text.push_number(summary.tags as u128)?;
    text.push_text(b",\"reports\":")?;
    text.push_number(summary.reports as u128)?;
    text.push_text(b"}\n")
}
