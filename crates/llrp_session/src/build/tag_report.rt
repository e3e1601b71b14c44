//! The report of a sighting (LLRP 1.1, section 14: TagReportData).

ghost use Rattle.std.specs.Prelude.{◌≡◌, ◌≤◌, [], ◌∷◌, ◌++◌, OnOk, IfOk};
ghost use Rattle.llrp_tree.specs.Lawful.{IsLawfulTree};
ghost use Rattle.llrp_session.specs.TagReport.{signed_octet as the_octet, value_parameter, if_selected, report_parts as the_parts, tag_report as the_report};
ghost use Rattle.llrp_session.specs.Calls.LawfulWords.{IsReport, IsToldOf};
ghost use Rattle.llrp_session.specs.MessageWorld.{IsLawfulSighting};

use super::{leaf, parameter};
use crate::parse::stored_rospec::RoSpec;
use crate::types::{ContentSelector, Sighting};
use llrp_tree::{Node, ParamKind};
use std::alloc::{AllocError, Global};

/// A signed number as an octet, in two's complement.
fn signed_octet(number: i8) -> u8
    ensures { result ≡ the_octet number }
{
    number.cast_unsigned()
}

/// The parameters of a report.
#[derive(Drop)]
struct Parts {
    alloc: Global,
    nodes: Vec<Node>,
}

impl Parts {
    /// Adds a parameter with one value, if it is selected.
    fn push_if(&mut self, chosen: bool, kind: ParamKind, value: u128) -> Result<(), AllocError>
        requires { IsLawfulTree (value_parameter kind value) }
        ensures { OnOk result (self.new.nodes.items ≡ self.old.nodes.items
            ++ if_selected chosen kind value) }
    {
        if chosen {
            self.nodes.push(leaf(self.alloc, kind, &[value]))?;
        }
        Ok(())
    }

    /// Adds the parameters of a report to none: EPC-96, and then those that are selected, in the
    /// selector's order.
    fn push_all(
        &mut self,
        now: u64,
        rospec: &RoSpec,
        selector: &ContentSelector,
        sighting: &Sighting,
    ) -> Result<(), AllocError>
        requires { self.old.nodes.items ≡ [] }
        ensures { OnOk result (self.new.nodes.items
            ≡ the_parts now rospec.now selector.now sighting.now) }
    {
        let now = now as u128;
        let id = rospec.settings().id as u128;
        let inventory = rospec.settings().inventory as u128;
        let inventory_is_told = selector.inventory_parameter_spec_id;
        let antenna = sighting.antenna as u128;
        let rssi = signed_octet(sighting.rssi) as u128;
        self.push_if(true, ParamKind::Epc96, sighting.epc.number())?;
        self.push_if(selector.rospec_id, ParamKind::RoSpecId, id)?;
        self.push_if(selector.spec_index, ParamKind::SpecIndex, 1)?;
        self.push_if(
            inventory_is_told,
            ParamKind::InventoryParameterSpecId,
            inventory,
        )?;
        self.push_if(selector.antenna_id, ParamKind::AntennaId, antenna)?;
        self.push_if(selector.channel_index, ParamKind::ChannelIndex, 1)?;
        self.push_if(selector.peak_rssi, ParamKind::PeakRssi, rssi)?;
        self.push_if(selector.first_seen, ParamKind::FirstSeenTimestampUtc, now)?;
        self.push_if(selector.last_seen, ParamKind::LastSeenTimestampUtc, now)?;
        self.push_if(selector.tag_seen_count, ParamKind::TagSeenCount, 1)?;
        Ok(())
    }
}

/// The parameters of a report.
fn report_parts(
    alloc: Global,
    now: u64,
    rospec: &RoSpec,
    selector: &ContentSelector,
    sighting: &Sighting,
) -> Result<Vec<Node>, AllocError>
    ensures { IfOk result (λ parts. parts.items
        ≡ the_parts now rospec.now selector.now sighting.now) }
{
    let nodes = Vec::with_capacity(alloc, 10)?;
    let mut parts = Parts { alloc, nodes };
    parts.push_all(now, rospec, selector, sighting)?;
    Ok(parts.nodes)
}

/// Lets a proof use that the numbers of a ROSpec and of a sighting fit their fields; does nothing at run time.
fn known_to_fit(rospec: &RoSpec, sighting: &Sighting)
    ensures rospec { IsToldOf rospec.now }
    ensures sighting { IsLawfulSighting sighting.now }
{
    rospec.told();
    let _epc = sighting.epc.number();
    let _rssi = signed_octet(sighting.rssi);
    let _antenna = sighting.antenna;
}

/// The TagReportData of a sighting at a moment while a ROSpec is active. The only error is
/// `Memory`.
pub(crate) fn tag_report(
    alloc: Global,
    now: u64,
    rospec: &RoSpec,
    selector: &ContentSelector,
    sighting: &Sighting,
) -> Result<Node, AllocError>
    ensures report { IfOk result (λ n. n ≡ the_report now rospec.now selector.now sighting.now) }
    ensures short { IfOk result (λ n. IsReport n) }
{
    known_to_fit(rospec, sighting);
    let parts = report_parts(alloc, now, rospec, selector, sighting)?;
    Ok(parameter(alloc, ParamKind::TagReportData, &[], parts))
}
