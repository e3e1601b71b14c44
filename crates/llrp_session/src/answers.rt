//! What a simulated reader answers to requests outside the profile.

ghost use Rattle.std.specs.Prelude.{◌≡◌, ◌⊎◌, IfOk, [], ◌∷◌};
ghost use Rattle.llrp_tree.specs.Tree.{forest};
ghost use Rattle.llrp_tree.specs.Lawful.{AreLawful, IsLawfulMessage};
ghost use Rattle.llrp_session.specs.Calls.Answers as answers;

use crate::build::{leaf, message, only, parameter};
use crate::reader::status::{FIELD_ERROR, SUCCESS};
use llrp_tree::{Message, MsgKind, Node, Nodes, Octets, ParamKind};
use std::alloc::{AllocError, Global};

/// A parameter with these fields and this tail, which has no children.
fn with_tail(alloc: Global, kind: ParamKind, fields: &[u128], tail: Vec<u8>) -> Node
    requires { AreLawful kind fields.now tail.items (forest []) }
    ensures { result ≡ answers.with_tail kind fields.now tail.items }
{
    match Node::new(kind, fields, Octets::new(tail), Nodes::new(Vec::new(alloc))) {
        Ok(node) => node,
        Err(_) => unreachable!(),
    }
}

/// The protocol of an antenna.
fn air_protocol(alloc: Global, antenna: u16) -> Result<Node, AllocError>
    ensures { IfOk result (λ node. node ≡ answers.air_protocol antenna) }
{
    let protocols = Vec::from_array(alloc, [1])?;
    let kind = ParamKind::WholePerAntennaAirProtocol;
    Ok(with_tail(alloc, kind, &[antenna as u128, 1], protocols))
}

/// GeneralDeviceCapabilities.
fn general(alloc: Global) -> Result<Node, AllocError>
    ensures { IfOk result (λ node. node ≡ answers.general) }
{
    let sensitivity = leaf(alloc, ParamKind::WholeReceiveSensitivityTableEntry, &[1, 0]);
    let ports = leaf(alloc, ParamKind::WholeGpioCapabilities, &[0, 0]);
    let first = air_protocol(alloc, 1)?;
    let second = air_protocol(alloc, 2)?;
    let parts = Vec::from_array(alloc, [sensitivity, ports, first, second])?;
    let kind = ParamKind::WholeGeneralDeviceCapabilities;
    Ok(parameter(alloc, kind, &[2, 0, 1, 0, 0], parts))
}

/// LLRPCapabilities.
fn of_llrp(alloc: Global) -> Result<Node, AllocError>
    ensures { IfOk result (λ node. node ≡ answers.of_llrp) }
{
    let fields = [0, 0, 0, 0, 0, 8, 0, 0, 0];
    let others = Vec::from_array(alloc, [0; 12])?;
    Ok(with_tail(alloc, ParamKind::WholeLlrpCapabilities, &fields, others))
}

/// C1G2UHFRFModeTable with its one mode.
fn modes(alloc: Global) -> Result<Node, AllocError>
    ensures { IfOk result (λ node. node ≡ answers.modes) }
{
    let fields = [0, 0, 0, 2, 0, 0, 40_000];
    let times = [0, 0, 5, 220, 0, 0, 97, 168, 0, 0, 97, 168, 0, 0, 0, 0];
    let times = Vec::from_array(alloc, times)?;
    let mode = with_tail(
        alloc,
        ParamKind::WholeC1G2UhfRfModeTableEntry,
        &fields,
        times,
    );
    let parts = only(alloc, mode)?;
    Ok(parameter(alloc, ParamKind::WholeC1G2UhfRfModeTable, &[], parts))
}

/// FrequencyInformation with one fixed frequency.
fn frequencies(alloc: Global) -> Result<Node, AllocError>
    ensures { IfOk result (λ node. node ≡ answers.frequencies) }
{
    let frequency = Vec::from_array(alloc, [0, 13, 55, 252])?;
    let fixed = with_tail(alloc, ParamKind::WholeFixedFrequencyTable, &[1], frequency);
    let parts = only(alloc, fixed)?;
    Ok(parameter(alloc, ParamKind::WholeFrequencyInformation, &[0], parts))
}

/// RegulatoryCapabilities.
fn regulatory(alloc: Global) -> Result<Node, AllocError>
    ensures { IfOk result (λ node. node ≡ answers.regulatory) }
{
    let power = leaf(
        alloc,
        ParamKind::WholeTransmitPowerLevelTableEntry,
        &[1, 3000],
    );
    let frequencies = frequencies(alloc)?;
    let modes = modes(alloc)?;
    let parts = Vec::from_array(alloc, [power, frequencies, modes])?;
    let band = parameter(alloc, ParamKind::WholeUhfBandCapabilities, &[], parts);
    let parts = only(alloc, band)?;
    Ok(parameter(
        alloc,
        ParamKind::WholeRegulatoryCapabilities,
        &[0, 0],
        parts,
    ))
}

/// Status 0.
fn success(alloc: Global) -> Node
    ensures { result ≡ answers.success }
{
    leaf(alloc, ParamKind::WholeLlrpStatus, &[0])
}

/// GET_READER_CAPABILITIES_RESPONSE.
fn capabilities(alloc: Global, version: u8, id: u32) -> Result<Message, AllocError>
    requires { (version ≡ 1) ⊎ (version ≡ 2) }
    ensures { IfOk result (λ m. m ≡ answers.message version id answers.capabilities) }
{
    let general = general(alloc)?;
    let of_llrp = of_llrp(alloc)?;
    let regulatory = regulatory(alloc)?;
    let air = leaf(alloc, ParamKind::WholeC1G2LlrpCapabilities, &[0; 7]);
    let parts = [success(alloc), general, of_llrp, regulatory, air];
    let parts = Vec::from_array(alloc, parts)?;
    let kind = MsgKind::WholeGetReaderCapabilitiesResponse;
    Ok(message(version, id, kind, &[], parts))
}

/// AntennaProperties of a connected antenna.
fn antenna(alloc: Global, number: u16) -> Node
    ensures { result ≡ answers.antenna number }
{
    leaf(
        alloc,
        ParamKind::WholeAntennaProperties,
        &[1, number as u128, 0],
    )
}

/// GET_READER_CONFIG_RESPONSE.
fn configuration(alloc: Global, version: u8, id: u32) -> Result<Message, AllocError>
    requires { (version ≡ 1) ⊎ (version ≡ 2) }
    ensures { IfOk result (λ m. m ≡ answers.message version id answers.configuration) }
{
    let octets = Vec::from_array(alloc, [0; 8])?;
    let identification = with_tail(alloc, ParamKind::WholeIdentification, &[0, 8], octets);
    let parts = [
        success(alloc),
        identification,
        antenna(alloc, 1),
        antenna(alloc, 2),
    ];
    let parts = Vec::from_array(alloc, parts)?;
    let kind = MsgKind::WholeGetReaderConfigResponse;
    Ok(message(version, id, kind, &[], parts))
}

/// GET_SUPPORTED_VERSION_RESPONSE.
fn versions(alloc: Global, version: u8, id: u32) -> Result<Message, AllocError>
    requires { (version ≡ 1) ⊎ (version ≡ 2) }
    ensures { IfOk result (λ m. m ≡ answers.message version id answers.versions) }
{
    let parts = only(alloc, success(alloc))?;
    let kind = MsgKind::WholeGetSupportedVersionResponse;
    Ok(message(version, id, kind, &[2, 2], parts))
}

/// The status of a request for AccessSpecs with these fields, where there are none.
fn status_of(fields: &[u128]) -> u128
    ensures { result ≡ answers.status_of_fields fields.now }
{
    match fields.first() {
        Some(id) if *id != 0 => FIELD_ERROR as u128,
        _ => SUCCESS as u128,
    }
}

/// The response of this kind to a request for AccessSpecs with these fields, where there are none.
fn of_access(
    alloc: Global,
    kind: MsgKind,
    version: u8,
    id: u32,
    fields: &[u128],
) -> Result<Message, AllocError>
    requires { IsLawfulMessage (answers.message version id (answers.of_access kind fields.now)) }
    ensures { IfOk result (λ m. m
        ≡ answers.message version id (answers.of_access kind fields.now)) }
{
    let status = leaf(alloc, ParamKind::WholeLlrpStatus, &[status_of(fields)]);
    let parts = only(alloc, status)?;
    Ok(message(version, id, kind, &[], parts))
}

/// What a simulated reader answers to a message of the whole standard, if that is one of the
/// requests outside the profile that a general client begins with: GET_READER_CAPABILITIES,
/// GET_READER_CONFIG and GET_SUPPORTED_VERSION, the same whatever part is asked for, and
/// DELETE_ACCESSSPEC, ENABLE_ACCESSSPEC, DISABLE_ACCESSSPEC and GET_ACCESSSPECS, as of a reader that
/// has no AccessSpecs. The answer has the message's version and id. The error is that memory ran out.
pub fn answer(alloc: Global, request: &Message) -> Result<Option<Message>, AllocError>
    ensures { IfOk result (λ answer. answer ≡ answers.answer_of request.now) }
{
    request.lawful();
    let (version, id, fields) = (request.version(), request.id(), request.fields());
    let answer = match request.kind() {
        MsgKind::WholeGetReaderCapabilities => capabilities(alloc, version, id)?,
        MsgKind::WholeGetReaderConfig => configuration(alloc, version, id)?,
        MsgKind::WholeGetSupportedVersion => versions(alloc, version, id)?,
        MsgKind::WholeDeleteAccessSpec => {
            of_access(
                alloc,
                MsgKind::WholeDeleteAccessSpecResponse,
                version,
                id,
                fields,
            )?
        }
        MsgKind::WholeEnableAccessSpec => {
            of_access(
                alloc,
                MsgKind::WholeEnableAccessSpecResponse,
                version,
                id,
                fields,
            )?
        }
        MsgKind::WholeDisableAccessSpec => {
            of_access(
                alloc,
                MsgKind::WholeDisableAccessSpecResponse,
                version,
                id,
                fields,
            )?
        }
        MsgKind::WholeGetAccessSpecs => {
            of_access(
                alloc,
                MsgKind::WholeGetAccessSpecsResponse,
                version,
                id,
                fields,
            )?
        }
        _ => return Ok(None),
    };
    Ok(Some(answer))
}
