//! The AccessSpec of a request.

ghost use Rattle.std.specs.Prelude.{◌≡◌, ◌<◌, ◌≤◌, ◌++◌, Err, IfOk, OnOk, length};
ghost use Rattle.llrp_operations.specs.Calls.Operations as operations;
ghost use Rattle.llrp_operations.specs.declared.request.TheConstants.{LONGEST_EPC, MOST_OPERATIONS};

use crate::operation::{Operation, bank_number};
use crate::parameters::{SpecErr, leaf, parameter, words_octets};
use llrp_tree::{Node, ParamKind};
use std::alloc::Global;

/// The most octets that an EPC has: 31 words, which the protocol control word can count (EPC C1G2).
pub const LONGEST_EPC: usize = 62;

/// The most operations of a request.
pub const MOST_OPERATIONS: usize = 65_535;

/// The bit of the EPC bank at which the protocol control word begins, after the checksum; its five highest
/// bits count the words of the EPC (EPC C1G2).
const LENGTH_POINTER: u128 = 16;

/// The bit of the EPC bank at which the EPC begins, after the protocol control word.
const EPC_POINTER: u128 = 32;

/// What is asked of a reader, and of which tag.
#[derive(Clone, Copy)]
pub struct Request<'a> {
    /// The id of the AccessSpec.
    pub id: u32,
    /// 0 is every antenna.
    pub antenna: u16,
    /// 0 is every ROSpec.
    pub rospec: u32,
    /// The access password; 0 for none.
    pub password: u32,
    /// The EPC that the tag has now; of no octets for any tag.
    pub epc: &'a [u8],
    pub operations: &'a [Operation],
}

/// A C1G2TargetTag for the EPC bank, from a bit on, with a mask of this many bits.
fn target(alloc: Global, pointer: u128, count: u128, tail: Vec<u8>) -> Result<Node, SpecErr>
    ensures { IfOk result (λ node. node ≡ operations.target pointer count tail.items) }
{
    let fields = [1, 1, pointer, count];
    parameter(
        ParamKind::WholeC1G2TargetTag,
        &fields,
        tail,
        Vec::new(alloc),
    )
}

/// The C1G2TargetTag for tags whose EPC is as long as this one.
fn length_target(alloc: Global, epc: &[u8]) -> Result<Node, SpecErr>
    requires { length epc.now ≤ LONGEST_EPC }
    ensures { IfOk result (λ node. node ≡ operations.length_target epc.now) }
{
    let words = 4 * epc.len() as u8;
    let tail = Vec::from_array(alloc, [0xF8, 0, 5, words])?;
    target(alloc, LENGTH_POINTER, 5, tail)
}

/// The tail of a C1G2TargetTag for tags whose EPC begins with this one: a mask of ones, how many bits the EPC
/// has, and the EPC.
fn target_tail(alloc: Global, epc: &[u8]) -> Result<Vec<u8>, SpecErr>
    requires { length epc.now ≤ LONGEST_EPC }
    ensures { IfOk result (λ tail. tail.items ≡ operations.target_tail epc.now) }
{
    let mut tail = vec![in alloc; 255u8; epc.len()]?;
    let bits = 8 * epc.len();
    tail.push((bits / 256) as u8)?;
    tail.push((bits % 256) as u8)?;
    tail.extend_from_slice(epc)?;
    Ok(tail)
}

/// The C1G2TargetTag for tags whose EPC begins with this one.
fn epc_target(alloc: Global, epc: &[u8]) -> Result<Node, SpecErr>
    requires { length epc.now ≤ LONGEST_EPC }
    ensures { IfOk result (λ node. node ≡ operations.epc_target epc.now) }
{
    let tail = target_tail(alloc, epc)?;
    target(alloc, EPC_POINTER, 8 * epc.len() as u128, tail)
}

/// The C1G2TagSpec for tags with this EPC, or with one of no octets for any tag.
fn tag_spec(alloc: Global, epc: &[u8]) -> Result<Node, SpecErr>
    requires { length epc.now ≤ LONGEST_EPC }
    ensures { IfOk result (λ node. node ≡ operations.tag_spec epc.now) }
{
    let mut targets = Vec::new(alloc);
    if !epc.is_empty() {
        targets.push(length_target(alloc, epc)?)?;
    }
    targets.push(epc_target(alloc, epc)?)?;
    parameter(ParamKind::WholeC1G2TagSpec, &[], Vec::new(alloc), targets)
}

/// The parameter of an operation, with this OpSpecID.
fn operation_spec(
    alloc: Global,
    id: u16,
    password: u32,
    operation: &Operation,
) -> Result<Node, SpecErr>
    ensures { IfOk result (λ node. node ≡ operations.operation_spec id password operation.now) }
{
    let (id, password) = (id as u128, password as u128);
    match operation {
        Operation::Read {
            bank,
            pointer,
            count,
        } => {
            let place = *pointer as u128;
            let fields = [id, password, bank_number(*bank), place, *count as u128];
            leaf(alloc, ParamKind::WholeC1G2Read, &fields)
        }
        Operation::Write {
            bank,
            pointer,
            words,
        } => {
            let fields = [id, password, bank_number(*bank), *pointer as u128];
            let tail = words_octets(alloc, words.as_slice())?;
            parameter(ParamKind::WholeC1G2Write, &fields, tail, Vec::new(alloc))
        }
        Operation::Lock { field, manner } => {
            let locked = [manner.number(), field.number()];
            let payload = leaf(alloc, ParamKind::WholeC1G2LockPayload, &locked)?;
            let payloads = Vec::from_array(alloc, [payload])?;
            parameter(
                ParamKind::WholeC1G2Lock,
                &[id, password],
                Vec::new(alloc),
                payloads,
            )
        }
    }
}

/// Appends the parameters of operations, whose OpSpecIDs count from 1.
fn push_operations(
    alloc: Global,
    password: u32,
    all: &[Operation],
    nodes: &mut Vec<Node>,
) -> Result<(), SpecErr>
    requires { length all.now ≤ MOST_OPERATIONS }
    ensures { OnOk result (nodes.new.items
        ≡ nodes.old.items ++ operations.operation_specs 1 password all.now) }
{
    for (i, operation) in all.iter().enumerate() {
        nodes.push(operation_spec(alloc, i as u16 + 1, password, operation)?)?;
    }
    Ok(())
}

/// The AccessCommand of a request.
fn access_command(alloc: Global, request: Request<'_>) -> Result<Node, SpecErr>
    requires epc { length request.epc.now ≤ LONGEST_EPC }
    requires operations { length request.operations.now ≤ MOST_OPERATIONS }
    ensures { IfOk result (λ node. node ≡ operations.access_command request.entry.password
        request.entry.epc.now request.entry.operations.now) }
{
    let mut parts = Vec::from_array(alloc, [tag_spec(alloc, request.epc)?])?;
    push_operations(alloc, request.password, request.operations, &mut parts)?;
    parameter(ParamKind::WholeAccessCommand, &[], Vec::new(alloc), parts)
}

/// The AccessSpec of a request. It is disabled at first, is for C1G2 tags whose whole EPC is this one, ends
/// after the first of them, and is reported with the tag. The OpSpecIDs of its operations count from 1. The
/// errors are `Epc` for an EPC of more than [`LONGEST_EPC`] octets, or of no whole words; `Operations` for
/// more of them than an AccessSpec can have; the first fault of a parameter, as of an AccessSpec without an
/// operation; and `Memory`.
pub fn access_spec(alloc: Global, request: Request<'_>) -> Result<Node, SpecErr>
    ensures spec { IfOk result (λ node. node ≡ operations.access_spec request.entry) }
    ensures epc { operations.IsNoEpc request.entry.epc.now → result ≡ Err SpecErr.Epc }
    ensures operations { (operations.IsNoEpc request.entry.epc.now → ⊥)
        → MOST_OPERATIONS < length request.entry.operations.now → result ≡ Err SpecErr.Operations }
{
    if request.epc.len() > LONGEST_EPC || request.epc.len() % 2 != 0 {
        return Err(SpecErr::Epc);
    }
    if request.operations.len() > MOST_OPERATIONS {
        return Err(SpecErr::Operations);
    }
    let stop = leaf(alloc, ParamKind::WholeAccessSpecStopTrigger, &[1, 1])?;
    let command = access_command(alloc, request)?;
    let report = leaf(alloc, ParamKind::WholeAccessReportSpec, &[0])?;
    let parts = Vec::from_array(alloc, [stop, command, report])?;
    let antenna = request.antenna as u128;
    let fields = [request.id as u128, antenna, 1, 0, request.rospec as u128];
    parameter(ParamKind::WholeAccessSpec, &fields, Vec::new(alloc), parts)
}
