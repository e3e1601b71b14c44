//! What words ask of a tag: from the texts of options to the operations that are sent.

ghost use Rattle.std.specs.Prelude.{◌≡◌, IfErr, IfOk, OnOk};
ghost use Rattle.llrp_operations.specs.Calls.Errands as errands;
ghost use Rattle.llrp_operations.specs.declared.errand.ErrandErr.TheVariants.{Memory};
ghost use Rattle.llrp_operations.specs.Private.Texts as said;

use crate::access::Errand;
use crate::change::{epc_write, with_checks};
use crate::operation::Operation;
use crate::parameters::SpecErr;
use crate::request::{LONGEST_EPC, Request, access_spec};
use crate::word::{WordErr, lock_of, read_of, write_of};
use llrp_listing::{ToolErr, bytes_of_hex};
use std::alloc::{AllocError, AllocFailed, Global};
use tag_uri::word_of_text;

/// The id of the AccessSpec and of the ROSpec: LLRP's port, since most clients begin with 1.
pub const OWN_ID: u32 = 5084;

/// An option whose texts say operations.
#[derive(Clone, Copy, Debug, PartialEq, Eq)]
pub enum OperationOption {
    /// `BANK:WORD:COUNT`, as [`read_of`] has it.
    Read,
    /// `BANK:WORD=HEX`, as [`write_of`] has it.
    Write,
    /// `FIELD=HOW`, as [`lock_of`] has it.
    Lock,
}

/// The words by which a person says what is to be done to a tag.
#[derive(Clone, Copy)]
pub struct ErrandWords<'a> {
    /// The tag: its whole EPC in hexadecimal digits, a tag URI, or `any`.
    pub tag: &'a str,
    pub reads: &'a [&'a str],
    pub writes: &'a [&'a str],
    /// The tag URI of the EPC that the tag is to be given.
    pub epc: Option<&'a str>,
    pub locks: &'a [&'a str],
    /// The antenna; every one without it.
    pub antenna: Option<u16>,
    /// What is written is read back, and has to be the same.
    pub verifies: bool,
    /// Results are printed as objects of JSON.
    pub json: bool,
}

/// What words ask of a tag.
#[derive(Drop)]
pub struct OwnErrand {
    /// The tag's EPC; of no octets for any tag.
    epc: Vec<u8>,
    /// The EPC that it is to be given; of no octets where it keeps its own.
    given: Vec<u8>,
    /// 0 is every antenna.
    antenna: u16,
    /// The operations that are sent: those asked for, and the reads that verify them.
    sent: Vec<Operation>,
    /// How many of these are asked for.
    asked: usize,
    verifies: bool,
    json: bool,
}

/// Why words ask for nothing.
#[derive(Clone, Copy, Debug, PartialEq, Eq)]
pub enum ErrandErr {
    /// The tag is neither digits of whole words, 31 at most, nor a tag URI, nor `any`.
    Tag,
    /// The EPC that it is to be given is no tag URI.
    Uri,
    /// The first text of this option that says no operation, and why.
    Text(OperationOption, WordErr),
    /// They say no operation.
    Nothing,
    /// No AccessSpec has room for the operations.
    TooLong,
    /// Memory ran out.
    Memory,
}

impl From<AllocError> for ErrandErr {
    ghost from_gives = { λ _ e. e ≡ Memory };

    fn from(_e: AllocError) -> ErrandErr {
        ErrandErr::Memory
    }
}

impl<T: Drop> From<AllocFailed<T>> for ErrandErr {
    ghost from_gives = { λ _ e. e ≡ Memory };

    fn from(_e: AllocFailed<T>) -> ErrandErr {
        ErrandErr::Memory
    }
}

impl OwnErrand {
    /// The request of the AccessSpec, with this access password; 0 for none.
    fn request(&self, password: u32) -> Request<'_>
        ensures { errands.IsRequestOf self.now password result }
    {
        Request {
            id: OWN_ID,
            antenna: self.antenna,
            rospec: OWN_ID,
            password,
            epc: self.epc.as_slice(),
            operations: self.sent.as_slice(),
        }
    }

    /// What is to be done to the tag, with this access password; 0 for none.
    #[tactic(auto, using(std::proofs::lemmas::List::take_min))]
    pub fn errand(&self, password: u32) -> Errand<'_>
        ensures { errands.IsErrandOf self.now password result }
    {
        let all = self.sent.as_slice();
        Errand {
            request: self.request(password),
            asked: all.split_at(self.asked.min(all.len())).0,
            given: self.given.as_slice(),
            verifies: self.verifies,
            json: self.json,
        }
    }
}

/// The octets of the EPC that a tag URI or a raw URI says, if the text is one.
fn epc_of_uri(alloc: Global, text: &str) -> Result<Option<Vec<u8>>, AllocError>
    ensures { IfOk result (said.SaysUri text.now) }
{
    match word_of_text(text) {
        Ok(word) => Ok(Some(word.to_bytes().to_vec(alloc)?)),
        Err(_) => Ok(None),
    }
}

/// The octets of the EPC that hexadecimal digits say: whole words, one at least and 31 at most.
fn epc_of_digits(alloc: Global, text: &[u8]) -> Result<Option<Vec<u8>>, AllocError>
    ensures { IfOk result (said.SaysDigits text.now) }
{
    match bytes_of_hex(alloc, text) {
        Ok(epc) if epc.is_empty() || epc.len() > LONGEST_EPC || epc.len() % 2 != 0 => Ok(None),
        Ok(epc) => Ok(Some(epc)),
        Err(ToolErr::Memory) => Err(AllocError),
        Err(_) => Ok(None),
    }
}

/// The octets of the EPC of the tag that a text says, none for `any`; if it says one.
fn epc_of_tag(alloc: Global, text: &str) -> Result<Option<Vec<u8>>, AllocError>
    ensures { IfOk result (said.SaysTag text.now) }
{
    if text.as_bytes() == b"any".as_slice() {
        return Ok(Some(Vec::new(alloc)));
    }
    if text.as_bytes().starts_with(b"urn:") {
        epc_of_uri(alloc, text)
    } else {
        epc_of_digits(alloc, text.as_bytes())
    }
}

/// The octets of the EPC that the tag is to be given, none where it keeps its own; if the text says one.
fn epc_given(alloc: Global, text: Option<&str>) -> Result<Option<Vec<u8>>, AllocError>
    ensures { IfOk result (said.SaysGiven text.entry) }
{
    match text {
        Some(uri) => epc_of_uri(alloc, uri),
        None => Ok(Some(Vec::new(alloc))),
    }
}

/// The operation that a text of this option says.
fn operation_of(alloc: Global, option: OperationOption, text: &[u8]) -> Result<Operation, WordErr>
    ensures said { IfOk result (errands.IsSaid option text.now) }
    ensures refused { IfErr result (errands.RefusesText option text.now) }
{
    match option {
        OperationOption::Read => read_of(text),
        OperationOption::Write => write_of(alloc, text),
        OperationOption::Lock => lock_of(text),
    }
}

/// Appends the operation that a text of this option says.
fn push_operation(
    alloc: Global,
    option: OperationOption,
    text: &str,
    operations: &mut Vec<Operation>,
) -> Result<(), ErrandErr>
    ensures said { OnOk result (said.AddsOne option text.now operations.old.items
        operations.new.items) }
    ensures refused { IfErr result (said.RefusesOne option text.now) }
{
    match operation_of(alloc, option, text.as_bytes()) {
        Ok(operation) => Ok(operations.push(operation)?),
        Err(WordErr::Memory) => Err(ErrandErr::Memory),
        Err(error) => Err(ErrandErr::Text(option, error)),
    }
}

/// Appends the operations that the texts of this option say, in order.
fn push_said(
    alloc: Global,
    option: OperationOption,
    texts: &[&str],
    operations: &mut Vec<Operation>,
) -> Result<(), ErrandErr>
    ensures said { OnOk result (said.AddsSaid option texts.now operations.old.items
        operations.new.items) }
    ensures refused { IfErr result (said.RefusesTexts option texts.now) }
{
    for text in texts {
        push_operation(alloc, option, text, operations)?;
    }
    Ok(())
}

/// Appends the write of the EPC that the tag is to be given, if it is.
fn push_given(
    alloc: Global,
    old: &[u8],
    given: &[u8],
    operations: &mut Vec<Operation>,
) -> Result<(), ErrandErr>
    ensures write { OnOk result (said.AddsGiven old.now given.now operations.old.items
        operations.new.items) }
    ensures memory { IfErr result (λ e. e ≡ ErrandErr.Memory) }
{
    if given.is_empty() {
        return Ok(());
    }
    match epc_write(alloc, old, given) {
        Ok(operation) => Ok(operations.push(operation)?),
        Err(_) => Err(ErrandErr::Memory),
    }
}

/// The operations that the words ask for, with these EPCs: what is read, then what is written, the new EPC, and
/// what is locked.
fn operations_of(
    alloc: Global,
    words: ErrandWords<'_>,
    old: &[u8],
    given: &[u8],
) -> Result<Vec<Operation>, ErrandErr>
    ensures asked { IfOk result (λ all. errands.AreAsked words.entry old.now given.now all.items) }
    ensures refused { IfErr result (said.RefusesOptions words.entry) }
{
    let mut operations = Vec::new(alloc);
    push_said(alloc, OperationOption::Read, words.reads, &mut operations)?;
    push_said(alloc, OperationOption::Write, words.writes, &mut operations)?;
    push_given(alloc, old, given, &mut operations)?;
    push_said(alloc, OperationOption::Lock, words.locks, &mut operations)?;
    Ok(operations)
}

/// Whether the words say no operation.
fn ask_nothing(words: ErrandWords<'_>) -> bool
    ensures { result ≡ errands.ask_nothing words.entry }
{
    let says_none = words.reads.is_empty() && words.writes.is_empty() && words.locks.is_empty();
    says_none && words.epc.is_none()
}

/// What is sent: these operations and, where they are verified, the reads of what they write.
fn sent_of(
    alloc: Global,
    verifies: bool,
    operations: Vec<Operation>,
) -> Result<Vec<Operation>, AllocError>
    ensures { IfOk result (λ all. all.items ≡ errands.sent_of verifies operations.items) }
{
    if verifies {
        with_checks(alloc, operations)
    } else {
        Ok(operations)
    }
}

/// The errand, if an AccessSpec has room for it.
fn check(alloc: Global, errand: OwnErrand) -> Result<OwnErrand, ErrandErr>
    ensures same { IfOk result (λ e. e ≡ errand) }
    ensures refused { IfErr result said.HasNoRoom }
{
    match access_spec(alloc, errand.request(0)) {
        Ok(_) => Ok(errand),
        Err(SpecErr::Memory) => Err(ErrandErr::Memory),
        Err(_) => Err(ErrandErr::TooLong),
    }
}

/// What the words ask of a tag. The error is the first of these: `Tag`, `Uri`, `Nothing`, `Text` of what is read, of
/// what is written, of what is locked, and `TooLong`; or `Memory`.
pub fn errand_of(alloc: Global, words: ErrandWords<'_>) -> Result<OwnErrand, ErrandErr>
    ensures errand { IfOk result (errands.IsErrand words.entry) }
    ensures refused { IfErr result (errands.RefusesErrand words.entry) }
{
    let Some(epc) = epc_of_tag(alloc, words.tag)? else {
        return Err(ErrandErr::Tag);
    };
    let Some(given) = epc_given(alloc, words.epc)? else {
        return Err(ErrandErr::Uri);
    };
    if ask_nothing(words) {
        return Err(ErrandErr::Nothing);
    }
    let operations = operations_of(alloc, words, epc.as_slice(), given.as_slice())?;
    let asked = operations.len();
    let sent = sent_of(alloc, words.verifies, operations)?;
    let errand = OwnErrand {
        epc,
        given,
        antenna: words.antenna.unwrap_or(0),
        sent,
        asked,
        verifies: words.verifies,
        json: words.json,
    };
    check(alloc, errand)
}
