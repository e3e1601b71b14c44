//! AccessSpecs, and which of them is for a tag.

ghost use Rattle.std.specs.Prelude.{◌≡◌, IfSome, IfNone, Some, None, drop, option_map};
ghost use Rattle.llrp_access.specs.Calls.Targets as targets;

use crate::operation::Operation;
use tag_bits::get;
use tag_memory::{Bank, TagMemory};

/// A C1G2TargetTag: a pattern of bits in a bank of a tag's memory, which has to stand there or not.
#[derive(Drop)]
pub struct Target {
    pub bank: Bank,
    /// Whether the pattern has to stand there.
    pub matches: bool,
    /// The bit of the bank where it begins; bit 0 is the most significant of the first word.
    pub pointer: u16,
    /// Of each bit whether it counts.
    pub mask: Vec<bool>,
    /// What the bits are that count.
    pub bits: Vec<bool>,
}

/// What is read in an AccessSpec.
#[derive(Drop)]
pub struct AccessSpec {
    pub id: u32,
    /// 0 is every antenna.
    pub antenna: u16,
    /// 0 is every ROSpec.
    pub rospec: u32,
    /// After how many tags it is deleted; 0 is never.
    pub stop_after: u16,
    pub targets: Vec<Target>,
    pub operations: Vec<Operation>,
}

/// An AccessSpec of a reader.
#[derive(Drop)]
pub struct Entry {
    pub spec: AccessSpec,
    pub enabled: bool,
    /// For how many tags it was done.
    pub done: u16,
}

/// The bit of words at a place, if they have it.
fn bit_at(words: &[u16], place: usize) -> Option<bool>
    ensures { result ≡ targets.first (drop place (targets.bits_of words.now)) }
{
    match words.get(place / 16) {
        Some(word) => {
            let octets = [(*word / 256) as u8, (*word % 256) as u8];
            Some(get(&octets, place % 16, 1) == 1)
        }
        None => None,
    }
}

/// The bit at a place, if there is one.
fn wanted_at(wanted: &[bool], place: usize) -> Option<bool>
    ensures { result ≡ targets.first (drop place wanted.now) }
{
    match wanted.get(place) {
        Some(bit) => Some(*bit),
        None => None,
    }
}

/// Whether a bit is the one that is wanted, if it counts; both have to be there.
fn agrees_at(counts: bool, wanted: Option<bool>, bit: Option<bool>) -> bool
    ensures { result ≡ targets.agrees_at counts wanted bit }
{
    match (wanted, bit) {
        (Some(wanted), Some(bit)) => !counts || wanted == bit,
        _ => false,
    }
}

/// Whether a pattern stands in words from a bit on.
fn stands_at(words: &[u16], pointer: u16, mask: &[bool], wanted: &[bool]) -> bool
    ensures { result ≡ targets.agrees mask.now wanted.now (drop pointer (targets.bits_of words.now)) }
{
    for (i, counts) in mask.iter().enumerate() {
        let bit = bit_at(words, pointer as usize + i);
        if !agrees_at(*counts, wanted_at(wanted, i), bit) {
            return false;
        }
    }
    true
}

/// Whether a tag is as a target wants.
fn hits(memory: &TagMemory, target: &Target) -> bool
    ensures { result ≡ targets.hits memory.now (targets.pattern_of target.now) }
{
    let stands = stands_at(
        memory.words(target.bank),
        target.pointer,
        target.mask.as_slice(),
        target.bits.as_slice(),
    );
    target.matches == stands
}

/// Whether an AccessSpec is for a tag that this antenna sees while this ROSpec is active.
fn is_for(spec: &AccessSpec, antenna: u16, rospec: u32, memory: &TagMemory) -> bool
    ensures { result ≡ targets.is_for antenna rospec memory.now spec.now }
{
    if spec.antenna != 0 && spec.antenna != antenna {
        return false;
    }
    if spec.rospec != 0 && spec.rospec != rospec {
        return false;
    }
    for target in spec.targets.as_slice() {
        if !hits(memory, target) {
            return false;
        }
    }
    true
}

/// The first AccessSpec that is enabled and for a tag that this antenna sees while this ROSpec is
/// active.
#[tactic(auto, unfolding(crate::specs::Calls::Targets::chosen))]
pub fn chosen<'a>(
    entries: &'a [Entry],
    antenna: u16,
    rospec: u32,
    memory: &TagMemory,
) -> Option<&'a Entry>
    ensures { option_map (λ e. e.now) result ≡ targets.chosen antenna rospec memory.now
        entries.entry.now }
{
    for entry in entries {
        if entry.enabled && is_for(&entry.spec, antenna, rospec, memory) {
            return Some(entry);
        }
    }
    None
}
