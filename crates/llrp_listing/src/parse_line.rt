//! Lines of a listing: what a line says, or why it is refused whatever the other lines are.

ghost use Rattle.std.specs.Prelude.{◌≡◌, ◌≤◌, ◌+◌, ◌*◌, length, map, filter, not, MatchOption, MatchResult, OnOk};
ghost use Rattle.arrayvec.specs.ArrayVec.{array_vec_len};
ghost use Rattle.llrp_schema.specs.Calls.Schema.{field_rule};
ghost use Rattle.llrp_schema.specs.Schema.{tail_of};
ghost use Rattle.llrp_schema.specs.declared.kinds.Kind.TheVariants.{Message, Parameter};
ghost use Rattle.llrp_listing.specs.LineChecks.{IsOpenLevel, RefusesLineItself, is_printed, longest, tail_count, word_count};
ghost use Rattle.llrp_listing.specs.Private.LineReading.{IsKindNamed, IsLevel, ReadsFields, ReadsLine, ReadsMessage, ReadsParameter, ReadsRest, ReadsStart, forms_of};
ghost use Rattle.llrp_listing.specs.Private.Splits.{words_in};
ghost use Rattle.llrp_listing.specs.NodeLine.{number_forms};
ghost use Rattle.llrp_listing.specs.declared.parse_line.LineErr.TheVariants.{Memory, Refused};

use crate::outcome::Refusal;
use crate::read_numbers::{numeral, read_field, read_id, read_version};
use crate::read_tail::read_tail;
use crate::split::{count_words, first_word};
use arrayvec::ArrayVec;
use llrp_schema::{
    Field, Kind, KindSet, MsgKind, ParamKind, Tail, msg_with_name_in, param_with_name_in,
};
use llrp_tree::{MAX_DEPTH, Octets};
use std::alloc::{AllocError, AllocFailed, Global};
use std::str;

/// The most bytes of a line of the profile before its LF.
pub const LONGEST_LINE: usize = 262_144;

/// The most bytes of a line of all of LLRP 1.1 before its LF: a message may have data there.
pub const LONGEST_WHOLE_LINE: usize = 4_194_304;

/// The most bytes of a line of a set of kinds before its LF.
#[inline(always)]
pub(crate) fn longest_line(set: KindSet) -> usize
    ensures { result ≡ longest set }
{
    match set {
        KindSet::Profile => LONGEST_LINE,
        KindSet::Standard => LONGEST_WHOLE_LINE,
    }
}

/// The line of a message, without its parameters.
#[derive(Drop)]
pub(crate) struct MessageLine {
    pub(crate) version: u8,
    pub(crate) id: u32,
    pub(crate) kind: MsgKind,
    pub(crate) fields: ArrayVec<u128, 12>,
    pub(crate) tail: Octets,
}

/// The line of a parameter, without those below it, and its level.
#[derive(Drop)]
pub(crate) struct ParameterLine {
    pub(crate) level: usize,
    pub(crate) kind: ParamKind,
    pub(crate) fields: ArrayVec<u128, 12>,
    pub(crate) tail: Octets,
}

/// What a line says.
#[derive(Drop)]
pub(crate) enum Line {
    Message(MessageLine),
    Parameter(ParameterLine),
}

/// Why a line is not read.
#[derive(Clone, Copy)]
pub(crate) enum LineErr {
    /// It is refused, whatever the other lines are.
    Refused(Refusal),
    /// Memory ran out.
    Memory,
}

impl From<Refusal> for LineErr {
    ghost from_gives = { λ reason e. e ≡ Refused reason };

    fn from(reason: Refusal) -> LineErr {
        LineErr::Refused(reason)
    }
}

impl From<AllocError> for LineErr {
    ghost from_gives = { λ _ e. e ≡ Memory };

    fn from(_e: AllocError) -> LineErr {
        LineErr::Memory
    }
}

/// Whether each byte is printable ASCII.
fn is_printed(line: &[u8]) -> bool
    ensures { result ≡ is_printed line.now }
{
    line.iter().all(|b| 32 <= *b && *b <= 126)
}

/// Reads a level, which may be at most the number of open lines.
fn read_level(word: &str, depth: usize) -> Option<usize>
    ensures { IsLevel depth word.now result }
{
    let Some(level) = numeral(word.as_bytes()) else {
        return None;
    };
    let most = depth.min(MAX_DEPTH as usize);
    if level > most as u128 {
        return None;
    }
    Some(level as usize)
}

/// The kind of a set with this name: a message's at level 0, a parameter's at any other.
fn read_kind(set: KindSet, level: usize, name: &str) -> Option<Kind>
    ensures { IsKindNamed set level name.now result }
{
    let octets = name.as_bytes();
    if level == 0 {
        match msg_with_name_in(set, octets) {
            Some(kind) => Some(Kind::Message(kind)),
            None => None,
        }
    } else {
        match param_with_name_in(set, octets) {
            Some(kind) => Some(Kind::Parameter(kind)),
            None => None,
        }
    }
}

/// How many fields are not reserved.
fn plain_count(rules: &[Field]) -> usize
    ensures { result ≡ length (forms_of (map field_rule rules.now)) }
{
    let mut count: usize = 0;
    for rule in rules {
        if !rule.reserved {
            count += 1;
        }
    }
    count
}

/// How many numbers the line of a kind has: a message's version and id, and all fields that are not
/// reserved.
fn number_count(kind: Kind) -> usize
    ensures value { result ≡ length (number_forms kind) }
    ensures few { result ≤ 14 }
{
    let fields = plain_count(llrp_schema::fields(kind));
    match kind {
        Kind::Message(_) => 2 + fields,
        Kind::Parameter(_) => fields,
    }
}

/// How many words the tail of a kind has.
fn tail_count(kind: Kind) -> usize
    ensures value { result ≡ tail_count (tail_of kind) }
    ensures few { result ≤ 1 }
{
    match llrp_schema::tail(kind) {
        Tail::Absent => 0,
        Tail::Words | Tail::Text | Tail::Bits | Tail::Data => 1,
    }
}

/// How many words the line of a kind has: level, name, numbers and tail.
fn word_count(kind: Kind) -> usize
    ensures { result ≡ word_count kind }
{
    2 + (number_count(kind) + tail_count(kind))
}

/// The level, the kind, and the words after the name.
#[derive(Clone, Copy)]
struct LineStart<'a> {
    level: usize,
    kind: Kind,
    words: Option<&'a str>,
}

/// Reads a line up to its name, which is that of a kind of a set, below this many open lines.
fn read_start(set: KindSet, line: &str, depth: usize) -> Result<LineStart<'_>, Refusal>
    ensures { ReadsStart set depth line.now result }
{
    let (level, rest) = first_word(line);
    let Some(level) = read_level(level, depth) else {
        return Err(Refusal::Level);
    };
    let Some(rest) = rest else {
        return Err(Refusal::Name);
    };
    let (name, words) = first_word(rest);
    let Some(kind) = read_kind(set, level, name) else {
        return Err(Refusal::Name);
    };
    Ok(LineStart { level, kind, words })
}

/// Appends the values of the fields that are not reserved, and returns the words after theirs.
fn read_fields<'a>(
    rules: &[Field],
    words: Option<&'a str>,
    fields: &mut ArrayVec<u128, 12>,
) -> Result<Option<&'a str>, Refusal>
    requires room { array_vec_len fields.old + length (forms_of (map field_rule rules.now)) ≤ 12 }
    requires words { length (forms_of (map field_rule rules.now)) ≤ length (words_in words) }
    ensures { ReadsFields (forms_of (map field_rule rules.now)) (words_in words.entry)
        fields.old.items fields.new.items result }
{
    match rules {
        [] => Ok(words),
        [rule, rules @ ..] => {
            if rule.reserved {
                return read_fields(rules, words, fields);
            }
            let Some(words) = words else { unreachable!() };
            let (word, words) = first_word(words);
            fields.push(read_field(rule, word)?);
            read_fields(rules, words, fields)
        }
    }
}

/// Reads the octets of a tail from the words after the fields.
fn read_rest(alloc: Global, form: Tail, rest: Option<&str>) -> Result<Octets, LineErr>
    requires { length (words_in rest) ≡ tail_count form }
    ensures { ReadsRest form (words_in rest.entry) result }
{
    match rest {
        None => Ok(Octets::new(Vec::new(alloc))),
        Some(word) => read_tail(alloc, form, word),
    }
}

/// Reads the line of a message of this kind from the words after its name.
fn read_message(alloc: Global, kind: MsgKind, words: Option<&str>) -> Result<MessageLine, LineErr>
    requires { length (words_in words) ≡ length (number_forms (Message kind)) + tail_count
        (tail_of (Message kind)) }
    ensures { ReadsMessage kind (words_in words.entry) result }
{
    let Some(words) = words else { unreachable!() };
    let (version, words) = first_word(words);
    let version = read_version(version)?;
    let Some(words) = words else { unreachable!() };
    let (id, words) = first_word(words);
    let id = read_id(id)?;
    let mut fields = ArrayVec::new();
    let rest = read_fields(llrp_schema::fields(Kind::Message(kind)), words, &mut fields)?;
    let tail = read_rest(alloc, llrp_schema::tail(Kind::Message(kind)), rest)?;
    Ok(MessageLine {
        version,
        id,
        kind,
        fields,
        tail,
    })
}

/// Reads the line of a parameter of this kind from the words after its name.
fn read_parameter(
    alloc: Global,
    level: usize,
    kind: ParamKind,
    words: Option<&str>,
) -> Result<ParameterLine, LineErr>
    requires { length (words_in words) ≡ length (number_forms (Parameter kind)) + tail_count
        (tail_of (Parameter kind)) }
    ensures { ReadsParameter level kind (words_in words.entry) result }
{
    let mut fields = ArrayVec::new();
    let rest = read_fields(
        llrp_schema::fields(Kind::Parameter(kind)),
        words,
        &mut fields,
    )?;
    let tail = read_rest(alloc, llrp_schema::tail(Kind::Parameter(kind)), rest)?;
    Ok(ParameterLine {
        level,
        kind,
        fields,
        tail,
    })
}

/// Reads a whole line of a kind of a set, below this many open lines, or returns why it is refused.
pub(crate) fn read_line(
    alloc: Global,
    set: KindSet,
    line: &[u8],
    depth: usize,
) -> Result<Line, LineErr>
    ensures { ReadsLine set depth line.now result }
{
    if line.len() > longest_line(set) || !is_printed(line) {
        return Err(LineErr::Refused(Refusal::Line));
    }
    let Ok(text) = str::from_utf8(line) else {
        unreachable!()
    };
    let start = read_start(set, text, depth)?;
    if count_words(line) != word_count(start.kind) {
        return Err(LineErr::Refused(Refusal::Fields));
    }
    match start.kind {
        Kind::Message(kind) => {
            let line = read_message(alloc, kind, start.words)?;
            Ok(Line::Message(line))
        }
        Kind::Parameter(kind) => {
            let line = read_parameter(alloc, start.level, kind, start.words)?;
            Ok(Line::Parameter(line))
        }
    }
}
