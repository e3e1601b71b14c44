//! The listener that prints lines of JSON.

ghost use Rattle.std.specs.Prelude.{◌||◌, ◌≡◌, ◌+◌, ◌^◌, ◌<◌, ◌≤◌, ◌++◌, ◌∷◌, ℕ, List, [], OnOk, true, codes, decimal, drop, length};
ghost use Rattle.llrp_schema.specs.declared.kinds.Kind.TheVariants.{Message as MessageKind, Parameter as ParameterKind};
ghost use Rattle.std.specs.List.{list_all};
ghost use Rattle.llrp_schema.specs.Calls.Schema.{field_rule};
ghost use Rattle.llrp_schema.specs.Schema.{name_of, fields_of, bits_of, is_tv};
ghost use Rattle.llrp_tree.specs.declared.TheConstants.{MAX_DEPTH};
ghost use Rattle.llrp_tree.specs.Calls.Standing.{leading};
ghost use Rattle.llrp_tree.specs.OpenTree.{Begun, kind_of_head};
ghost use Rattle.llrp_tree.specs.Spelling.{Head, message};
ghost use Rattle.llrp_tree.specs.Tree.{MessageTree};
ghost use Rattle.llrp_stream.specs.Calls.Received.{IsMessageOf, with_closed, with_value};
ghost use Rattle.llrp_json.specs.JsonValues.{inside, string, member, object};
ghost use Rattle.llrp_json.specs.JsonItems.{AreFields, AreParameters, field_name, more_members};
ghost use Rattle.llrp_json.specs.Calls.OpenJson.{before_one_more, has_any, opening, tail_begun, tail_end, Awaits, Holds};
ghost use Rattle.llrp_json.specs.Private.OpenJson.{at_end, more_of, one_parameter, AppendsMessage, CanBeClosed, IsFull};
ghost use Rattle.llrp_json.specs.Private.Openings.{first_name, value_opening};
ghost use Rattle.llrp_json.specs.Private.PlainStrings.{is_plain};

use crate::ends::{push_end as push_end_line, push_fault as push_fault_line};
use crate::openings::opening;
use crate::values::{push_field, push_field_name, push_inside, push_value, push_words};
use llrp_listing::{ItemPrinter, Text};
use llrp_schema::{Field, Kind, MsgKind, ParamKind, Tail, fields, name};
use llrp_stream::{End, Listener, Stopped};
use llrp_tree::Fault;
use std::alloc::{AllocError, Global};

/// Appends the objects of what it receives to a text, and cuts off that of a message that is given up.
#[derive(Drop)]
pub struct JsonPrinter {
    text: Text,
    /// Where the text of the unfinished message begins.
    mark: usize,
    /// How many nodes are open.
    depth: usize,
    /// Whether the innermost open node has parameters.
    is_parent: bool,
    /// Which tail of the innermost node is begun, and whether that has words.
    tail: Tail,
    has_words: bool,
}

/// Appends the members of a message's version and its id.
fn push_numbers(text: &mut Text, version: u8, id: u32) -> Result<(), AllocError>
    ensures { OnOk result (text.new ≡ text.old
        ++ more_members (member (codes "version") (decimal version)
        ∷ member (codes "id") (decimal id) ∷ [])) }
{
    text.push_text(b",\"version\":")?;
    text.push_number(version as u128)?;
    text.push_text(b",\"id\":")?;
    text.push_number(id as u128)
}

/// Appends what the object of a message begins with, and its name.
fn push_message_name(text: &mut Text, kind: MsgKind) -> Result<(), AllocError>
    ensures { OnOk result (text.new ≡ text.old
        ++ (123 ∷ member (codes "message") (string (name_of (MessageKind kind))))) }
{
    text.push_text(b"{\"message\":\"")?;
    text.push_text(name(Kind::Message(kind)).as_bytes())?;
    text.push_text(b"\"")
}

/// Appends what the object of a message begins with.
fn push_message(text: &mut Text, version: u8, kind: MsgKind, id: u32) -> Result<(), AllocError>
    ensures { (octets : ℕ) → OnOk result (text.new ≡ text.old
        ++ opening (message version kind octets id)) }
{
    push_message_name(text, kind)?;
    push_numbers(text, version, id)
}

/// Appends what the object of a parameter begins with.
pub(crate) fn push_parameter(text: &mut Text, kind: ParamKind) -> Result<(), AllocError>
    ensures { OnOk result (text.new ≡ text.old
        ++ (123 ∷ member (codes "parameter") (string (name_of (ParameterKind kind))))) }
{
    text.push_text(b"{\"parameter\":\"")?;
    text.push_text(name(Kind::Parameter(kind)).as_bytes())?;
    text.push_text(b"\"")
}

/// Appends what comes before a parameter, after others if there are any.
#[inline(always)]
pub(crate) fn push_separator(text: &mut Text, is_parent: bool) -> Result<(), AllocError>
    ensures { OnOk result (text.new ≡ text.old ++ before_one_more is_parent) }
{
    if is_parent {
        text.push_text(b",")
    } else {
        text.push_text(b",\"parameters\":[")
    }
}

/// Appends what comes before a parameter where nodes are open, and nothing where none is.
fn push_separator_below(text: &mut Text, depth: usize, is_parent: bool) -> Result<(), AllocError>
    ensures none { depth ≡ 0 → OnOk result (text.new ≡ text.old) }
    ensures some { 0 < depth → OnOk result (text.new ≡ text.old
        ++ before_one_more is_parent) }
{
    if depth == 0 {
        return Ok(());
    }
    push_separator(text, is_parent)
}

/// Whether the tail has words, once these octets are appended too.
fn has_words_after(has_words: bool, octets: &[u8]) -> bool
    ensures { result ≡ (has_words || has_any octets.now) }
{
    match octets {
        [] => has_words,
        [_, ..] => true,
    }
}

/// Appends what the object of a node ends with.
#[inline(always)]
pub(crate) fn push_end(text: &mut Text, is_parent: bool) -> Result<(), AllocError>
    ensures { OnOk result (text.new ≡ text.old ++ at_end is_parent) }
{
    if is_parent {
        text.push_text(b"]}")
    } else {
        text.push_text(b"}")
    }
}

/// Appends what the member of a tail begins with.
pub(crate) fn push_tail(text: &mut Text, form: Tail) -> Result<(), AllocError>
    ensures { OnOk result (text.new ≡ text.old ++ tail_begun form []) }
{
    match form {
        Tail::Absent => Ok(()),
        Tail::Words => text.push_text(b",\"words\":["),
        Tail::Text => text.push_text(b",\"text\":\""),
        Tail::Bits => text.push_text(b",\"bits\":\""),
        Tail::Data => text.push_text(b",\"octets\":\""),
    }
}

/// Appends what the member of a tail ends with.
pub(crate) fn push_tail_end(text: &mut Text, form: Tail) -> Result<(), AllocError>
    ensures { OnOk result (text.new ≡ text.old ++ tail_end form) }
{
    match form {
        Tail::Absent => Ok(()),
        Tail::Words => text.push_text(b"]"),
        Tail::Text | Tail::Bits | Tail::Data => text.push_text(b"\""),
    }
}

/// Appends octets of a tail, of which there were some words before or none.
pub(crate) fn push_octets(
    text: &mut Text,
    form: Tail,
    some: bool,
    octets: &[u8],
) -> Result<(), AllocError>
    ensures { OnOk result (text.new ≡ text.old ++ more_of form some octets.now) }
{
    match form {
        Tail::Absent => Ok(()),
        Tail::Words => push_words(text, some, octets),
        Tail::Text => push_inside(text, octets),
        Tail::Bits | Tail::Data => text.push_hexadecimal(octets),
    }
}

/// Appends what the object of a parameter of a type and a value begins with, up to its value.
#[inline(always)]
fn push_opening(text: &mut Text, kind: ParamKind, rule: &Field) -> Result<(), AllocError>
    requires first { field_name (field_rule rule.now) ≡ first_name (fields_of (ParameterKind kind)) }
    requires named { list_all is_plain (field_rule rule.now).name ≡ true }
    ensures { OnOk result (text.new ≡ text.old ++ value_opening kind) }
{
    match opening(kind) {
        Some(octets) => text.push_text(octets),
        None => {
            push_parameter(text, kind)?;
            push_field_name(text, rule)
        }
    }
}

/// Appends the object of a parameter of a type and a value.
#[inline(always)]
fn push_value_parameter(text: &mut Text, kind: ParamKind, value: u128) -> Result<(), AllocError>
    requires tv { is_tv kind ≡ true }
    requires fits { value < 2 ^ bits_of (fields_of (ParameterKind kind)) }
    ensures { OnOk result ((one : List ℕ)
        × AreParameters (one_parameter kind value) (one ∷ [])
        × (text.new ≡ text.old ++ one)) }
{
    let rule = &fields(Kind::Parameter(kind))[0];
    push_opening(text, kind, rule)?;
    push_value(text, rule, value)?;
    text.push_text(b"}")
}

impl JsonPrinter {
    /// A printer that has received nothing; it takes no memory.
    pub fn new(alloc: Global) -> JsonPrinter
        ensures { Holds result.mark result.depth result.is_parent result.text [] [] }
    {
        JsonPrinter {
            text: Text::new(alloc),
            mark: 0,
            depth: 0,
            is_parent: false,
            tail: Tail::Absent,
            has_words: false,
        }
    }

    /// Forgets what it has received, as if it were new, but keeps its memory.
    pub fn clear(&mut self)
        ensures { Holds self.new.mark self.new.depth self.new.is_parent self.new.text [] [] }
    {
        self.text.truncate(0);
        self.mark = 0;
        self.depth = 0;
        self.is_parent = false;
    }

    /// Appends what the object of a parameter below the open nodes begins with.
    #[inline(always)]
    pub(crate) fn open_parameter(&mut self, kind: ParamKind) -> Result<(), AllocError>
        requires { self.old.depth ≤ MAX_DEPTH }
        ensures { OnOk result ((was : List ℕ) (t : List Begun) (h : Head) (stop : ℕ)
            → Holds self.old.mark self.old.depth self.old.is_parent self.old.text was t
            → kind_of_head h ≡ ParameterKind kind
            → Awaits self.new.mark self.new.depth self.new.is_parent self.new.tail
            self.new.has_words self.new.text was (leading h stop [] ∷ t)) }
    {
        push_separator_below(&mut self.text, self.depth, self.is_parent)?;
        push_parameter(&mut self.text, kind)?;
        self.depth += 1;
        self.is_parent = false;
        self.tail = Tail::Absent;
        Ok(())
    }

    /// Appends the object of a parameter of a type and a value.
    #[inline(always)]
    pub(crate) fn push_parameter_of_value(
        &mut self,
        kind: ParamKind,
        value: u128,
    ) -> Result<(), AllocError>
        requires tv { is_tv kind ≡ true }
        requires fits { value < 2 ^ bits_of (fields_of (ParameterKind kind)) }
        ensures { OnOk result ((was : List ℕ) (t : List Begun)
            → Holds self.old.mark self.old.depth self.old.is_parent self.old.text was t
            → 0 < length t
            → Holds self.new.mark self.new.depth self.new.is_parent self.new.text was
            (with_value kind value t)) }
    {
        push_separator(&mut self.text, self.is_parent)?;
        push_value_parameter(&mut self.text, kind, value)?;
        self.is_parent = true;
        Ok(())
    }

    /// Appends what the object of the innermost parameter ends with.
    #[inline(always)]
    pub(crate) fn close_parameter(&mut self) -> Result<(), AllocError>
        requires { 2 ≤ self.old.depth }
        ensures { OnOk result ((was : List ℕ) (t : List Begun)
            → Holds self.old.mark self.old.depth self.old.is_parent self.old.text was t
            → CanBeClosed t
            → Holds self.new.mark self.new.depth self.new.is_parent self.new.text was
            (with_closed t)) }
    {
        push_end(&mut self.text, self.is_parent)?;
        self.depth -= 1;
        self.is_parent = true;
        Ok(())
    }

    /// Appends what the line of a message ends with.
    #[inline(always)]
    pub(crate) fn end_line(&mut self) -> Result<(), AllocError>
        ensures { OnOk result ((was : List ℕ) (b : Begun) (m : MessageTree)
            → Holds self.old.mark self.old.depth self.old.is_parent self.old.text was (b ∷ [])
            → IsFull b → IsMessageOf b.head b.fields b.tail b.children m
            → (now : List ℕ)
            × Holds self.new.mark self.new.depth self.new.is_parent self.new.text now []
            × AppendsMessage m was now) }
    {
        push_end(&mut self.text, self.is_parent)?;
        self.text.push_text(b"\n")?;
        self.mark = self.text.len();
        self.depth = 0;
        Ok(())
    }

    /// The objects of the messages so far, each with its LF; after them, what is there of one that is
    /// not whole.
    pub fn as_slice(&self) -> &[u8]
        ensures { result.now ≡ self.now.text }
    {
        self.text.as_slice()
    }
}

impl Listener for JsonPrinter {
    ghost use Rattle.llrp_json.specs.Calls.OpenJson.{Awaits, Holds};
    ghost use Rattle.llrp_json.specs.Private.OpenJson.{AppendsMessage};

    ghost begins = { λ self was t. Awaits self.mark self.depth self.is_parent self.tail self.has_words
        self.text was t };

    ghost stands = { λ self was t. Holds self.mark self.depth self.is_parent self.text was t };

    ghost ends = { λ self was m now. AppendsMessage m was now };

    ghost faulty = { λ self was t octets fault. Unit {0} };

    fn message(
        &mut self,
        version: u8,
        kind: MsgKind,
        _octets: u32,
        id: u32,
    ) -> Result<(), AllocError> {
        push_message(&mut self.text, version, kind, id)?;
        self.depth = 1;
        self.is_parent = false;
        self.tail = Tail::Absent;
        Ok(())
    }

    fn parameter(&mut self, _level: u8, kind: ParamKind, _stop: u32) -> Result<(), AllocError> {
        self.open_parameter(kind)
    }

    fn field(&mut self, rule: &Field, value: u128) -> Result<(), AllocError> {
        if rule.reserved {
            return Ok(());
        }
        push_field(&mut self.text, rule, value)
    }

    fn tail(&mut self, form: Tail) -> Result<(), AllocError> {
        push_tail(&mut self.text, form)?;
        self.tail = form;
        self.has_words = false;
        Ok(())
    }

    fn octets(&mut self, form: Tail, octets: &[u8]) -> Result<(), AllocError> {
        push_octets(&mut self.text, form, self.has_words, octets)?;
        self.has_words = has_words_after(self.has_words, octets);
        Ok(())
    }

    fn ready(&mut self) -> Result<(), AllocError> {
        push_tail_end(&mut self.text, self.tail)
    }

    fn value(&mut self, _level: u8, kind: ParamKind, value: u128) -> Result<(), AllocError> {
        self.push_parameter_of_value(kind, value)
    }

    fn close(&mut self) -> Result<(), AllocError> {
        self.close_parameter()
    }

    fn end(&mut self) -> Result<(), AllocError> {
        self.end_line()
    }

    fn fault(&mut self, _fault: Fault, _stopped: Option<Stopped>, _octets: &[u8]) {
        self.give_up();
    }

    fn give_up(&mut self) {
        self.text.truncate(self.mark);
        self.depth = 0;
    }
}

impl ItemPrinter for JsonPrinter {
    ghost use Rattle.std.specs.Prelude.{◌∷◌, ◌++◌, [], refl};
    ghost use Rattle.llrp_json.specs.JsonLines.{IsItemJson, end_json};

    ghost is_text = { IsItemJson };

    ghost text_of_end = { end_json };

    fn push_fault(&mut self, id: u32, fault: Fault) -> Result<(), AllocError> {
        push_fault_line(&mut self.text, id, fault)?;
        self.mark = self.text.len();
        Ok(())
    }

    fn push_end(&mut self, end: End) -> Result<(), AllocError> {
        push_end_line(&mut self.text, end)?;
        self.mark = self.text.len();
        Ok(())
    }

    fn whole(&self) -> &[u8] {
        &self.text.as_slice()[..self.mark]
    }

    fn drop_whole(&mut self) {
        self.text.drop_front(self.mark);
        self.mark = 0;
    }

    ghost message_text = { λ printer was m now appended. (appended.0 ++ 10 ∷ [], appended.2, (appended.0, appended.1, refl)) };
}
