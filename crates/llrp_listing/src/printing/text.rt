//! A text that grows at its end, word by word.

ghost use Rattle.std.specs.Prelude.{◌≡◌, ◌+◌, ◌-◌, ◌^◌, ◌<◌, ◌≤◌, ◌++◌, [], ◌∷◌, ℕ, List, OnOk, true, decimal, length, take, drop, slice_index};
ghost use Rattle.llrp_tree.specs.declared.TheConstants.{MAX_DEPTH};
ghost use Rattle.llrp_schema.specs.declared.kinds.Kind.TheVariants.{Message as MessageKind, Parameter as ParameterKind};
ghost use Rattle.llrp_schema.specs.Calls.Schema.{field_rule};
ghost use Rattle.llrp_schema.specs.Schema.{name_of, fields_of, bits_of, is_tv};
ghost use Rattle.hex.specs.Hex.{encode_lower};
ghost use Rattle.tag_uri.specs.TagText.{IsTextOf};
ghost use Rattle.llrp_listing.specs.NodeLine.{field_form, parameter_line, signed_text, spaced, IsLine, IsNumberText};
ghost use Rattle.llrp_listing.specs.StreamListing.{end_text, fault_text};

use crate::printing::decimal::{put_decimal, put_number, put_signed};
use crate::printing::fault_lines::{put_end, put_fault};
use crate::printing::lines::{put_epc, put_field, put_header, put_start, put_value_line};
use crate::printing::put::{move_front, put_octet, put_text, put_two};
use llrp_schema::{Field, Kind, MsgKind, ParamKind};
use llrp_stream::End;
use llrp_tree::Fault;
use std::alloc::{AllocError, Global};
use std::marker::Model;

/// How much room the text has after it before something is put there; nothing that is put is
/// longer.
const ROOM: usize = 1024;

/// How much room is made when there is too little.
const MORE_ROOM: usize = 4096;

/// A text, in memory that has room after it. Contracts see it as its octets.
#[derive(Drop)]
pub struct Text {
    memory: Vec<u8>,
    /// Where the text ends. The bytes of the memory after it have no meaning.
    end: usize,
}

impl Model for Text {
    ghost Value = { List ℕ };

    ghost view = { λ t. take t.end t.memory.items };

    ghost invariant = { λ t. t.end ≤ length t.memory.items };
}

/// Makes sure that there is room after a text for what is put next.
#[inline(always)]
fn make_room(memory: &mut Vec<u8>, end: usize) -> Result<(), AllocError>
    requires { end ≤ length memory.old.items }
    ensures text { take end memory.new.items ≡ take end memory.old.items }
    ensures within { end ≤ length memory.new.items }
    ensures room { OnOk result (end + 1024 ≤ length memory.new.items) }
{
    if end + ROOM <= memory.len() {
        return Ok(());
    }
    grow(memory, end)
}

/// Makes sure that there is room after a text for this many octets.
#[inline(always)]
fn make_room_for(memory: &mut Vec<u8>, end: usize, count: usize) -> Result<(), AllocError>
    requires whole { end ≤ length memory.old.items }
    requires fits { count < 2 ^ 63 }
    ensures text { take end memory.new.items ≡ take end memory.old.items }
    ensures within { end ≤ length memory.new.items }
    ensures room { OnOk result (end + count ≤ length memory.new.items) }
{
    if end + count <= memory.len() {
        return Ok(());
    }
    grow_for(memory, end, count)
}

/// Makes room after a text for this many octets and more.
#[inline(never)]
fn grow_for(memory: &mut Vec<u8>, end: usize, count: usize) -> Result<(), AllocError>
    requires whole { end ≤ length memory.old.items }
    requires fits { count < 2 ^ 63 }
    requires short { length memory.old.items < end + count }
    ensures text { take end memory.new.items ≡ take end memory.old.items }
    ensures within { end ≤ length memory.new.items }
    ensures room { OnOk result (end + count ≤ length memory.new.items) }
{
    memory.resize((end + count).saturating_add(MORE_ROOM), 0)
}

/// Makes room after a text.
#[inline(never)]
fn grow(memory: &mut Vec<u8>, end: usize) -> Result<(), AllocError>
    requires whole { end ≤ length memory.old.items }
    requires short { length memory.old.items < end + 1024 }
    ensures text { take end memory.new.items ≡ take end memory.old.items }
    ensures within { end ≤ length memory.new.items }
    ensures room { OnOk result (end + 1024 ≤ length memory.new.items) }
{
    memory.resize(end + MORE_ROOM, 0)
}

impl Text {
    /// An empty text, which takes no memory.
    pub fn new(alloc: Global) -> Text
        ensures { result ≡ [] }
    {
        Text {
            memory: Vec::new(alloc),
            end: 0,
        }
    }

    /// The octets of the text.
    pub fn as_slice(&self) -> &[u8]
        ensures { result.now ≡ self.now }
    {
        &self.memory[..self.end]
    }

    /// How many octets it has.
    pub fn len(&self) -> usize
        ensures { result ≡ length self.now }
    {
        self.end
    }

    /// Keeps only the first octets.
    pub fn truncate(&mut self, count: usize)
        ensures { self.new ≡ take count self.old }
    {
        if count < self.end {
            self.end = count;
        }
    }

    /// Removes the first octets and moves those after them to the front.
    pub fn drop_front(&mut self, count: usize)
        requires { count ≤ length self.old }
        ensures { self.new ≡ drop count self.old }
    {
        if count == 0 {
            return;
        }
        move_front(self.memory.as_mut_slice(), count, self.end);
        self.end -= count;
    }

    /// Appends the first four words of a message's line.
    #[inline(always)]
    pub(crate) fn push_header(
        &mut self,
        version: u8,
        kind: MsgKind,
        id: u32,
    ) -> Result<(), AllocError>
        ensures { OnOk result (self.new ≡ self.old ++ ((decimal 0
            ++ spaced (name_of (MessageKind kind) ∷ []))
            ++ ((32 ∷ decimal version) ++ (32 ∷ decimal id)))) }
    {
        let end = self.end;
        make_room(&mut self.memory, end)?;
        self.end = put_header(self.memory.as_mut_slice(), end, version, kind, id);
        Ok(())
    }

    /// Appends the first two words of a parameter's line.
    #[inline(always)]
    pub(crate) fn push_start(&mut self, level: u8, kind: Kind) -> Result<(), AllocError>
        requires { level ≤ MAX_DEPTH }
        ensures { OnOk result (self.new ≡ self.old ++ (decimal level
            ++ spaced (name_of kind ∷ []))) }
    {
        let end = self.end;
        make_room(&mut self.memory, end)?;
        self.end = put_start(self.memory.as_mut_slice(), end, level, kind);
        Ok(())
    }

    /// Appends a space and the number of a field.
    #[inline(always)]
    pub(crate) fn push_field(&mut self, rule: &Field, number: u128) -> Result<(), AllocError>
        requires fits { number < 2 ^ rule.now.width }
        requires signed { rule.now.signed ≡ true → rule.now.width ≡ 8 }
        ensures { OnOk result ((word : List ℕ)
            × IsNumberText (field_form (field_rule rule.now)) number word
            × (self.new ≡ self.old ++ (32 ∷ word))) }
    {
        let end = self.end;
        make_room(&mut self.memory, end)?;
        self.end = put_field(self.memory.as_mut_slice(), end, rule, number);
        Ok(())
    }

    /// Appends the line of a parameter of a type and a value.
    #[inline(always)]
    pub(crate) fn push_value_line(
        &mut self,
        level: u8,
        kind: ParamKind,
        value: u128,
    ) -> Result<(), AllocError>
        requires deep { level ≤ MAX_DEPTH }
        requires tv { is_tv kind ≡ true }
        requires fits { value < 2 ^ bits_of (fields_of (ParameterKind kind)) }
        ensures { OnOk result ((line : List ℕ)
            × IsLine (level, parameter_line kind (value ∷ []) []) line
            × (self.new ≡ self.old ++ line)) }
    {
        let end = self.end;
        make_room(&mut self.memory, end)?;
        self.end = put_value_line(self.memory.as_mut_slice(), end, level, kind, value);
        Ok(())
    }

    /// Appends the line of a faulty frame.
    pub(crate) fn push_fault(&mut self, id: u32, fault: Fault) -> Result<(), AllocError>
        ensures { OnOk result (self.new ≡ self.old ++ fault_text id fault) }
    {
        let end = self.end;
        make_room(&mut self.memory, end)?;
        self.end = put_fault(self.memory.as_mut_slice(), end, id, fault);
        Ok(())
    }

    /// Appends the line of a stream's end, if it has one.
    pub(crate) fn push_end(&mut self, stream_end: End) -> Result<(), AllocError>
        ensures { OnOk result (self.new ≡ self.old ++ end_text stream_end) }
    {
        let end = self.end;
        make_room(&mut self.memory, end)?;
        self.end = put_end(self.memory.as_mut_slice(), end, stream_end);
        Ok(())
    }

    /// Appends an octet.
    #[inline(always)]
    pub fn push(&mut self, octet: u8) -> Result<(), AllocError>
        ensures { OnOk result (self.new ≡ self.old ++ (octet ∷ [])) }
    {
        let end = self.end;
        make_room(&mut self.memory, end)?;
        self.end = put_octet(self.memory.as_mut_slice(), end, octet);
        Ok(())
    }

    /// Appends two octets.
    #[inline]
    pub(crate) fn push_two(&mut self, octets: [u8; 2]) -> Result<(), AllocError>
        ensures { OnOk result (self.new ≡ self.old ++ octets) }
    {
        let end = self.end;
        make_room(&mut self.memory, end)?;
        self.end = put_two(self.memory.as_mut_slice(), end, octets);
        Ok(())
    }

    /// Appends a number.
    #[inline]
    pub(crate) fn push_decimal(&mut self, number: u64) -> Result<(), AllocError>
        ensures { OnOk result (self.new ≡ self.old ++ decimal number) }
    {
        let end = self.end;
        make_room(&mut self.memory, end)?;
        self.end = put_decimal(self.memory.as_mut_slice(), end, number);
        Ok(())
    }

    /// Appends a text.
    #[inline(always)]
    pub fn push_text(&mut self, text: &[u8]) -> Result<(), AllocError>
        ensures { OnOk result (self.new ≡ self.old ++ text.now) }
    {
        let end = self.end;
        make_room_for(&mut self.memory, end, text.len())?;
        self.end = put_text(self.memory.as_mut_slice(), end, text);
        Ok(())
    }

    /// Appends a number of any width in decimal.
    #[inline]
    pub fn push_number(&mut self, number: u128) -> Result<(), AllocError>
        ensures { OnOk result (self.new ≡ self.old ++ decimal number) }
    {
        let end = self.end;
        make_room(&mut self.memory, end)?;
        self.end = put_number(self.memory.as_mut_slice(), end, number);
        Ok(())
    }

    /// Appends the text of an EPC's word.
    #[inline(always)]
    pub fn push_epc(&mut self, bits: u128) -> Result<(), AllocError>
        requires { bits < 2 ^ 96 }
        ensures { OnOk result ((word : List ℕ) × IsTextOf bits word
            × (self.new ≡ self.old ++ word)) }
    {
        let end = self.end;
        make_room(&mut self.memory, end)?;
        self.end = put_epc(self.memory.as_mut_slice(), end, bits);
        Ok(())
    }

    /// Appends eight bits as a number in two's complement.
    #[inline]
    pub fn push_signed(&mut self, bits: u128) -> Result<(), AllocError>
        requires { bits < 256 }
        ensures { OnOk result (self.new ≡ self.old ++ signed_text bits) }
    {
        let end = self.end;
        make_room(&mut self.memory, end)?;
        self.end = put_signed(self.memory.as_mut_slice(), end, bits as u8);
        Ok(())
    }

    /// Appends octets in lower-case hexadecimal.
    pub fn push_hexadecimal(&mut self, octets: &[u8]) -> Result<(), AllocError>
        ensures { OnOk result (self.new ≡ self.old ++ encode_lower octets.now) }
    {
        for octet in octets {
            let mut digits = [0; 2];
            let Ok(()) = hex::encode_to_slice(&[*octet], &mut digits) else {
                unreachable!()
            };
            self.push_two(digits)?;
        }
        Ok(())
    }

    /// The last octet, or 0 if the text is empty.
    pub(crate) fn last(&self) -> u8
        ensures { result ≡ slice_index self.now (length self.now - 1) }
    {
        if self.end == 0 {
            return 0;
        }
        self.memory[self.end - 1]
    }
}
