//! Lines of a frame, appended one after another.

ghost use Rattle.std.specs.Prelude.{◌≡◌, ◌+◌, ◌<◌, ◌≤◌, ◌++◌, ◌∷◌, [], None, OnOk, decimal};
ghost use Rattle.hex.specs.Hex.{encode_lower};
ghost use Rattle.llrp_explain.specs.Calls.ExplainLines.{kind_line, line, octets_line};
ghost use Rattle.llrp_explain.specs.Calls.ExplainText.{words_text};
ghost use Rattle.llrp_explain.specs.Calls.Printed.{Adds};

use crate::push::push_octets_line;
use crate::readings::{push_kind_line, push_read_line};
use llrp_schema::Kind;
use std::alloc::{AllocError, Global};

/// A text, and after it the lines of a frame so far.
#[derive(Drop)]
pub struct Lines {
    pub(crate) text: Vec<u8>,
    /// The bit of the frame at which the next line begins.
    pub(crate) bit: u32,
    /// The kind of the last head, whose fields come next.
    pub(crate) kind: Option<Kind>,
}

/// The bit after this many bits more.
fn bit_after(bit: u32, width: u128) -> u32
    requires narrow { width ≤ 1000000000000000000000000000 }
    ensures { bit + width < 4294967296 → result ≡ bit + width }
{
    let after = bit as u128 + width;
    if after < 4294967296 { after as u32 } else { 0 }
}

impl Lines {
    /// No text, and no line.
    pub fn new(alloc: Global) -> Lines
        ensures text { result.text.items ≡ [] }
        ensures bit { result.bit ≡ 0 }
        ensures kind { result.kind ≡ None }
    {
        Lines {
            text: Vec::new(alloc),
            bit: 0,
            kind: None,
        }
    }

    /// Drops the text, for the lines of another frame.
    pub(crate) fn begin(&mut self)
        ensures text { self.new.text.items ≡ [] }
        ensures bit { self.new.bit ≡ 0 }
        ensures kind { self.new.kind ≡ None }
    {
        self.text.clear();
        self.bit = 0;
        self.kind = None;
    }

    /// Appends the line of a number.
    pub(crate) fn number(
        &mut self,
        level: u8,
        name: &[u8],
        width: u32,
        value: u128,
    ) -> Result<(), AllocError>
        ensures { OnOk result (Adds (line level name.now width value ∷ []) self.old self.new) }
    {
        if width == 0 {
            return Ok(());
        }
        push_read_line(
            &mut self.text,
            self.kind,
            self.bit,
            width,
            level,
            name,
            value,
        )?;
        self.bit = bit_after(self.bit, width as u128);
        Ok(())
    }

    /// Appends the line of the type in a head, which is the number of a kind. The fields of that come next.
    pub(crate) fn kind_number(
        &mut self,
        level: u8,
        name: &[u8],
        width: u32,
        kind: Kind,
    ) -> Result<(), AllocError>
        requires { 0 < width }
        ensures { OnOk result (Adds (kind_line level name.now width kind ∷ []) self.old self.new) }
    {
        push_kind_line(&mut self.text, self.bit, width, level, name, kind)?;
        self.bit = bit_after(self.bit, width as u128);
        self.kind = Some(kind);
        Ok(())
    }

    /// Appends the line of octets, if there are any.
    pub(crate) fn octets(&mut self, level: u8, name: &[u8], octets: &[u8]) -> Result<(), AllocError>
        ensures { OnOk result (Adds (octets_line level name.now octets.now ∷ [])
            self.old self.new) }
    {
        let count = octets.len();
        if count == 0 {
            return Ok(());
        }
        push_octets_line(&mut self.text, self.bit, level, name, octets)?;
        self.bit = bit_after(self.bit, 8 * count as u128);
        Ok(())
    }
}
