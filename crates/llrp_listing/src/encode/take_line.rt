//! Takes a line that was read: closes the lines at its level or deeper, puts its octets after those
//! of its parents, and opens it.

ghost use Rattle.std.specs.Prelude.{◌≡◌, ◌≤◌, IfErr, IfOk, OnOk};
ghost use Rattle.llrp_listing.specs.Private.EncodeBuffer.{row_count};
ghost use Rattle.llrp_listing.specs.Private.OpenNodes.{IsSaid};
ghost use Rattle.llrp_listing.specs.Private.LineOctets.{PutsOwn};
ghost use Rattle.llrp_listing.specs.Private.ShortLines.{IsFitting, short_level, short_node, value_node};
ghost use Rattle.llrp_listing.specs.Private.TakingLines.{RestsDeep, TakeFails, Takes, line_level, line_node, said_level, said_node};

use crate::encode::buffer::{EncodeBuffer, Refused};
use crate::encode::line_octets::{
    Own, begun_by, put_fitting, put_message, put_parameter, put_value,
};
use crate::encode::open_lines::ValueRecord;
use crate::encode::read_short_line::ShortLine;
use crate::encode::value_line::ValueLine;
use crate::parse_line::Line;
use llrp_schema::{Kind, MsgKind, ParamKind};
use std::alloc::AllocError;

/// What a line says, wherever it is kept.
#[derive(Clone, Copy)]
pub enum LineContents<'a> {
    Message {
        kind: MsgKind,
        version: u8,
        id: u32,
        fields: &'a [u128],
        tail: &'a [u8],
    },
    Parameter {
        level: usize,
        kind: ParamKind,
        fields: &'a [u128],
        tail: &'a [u8],
    },
    /// A parameter's line with one number and no tail.
    Value {
        level: usize,
        kind: ParamKind,
        value: u128,
    },
}

/// What a line that was read word by word says.
pub fn said_by(line: &Line) -> LineContents<'_>
    ensures level { said_level result ≡ line_level line.now }
    ensures says { said_node result ≡ line_node line.now }
{
    match line {
        Line::Message(line) => LineContents::Message {
            kind: line.kind,
            version: line.version,
            id: line.id,
            fields: line.fields.as_slice(),
            tail: line.tail.as_slice(),
        },
        Line::Parameter(line) => LineContents::Parameter {
            level: line.level,
            kind: line.kind,
            fields: line.fields.as_slice(),
            tail: line.tail.as_slice(),
        },
    }
}

/// What a line that was read by the short way says.
#[inline(always)]
pub fn said_short<'a>(line: ShortLine) -> LineContents<'a>
    ensures level { said_level result ≡ short_level line }
    ensures says { said_node result ≡ short_node line }
{
    match line {
        ShortLine::Message { kind, version, id } => LineContents::Message {
            kind,
            version,
            id,
            fields: &[],
            tail: &[],
        },
        ShortLine::Bare { level, kind } => LineContents::Parameter {
            level,
            kind,
            fields: &[],
            tail: &[],
        },
        ShortLine::Number {
            level,
            kind,
            number,
        } => LineContents::Value {
            level,
            kind,
            value: number,
        },
    }
}

/// Why a line is not taken.
#[derive(Clone, Copy)]
pub enum TakeErr {
    /// A line that it closes fails a test.
    Refuses(Refused),
    /// Memory ran out.
    Memory,
}

/// The kind of a line.
#[inline(always)]
fn kind_of(said: LineContents<'_>) -> Kind
    ensures { result ≡ (said_node said.entry).kind }
{
    match said {
        LineContents::Message { kind, .. } => Kind::Message(kind),
        LineContents::Parameter { kind, .. } | LineContents::Value { kind, .. } => {
            Kind::Parameter(kind)
        }
    }
}

/// The level of a line.
#[inline(always)]
fn level_of(said: LineContents<'_>) -> usize
    ensures { result ≡ said_level said.entry }
{
    match said {
        LineContents::Message { .. } => 0,
        LineContents::Parameter { level, .. } | LineContents::Value { level, .. } => level,
    }
}

/// Appends the octets of a line.
#[inline(always)]
fn put_line(room: &mut Vec<u8>, said: LineContents<'_>) -> Result<Own, AllocError>
    requires { IsSaid (said_node said) }
    ensures { IfOk result (λ own. PutsOwn room.old.items room.new.items own (said_node said.entry)) }
{
    match said {
        LineContents::Message {
            kind,
            version,
            id,
            fields,
            tail,
        } => put_message(room, kind, version, id, fields, tail),
        LineContents::Parameter {
            kind,
            fields,
            tail,
            ..
        } => put_parameter(room, kind, fields, tail),
        LineContents::Value { kind, value, .. } => put_value(room, kind, value),
    }
}

/// Takes a line.
#[inline(always)]
pub fn take(writer: &mut EncodeBuffer, number: u64, said: LineContents<'_>) -> Result<(), TakeErr>
    requires said { IsSaid (said_node said) }
    requires stands { RestsDeep writer.old (said_level said) }
    ensures taken { OnOk result (Takes writer.old writer.new (said_level said.entry)
        (said_node said.entry) number) }
    ensures limit { writer.new.limit ≡ writer.old.limit }
    ensures stopped { IfErr result (TakeFails writer.old writer.new (said_level said.entry)) }
{
    let at = writer.room.len();
    match put_line(&mut writer.room, said) {
        Err(_) => Err(TakeErr::Memory),
        Ok(own) => {
            let begun = begun_by(kind_of(said), number, own);
            match writer.open_line(level_of(said), begun.held, begun.put, at) {
                Ok(()) => Ok(()),
                Err(refused) => Err(TakeErr::Refuses(refused)),
            }
        }
    }
}

/// Takes a line with a value alone, at the level of such lines.
#[inline(always)]
pub fn take_value(writer: &mut EncodeBuffer, number: u64, line: ValueLine) -> Result<(), TakeErr>
    requires fits { IsFitting line }
    requires said { IsSaid (value_node line) }
    requires least { 1 ≤ row_count writer.old.rows }
    requires stands { RestsDeep writer.old (row_count writer.old.rows) }
    ensures taken { OnOk result (Takes writer.old writer.new (row_count writer.old.rows)
        (value_node line) number) }
    ensures limit { writer.new.limit ≡ writer.old.limit }
    ensures stopped { IfErr result (TakeFails writer.old writer.new (row_count writer.old.rows)) }
{
    let at = writer.room.len();
    match put_fitting(&mut writer.room, line) {
        Err(_) => Err(TakeErr::Memory),
        Ok(octets) => {
            let value = ValueRecord {
                kind: line.kind,
                number,
                octets,
            };
            match writer.open_value(value, at) {
                Ok(()) => Ok(()),
                Err(refused) => Err(TakeErr::Refuses(refused)),
            }
        }
    }
}
