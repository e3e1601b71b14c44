//! The words of a refusal: where in a line, and why.

ghost use Rattle.std.specs.Prelude.{◌≡◌, ◌++◌, ◌∷◌, [], ℕ, List, IfOk, OnOk, None};
ghost use Rattle.std.specs.Str.{chars};
ghost use Rattle.std.specs.List.{flat_map};
ghost use Rattle.llrp_json_read.specs.Calls.ReadErrors.{told};
ghost use Rattle.llrp_json_read.specs.Path.{character_text, is_plain, object_text, objects_text, path_text, path_to, unit_text};

use crate::refusal::Refusal;
use itoa::Buffer;
use llrp_listing::push_hexadecimal;
use std::alloc::{AllocError, Global};

/// Whether a character of a name is printed as it is.
fn is_plain(c: char) -> bool
    ensures { result ≡ is_plain c }
{
    let code = c as u32;
    32 <= code && (code < 127 && (code != 34 && code != 92))
}

/// Appends a unit of UTF-16 after `\u`.
fn push_unit(path: &mut Vec<u8>, unit: u16) -> Result<(), AllocError>
    ensures { OnOk result (path.new.items ≡ path.old.items ++ unit_text unit) }
{
    path.extend_from_slice(b"\\u")?;
    push_hexadecimal(path, &[(unit / 256) as u8, (unit % 256) as u8])
}

/// Appends units of UTF-16.
fn push_units(path: &mut Vec<u8>, units: &[u16]) -> Result<(), AllocError>
    ensures { OnOk result (path.new.items ≡ path.old.items ++ flat_map unit_text units.now) }
{
    for unit in units {
        push_unit(path, *unit)?;
    }
    Ok(())
}

/// Appends a character of a name.
fn push_character(path: &mut Vec<u8>, c: char) -> Result<(), AllocError>
    ensures { OnOk result (path.new.items ≡ path.old.items ++ character_text c) }
{
    if is_plain(c) {
        return Ok(path.push(c as u8)?);
    }
    let mut room = [0u16; 2];
    push_units(path, c.encode_utf16(&mut room))
}

/// Appends the name of a member, with JSON's escapes for what is not printable.
fn push_name(path: &mut Vec<u8>, name: &str) -> Result<(), AllocError>
    ensures { OnOk result (path.new.items
        ≡ path.old.items ++ flat_map character_text (chars name.now)) }
{
    for c in name.chars() {
        push_character(path, c)?;
    }
    Ok(())
}

/// Appends the object with this place below its parent.
fn push_object(path: &mut Vec<u8>, place: usize) -> Result<(), AllocError>
    ensures { OnOk result (path.new.items ≡ path.old.items ++ object_text place) }
{
    let mut digits = Buffer::new();
    path.extend_from_slice(b"parameters[")?;
    path.extend_from_slice(digits.format(place).as_bytes())?;
    Ok(path.push(b']')?)
}

/// Appends the objects with these places, of which the innermost comes first, each with a point after it.
fn push_objects(path: &mut Vec<u8>, places: &[usize]) -> Result<(), AllocError>
    ensures { OnOk result (path.new.items ≡ path.old.items ++ objects_text places.now) }
{
    let Some((place, outer)) = places.split_first() else {
        return Ok(());
    };
    push_objects(path, outer)?;
    push_object(path, *place)?;
    Ok(path.push(b'.')?)
}

/// Appends the path of an object without a member.
fn push_whole(path: &mut Vec<u8>, places: &[usize]) -> Result<(), AllocError>
    ensures { OnOk result (path.new.items ≡ path.old.items ++ path_to places.now None) }
{
    let Some((place, outer)) = places.split_first() else {
        return Ok(());
    };
    push_objects(path, outer)?;
    push_object(path, *place)
}

/// The path of the member at which a value is refused, as `parameters[1].AntennaID`; of the object, if it is at no member; empty if it
/// is the line.
pub fn path_of<'a>(alloc: Global, refusal: &Refusal<'a>) -> Result<Vec<u8>, AllocError>
    ensures { IfOk result (λ path. path.items ≡ path_text (told refusal.now)) }
{
    let mut path = Vec::new(alloc);
    match refusal.member {
        Some(name) => {
            push_objects(&mut path, refusal.places.as_slice())?;
            push_name(&mut path, name)?;
        }
        None => push_whole(&mut path, refusal.places.as_slice())?,
    }
    Ok(path)
}
