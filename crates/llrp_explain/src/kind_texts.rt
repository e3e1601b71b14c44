//! What the tables say of a kind, as a line of text.

ghost use Rattle.std.specs.Prelude.{◌≡◌, ◌^◌, ◌-◌, ◌≤◌, ◌++◌, ◌∷◌, [], IfNone, IfOk, IfSome, OnOk, All, codes, filter, map};
ghost use Rattle.std.specs.List.{flat_map};
ghost use Rattle.llrp_schema.specs.Calls.Schema.{field_rule, group_rule};
ghost use Rattle.llrp_schema.specs.Schema.{name_of, fields_of, groups_of, has_place};
ghost use Rattle.llrp_explain.specs.Calls.KindTexts.{choice, field_text, fields_text, group_text, groups_text, kind_text, listed, names, places_text, tail_words, times_text, title, values_text};

use crate::push::push_digits;
use llrp_schema::laws::fields_are_sound;
use llrp_schema::{Field, Group, Kind, ParamKind, Tail, fields, groups, name, number, place, tail};
use std::alloc::{AllocError, Global};

/// The greatest number of this many bits.
fn greatest_of(width: u32) -> u128
    requires { width ≤ 96 }
    ensures { result ≡ 2 ^ width - 1 }
{
    (1 << width) - 1
}

/// Appends which values a field may have, if that is not all that its bits can say.
fn push_values(text: &mut Vec<u8>, field: &Field) -> Result<(), AllocError>
    requires { field.now.width ≤ 96 }
    ensures { OnOk result (text.new.items ≡ text.old.items ++ values_text (field_rule field.now)) }
{
    if field.signed {
        return text.extend_from_slice(b" signed");
    }
    if field.greatest < greatest_of(field.width) {
        text.extend_from_slice(b" (0..")?;
        push_digits(text, field.greatest)?;
        return text.extend_from_slice(b")");
    }
    Ok(())
}

/// Appends a field: its name and how many bits it has.
fn push_field(text: &mut Vec<u8>, field: &Field) -> Result<(), AllocError>
    requires { field.now.width ≤ 96 }
    ensures { OnOk result (text.new.items ≡ text.old.items ++ field_text (field_rule field.now)) }
{
    if field.reserved {
        text.extend_from_slice(b"reserved ")?;
        return push_digits(text, field.width as u128);
    }
    text.extend_from_slice(field.name.as_bytes())?;
    text.push(b' ')?;
    push_digits(text, field.width as u128)?;
    push_values(text, field)
}

/// Appends fields, each after a comma.
fn push_later_fields(text: &mut Vec<u8>, fields: &[Field]) -> Result<(), AllocError>
    requires { All (λ field. field.width ≤ 96) fields.now }
    ensures { OnOk result (text.new.items ≡ text.old.items
        ++ flat_map (λ text. 44 ∷ 32 ∷ text) (map field_text (map field_rule fields.now))) }
{
    for field in fields {
        text.extend_from_slice(b", ")?;
        push_field(text, field)?;
    }
    Ok(())
}

/// The word for what comes between the fields and the parameters, if something does.
fn tail_word(tail: Tail) -> Option<&'static str>
    ensures none { IfNone result (tail_words tail ≡ []) }
    ensures some { IfSome result (λ word. tail_words tail ≡ word.now ∷ []) }
{
    match tail {
        Tail::Absent => None,
        Tail::Words => Some("words"),
        Tail::Text => Some("text"),
        Tail::Bits => Some("bits"),
        Tail::Data => Some("octets"),
    }
}

/// The fields of a kind, each of at most 96 bits.
fn narrow_fields(kind: Kind) -> &'static [Field]
    ensures rules { map field_rule result.now ≡ fields_of kind }
    ensures narrow { All (λ field. field.width ≤ 96) result.now }
{
    fields_are_sound();
    fields(kind)
}

/// Appends what comes after fields, after a comma.
fn push_later_tail(text: &mut Vec<u8>, tail: Tail) -> Result<(), AllocError>
    ensures { OnOk result (text.new.items ≡ text.old.items
        ++ flat_map (λ word. 44 ∷ 32 ∷ word) (tail_words tail)) }
{
    if let Some(word) = tail_word(tail) {
        text.extend_from_slice(b", ")?;
        text.extend_from_slice(word.as_bytes())?;
    }
    Ok(())
}

/// Appends what comes where there is no field.
fn push_only_tail(text: &mut Vec<u8>, tail: Tail) -> Result<(), AllocError>
    ensures { OnOk result (text.new.items ≡ text.old.items ++ listed (tail_words tail)) }
{
    match tail_word(tail) {
        Some(word) => text.extend_from_slice(word.as_bytes()),
        None => text.extend_from_slice(b"-"),
    }
}

/// Appends the fields of a kind, and what comes after them.
fn push_fields(text: &mut Vec<u8>, kind: Kind) -> Result<(), AllocError>
    ensures { OnOk result (text.new.items ≡ text.old.items ++ fields_text kind) }
{
    let Some((first, later)) = narrow_fields(kind).split_first() else {
        return push_only_tail(text, tail(kind));
    };
    push_field(text, first)?;
    push_later_fields(text, later)?;
    push_later_tail(text, tail(kind))
}

/// Appends names of parameters, each after the word that says that it is another choice.
fn push_later_choices(text: &mut Vec<u8>, members: &[ParamKind]) -> Result<(), AllocError>
    ensures { OnOk result (text.new.items ≡ text.old.items
        ++ flat_map (λ name. codes " or " ++ name) (names members.now)) }
{
    for member in members {
        text.extend_from_slice(b" or ")?;
        text.extend_from_slice(name(Kind::Parameter(*member)).as_bytes())?;
    }
    Ok(())
}

/// Appends the names of parameters of which each may be the one that stands there.
pub(crate) fn push_choice(text: &mut Vec<u8>, members: &[ParamKind]) -> Result<(), AllocError>
    ensures { OnOk result (text.new.items ≡ text.old.items ++ choice (names members.now)) }
{
    let Some((first, later)) = members.split_first() else {
        return Ok(());
    };
    text.extend_from_slice(name(Kind::Parameter(*first)).as_bytes())?;
    push_later_choices(text, later)
}

/// Appends how often a parameter of a group may stand there.
fn push_times(text: &mut Vec<u8>, least: u32, most: Option<u32>) -> Result<(), AllocError>
    ensures { OnOk result (text.new.items ≡ text.old.items ++ times_text least most) }
{
    match (least, most) {
        (0, None) => text.extend_from_slice(b"*"),
        (1, None) => text.extend_from_slice(b"+"),
        (_, None) => {
            text.push(b' ')?;
            push_digits(text, least as u128)?;
            text.extend_from_slice(b" or more")
        }
        (0, Some(1)) => text.extend_from_slice(b"?"),
        (_, Some(1)) => Ok(()),
        (_, Some(most)) => {
            text.push(b' ')?;
            push_digits(text, least as u128)?;
            text.extend_from_slice(b" to ")?;
            push_digits(text, most as u128)
        }
    }
}

/// Appends parameters that are counted together.
fn push_group(text: &mut Vec<u8>, group: &Group) -> Result<(), AllocError>
    ensures { OnOk result (text.new.items ≡ text.old.items ++ group_text (group_rule group.now)) }
{
    if group.members.len() > 1 {
        text.push(b'(')?;
        push_choice(text, group.members)?;
        text.push(b')')?;
    } else {
        push_choice(text, group.members)?;
    }
    push_times(text, group.least, group.most)
}

/// Appends groups, each after a comma.
fn push_later_groups(text: &mut Vec<u8>, groups: &[Group]) -> Result<(), AllocError>
    ensures { OnOk result (text.new.items ≡ text.old.items
        ++ flat_map (λ text. 44 ∷ 32 ∷ text) (map group_text (map group_rule groups.now))) }
{
    for group in groups {
        text.extend_from_slice(b", ")?;
        push_group(text, group)?;
    }
    Ok(())
}

/// Appends the parameters that a kind may have.
fn push_groups(text: &mut Vec<u8>, kind: Kind) -> Result<(), AllocError>
    ensures { OnOk result (text.new.items ≡ text.old.items ++ groups_text kind) }
{
    let Some((first, later)) = groups(kind).split_first() else {
        return text.extend_from_slice(b"-");
    };
    push_group(text, first)?;
    push_later_groups(text, later)
}

/// Whether a parameter may stand in a kind.
fn may_have(parent: Kind, kind: ParamKind) -> bool
    ensures { result ≡ has_place (groups_of parent) kind }
{
    place(parent, kind).is_some()
}

/// The kinds among these that a parameter may stand in.
fn parents(alloc: Global, kinds: &[Kind], kind: ParamKind) -> Result<Vec<Kind>, AllocError>
    ensures { IfOk result (λ parents. parents.items
        ≡ filter (λ parent. has_place (groups_of parent) kind) kinds.now) }
{
    let mut parents = Vec::new(alloc);
    for parent in kinds {
        if may_have(*parent, kind) {
            parents.push(*parent)?;
        }
    }
    Ok(parents)
}

/// Appends the names of kinds, each after a comma.
fn push_later_names(text: &mut Vec<u8>, kinds: &[Kind]) -> Result<(), AllocError>
    ensures { OnOk result (text.new.items ≡ text.old.items
        ++ flat_map (λ name. 44 ∷ 32 ∷ name) (map name_of kinds.now)) }
{
    for kind in kinds {
        text.extend_from_slice(b", ")?;
        text.extend_from_slice(name(*kind).as_bytes())?;
    }
    Ok(())
}

/// Appends the names of kinds.
pub(crate) fn push_names(text: &mut Vec<u8>, kinds: &[Kind]) -> Result<(), AllocError>
    ensures { OnOk result (text.new.items ≡ text.old.items ++ listed (map name_of kinds.now)) }
{
    let Some((first, later)) = kinds.split_first() else {
        return text.extend_from_slice(b"-");
    };
    text.extend_from_slice(name(*first).as_bytes())?;
    push_later_names(text, later)
}

/// Appends in which of these kinds a parameter may stand, and nothing for a message.
fn push_places(
    alloc: Global,
    text: &mut Vec<u8>,
    kinds: &[Kind],
    kind: Kind,
) -> Result<(), AllocError>
    ensures { OnOk result (text.new.items ≡ text.old.items ++ places_text kinds.now kind) }
{
    let Kind::Parameter(parameter) = kind else {
        return Ok(());
    };
    text.extend_from_slice(b"; in ")?;
    push_names(text, parents(alloc, kinds, parameter)?.as_slice())
}

/// Appends the number and the name of a kind.
fn push_title(text: &mut Vec<u8>, kind: Kind) -> Result<(), AllocError>
    ensures { OnOk result (text.new.items ≡ text.old.items ++ title kind) }
{
    push_digits(text, number(kind) as u128)?;
    text.push(b' ')?;
    text.extend_from_slice(name(kind).as_bytes())?;
    text.extend_from_slice(b": ")
}

/// Appends the line of a kind: its number and name, its fields, the parameters that it may have and,
/// of a parameter, the kinds among these that it may stand in.
pub fn push_kind(
    alloc: Global,
    text: &mut Vec<u8>,
    kinds: &[Kind],
    kind: Kind,
) -> Result<(), AllocError>
    ensures { OnOk result (text.new.items ≡ text.old.items ++ kind_text kinds.now kind) }
{
    push_title(text, kind)?;
    push_fields(text, kind)?;
    text.extend_from_slice(b"; ")?;
    push_groups(text, kind)?;
    push_places(alloc, text, kinds, kind)?;
    text.extend_from_slice(b"\n")
}
