//! Powers in dBm, as a person writes them.

ghost use Rattle.std.specs.Prelude.{◌<◌, IfSome};

use llrp_listing::Text;
use std::alloc::{AllocError, Global};

/// The level of 0 dBm: a level counts hundredths of a dBm from -327.68 dBm on.
const ZERO: u32 = 32_768;

/// The number that digits write: one to three of them.
fn number_of(digits: &str) -> Option<u32>
    ensures { IfSome result (λ number. number < 65536) }
{
    let is_number = digits.bytes().all(|octet| octet.is_ascii_digit());
    match digits.len() {
        1..=3 if is_number => Some(digits.parse::<u16>().ok()? as u32),
        _ => None,
    }
}

/// The hundredths that the digits after a point write: one or two of them.
fn part_of(digits: &str) -> Option<u32>
    ensures { IfSome result (λ part. part < 655360) }
{
    let number = number_of(digits)?;
    match digits.len() {
        1 => Some(10 * number),
        2 => Some(number),
        _ => None,
    }
}

/// The hundredths that digits with a point among them write, or without one.
fn hundredths_of(text: &str) -> Option<u32> {
    match text.split_once('.') {
        Some((whole, part)) => Some(100 * number_of(whole)? + part_of(part)?),
        None => Some(100 * number_of(text)?),
    }
}

/// The level of a power in dBm: a number with at most two decimals and perhaps a sign, from -327.68 to
/// 327.67.
pub fn read_power(text: &str) -> Option<u16> {
    let level = match text.strip_prefix('-') {
        Some(rest) => ZERO.checked_sub(hundredths_of(rest)?)?,
        None => ZERO.checked_add(hundredths_of(text.strip_prefix('+').unwrap_or(text))?)?,
    };
    if level < 65_536 {
        Some(level as u16)
    } else {
        None
    }
}

/// The power of a level in dBm, with two decimals.
pub fn power_text(alloc: Global, level: u16) -> Result<Text, AllocError> {
    let mut text = Text::new(alloc);
    let level = level as u32;
    let hundredths = if level < ZERO {
        text.push_text(b"-")?;
        ZERO - level
    } else {
        level - ZERO
    };
    text.push_number((hundredths / 100) as u128)?;
    text.push_text(b".")?;
    text.push_number((hundredths / 10 % 10) as u128)?;
    text.push_number((hundredths % 10) as u128)?;
    Ok(text)
}
