//! Bytes as hexadecimal digits.

ghost use Rattle.std.specs.Prelude.{◌≡◌, ◌++◌, ◌⊎◌, IfErr, IfOk, OnOk};
ghost use Rattle.hex.specs.Hex.{encode_lower};
ghost use Rattle.llrp_listing.specs.Calls.Hexadecimal.{IsHexOf, IsNoHex, is_space};

use crate::outcome::ToolErr;
use hex::FromHexError;
use std::alloc::{AllocError, Global};

/// Whether the byte may stand between digits: space, tab, LF or CR.
fn is_space(byte: u8) -> bool
    ensures { result ≡ is_space byte }
{
    byte == b' ' || byte == b'\t' || byte == b'\n' || byte == b'\r'
}

/// The bytes that a text of hexadecimal digits of either case spells, two digits a byte, the first
/// the more significant. Space, tab, LF and CR are skipped. The errors are `Hex`, where what is left
/// is not an even number of digits, and `Memory`.
pub fn bytes_of_hex(alloc: Global, text: &[u8]) -> Result<Vec<u8>, ToolErr>
    ensures bytes { IfOk result (λ bytes. IsHexOf text.now bytes.items) }
    ensures refused { IfErr result (λ e. (e ≡ ToolErr.Memory)
        ⊎ ((e ≡ ToolErr.Hex) × IsNoHex text.now)) }
{
    let digits: Vec<u8> = text
        .iter()
        .copied()
        .filter(|byte| !is_space(*byte))
        .collect(alloc)?;
    match hex::decode(alloc, digits.as_slice()) {
        Ok(bytes) => Ok(bytes),
        Err(error) => match error {
            FromHexError::OutOfMemory => Err(ToolErr::Memory),
            _ => Err(ToolErr::Hex),
        },
    }
}

/// Appends octets in lower-case hexadecimal.
pub fn push_hexadecimal(text: &mut Vec<u8>, octets: &[u8]) -> Result<(), AllocError>
    ensures { OnOk result (text.new.items ≡ text.old.items ++ encode_lower octets.now) }
{
    for octet in octets {
        let mut digits = [0; 2];
        let Ok(()) = hex::encode_to_slice(&[*octet], &mut digits) else {
            unreachable!()
        };
        text.extend_from_slice(&digits)?;
    }
    Ok(())
}
