//! Prints the text of each tag on standard input, where a line has the 24 hexadecimal digits of its word: the example of
//! docs/library.md for a program over these crates.

ghost use Rattle.std.specs.Prelude.{◌≡◌, ℕ};
ghost use Rattle.tag_bits.specs.Digits.{digits_of_bytes, word_digits};
ghost use Rattle.tag_uri.specs.TagText.{IsTextOf};

use anyhow::{Context, Result};
use arrayvec::ArrayString;
use hex::FromHex;
use tag_bits::Word;
use tag_uri::text_of_word;

/// The text of the tag with these twelve octets.
fn text_of(octets: [u8; 12]) -> ArrayString<64>
    ensures { (word : ℕ) × (word_digits word ≡ digits_of_bytes octets)
        × IsTextOf word result.bytes }
{
    text_of_word(Word::of_bytes(octets))
}

/// Prints the text of each line.
pub fn print_texts(rt: &HostRuntime) -> Result<()> {
    let alloc = rt.alloc();
    for line in rt.lines(alloc) {
        let digits = line?;
        let octets = <[u8; 12]>::from_hex(digits.as_str()).ok();
        let text = text_of(octets.context("a line is not 24 hexadecimal digits")?);
        println!(rt; "{}", text.as_str())?;
    }
    Ok(())
}
