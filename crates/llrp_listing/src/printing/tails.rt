//! The word of a tail, appended to a text.

ghost use Rattle.std.specs.Prelude.{◌≡◌, ◌+◌, ◌*◌, ◌++◌, [], ◌∷◌, ℕ, List, OnOk, decimal, length};
ghost use Rattle.llrp_schema.specs.declared.kinds.Tail.TheVariants.{Words as InWords};
ghost use Rattle.llrp_tree.specs.Lawful.{AreOctets};
ghost use Rattle.llrp_listing.specs.NodeLine.{spaced, tail_texts, word_list_text};
ghost use Rattle.llrp_stream.specs.Calls.Received.{AreWhole};
ghost use Rattle.llrp_listing.specs.Private.Tails.{MoreWords, MoreTail};

use crate::printing::text::Text;
use llrp_schema::Tail;
use std::alloc::AllocError;

/// Appends a space and what the word of a tail begins with.
pub(crate) fn push_tail(text: &mut Text, form: Tail) -> Result<(), AllocError>
    ensures { OnOk result (text.new ≡ text.old ++ spaced (tail_texts form [])) }
{
    match form {
        Tail::Absent => Ok(()),
        Tail::Words => text.push_two(*b" w"),
        Tail::Text => text.push_two(*b" x"),
        Tail::Bits => text.push_two(*b" x"),
        Tail::Data => text.push_two(*b" x"),
    }
}

/// Appends a word of two octets in decimal, with a comma before it unless it is the first.
fn push_word(text: &mut Text, high: u8, low: u8) -> Result<(), AllocError>
    ensures { OnOk result (MoreWords text.old text.new (high ∷ low ∷ [])) }
{
    if text.last() == b'w' {
        return push_number(text, high, low);
    }
    text.push(b',')?;
    push_number(text, high, low)
}

/// Appends a word of two octets in decimal.
fn push_number(text: &mut Text, high: u8, low: u8) -> Result<(), AllocError>
    ensures { OnOk result (text.new ≡ text.old ++ decimal (256 * high + low)) }
{
    text.push_decimal(u16::from_be_bytes([high, low]) as u64)
}

/// Appends words of two octets in decimal, with a comma before each but the tail's first.
fn push_words(text: &mut Text, octets: &[u8]) -> Result<(), AllocError>
    ensures { OnOk result ((n : ℕ) → length octets.now ≡ 2 * n
        → MoreWords text.old text.new octets.now) }
{
    let mut rest = octets;
    while rest.len() >= 2 {
        let (word, others) = rest.split_at(2);
        push_word(text, word[0], word[1])?;
        rest = others;
    }
    Ok(())
}

/// Appends the next octets of a tail to its word.
pub(crate) fn push_octets(text: &mut Text, form: Tail, octets: &[u8]) -> Result<(), AllocError>
    requires { AreWhole form octets.now }
    ensures { OnOk result (MoreTail form text.old text.new octets.now) }
{
    match form {
        Tail::Absent => Ok(()),
        Tail::Words => push_words(text, octets),
        Tail::Text => text.push_hexadecimal(octets),
        Tail::Bits => text.push_hexadecimal(octets),
        Tail::Data => text.push_hexadecimal(octets),
    }
}
