//! The forms of requests.

ghost use Rattle.std.specs.Prelude.{◌∷◌, ◌≡◌, length, map};
ghost use Rattle.llrp_listing.specs.Lines.{words};
ghost use Rattle.llrp_schema.specs.Calls.Schema.{field_rule, message_named_in};
ghost use Rattle.llrp_schema.specs.declared.kinds.KindSet.TheVariants.{Standard};
ghost use Rattle.llrp_answers.specs.Calls.Forms.{counted, fits, form_refusal, word_count, word_fits};
ghost use Rattle.llrp_answers.specs.Private.Words.{plain, words_in};

use llrp_listing::{Refusal, Text, split_once};
use llrp_schema::{Field, Kind, KindSet, MsgKind, Tail, fields, msg_with_name_in, tail};

/// The first word and, if a space ends it, the words after it.
fn first_word(line: &[u8]) -> (&[u8], Option<&[u8]>)
    ensures { words line.now ≡ result.0.now ∷ words_in result.1 }
{
    match split_once(line, b' ') {
        Some((word, rest)) => (word, Some(rest)),
        None => (line, None),
    }
}

/// Whether a word of a form stands for a word.
fn word_fits(form: &[u8], word: &[u8]) -> bool
    ensures { result ≡ word_fits form.now word.now }
{
    let any = form == b"*".as_slice();
    let same = form == word;
    any || same
}

/// Whether each word of a form stands for the word of a line.
pub(crate) fn fits(form: &[u8], line: &[Text]) -> bool
    ensures { result ≡ fits (words form.now) line.now }
{
    let mut rest = Some(form);
    for word in line {
        let Some(left) = rest else {
            return false;
        };
        let (first, later) = first_word(left);
        if !word_fits(first, word.as_slice()) {
            return false;
        }
        rest = later;
    }
    rest.is_none()
}

/// How many fields are not reserved.
fn plain_count(rules: &[Field]) -> usize
    ensures { result ≡ length (plain (map field_rule rules.now)) }
{
    let mut count: usize = 0;
    for rule in rules {
        if !rule.reserved {
            count += 1;
        }
    }
    count
}

/// How many words the line of a message has.
fn word_count(kind: MsgKind) -> usize
    ensures { result ≡ word_count kind }
{
    let kind = Kind::Message(kind);
    let plain = plain_count(fields(kind));
    match tail(kind) {
        Tail::Absent => 4 + plain,
        _ => 5 + plain,
    }
}

/// How many words a line has.
fn count_words(line: &[u8]) -> usize
    ensures { result ≡ length (words line.now) }
{
    line.iter().filter(|octet| **octet == b' ').count() + 1
}

/// Why a line that has this name is no form, if it is none.
fn name_refusal(line: &[u8], name: &[u8]) -> Option<Refusal>
    ensures { result ≡ counted (words line.now) (message_named_in Standard name.now) }
{
    let Some(kind) = msg_with_name_in(KindSet::Standard, name) else {
        return Some(Refusal::Name);
    };
    if count_words(line) == word_count(kind) {
        None
    } else {
        Some(Refusal::Fields)
    }
}

/// Why a line is no form of a request, if it is none.
pub(crate) fn form_refusal(line: &[u8]) -> Option<Refusal>
    ensures { result ≡ form_refusal line.now }
{
    let (level, rest) = first_word(line);
    let is_message = level == b"0".as_slice();
    if !is_message {
        return Some(Refusal::Level);
    }
    let Some(rest) = rest else {
        return Some(Refusal::Name);
    };
    let (name, _) = first_word(rest);
    name_refusal(line, name)
}
