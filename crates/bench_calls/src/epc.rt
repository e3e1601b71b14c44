//! Turns each line of standard input but the first over: a word's 24 hexadecimal digits into the word's
//! text, and the text of a word into its digits. Before that it writes the texts of all words and reads
//! all texts as often as the first line says, in memory, for `bench/epc.sh`. What the calls in the loops
//! return is proved in their own crates; here only that nothing goes wrong.

use anyhow::Result;
use hex::FromHex;
use std::alloc::AllocError;
use std::io;
use std::io::Write;
use tag_bits::Word;
use tag_uri::{UriFault, put_text_of_word, text_of_word, word_of_text};

/// The word of 24 hexadecimal digits.
fn word_of_digits(line: &str) -> Option<Word> {
    let bytes = <[u8; 12]>::from_hex(line).ok()?;
    Some(Word::of_bytes(bytes))
}

/// Appends the digits of a text's word, or the rule that refuses the text.
fn push_digits(out: &mut Vec<u8>, word: Result<Word, UriFault>) -> Result<(), AllocError> {
    let mut digits = [0; 24];
    match word {
        Ok(word) => {
            let bytes = word.to_bytes();
            let _ = hex::encode_to_slice(bytes.as_slice(), &mut digits);
            digits.make_ascii_uppercase();
            out.extend_from_slice(&digits)
        }
        Err(fault) => out.extend_from_slice(fault.name().as_bytes()),
    }
}

/// Appends a line turned over.
fn push_line(out: &mut Vec<u8>, line: &str) -> Result<(), AllocError> {
    match word_of_digits(line) {
        Some(word) => out.extend_from_slice(text_of_word(word).as_bytes())?,
        None => push_digits(out, word_of_text(line))?,
    }
    out.extend_from_slice(b"\n")
}

/// Writes the texts of words, each over the one before, and returns how many octets they have.
fn write_texts(words: &[Word]) -> u64 {
    let mut room = [0; 64];
    let mut octets = 0u64;
    for word in words {
        octets = octets.wrapping_add(put_text_of_word(&mut room, 0, *word) as u64);
    }
    octets
}

/// Reads texts, and returns how many are a word's.
fn read_texts(texts: &[&str]) -> u64 {
    let mut count = 0u64;
    for text in texts {
        if word_of_text(text).is_ok() {
            count = count.wrapping_add(1);
        }
    }
    count
}

/// Writes and reads all texts this many times, and returns the sum of what the calls return.
fn turn_all(words: &[Word], texts: &[&str], turns: u32) -> u64 {
    let mut sum = 0u64;
    for _ in 0..turns {
        sum = sum.wrapping_add(write_texts(words));
        sum = sum.wrapping_add(read_texts(texts));
    }
    sum
}

/// Turns the lines of standard input over.
pub fn turn_over(rt: &HostRuntime) -> Result<()> {
    let input = io::read_to_string(rt.alloc(), rt.stdin())?;
    let mut words = Vec::new(rt.alloc());
    let mut texts = Vec::new(rt.alloc());
    let mut out = Vec::new(rt.alloc());
    let mut turns = 0;
    for line in input.lines() {
        if let Ok(number) = line.parse::<u32>() {
            turns = number;
            continue;
        }
        match word_of_digits(line) {
            Some(word) => words.push(word)?,
            None => texts.push(line)?,
        }
        push_line(&mut out, line)?;
    }
    let sum = turn_all(words.as_slice(), texts.as_slice(), turns);
    eprintln!(rt; "{sum}")?;
    rt.stdout().write_all(out.as_slice())?;
    Ok(())
}
