//! The two words that say how often calls are repeated.

use anyhow::{Result, bail};

/// The numbers of two words.
pub fn two_numbers(words: &[String]) -> Result<(u32, u32)> {
    let [first, second] = words else {
        bail!("the words are two numbers");
    };
    Ok((first.as_str().parse()?, second.as_str().parse()?))
}
