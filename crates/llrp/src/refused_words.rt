//! Words that are read one by one and ask for nothing together.

use crate::decibels::read_power;
use crate::plan::{has_every_twice, never_reports};
use llrp_commands::{LabelWords, PlanWords, SimWords, StopWords, WatchWords};

/// What is written if reports are awaited of a ROSpec that reports at its end alone.
const NEVER_REPORTS: &[u8] =
    b"error: the argument '--every 0' cannot be used with '--reports <K>'\n\nFor more information, try '--help'.\n";

/// What is written if --every is given beside a ROSpec that says it.
const EVERY_TWICE: &[u8] =
    b"error: the argument '--rospec <FILE>' cannot be used with '--every <N>'\n\nFor more information, try '--help'.\n";

/// What is written if --id is given beside a ROSpec that says it.
const ID_TWICE: &[u8] =
    b"error: the argument '--rospec <FILE>' cannot be used with '--id <N>'\n\nFor more information, try '--help'.\n";

/// What is written if --antennas is given beside a ROSpec that says them.
const ANTENNAS_TWICE: &[u8] =
    b"error: the argument '--rospec <FILE>' cannot be used with '--antennas <LIST>'\n\nFor more information, try '--help'.\n";

/// What is written if a list has anything but the numbers of antennas.
const NO_ANTENNAS: &[u8] =
    b"error: invalid value for '--antennas <LIST>': expected numbers from 1 to 65535 with commas between them\n\nFor more information, try '--help'.\n";

/// What is written if --power is given beside a ROSpec that says it.
const POWER_TWICE: &[u8] =
    b"error: the argument '--rospec <FILE>' cannot be used with '--power <DBM>'\n\nFor more information, try '--help'.\n";

/// What is written if a text is not a power.
const NO_POWER: &[u8] =
    b"error: invalid value for '--power <DBM>': expected a number from -327.68 to 327.67 with at most two decimals\n\nFor more information, try '--help'.\n";

/// What is written if both forms of lines are asked for.
const MESSAGES_AS_WORDS: &[u8] =
    b"error: the argument '--messages' cannot be used with '--text'\n\nFor more information, try '--help'.\n";

/// What is written if labels are asked for that the lines do not have.
const NO_LABELS: &[u8] =
    b"error: --keys goes with lines of JSON, --schemes takes all, and neither goes with '--messages'\n\nFor more information, try '--help'.\n";

/// What is written if HOST is neither a host nor a host with a port.
pub const NO_ADDRESS: &[u8] =
    b"error: invalid value for '<HOST>': expected HOST, HOST:PORT, [IPV6] or [IPV6]:PORT\n\nFor more information, try '--help'.\n";

/// What is written if a text is not a clock.
pub const NO_CLOCK: &[u8] =
    b"error: invalid value for '--clock <CLOCK>': expected real, or real*N with N from 1 to 1000\n\nFor more information, try '--help'.\n";

/// What is written if answers are given to a reader of the profile that has no clock.
const ANSWERS_ALONE: &[u8] =
    b"error: the argument '--answers <FILE>' needs '--all' or '--clock <CLOCK>'\n\nFor more information, try '--help'.\n";

/// What is written if a reader of the profile that has no clock is to keep its ROSpecs.
const KEEP_ALONE: &[u8] =
    b"error: the argument '--keep' needs '--all' or '--clock <CLOCK>'\n\nFor more information, try '--help'.\n";

/// What is written if a free port is asked for, and nothing would say which it is.
const FREE_PORT_UNSAID: &[u8] =
    b"error: invalid value '0' for '<PORT>': a free port needs '--ready', which says which it is\n\nFor more information, try '--help'.\n";

/// What is written if the options of a simulated reader do not go together.
pub fn sim_clash(words: SimWords<'_>) -> Option<&'static [u8]> {
    if words.port == 0 && !words.ready {
        return Some(FREE_PORT_UNSAID);
    }
    if words.all || words.clock.is_some() {
        return None;
    }
    if words.answers.is_some() {
        return Some(ANSWERS_ALONE);
    }
    if words.keep { Some(KEEP_ALONE) } else { None }
}

/// What is written if the options of a plan exclude each other.
pub fn plan_clash(words: PlanWords<'_>) -> Option<&'static [u8]> {
    if has_every_twice(words) {
        return Some(EVERY_TWICE);
    }
    if never_reports(words) {
        return Some(NEVER_REPORTS);
    }
    None
}

/// What is written if the lines do not have the labels that are asked for. They are objects or words, and of
/// tags or of messages.
pub fn label_clash(
    labels: LabelWords<'_>,
    are_objects: bool,
    are_messages: bool,
) -> Option<&'static [u8]> {
    match labels.schemes {
        _ if labels.keys && !are_objects => Some(NO_LABELS),
        _ if labels.asks() && are_messages => Some(NO_LABELS),
        None | Some("all") => None,
        Some(_) => Some(NO_LABELS),
    }
}

/// Whether a text is the number of an antenna, in digits alone.
fn is_antenna(text: &str) -> bool {
    match text.as_bytes() {
        [b'1'..=b'9', ..] => text.parse::<u16>().is_ok(),
        _ => false,
    }
}

/// Whether a text has the numbers of antennas, with commas between them.
fn are_antennas(text: &str) -> bool {
    for part in text.split(',') {
        if !is_antenna(part) {
            return false;
        }
    }
    true
}

/// What is written if the power of `watch` is not one, or is given beside a file with a ROSpec.
fn power_clash(words: WatchWords<'_>) -> Option<&'static [u8]> {
    match words.power {
        Some(_) if words.rospec.is_some() => Some(POWER_TWICE),
        Some(text) if read_power(text).is_none() => Some(NO_POWER),
        _ => None,
    }
}

/// What is written if the options of `watch` exclude each other, or if their texts are not antennas or not a
/// power.
pub fn watch_clash(words: WatchWords<'_>) -> Option<&'static [u8]> {
    let has_file = words.rospec.is_some();
    match words.antennas {
        _ if has_file && words.every.is_some() => Some(EVERY_TWICE),
        _ if has_file && words.id.is_some() => Some(ID_TWICE),
        Some(_) if has_file => Some(ANTENNAS_TWICE),
        Some(antennas) if !are_antennas(antennas) => Some(NO_ANTENNAS),
        _ if words.messages && words.text => Some(MESSAGES_AS_WORDS),
        _ => power_clash(words).or(label_clash(words.labels, !words.text, words.messages)),
    }
}

/// What is written if the options of `stop` that say what is deleted exclude each other.
pub fn stop_clash(words: StopWords<'_>) -> Option<&'static [u8]> {
    if words.watch.rospec.is_some() && words.watch.id.is_some() {
        return Some(ID_TWICE);
    }
    None
}
