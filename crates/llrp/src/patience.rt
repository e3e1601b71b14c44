//! How long `watch` waits for its reader.

use crate::watch_plan::KEEPALIVE;
use llrp_commands::WatchWords;
use llrp_waits::Bounds;

/// After how many periods without an octet the reader is taken for dead.
const SILENT_PERIODS: u64 = 3;

/// For how many milliseconds anything else is awaited of it at least.
const LEAST_PATIENCE: u64 = 5_000;

/// For how many milliseconds it is where the reader sends no KEEPALIVEs.
const UNKEPT_PATIENCE: u64 = 30_000;

/// How long each wait may last, where the reader was asked for a KEEPALIVE in each period of this many milliseconds.
fn kept_bounds(period: u64) -> Bounds {
    let silence = period.saturating_mul(SILENT_PERIODS);
    let patience = Some(silence.max(LEAST_PATIENCE));
    Bounds {
        answer: patience,
        report: None,
        frame: patience,
        silence: Some(silence),
        write: patience,
    }
}

/// How long each wait may last: the reader may be silent for ever if it sends no KEEPALIVEs.
pub fn bounds_of(words: WatchWords<'_>) -> Bounds {
    match words.keepalive.unwrap_or(KEEPALIVE) {
        0 => Bounds {
            silence: None,
            ..kept_bounds(UNKEPT_PATIENCE / SILENT_PERIODS)
        },
        seconds => kept_bounds(1_000 * seconds as u64),
    }
}
