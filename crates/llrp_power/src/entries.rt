//! The entries of a power table.

ghost use Rattle.std.specs.Prelude.{◌≡◌};
ghost use Rattle.llrp_power.specs.Calls.Entries.{entry_within as the_entry, is_better as the_better, least_level as the_least};

/// An entry of a reader's power table: TransmitPowerLevelTableEntry (LLRP 1.1, section 10).
#[derive(Clone, Copy, Debug, PartialEq, Eq)]
pub struct PowerEntry {
    /// What names it in a ROSpec.
    pub index: u16,
    /// Its power, in hundredths of a dBm above -327.68 dBm.
    pub level: u16,
}

/// Whether an entry has a power within a greatest level that is above that of the one found so far.
fn is_better(most: u16, found: Option<PowerEntry>, entry: PowerEntry) -> bool
    ensures { result ≡ the_better most found entry }
{
    if entry.level > most {
        return false;
    }
    match found {
        Some(best) => best.level < entry.level,
        None => true,
    }
}

/// The entry with the greatest power that is not above a level; the first one of several. `None` means
/// that each entry has a power above it, or that there is none.
pub fn entry_within(entries: &[PowerEntry], most: u16) -> Option<PowerEntry>
    ensures { result ≡ the_entry most entries.now }
{
    let mut found = None;
    for entry in entries {
        if is_better(most, found, *entry) {
            found = Some(*entry);
        }
    }
    found
}

/// The least power that the entries have; `None` if there is no entry.
pub fn least_level(entries: &[PowerEntry]) -> Option<u16>
    ensures { result ≡ the_least entries.now }
{
    let mut least = None;
    for entry in entries {
        least = Some(match least {
            Some(level) => entry.level.min(level),
            None => entry.level,
        });
    }
    least
}
