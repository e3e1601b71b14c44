//! How many cases passed, and how many failed.

/// The cases of a row.
#[derive(Drop)]
pub struct Tally {
    pub passed: u32,
    pub failed: u32,
}

impl Tally {
    pub fn new() -> Tally {
        Tally {
            passed: 0,
            failed: 0,
        }
    }

    pub fn count(&mut self, well: bool) {
        if well {
            self.passed = self.passed.saturating_add(1);
        } else {
            self.failed = self.failed.saturating_add(1);
        }
    }
}

/// Whether the wanted octets begin with these.
pub fn is_front(taken: &[u8], wanted: &[u8], length: usize) -> bool {
    wanted.starts_with(taken) && taken.len() == length
}
