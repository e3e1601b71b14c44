//! How many tags and reports an inventory printed.

ghost use Rattle.std.specs.Prelude.{◌≡◌, ◌+◌, [], min};
ghost use Rattle.llrp_endpoints.specs.TagLines.{greatest_count, summary_of};

/// How many tags and how many reports came. Neither number goes beyond the greatest `u64`.
#[derive(Clone, Copy, Debug, PartialEq, Eq)]
pub struct Summary {
    pub tags: u64,
    pub reports: u64,
}

impl Summary {
    /// Nothing came yet.
    pub(crate) fn empty() -> Summary
        ensures { result ≡ summary_of [] }
    {
        Summary {
            tags: 0,
            reports: 0,
        }
    }

    /// The summary after one more report, which has this many tags.
    pub(crate) fn with_report(self, tags: usize) -> Summary
        ensures tags { result.tags ≡ min (self.tags + tags) greatest_count }
        ensures reports { result.reports ≡ min (self.reports + 1) greatest_count }
    {
        Summary {
            tags: self.tags.saturating_add(tags as u64),
            reports: self.reports.saturating_add(1),
        }
    }
}
