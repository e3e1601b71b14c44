//! How frames are listed.

ghost use Rattle.std.specs.Prelude.{◌≤◌};
ghost use Rattle.llrp_tree.specs.declared.TheConstants.{MAX_LIMIT};

use llrp_schema::KindSet;

/// How frames are listed.
#[derive(Clone, Copy)]
pub struct Form {
    /// As lines of JSON, in place of lines of a listing.
    pub json: bool,
    /// Which kinds are taken.
    pub set: KindSet,
    /// How many octets a message may have: 10 to 1,048,576.
    pub limit: u32,
    ghost least: { 10 ≤ limit },
    ghost most: { limit ≤ MAX_LIMIT },
}
