//! Which groups of a node have a child.

ghost use Rattle.std.specs.Prelude.{◌≡◌, ◌≢◌, ◌<◌, ◌⊎◌, ◌==◌, ℕ, true, false, bit_and};
ghost use Rattle.std.specs.Int.{bit_at};

use crate::kinds::Place;

/// The groups of a node that have a child: bit k, from the lowest on, is set for the group with
/// index k.
#[derive(Clone, Copy)]
pub struct Seen {
    pub bits: u32,
}

impl Seen {
    /// Whether a group may take one more child: it takes any number, or has none yet.
    #[inline(always)]
    pub fn may_take(self, place: Place) -> bool
        requires { place.index < 32 }
        ensures yes { result ≡ true → (place.once ≡ false) ⊎ (bit_at self.bits place.index ≡ 0) }
        ensures no { result ≡ false → (place.once ≡ true) × (bit_at self.bits place.index ≡ 1) }
    {
        if place.once {
            return self.bits >> place.index & 1 != 1;
        }
        true
    }

    /// The same groups, and that at a place.
    #[inline(always)]
    pub fn with(self, place: Place) -> Seen
        requires { place.index < 32 }
        ensures here { bit_at result.bits place.index ≡ 1 }
        ensures others { (k : ℕ) → k ≢ place.index → bit_at result.bits k ≡ bit_at self.bits k }
    {
        Seen {
            bits: self.bits | 1 << place.index,
        }
    }

    /// Whether all these groups have a child.
    #[inline(always)]
    pub fn has_all(self, required: u32) -> bool
        ensures { result ≡ (bit_and self.bits required == required) }
    {
        self.bits & required == required
    }
}
