//! Laws of the choice of an entry.

ghost use Rattle.llrp_power.specs.Calls.Laws.{IsTheGreatestWithin, IsTheLeast};

/// The entry that is taken is in the table, its power is not above the one that is wanted, and no entry
/// of which this holds too has a greater one. Where none is taken, each entry has a power above it.
pub fn takes_the_greatest_within()
    ensures { IsTheGreatestWithin }
{}

/// The least power is that of an entry, and no entry has a lesser one.
pub fn names_the_least()
    ensures { IsTheLeast }
{}
