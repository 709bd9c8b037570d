// Counts of what was compared.
ghost use Rattle.std.specs.Prelude.{◌≡◌, ◌+◌, ◌-◌, ◌^◌, min, slice_set, slice_index_or};
ghost use Rattle.sixtieths.specs.Counting.{one_added, tallied, place_of};
ghost use Rattle.sixtieths.specs.declared.counts.Tally.{Tally};

use crate::comparison::{Finding, Kind};

// The positions with answers of one kind, by what the grid says of them. No array by finding: each has a name where it is told.
#[derive(Clone, Copy, Default)]
pub struct Tally {
    pub exact: u32,
    pub later: u32,
    pub missing: u32,
    pub wrong: u32,
}

#[derive(Clone, Copy, Default)]
pub struct Counts {
    // a tally for each kind
    tallies: [Tally; Kind::ALL.len()],
    // runs that were gone through again
    pub followed: u32,
    pub differences: u32,
}

// One more, as far as there is place.
fn add_one(count: &mut u32)
    ensures { count.new ≡ one_added count.old }
{
    *count = count.saturating_add(1);
}

impl Tally {
    // One more position.
    fn add(&mut self, finding: Finding)
        ensures { self.new ≡ tallied self.old finding }
    {
        // A call in each arm: tried was a match that picks the field, and `returns` stayed open where the arms join.
        match finding {
            Finding::Exact => add_one(&mut self.exact),
            Finding::Later => add_one(&mut self.later),
            Finding::Missing => add_one(&mut self.missing),
            Finding::Contradiction => add_one(&mut self.wrong),
        }
    }

    pub fn positions(&self) -> u32
        ensures { result ≡ min (self.now.exact + self.now.later + self.now.missing + self.now.wrong) (2 ^ 32 - 1) }
    {
        self.exact
            .saturating_add(self.later)
            .saturating_add(self.missing)
            .saturating_add(self.wrong)
    }
}

impl Counts {
    // The tally of a kind.
    pub fn tally(&self, of: Kind) -> Tally
        ensures { (other : Tally) → result ≡ slice_index_or self.now.tallies (place_of of) other }
    {
        self.tallies[of as usize]
    }

    // One more position.
    pub fn note(&mut self, kind: Kind, finding: Finding)
        ensures tallies { (other : Tally) → self.new.tallies ≡ slice_set self.old.tallies (place_of kind) (tallied (slice_index_or self.old.tallies (place_of kind) other) finding) }
        ensures rest { (self.new.followed ≡ self.old.followed) × (self.new.differences ≡ self.old.differences) }
    {
        self.tallies[kind as usize].add(finding);
    }

    pub fn note_followed(&mut self)
        ensures followed { self.new.followed ≡ one_added self.old.followed }
        ensures rest { (self.new.tallies ≡ self.old.tallies) × (self.new.differences ≡ self.old.differences) }
    {
        add_one(&mut self.followed);
    }

    pub fn note_difference(&mut self)
        ensures differences { self.new.differences ≡ one_added self.old.differences }
        ensures rest { (self.new.tallies ≡ self.old.tallies) × (self.new.followed ≡ self.old.followed) }
    {
        add_one(&mut self.differences);
    }
}
