// How many comparisons there are, and how many are right.
ghost use Rattle.std.specs.Prelude.{◌≡◌, ◌==◌};
ghost use Rattle.replay.specs.Tallies.{counted_of, both_of};

use std::fmt;
use std::ops::Add;

// Comparisons, and those of them that are as they must be.
#[derive(Clone, Copy, Default)]
pub struct Tally {
    pub all: u64,
    pub right: u64,
}

impl Tally {
    // One more.
    #[tactic(auto, unfolding(crate::specs::Tallies::counted_of))]
    pub fn count(&mut self, right: bool)
        ensures { self.new ≡ counted_of self.old right }
    {
        self.all = self.all.wrapping_add(1);
        if right {
            self.right = self.right.wrapping_add(1);
        }
    }

    // Whether every comparison is right.
    pub fn is_right(self) -> bool
        ensures { result ≡ (self.right == self.all) }
    {
        self.right == self.all
    }
}

impl Add for Tally {
    type Output = Self;

    ghost add_gives = { λ a b r. r ≡ both_of a b };

    #[tactic(auto, unfolding(crate::specs::Tallies::both_of))]
    fn add(self, other: Self) -> Self {
        Self {
            all: self.all.wrapping_add(other.all),
            right: self.right.wrapping_add(other.right),
        }
    }
}

// As in `3 of 4`.
impl fmt::Display for Tally {
    fn fmt<W: fmt::Write>(&self, f: &mut fmt::Formatter<W>) -> fmt::Result {
        write!(f, "{} of {}", self.right, self.all)
    }
}
