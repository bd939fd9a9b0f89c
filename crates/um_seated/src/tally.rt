//! Counts of steps.

/// How many steps a seat has made, and how many of some kinds.
#[derive(Clone, Copy)]
pub struct Tally {
    pub steps: u32,
    /// Checks that hold the object, and ends of such holds.
    pub held: u32,
    pub ended: u32,
    pub born: u32,
    /// Drops after which the object was gone.
    pub gone: u32,
    /// How often this seat had to clean the object, and how often it did.
    pub told: u32,
    pub cleaned: u32,
}

impl Tally {
    /// No steps.
    pub fn none() -> Tally {
        Tally {
            steps: 0,
            held: 0,
            ended: 0,
            born: 0,
            gone: 0,
            told: 0,
            cleaned: 0,
        }
    }

    /// The sum of both.
    pub fn and(self, other: Tally) -> Tally {
        Tally {
            steps: self.steps.saturating_add(other.steps),
            held: self.held.saturating_add(other.held),
            ended: self.ended.saturating_add(other.ended),
            born: self.born.saturating_add(other.born),
            gone: self.gone.saturating_add(other.gone),
            told: self.told.saturating_add(other.told),
            cleaned: self.cleaned.saturating_add(other.cleaned),
        }
    }

    pub fn step(&mut self) {
        self.steps = self.steps.saturating_add(1);
    }
}
