// How many cases were tried, and how many of them hold.
use std::fmt;
use std::ops::AddAssign;

#[derive(Clone, Copy, Default)]
pub struct Tally {
    tried: u64,
    held: u64,
}

impl Tally {
    pub fn count(&mut self, holds: bool) {
        *self += Tally {
            tried: 1,
            held: holds.into(),
        };
    }
}

impl AddAssign for Tally {
    fn add_assign(&mut self, other: Tally) {
        self.tried = self.tried.wrapping_add(other.tried);
        self.held = self.held.wrapping_add(other.held);
    }
}

impl fmt::Display for Tally {
    fn fmt<W: fmt::Write>(&self, f: &mut fmt::Formatter<W>) -> fmt::Result {
        write!(f, "{} of {} hold", self.held, self.tried)
    }
}
