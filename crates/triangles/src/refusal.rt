// Why a step is refused, and the number that stands for it.
ghost use Rattle.std.specs.Prelude.{◌≡◌, Some};
ghost use Rattle.std.specs.Fmt.{decimal};
ghost use Rattle.triangles.specs.Entry.{number_of};

use std::fmt;

#[derive(Clone, Copy, PartialEq, Eq, Debug)]
pub enum Refusal {
    // The memory, the kind or the row for the answer is not as it should be.
    Unfit,
    // The command is not known yet.
    NotKnown,
    // A coordinate is too large.
    TooLarge,
    // There is no room for another vertex.
    NoRoom,
}

impl From<Refusal> for u64 {
    ghost from_gives = { λ why n. n ≡ number_of why };

    fn from(why: Refusal) -> u64 {
        match why {
            Refusal::Unfit => 0,
            Refusal::NotKnown => 2,
            Refusal::TooLarge => 6,
            Refusal::NoRoom => 7,
        }
    }
}

// A refusal is shown by its number.
impl fmt::Display for Refusal {
    ghost output = { λ why. Some (decimal (number_of why)) };

    fn fmt<W: fmt::Write>(&self, f: &mut fmt::Formatter<W>) -> fmt::Result {
        let number = u64::from(*self);
        write!(f, "{number}")
    }
}
