// Points of the plane, by value.
ghost use Rattle.std.specs.Prelude.{◌≡◌, ◌^◌, ◌<◌, ◌≤◌, ◌⊎◌, MatchOption};

// Coordinates are below 2^20, so that a product of two differences fits a word.
pub const LIMIT: u64 = 1048576;

#[derive(Clone, Copy, PartialEq, Eq, Debug)]
pub struct Position {
    pub x: u64,
    pub y: u64,
    ghost near: { (x < 2 ^ 20) × (y < 2 ^ 20) },
}

impl Position {
    // None where a coordinate is 2^20 or more.
    pub fn new(x: u64, y: u64) -> Option<Position>
        ensures { MatchOption result ((2 ^ 20 ≤ x) ⊎ (2 ^ 20 ≤ y)) (λ p. (p.x ≡ x) × (p.y ≡ y)) }
    {
        if x < LIMIT && y < LIMIT {
            Some(Position { x, y })
        } else {
            None
        }
    }
}
