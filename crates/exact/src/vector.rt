// The way from one position to another, and the products of two, which fit a word.
ghost use Rattle.std.specs.Prelude.{◌≡◌, ℤ, pos, ◌+ℤ◌, ◌-ℤ◌, ◌*ℤ◌, ◌^◌, ◌<◌, unsigned_abs};

use crate::position::Position;

#[derive(Clone, Copy, PartialEq, Eq, Debug)]
pub struct Vector {
    pub x: i64,
    pub y: i64,
    ghost short: { (unsigned_abs x < 2 ^ 20) × (unsigned_abs y < 2 ^ 20) },
}

impl Vector {
    // from p to q
    pub fn between(p: Position, q: Position) -> Vector
        ensures x { result.x ≡ pos q.x -ℤ pos p.x }
        ensures y { result.y ≡ pos q.y -ℤ pos p.y }
    {
        Vector {
            x: q.x as i64 - p.x as i64,
            y: q.y as i64 - p.y as i64,
        }
    }

    // Above 0 where the other lies to the left.
    #[tactic(auto, using(crate::proofs::Vectors::product_fits, crate::proofs::Vectors::difference_fits, crate::proofs::Vectors::difference_is))]
    pub fn cross(self, other: Vector) -> i64
        ensures { result ≡ self.x *ℤ other.y -ℤ self.y *ℤ other.x }
    {
        self.x * other.y - self.y * other.x
    }

    #[tactic(auto, using(crate::proofs::Vectors::product_fits, crate::proofs::Vectors::sum_fits, crate::proofs::Vectors::sum_is))]
    pub fn dot(self, other: Vector) -> i64
        ensures { result ≡ self.x *ℤ other.x +ℤ self.y *ℤ other.y }
    {
        self.x * other.x + self.y * other.y
    }
}
