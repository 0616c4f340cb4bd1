// Where a point lies to a small circle, by plain numbers.
ghost use Rattle.std.specs.Prelude.{◌≡◌, [], ◌∷◌};
ghost use Rattle.exact.specs.Plane.{point};
ghost use Rattle.triangles.specs.Entry.{CircleSays, circle_fits, circle_number};
ghost use Rattle.triangles.specs.Small.{SmallTold};

use exact::plane::{circle, side};
use exact::position::Position;
pub use exact::verdict::Circle;
use exact::verdict::Side;

// Coordinates are below this.
const LIMIT: u64 = 4096;

// Why there is no such circle.
#[derive(Clone, Copy, PartialEq, Eq, Debug)]
pub enum NoCircle {
    // A coordinate is too large.
    TooLarge,
    // The first three points do not turn to the left.
    NotLeft,
}

impl From<NoCircle> for u64 {
    ghost from_gives = { λ why n. n ≡ circle_number why };

    fn from(why: NoCircle) -> u64 {
        match why {
            NoCircle::TooLarge => 1,
            NoCircle::NotLeft => 2,
        }
    }
}

// Where s lies to the circle through p, q and r, by numbers, so that other languages can call it.
#[tactic(auto, unfolding(crate::specs::Entry::CircleSays, exact::specs::Plane::every))]
pub fn in_circle(
    px: u64,
    py: u64,
    qx: u64,
    qy: u64,
    rx: u64,
    ry: u64,
    sx: u64,
    sy: u64,
) -> Result<Circle, NoCircle>
    ensures { CircleSays (point px py) (point qx qy) (point rx ry) (point sx sy) (circle_fits (px ∷ py ∷ qx ∷ qy ∷ rx ∷ ry ∷ sx ∷ sy ∷ [])) result }
{
    let p = small(px, py)?;
    let q = small(qx, qy)?;
    let r = small(rx, ry)?;
    let s = small(sx, sy)?;
    let Side::Left = side(p, q, r) else {
        return Err(NoCircle::NotLeft);
    };
    Ok(circle(p, q, r, s))
}

fn small(x: u64, y: u64) -> Result<Position, NoCircle>
    ensures { SmallTold x y result }
{
    if x < LIMIT && y < LIMIT {
        Ok(Position { x, y })
    } else {
        Err(NoCircle::TooLarge)
    }
}
