// On which side of a line, and of a circle, a point is, and how far from another.
ghost use Rattle.std.specs.Prelude.{◌≡◌};
ghost use Rattle.exact.specs.Distance.{squared};
ghost use Rattle.exact.specs.Plane.{side as side-of, circle as circle-of, left_of, right_of, in_line, inside_circle, below_0};
ghost use Rattle.exact.specs.Verdicts.{at, scalar, side_told, circle_told, right?, on?, left?, inside?};

use crate::position::Position;
use crate::signed::{Sign, Signed};
use crate::vector::Vector;
use crate::verdict::{Circle, Side};

// Where r is, seen along the line from p to q.
pub fn side(p: Position, q: Position, r: Position) -> Side
    ensures told { result ≡ side_told (side-of (at p) (at q) (at r)) }
    ensures right { right? result ≡ right_of (at p) (at q) (at r) }
    ensures on { on? result ≡ in_line (at p) (at q) (at r) }
    ensures left { left? result ≡ left_of (at p) (at q) (at r) }
{
    let turn = Vector::between(p, q).cross(Vector::between(p, r));
    Sign::from(turn).into()
}

// Where s is, of the circle through p, q and r, if these turn to the left; the other way round if they turn to the right.
// It is told by the angles in which s and r see p and q: their sines and cosines make two wide products, where the determinant's squares make three.
pub fn circle(p: Position, q: Position, r: Position, s: Position) -> Circle
    ensures told { result ≡ circle_told (circle-of (at p) (at q) (at r) (at s)) }
    ensures inside { inside? result ≡ inside_circle (at p) (at q) (at r) (at s) }
{
    let sp = Vector::between(s, p);
    let sq = Vector::between(s, q);
    let rp = Vector::between(r, p);
    let rq = Vector::between(r, q);
    let sum = Signed::determinant(sp.cross(sq), rp.cross(rq), sp.dot(sq), rp.dot(rq));
    sum.sign().into()
}

// Of points on one line: is v strictly between a and b?
#[tactic(auto, using(crate::proofs::Telling::scalar_tells))]
pub fn is_between(v: Position, a: Position, b: Position) -> bool
    ensures { result ≡ below_0 (scalar (at v) (at a) (at b)) }
{
    Vector::between(v, a).dot(Vector::between(v, b)) < 0
}

// The square of the distance between p and q.
#[tactic(auto, using(crate::proofs::Vectors::squares_fit), unfolding(crate::specs::Distance::squared))]
pub fn distance(p: Position, q: Position) -> u64
    ensures { result ≡ squared (at p) (at q) }
{
    let across = p.x.abs_diff(q.x);
    let along = p.y.abs_diff(q.y);
    across * across + along * along
}
