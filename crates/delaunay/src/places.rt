// Where vertices are, and the tests of the plane at half edges.
ghost use Rattle.std.specs.Prelude.{◌≡◌};
ghost use Rattle.exact.specs.Plane.{same_spot};
ghost use Rattle.exact.specs.Verdicts.{at, right?, on?, left?};
ghost use Rattle.dcel.specs.Layout.{real};
ghost use Rattle.delaunay.specs.Places.{place_of, from_of, to_of, wrong_at};
ghost use Rattle.delaunay.specs.Walk.{right_at, on_at, left_at, passed};

use dcel::{EdgeId, Memory, VertexId, origin, prev, x, y};
use exact::plane;
use exact::position::Position;
use exact::verdict::Side;

pub fn position(memory: &Memory, v: VertexId) -> Position
    ensures { at result ≡ place_of real memory.now v.0 }
{
    Position {
        x: x(memory, v),
        y: y(memory, v),
    }
}

// Where `e` begins, and where it ends.
fn ends(memory: &Memory, e: EdgeId) -> (Position, Position)
    ensures from { at result.0 ≡ from_of real memory.now e.0 }
    ensures to { at result.1 ≡ to_of real memory.now e.0 }
{
    (
        position(memory, origin(memory, e)),
        position(memory, origin(memory, e.twin())),
    )
}

// Is the corner across `e` inside the circle of its face?
#[tactic(auto, unfolding(crate::specs::Places::wrong_at))]
pub fn is_wrong(memory: &Memory, e: EdgeId) -> bool
    ensures { result ≡ wrong_at real memory.now e.0 }
{
    let t = e.twin();
    let (a, b) = ends(memory, e);
    let c = position(memory, origin(memory, prev(memory, e)));
    let d = position(memory, origin(memory, prev(memory, t)));
    plane::circle(a, b, c, d).is_inside()
}

// On which side of `e` the point is.
#[tactic(auto, unfolding(crate::specs::Walk::right_at, crate::specs::Walk::on_at, crate::specs::Walk::left_at))]
pub fn side(memory: &Memory, e: EdgeId, p: Position) -> Side
    ensures right { right? result ≡ right_at real memory.now e.0 (at p) }
    ensures on { on? result ≡ on_at real memory.now e.0 (at p) }
    ensures left { left? result ≡ left_at real memory.now e.0 (at p) }
{
    let (a, b) = ends(memory, e);
    plane::side(a, b, p)
}

// Is the end of `e` strictly between its start and a point on its line?
#[tactic(auto, unfolding(crate::specs::Walk::passed))]
pub fn passes(memory: &Memory, e: EdgeId, p: Position) -> bool
    ensures { result ≡ passed real memory.now (at p) e.0 }
{
    let (a, b) = ends(memory, e);
    plane::is_between(b, a, p)
}

pub fn same_spot(p: Position, q: Position) -> bool
    ensures { result ≡ same_spot (at p) (at q) }
{
    p == q
}
