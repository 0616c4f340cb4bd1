// Where a point is, and where the next walk starts. Memory and goal stay two parameters: more than half of the calls read memory alone, and a struct would put its name before each.
ghost use Rattle.std.specs.Prelude.{◌≡◌};
ghost use Rattle.exact.specs.Verdicts.{at};
ghost use Rattle.dcel.specs.Layout.{real};
ghost use Rattle.delaunay.specs.Walk.{inner_half as inner-half-of, facing, in_face_of, where_walked, where_on_line, where_by_line, where_alone, where_faces, located};
ghost use Rattle.delaunay.specs.Where.{where_of};
ghost use Rattle.delaunay.specs.Nearest.{resume_at, resumed};

use crate::location::Location;
use crate::places::{passes, position, same_spot, side};
use crate::walk::{follow_line, walk};
use dcel::{
    EdgeId, Memory, OUTSIDE, VertexId, face, faces, half_edges, header, next, origin, out, prev,
    set_header, vertices,
};
use exact::position::Position;
use exact::verdict::Side;

// The word of the header that has the half edge where the last walk ended.
pub const LAST: u64 = 4;

// Where the point is, walking from where the last walk ended.
#[tactic(auto, unfolding(crate::specs::Walk::located))]
pub fn locate(memory: &Memory, goal: Position) -> Location
    ensures { where_of result ≡ located real memory.now (at goal) }
{
    if half_edges(memory) == 0 {
        return alone(memory, goal);
    }
    let start = EdgeId(header(memory, LAST));
    if faces(memory) <= 1 {
        by_line(memory, goal, start)
    } else {
        by_faces(memory, goal, start)
    }
}

// Lets the next walk start at the place.
#[tactic(auto, unfolding(crate::specs::Nearest::resumed))]
pub fn resume(memory: &mut Memory, place: Location)
    ensures { memory.new ≡ resumed real memory.old (resume_at real memory.old (where_of place)) }
{
    let e = resume_at(memory, place);
    set_header(memory, LAST, e.0);
}

// The half edge at which a walk from there starts.
pub fn resume_at(memory: &Memory, place: Location) -> EdgeId
    ensures { result.0 ≡ resume_at real memory.now (where_of place) }
{
    match place {
        Location::OnVertex(v) => out(memory, v),
        Location::OnEdge(e) | Location::InFace(e) | Location::Outside(e) | Location::Beyond(e) => e,
        Location::NoEdge => EdgeId(header(memory, LAST)),
    }
}

// Without an edge there is one vertex at most.
#[tactic(auto, unfolding(crate::specs::Walk::where_alone))]
fn alone(memory: &Memory, goal: Position) -> Location
    ensures { where_of result ≡ where_alone real memory.now (at goal) }
{
    if vertices(memory) == 1 && same_spot(position(memory, VertexId(0)), goal) {
        Location::OnVertex(VertexId(0))
    } else {
        Location::NoEdge
    }
}

#[tactic(auto, unfolding(crate::specs::Walk::where_faces))]
fn by_faces(memory: &Memory, goal: Position, start: EdgeId) -> Location
    ensures { where_of result ≡ where_faces real memory.now (at goal) start.0 }
{
    let first = face_to(memory, goal, inner_half(memory, start));
    arrived(memory, goal, walk(memory, goal, first))
}

// The half of an edge that has a face on its left.
#[tactic(auto, unfolding(crate::specs::Walk::inner_half))]
fn inner_half(memory: &Memory, e: EdgeId) -> EdgeId
    ensures { result.0 ≡ inner-half-of real memory.now e.0 }
{
    if face(memory, e) == OUTSIDE {
        e.twin()
    } else {
        e
    }
}

// The half that does not have the point on its right.
#[tactic(auto, unfolding(crate::specs::Walk::facing))]
fn face_to(memory: &Memory, goal: Position, e: EdgeId) -> EdgeId
    ensures { result.0 ≡ facing real memory.now (at goal) e.0 }
{
    if side(memory, e, goal).is_right() {
        e.twin()
    } else {
        e
    }
}

#[tactic(auto, unfolding(crate::specs::Walk::where_walked))]
fn arrived(memory: &Memory, goal: Position, e: EdgeId) -> Location
    ensures { where_of result ≡ where_walked real memory.now (at goal) e.0 }
{
    if face(memory, e) == OUTSIDE {
        Location::Outside(e)
    } else {
        in_face(memory, goal, e)
    }
}

// In a closed face: at a corner, on a side, or inside.
#[tactic(auto, unfolding(crate::specs::Walk::in_face_of))]
fn in_face(memory: &Memory, goal: Position, e: EdgeId) -> Location
    ensures { where_of result ≡ in_face_of real memory.now (at goal) e.0 }
{
    let n = next(memory, e);
    let q = prev(memory, e);
    let on_side = (
        side(memory, e, goal).is_on(),
        side(memory, n, goal).is_on(),
        side(memory, q, goal).is_on(),
    );
    match on_side {
        (true, true, _) => Location::OnVertex(origin(memory, n)),
        (true, false, true) => Location::OnVertex(origin(memory, e)),
        (true, false, false) => Location::OnEdge(e),
        (false, true, true) => Location::OnVertex(origin(memory, q)),
        (false, true, false) => Location::OnEdge(n),
        (false, false, true) => Location::OnEdge(q),
        (false, false, false) => Location::InFace(e),
    }
}

// With all vertices on a line: beside it, or on it.
#[tactic(auto, unfolding(crate::specs::Walk::where_by_line))]
fn by_line(memory: &Memory, goal: Position, e: EdgeId) -> Location
    ensures { where_of result ≡ where_by_line real memory.now (at goal) e.0 }
{
    let t = e.twin();
    match side(memory, e, goal) {
        Side::Left => Location::Outside(e),
        Side::Right => Location::Outside(t),
        Side::On => {
            let start = if passes(memory, t, goal) { t } else { e };
            on_line(memory, goal, follow_line(memory, goal, start))
        }
    }
}

#[tactic(auto, unfolding(crate::specs::Walk::where_on_line))]
fn on_line(memory: &Memory, goal: Position, e: EdgeId) -> Location
    ensures { where_of result ≡ where_on_line real memory.now (at goal) e.0 }
{
    if passes(memory, e, goal) {
        return Location::Beyond(e);
    }
    let to = origin(memory, e.twin());
    if same_spot(position(memory, to), goal) {
        return Location::OnVertex(to);
    }
    let from = origin(memory, e);
    if same_spot(position(memory, from), goal) {
        return Location::OnVertex(from);
    }
    Location::OnEdge(e)
}
