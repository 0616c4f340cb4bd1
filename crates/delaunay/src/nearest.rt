// The vertex nearest to a point: from where the walk to it ended, to a neighbour that is nearer, till none is. Memory and goal stay two parameters, as in walk.rt.
ghost use Rattle.std.specs.Prelude.{◌≡◌};
ghost use Rattle.std.specs.Option.{option_map};
ghost use Rattle.exact.specs.Verdicts.{at};
ghost use Rattle.dcel.specs.Layout.{real};
ghost use Rattle.delaunay.specs.Nearest.{look_of, far_from, looked, searched, nearest_number, nearest_left};

use crate::iterate::iterate;
use crate::locate::{LAST, locate, resume_at};
use crate::places::position;
use dcel::{EdgeId, Memory, VertexId, half_edges, origin, prev, set_header, vertices};
use exact::plane;
use exact::position::Position;

// More turns than any search takes.
const FUEL: u64 = 216174981137137665;

// A round about a vertex: the half edge that is looked along, the one that the round began with, and how far the vertex is from the point, squared.
#[derive(Clone, Copy)]
struct Look {
    edge: EdgeId,
    since: EdgeId,
    far: u64,
}

// How far the start of `e` is from the point, squared.
#[tactic(auto, unfolding(crate::specs::Nearest::far_from))]
fn far(memory: &Memory, goal: Position, e: EdgeId) -> u64
    ensures { result ≡ far_from real memory.now (at goal) e.0 }
{
    plane::distance(position(memory, origin(memory, e)), goal)
}

// To the end of the half edge if that is strictly nearer, where a new round begins; else to the next one that leaves the vertex. None when the round is done.
#[tactic(auto, unfolding(crate::specs::Nearest::looked))]
fn look_on(memory: &Memory, goal: Position, look: Look) -> Option<Look>
    ensures { option_map look_of result ≡ looked real memory.now (at goal) (look_of look) }
{
    let end = look.edge.twin();
    let d = far(memory, goal, end);
    if d < look.far {
        return Some(Look {
            edge: end,
            since: end,
            far: d,
        });
    }
    let n = prev(memory, look.edge).twin();
    if n == look.since {
        return None;
    }
    Some(Look { edge: n, ..look })
}

// From a half edge to one whose start has no neighbour that is nearer.
fn search(memory: &Memory, goal: Position, start: EdgeId) -> EdgeId
    ensures { result.0 ≡ searched real memory.now (at goal) start.0 }
{
    let look = Look {
        edge: start,
        since: start,
        far: far(memory, goal, start),
    };
    iterate(FUEL, look, |look| look_on(memory, goal, look)).edge
}

// The nearest vertex, as the search finds it: none of its neighbours is nearer. The next walk starts there. None if there is no vertex.
#[tactic(auto, unfolding(crate::specs::Nearest::nearest_number, crate::specs::Nearest::nearest_left, crate::specs::Nearest::nearest_edge, crate::specs::Nearest::resumed))]
pub fn nearest(memory: &mut Memory, goal: Position) -> Option<VertexId>
    ensures number { option_map (λ v. v.0) result ≡ nearest_number real memory.old (at goal) }
    ensures is { memory.new ≡ nearest_left real memory.old (at goal) }
{
    if half_edges(memory) == 0 {
        if vertices(memory) == 0 {
            return None;
        }
        return Some(VertexId(0));
    }
    let e = search(memory, goal, resume_at(memory, locate(memory, goal)));
    let v = origin(memory, e);
    set_header(memory, LAST, e.0);
    Some(v)
}
