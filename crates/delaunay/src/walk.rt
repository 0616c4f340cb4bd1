// Walking to a point: across faces, and along a line. Both are the one loop with a step of their own.
// Memory and goal stay two parameters here and where a place is located: more than half of the calls read memory alone, and a struct would put its name before each.
ghost use Rattle.std.specs.Prelude.{◌≡◌};
ghost use Rattle.std.specs.Option.{option_map};
ghost use Rattle.exact.specs.Verdicts.{at};
ghost use Rattle.dcel.specs.Layout.{real};
ghost use Rattle.delaunay.specs.Walk.{crossed, walked, went_on, along_line};

use crate::iterate::iterate;
use crate::places::{passes, side};
use dcel::{EdgeId, Memory, OUTSIDE, face, next, prev};
use exact::position::Position;

// More steps than any walk takes, across faces and along a line.
const FUEL: u64 = 536920065;

const LINE_FUEL: u64 = 98304;

// The half edge that is come to across a side of the face of `e` that has the point strictly on its right, if there is one.
#[tactic(auto, unfolding(crate::specs::Walk::crossed))]
fn cross(memory: &Memory, goal: Position, e: EdgeId) -> Option<EdgeId>
    ensures { option_map (λ g. g.0) result ≡ crossed real memory.now (at goal) e.0 }
{
    if face(memory, e) == OUTSIDE {
        return None;
    }
    let n = next(memory, e);
    if side(memory, n, goal).is_right() {
        return Some(n.twin());
    }
    let q = prev(memory, e);
    if side(memory, q, goal).is_right() {
        return Some(q.twin());
    }
    None
}

// Walks from face to face while the point is strictly on the right of a side.
pub fn walk(memory: &Memory, goal: Position, start: EdgeId) -> EdgeId
    ensures { result.0 ≡ walked real memory.now (at goal) start.0 }
{
    iterate(FUEL, start, |e| cross(memory, goal, e))
}

// The edge after `e` on a line, if the point is past the end of `e` and the line goes on.
#[tactic(auto, unfolding(crate::specs::Walk::went_on))]
fn go_on(memory: &Memory, goal: Position, e: EdgeId) -> Option<EdgeId>
    ensures { option_map (λ g. g.0) result ≡ went_on real memory.now (at goal) e.0 }
{
    let n = next(memory, e);
    if passes(memory, e, goal) && n != e.twin() {
        Some(n)
    } else {
        None
    }
}

// Goes along a line while the point is past the end of an edge.
pub fn follow_line(memory: &Memory, goal: Position, start: EdgeId) -> EdgeId
    ensures { result.0 ≡ along_line real memory.now (at goal) start.0 }
{
    iterate(LINE_FUEL, start, |e| go_on(memory, goal, e))
}
