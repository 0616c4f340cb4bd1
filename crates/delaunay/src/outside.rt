// A vertex outside the hull.
ghost use Rattle.std.specs.Prelude.{◌≡◌};
ghost use Rattle.std.specs.Option.{option_map};
ghost use Rattle.exact.specs.Verdicts.{at};
ghost use Rattle.dcel.specs.Layout.{real};
ghost use Rattle.delaunay.specs.Outside.{ear_seen, ear_listed, ears_closed, put_outside};

use crate::places::side;
use crate::worklist::push_face;
use dcel::{EdgeId, Memory, Site, attach, close_ear, half_edges, next, prev};
use exact::position::Position;

// More ears than any hull has.
const FUEL: u64 = 98304;

// The two ways along the rim from the vertex: the way its half edges run, and back.
#[derive(Clone, Copy)]
enum Way {
    Ahead,
    Behind,
}

// The half edge whose ear is to close, if the vertex sees the next outer half edge: ahead `e`, which leaves the vertex; behind the one before `e`, which comes to it.
#[tactic(auto, unfolding(crate::specs::Outside::ear_seen))]
fn ear(memory: &Memory, p: Position, e: EdgeId, way: Way) -> Option<EdgeId>
    ensures { option_map (λ g. g.0) result ≡ ear_seen real way (at p) memory.now e.0 }
{
    let (seen, ear) = match way {
        Way::Ahead => (next(memory, e), e),
        Way::Behind => (prev(memory, e), prev(memory, e)),
    };
    if side(memory, seen, p).is_left() {
        Some(ear)
    } else {
        None
    }
}

// Closes the ear of `e` and the outer half edge after it.
#[tactic(auto, unfolding(crate::specs::Outside::ear_listed))]
fn close(memory: &mut Memory, e: EdgeId)
    ensures { memory.new ≡ ear_listed real memory.old e.0 }
{
    close_ear(memory, e);
    push_face(memory, e);
}

// Closes ears from `start` while there is one. The way is data, as in the definition; a closure for it would want its contract as a relation. It is no `iterate`: it changes memory, which a step would have to lend and give back.
fn close_all(memory: &mut Memory, p: Position, start: EdgeId, way: Way)
    ensures { memory.new ≡ ears_closed real way (at p) memory.old start.0 }
{
    let mut e = start;
    'closing: for _ in 0..FUEL {
        let Some(seen) = ear(memory, p, e, way) else {
            break 'closing;
        };
        let new = half_edges(memory);
        close(memory, seen);
        e = EdgeId(new);
    }
}

// Puts the point in on the left of the outer half edge `e`. It takes a position and not a Site, whose numbers may be large.
#[tactic(auto, unfolding(crate::specs::Outside::put_outside))]
pub fn insert_outside(memory: &mut Memory, e: EdgeId, p: Position, data: u64)
    ensures { memory.new ≡ put_outside real memory.old e.0 p.x p.y «data» }
{
    let new = half_edges(memory);
    // No From: neither type is of this crate.
    attach(
        memory,
        e,
        Site {
            x: p.x,
            y: p.y,
            data,
        },
    );
    push_face(memory, e);
    close_all(memory, p, EdgeId(new + 1), Way::Ahead);
    close_all(memory, p, EdgeId(new + 3), Way::Behind);
}
