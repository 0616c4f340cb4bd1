// Putting a point in.
ghost use Rattle.std.specs.Prelude.{◌≡◌};
ghost use Rattle.std.specs.Option.{option_map};
ghost use Rattle.dcel.specs.Layout.{real};
ghost use Rattle.delaunay.specs.Insert.{put_in_face, put_between, put_on_hull, put_on_line, put_on_edge, put_alone, put_at, number_at, new_at, put_and_settled, inserted, inserted_number};
ghost use Rattle.delaunay.specs.Where.{where_of};

use crate::legalize::legalize;
use crate::locate::{LAST, locate};
use crate::location::Location;
use crate::outside::insert_outside;
use crate::worklist::push_face;
use dcel::{
    EdgeId, Memory, OUTSIDE, Site, VERTICES, VertexId, extend_line, face, next, out, prev,
    put_first, put_second, set_data, set_header, split_face, split_hull_edge, split_inner_edge,
    split_line_edge, split_line_end, vertices,
};
use exact::position::Position;

#[tactic(auto, unfolding(crate::specs::Insert::put_in_face))]
fn in_face(memory: &mut Memory, e: EdgeId, site: Site)
    ensures { memory.new ≡ put_in_face real memory.old e.0 site.x site.y site.«data» }
{
    let n = next(memory, e);
    let q = prev(memory, e);
    split_face(memory, e, site);
    push_face(memory, e);
    push_face(memory, n);
    push_face(memory, q);
}

// On an edge between two faces.
#[tactic(auto, unfolding(crate::specs::Insert::put_between))]
fn between(memory: &mut Memory, e: EdgeId, site: Site)
    ensures { memory.new ≡ put_between real memory.old e.0 site.x site.y site.«data» }
{
    let n = next(memory, e);
    let t = e.twin();
    let q = prev(memory, t);
    split_inner_edge(memory, e, site);
    push_face(memory, e);
    push_face(memory, n);
    push_face(memory, t);
    push_face(memory, q);
}

// On an edge with the outside across it.
#[tactic(auto, unfolding(crate::specs::Insert::put_on_hull))]
fn on_hull(memory: &mut Memory, e: EdgeId, site: Site)
    ensures { memory.new ≡ put_on_hull real memory.old e.0 site.x site.y site.«data» }
{
    let n = next(memory, e);
    split_hull_edge(memory, e, site);
    push_face(memory, e);
    push_face(memory, n);
}

// On an edge of a line.
#[tactic(auto, unfolding(crate::specs::Insert::put_on_line))]
fn on_line(memory: &mut Memory, e: EdgeId, site: Site)
    ensures { memory.new ≡ put_on_line real memory.old e.0 site.x site.y site.«data» }
{
    if next(memory, e) == e.twin() {
        split_line_end(memory, e, site);
    } else {
        split_line_edge(memory, e, site);
    }
}

#[tactic(auto, unfolding(crate::specs::Insert::put_on_edge))]
fn on_edge(memory: &mut Memory, e: EdgeId, site: Site)
    ensures { memory.new ≡ put_on_edge real memory.old e.0 site.x site.y site.«data» }
{
    let t = e.twin();
    match (face(memory, e) == OUTSIDE, face(memory, t) == OUTSIDE) {
        (true, true) => on_line(memory, e, site),
        (true, false) => on_hull(memory, t, site),
        (false, true) => on_hull(memory, e, site),
        (false, false) => between(memory, e, site),
    }
}

// The first vertex, or the second.
#[tactic(auto, unfolding(crate::specs::Insert::put_alone))]
fn alone(memory: &mut Memory, site: Site)
    ensures { memory.new ≡ put_alone real memory.old site.x site.y site.«data» }
{
    if vertices(memory) == 0 {
        put_first(memory, site);
    } else {
        put_second(memory, site);
    }
}

// Puts the point in where it is. A position and its data are handed down as two: a Site holds any numbers, and the walk wants a position that is small.
fn put(memory: &mut Memory, place: Location, p: Position, data: u64)
    ensures { memory.new ≡ put_at real memory.old (where_of place) p.x p.y «data» }
{
    // No From: neither type is of this crate.
    let site = Site {
        x: p.x,
        y: p.y,
        data,
    };
    match place {
        Location::OnVertex(v) => set_data(memory, v, data),
        Location::OnEdge(e) => on_edge(memory, e, site),
        Location::InFace(e) => in_face(memory, e, site),
        Location::Outside(e) => insert_outside(memory, e, p, data),
        Location::Beyond(e) => {
            extend_line(memory, e, site);
        }
        Location::NoEdge => alone(memory, site),
    }
}

// The number that the point gets, or has.
fn number(memory: &Memory, place: Location) -> VertexId
    ensures { result.0 ≡ number_at real memory.now (where_of place) }
{
    match place {
        Location::OnVertex(v) => v,
        _ => VertexId(vertices(memory)),
    }
}

fn is_new(place: Location) -> bool
    ensures { result ≡ new_at (where_of place) }
{
    !matches!(place, Location::OnVertex(_))
}

// Puts the point in and flips till every edge is right; the next walk starts there.
#[tactic(auto, unfolding(crate::specs::Insert::put_and_settled))]
fn put_and_settle(memory: &mut Memory, place: Location, p: Position, data: u64)
    ensures { memory.new ≡ put_and_settled real memory.old (where_of place) p.x p.y «data» }
{
    let v = number(memory, place);
    put(memory, place, p, data);
    legalize(memory);
    let e = out(memory, v);
    set_header(memory, LAST, e.0);
}

// Puts a point in, or its data where a vertex is, and gives its number. None where there is no room for another vertex, and nothing is changed then.
#[tactic(auto, unfolding(crate::specs::Insert::inserted, crate::specs::Insert::inserted_number, crate::specs::Insert::full_at))]
pub fn insert(memory: &mut Memory, p: Position, data: u64) -> Option<VertexId>
    ensures is { memory.new ≡ inserted real memory.old p.x p.y «data» }
    ensures number { option_map (λ v. v.0) result ≡ inserted_number real memory.old p.x p.y }
{
    let place = locate(memory, p);
    if is_new(place) && vertices(memory) >= VERTICES {
        return None;
    }
    let v = number(memory, place);
    put_and_settle(memory, place, p, data);
    Some(v)
}
