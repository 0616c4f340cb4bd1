// A new vertex on a line, where there is no face yet. It gets the number that follows the last, which is returned. Each surgery writes the change that its contract cites, in that order, so the lines that some have alike are in no function of their own.
ghost use Rattle.std.specs.Prelude.{◌≡◌};
ghost use Rattle.dcel.specs.Layout.{real};
ghost use Rattle.dcel.specs.Memory.{vertices_in};
ghost use Rattle.dcel.specs.Operations.{apply_with, Grows};
ghost use Rattle.dcel.specs.EdgeSurgery.{LineEdge, split_line_edge_change, split_line_edge_patch, LineEnd, split_line_end_change, split_line_end_patch, extend_line_change, extend_line_patch};

use crate::accessors::{half_edge, origin};
use crate::ids::{EdgeId, OUTSIDE, VertexId};
use crate::layout::Memory;
use crate::numbers::{Fresh, put_vertex};
use crate::site::Site;
use crate::writers::{link, set_counts, set_face, set_origin, set_out, set_two_origins};

// A vertex p on the edge of `e`, which runs from a to b, where the line goes on past b.
#[tactic(auto, using(crate::proofs::Laws::split_line_edge_grows))]
pub fn split_line_edge(memory: &mut Memory, e: EdgeId, site: Site) -> VertexId
    ensures number { result.0 ≡ vertices_in real memory.old }
    ensures is { memory.new ≡ apply_with real split_line_edge_change memory.old e.0 site.x site.y site.«data» }
    ensures keeps { Grows real LineEdge split_line_edge_patch memory.old e.0 site.x site.y site.«data» memory.new }
{
    let pa = e.twin();
    let ab = half_edge(memory, e);
    let ba = half_edge(memory, pa);
    let Fresh {
        vertex: p,
        edge: h,
        face: f,
    } = put_vertex(memory, site);
    let pb = EdgeId(h);
    let bp = EdgeId(h + 1);
    set_counts(memory, p.0 + 1, h + 2, f);
    set_out(memory, ba.origin, bp);
    set_out(memory, p, pb);
    set_two_origins(memory, pb, p, bp, ba.origin);
    set_origin(memory, pa, p);
    set_face(memory, bp, OUTSIDE);
    set_face(memory, pb, OUTSIDE);
    link(memory, bp, pa);
    link(memory, ba.prev, bp);
    link(memory, pb, ab.next);
    link(memory, e, pb);
    p
}

// A vertex p on the edge of `e`, which runs from a to b, where the line ends at b.
#[tactic(auto, using(crate::proofs::Laws::split_line_end_grows))]
pub fn split_line_end(memory: &mut Memory, e: EdgeId, site: Site) -> VertexId
    ensures number { result.0 ≡ vertices_in real memory.old }
    ensures is { memory.new ≡ apply_with real split_line_end_change memory.old e.0 site.x site.y site.«data» }
    ensures keeps { Grows real LineEnd split_line_end_patch memory.old e.0 site.x site.y site.«data» memory.new }
{
    let pa = e.twin();
    let b = origin(memory, pa);
    let Fresh {
        vertex: p,
        edge: h,
        face: f,
    } = put_vertex(memory, site);
    let pb = EdgeId(h);
    let bp = EdgeId(h + 1);
    set_counts(memory, p.0 + 1, h + 2, f);
    set_out(memory, b, bp);
    set_out(memory, p, pb);
    set_two_origins(memory, pb, p, bp, b);
    set_origin(memory, pa, p);
    set_face(memory, bp, OUTSIDE);
    set_face(memory, pb, OUTSIDE);
    link(memory, bp, pa);
    link(memory, pb, bp);
    link(memory, e, pb);
    p
}

// A vertex p past the end b of a line, whose last half edge is `e`.
#[tactic(auto, using(crate::proofs::Laws::extend_line_grows))]
pub fn extend_line(memory: &mut Memory, e: EdgeId, site: Site) -> VertexId
    ensures number { result.0 ≡ vertices_in real memory.old }
    ensures is { memory.new ≡ apply_with real extend_line_change memory.old e.0 site.x site.y site.«data» }
    ensures keeps { Grows real LineEnd extend_line_patch memory.old e.0 site.x site.y site.«data» memory.new }
{
    let ba = e.twin();
    let b = origin(memory, ba);
    let Fresh {
        vertex: p,
        edge: h,
        face: f,
    } = put_vertex(memory, site);
    let bp = EdgeId(h);
    let pb = EdgeId(h + 1);
    set_counts(memory, p.0 + 1, h + 2, f);
    set_out(memory, p, pb);
    set_two_origins(memory, bp, b, pb, p);
    set_face(memory, pb, OUTSIDE);
    set_face(memory, bp, OUTSIDE);
    link(memory, pb, ba);
    link(memory, bp, pb);
    link(memory, e, bp);
    p
}
