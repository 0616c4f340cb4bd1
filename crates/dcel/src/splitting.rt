// A new vertex in a face or on an edge. It gets the number that follows the last, which is returned. Each surgery writes the change that its contract cites, in that order, so the lines that some have alike are in no function of their own.
ghost use Rattle.std.specs.Prelude.{◌≡◌};
ghost use Rattle.dcel.specs.Layout.{real};
ghost use Rattle.dcel.specs.Memory.{vertices_in};
ghost use Rattle.dcel.specs.Operations.{apply_with, Grows};
ghost use Rattle.dcel.specs.Surgery.{Inner, split_face_change, split_face_patch};
ghost use Rattle.dcel.specs.EdgeSurgery.{InnerEdge, split_inner_edge_change, split_inner_edge_patch, HullEdge, split_hull_edge_change, split_hull_edge_patch};

use crate::accessors::{half_edge, origin};
use crate::ids::{EdgeId, FaceId, OUTSIDE, VertexId};
use crate::layout::Memory;
use crate::numbers::{Fresh, put_vertex};
use crate::site::Site;
use crate::writers::{link, set_counts, set_face, set_origin, set_out, set_two_origins, triangle};

// A vertex p in the face abc of `e`, which runs from a to b: three faces abp, bcp and cap.
#[tactic(auto, using(crate::proofs::Laws::split_face_grows))]
pub fn split_face(memory: &mut Memory, e: EdgeId, site: Site) -> VertexId
    ensures number { result.0 ≡ vertices_in real memory.old }
    ensures is { memory.new ≡ apply_with real split_face_change memory.old e.0 site.x site.y site.«data» }
    ensures keeps { Grows real Inner split_face_patch memory.old e.0 site.x site.y site.«data» memory.new }
{
    let ab = half_edge(memory, e);
    let bc = ab.next;
    let ca = ab.prev;
    let b = origin(memory, bc);
    let c = origin(memory, ca);
    let Fresh {
        vertex: p,
        edge: h,
        face: f,
    } = put_vertex(memory, site);
    let ap = EdgeId(h);
    let pa = EdgeId(h + 1);
    let bp = EdgeId(h + 2);
    let pb = EdgeId(h + 3);
    let cp = EdgeId(h + 4);
    let pc = EdgeId(h + 5);
    set_counts(memory, p.0 + 1, h + 6, f + 2);
    set_out(memory, p, pa);
    set_two_origins(memory, cp, c, pc, p);
    set_two_origins(memory, bp, b, pb, p);
    set_two_origins(memory, ap, ab.origin, pa, p);
    triangle(memory, ca, ap, pc, FaceId(f + 1));
    triangle(memory, bc, cp, pb, FaceId(f));
    triangle(memory, e, bp, pa, ab.face);
    p
}

// A vertex p on the edge of `e`, which runs from a to b between the faces abc and bad: four faces apc, pbc, pad and bpd.
pub fn split_inner_edge(memory: &mut Memory, e: EdgeId, site: Site) -> VertexId
    ensures number { result.0 ≡ vertices_in real memory.old }
    ensures is { memory.new ≡ apply_with real split_inner_edge_change memory.old e.0 site.x site.y site.«data» }
    ensures keeps { Grows real InnerEdge split_inner_edge_patch memory.old e.0 site.x site.y site.«data» memory.new }
{
    let pa = e.twin();
    let ab = half_edge(memory, e);
    let ba = half_edge(memory, pa);
    let c = origin(memory, ab.prev);
    let d = origin(memory, ba.prev);
    let Fresh {
        vertex: p,
        edge: h,
        face: f,
    } = put_vertex(memory, site);
    let pb = EdgeId(h);
    let bp = EdgeId(h + 1);
    let pc = EdgeId(h + 2);
    let cp = EdgeId(h + 3);
    let pd = EdgeId(h + 4);
    let dp = EdgeId(h + 5);
    set_counts(memory, p.0 + 1, h + 6, f + 2);
    set_out(memory, ba.origin, bp);
    set_out(memory, p, pb);
    set_two_origins(memory, pd, p, dp, d);
    set_two_origins(memory, pc, p, cp, c);
    set_two_origins(memory, pb, p, bp, ba.origin);
    set_origin(memory, pa, p);
    triangle(memory, bp, pd, ba.prev, FaceId(f + 1));
    triangle(memory, pa, ba.next, dp, ba.face);
    triangle(memory, pb, ab.next, cp, FaceId(f));
    triangle(memory, e, pc, ab.prev, ab.face);
    p
}

// A vertex p on the edge of `e`, which runs from a to b with the face abc on its left and the outside across: two faces apc and pbc.
#[tactic(auto, using(crate::proofs::Laws::split_hull_edge_grows))]
pub fn split_hull_edge(memory: &mut Memory, e: EdgeId, site: Site) -> VertexId
    ensures number { result.0 ≡ vertices_in real memory.old }
    ensures is { memory.new ≡ apply_with real split_hull_edge_change memory.old e.0 site.x site.y site.«data» }
    ensures keeps { Grows real HullEdge split_hull_edge_patch memory.old e.0 site.x site.y site.«data» memory.new }
{
    let pa = e.twin();
    let ab = half_edge(memory, e);
    let ba = half_edge(memory, pa);
    let c = origin(memory, ab.prev);
    let Fresh {
        vertex: p,
        edge: h,
        face: f,
    } = put_vertex(memory, site);
    let pb = EdgeId(h);
    let bp = EdgeId(h + 1);
    let pc = EdgeId(h + 2);
    let cp = EdgeId(h + 3);
    set_counts(memory, p.0 + 1, h + 4, f + 1);
    set_out(memory, ba.origin, bp);
    set_out(memory, p, pb);
    set_two_origins(memory, pc, p, cp, c);
    set_two_origins(memory, pb, p, bp, ba.origin);
    set_origin(memory, pa, p);
    set_face(memory, bp, OUTSIDE);
    link(memory, bp, pa);
    link(memory, ba.prev, bp);
    triangle(memory, pb, ab.next, cp, FaceId(f));
    triangle(memory, e, pc, ab.prev, ab.face);
    p
}
