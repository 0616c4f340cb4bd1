// New faces on the outside: at a new vertex, and over two outer half edges that follow one another. Each surgery writes the change that its contract cites, in that order.
ghost use Rattle.std.specs.Prelude.{◌≡◌};
ghost use Rattle.dcel.specs.Layout.{real};
ghost use Rattle.dcel.specs.Memory.{vertices_in};
ghost use Rattle.dcel.specs.Operations.{apply_with, ear_closed, Grows, Keeps};
ghost use Rattle.dcel.specs.Surgery.{Outer, attach_change, attach_patch, Ear, ear_patch};

use crate::accessors::{faces, half_edge, half_edges, next, origin, vertices};
use crate::ids::{EdgeId, FaceId, OUTSIDE, VertexId};
use crate::layout::Memory;
use crate::numbers::{Fresh, put_vertex};
use crate::site::Site;
use crate::writers::{link, set_counts, set_face, set_out, set_two_origins, triangle};

// A vertex p outside of `e`, which runs from u to w and is outer: the face uwp.
#[tactic(auto, using(crate::proofs::Laws::attach_grows))]
pub fn attach(memory: &mut Memory, e: EdgeId, site: Site) -> VertexId
    ensures number { result.0 ≡ vertices_in real memory.old }
    ensures is { memory.new ≡ apply_with real attach_change memory.old e.0 site.x site.y site.«data» }
    ensures keeps { Grows real Outer attach_patch memory.old e.0 site.x site.y site.«data» memory.new }
{
    let uw = half_edge(memory, e);
    let w = origin(memory, e.twin());
    let Fresh {
        vertex: p,
        edge: h,
        face: f,
    } = put_vertex(memory, site);
    let wp = EdgeId(h);
    let pw = EdgeId(h + 1);
    let pu = EdgeId(h + 2);
    let up = EdgeId(h + 3);
    set_counts(memory, p.0 + 1, h + 4, f + 1);
    set_out(memory, p, pw);
    set_two_origins(memory, pu, p, up, uw.origin);
    set_two_origins(memory, wp, w, pw, p);
    set_face(memory, pw, OUTSIDE);
    set_face(memory, up, OUTSIDE);
    link(memory, pw, uw.next);
    link(memory, up, pw);
    link(memory, uw.prev, up);
    triangle(memory, e, wp, pu, FaceId(f));
    p
}

// Closes the ear over `e`, which runs from u to v and is outer, and the next, which runs from v to w: the face uvw.
#[tactic(auto, using(crate::proofs::Laws::ear_keeps))]
pub fn close_ear(memory: &mut Memory, e: EdgeId)
    ensures is { memory.new ≡ ear_closed real memory.old e.0 }
    ensures keeps { Keeps real Ear ear_patch memory.old e.0 memory.new }
{
    let uv = half_edge(memory, e);
    let vw = uv.next;
    let after = next(memory, vw);
    let w = origin(memory, vw.twin());
    let v = vertices(memory);
    let h = half_edges(memory);
    let f = faces(memory);
    let uw = EdgeId(h);
    let wu = EdgeId(h + 1);
    set_counts(memory, v, h + 2, f + 1);
    set_two_origins(memory, uw, uv.origin, wu, w);
    set_face(memory, uw, OUTSIDE);
    link(memory, uw, after);
    link(memory, uv.prev, uw);
    triangle(memory, e, vw, wu, FaceId(f));
}
