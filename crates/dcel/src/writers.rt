// Writing memory: past the end of a table nothing is written. Each writer names its table, and its contract ties the table's numbers to the definition; a trait over tables would take more lines for each than its one.
#![tactic(auto, unfolding(crate::specs::Memory::put))]

ghost use Rattle.std.specs.Prelude.{◌≡◌, [], ◌∷◌};
ghost use Rattle.dcel.specs.Layout.{real, header, vertex_data, vertex_out, edge_face, edge_origin, worklist};
ghost use Rattle.dcel.specs.Memory.{put, put_vertex, put_all, put_triangle, counts, link as linked};

use crate::ids::{EdgeId, FaceId, VertexId};
use crate::layout::{
    EDGE_FACE, EDGE_NEXT, EDGE_ORIGIN, EDGE_PREV, FACE_COUNT, FACE_EDGE, HALF_EDGE_COUNT, HEADER,
    Memory, VERTEX_COUNT, VERTEX_DATA, VERTEX_OUT, VERTEX_X, VERTEX_Y, WORKLIST,
};
use crate::site::Site;

// Word `i` of the header.
pub fn set_header(memory: &mut Memory, i: u64, value: u64)
    ensures { memory.new ≡ put real header memory.old i value }
{
    HEADER.set(memory, i, value);
}

// How many vertices, half edges and faces there are: three sums at each call, for which a struct would be longer.
pub(crate) fn set_counts(memory: &mut Memory, vertices: u64, half_edges: u64, faces: u64)
    ensures { memory.new ≡ put_all real header (counts vertices half_edges faces) memory.old }
{
    set_header(memory, FACE_COUNT, faces);
    set_header(memory, HALF_EDGE_COUNT, half_edges);
    set_header(memory, VERTEX_COUNT, vertices);
}

// Where a vertex is, and what goes with it.
pub(crate) fn set_vertex(memory: &mut Memory, v: VertexId, site: Site)
    ensures { memory.new ≡ put_vertex real memory.old v.0 site.x site.y site.«data» }
{
    VERTEX_X.set(memory, v.0, site.x);
    VERTEX_Y.set(memory, v.0, site.y);
    set_data(memory, v, site.data);
}

pub fn set_data(memory: &mut Memory, v: VertexId, data: u64)
    ensures { memory.new ≡ put real vertex_data memory.old v.0 «data» }
{
    VERTEX_DATA.set(memory, v.0, data);
}

pub(crate) fn set_out(memory: &mut Memory, v: VertexId, e: EdgeId)
    ensures { memory.new ≡ put real vertex_out memory.old v.0 e.0 }
{
    VERTEX_OUT.set(memory, v.0, e.0);
}

pub(crate) fn set_face(memory: &mut Memory, e: EdgeId, f: FaceId)
    ensures { memory.new ≡ put real edge_face memory.old e.0 f.0 }
{
    EDGE_FACE.set(memory, e.0, f.0);
}

pub(crate) fn set_origin(memory: &mut Memory, e: EdgeId, v: VertexId)
    ensures { memory.new ≡ put real edge_origin memory.old e.0 v.0 }
{
    EDGE_ORIGIN.set(memory, e.0, v.0);
}

// The origins of two half edges.
pub(crate) fn set_two_origins(memory: &mut Memory, e: EdgeId, v: VertexId, g: EdgeId, w: VertexId)
    ensures { memory.new ≡ put_all real edge_origin ((e.0, v.0) ∷ (g.0, w.0) ∷ []) memory.old }
{
    set_origin(memory, g, w);
    set_origin(memory, e, v);
}

// The worklist's word of the edge `i`.
pub fn set_worklist(memory: &mut Memory, i: u64, value: u64)
    ensures { memory.new ≡ put real worklist memory.old i value }
{
    WORKLIST.set(memory, i, value);
}

// Makes `g` the next of `e`, and `e` the one before `g`.
pub(crate) fn link(memory: &mut Memory, e: EdgeId, g: EdgeId)
    ensures { memory.new ≡ linked real memory.old e.0 g.0 }
{
    EDGE_PREV.set(memory, g.0, e.0);
    EDGE_NEXT.set(memory, e.0, g.0);
}

// Closes three half edges to the face `f`.
pub(crate) fn triangle(memory: &mut Memory, a: EdgeId, b: EdgeId, c: EdgeId, f: FaceId)
    ensures { memory.new ≡ put_triangle real memory.old a.0 b.0 c.0 f.0 }
{
    FACE_EDGE.set(memory, f.0, a.0);
    set_face(memory, c, f);
    set_face(memory, b, f);
    set_face(memory, a, f);
    link(memory, c, a);
    link(memory, b, c);
    link(memory, a, b);
}
