// Reading memory, whatever it holds: past the end of a table all is 0. Each reader names its table, and its contract ties the table's numbers to the definition; a trait over tables would take more lines for each than its one.
#![tactic(auto, unfolding(crate::specs::Memory::cell, crate::specs::Memory::at_most))]

ghost use Rattle.std.specs.Prelude.{◌≡◌, ◌<◌, ◌≤◌};
ghost use Rattle.dcel.specs.Layout.{real, header as at-header, vertex_data, vertex_out, edge_next, edge_prev, edge_face, edge_origin, face_edge, worklist as at-worklist};
ghost use Rattle.dcel.specs.Memory.{cell, vertices_in, half_edges_in, faces_in, x_in, y_in};

use crate::ids::{EdgeId, FaceId, HalfEdge, VertexId};
use crate::layout::{
    COORDINATES, EDGE_FACE, EDGE_NEXT, EDGE_ORIGIN, EDGE_PREV, FACE_COUNT, FACE_EDGE, FACES,
    HALF_EDGE_COUNT, HALF_EDGES, HEADER, Memory, VERTEX_COUNT, VERTEX_DATA, VERTEX_OUT, VERTEX_X,
    VERTEX_Y, VERTICES, WORKLIST,
};

// Word `i` of the header.
pub fn header(memory: &Memory, i: u64) -> u64
    ensures { result ≡ cell real at-header memory.now i }
{
    HEADER.get(memory, i)
}

// How many vertices there are.
pub fn vertices(memory: &Memory) -> u64
    ensures is { result ≡ vertices_in real memory.now }
    ensures room { result ≤ 16384 }
{
    header(memory, VERTEX_COUNT).min(VERTICES)
}

// How many half edges there are.
pub fn half_edges(memory: &Memory) -> u64
    ensures is { result ≡ half_edges_in real memory.now }
    ensures room { result ≤ 98304 }
{
    header(memory, HALF_EDGE_COUNT).min(HALF_EDGES)
}

// How many faces there are, with the outside.
pub fn faces(memory: &Memory) -> u64
    ensures is { result ≡ faces_in real memory.now }
    ensures room { result ≤ 32768 }
{
    header(memory, FACE_COUNT).min(FACES)
}

pub fn x(memory: &Memory, v: VertexId) -> u64
    ensures is { result ≡ x_in real memory.now v.0 }
    ensures small { result < 1048576 }
{
    VERTEX_X.get(memory, v.0) % COORDINATES
}

pub fn y(memory: &Memory, v: VertexId) -> u64
    ensures is { result ≡ y_in real memory.now v.0 }
    ensures small { result < 1048576 }
{
    VERTEX_Y.get(memory, v.0) % COORDINATES
}

pub fn data(memory: &Memory, v: VertexId) -> u64
    ensures { result ≡ cell real vertex_data memory.now v.0 }
{
    VERTEX_DATA.get(memory, v.0)
}

// A half edge that leaves `v`.
pub fn out(memory: &Memory, v: VertexId) -> EdgeId
    ensures { result.0 ≡ cell real vertex_out memory.now v.0 }
{
    EdgeId(VERTEX_OUT.get(memory, v.0))
}

pub fn next(memory: &Memory, e: EdgeId) -> EdgeId
    ensures { result.0 ≡ cell real edge_next memory.now e.0 }
{
    EdgeId(EDGE_NEXT.get(memory, e.0))
}

pub fn prev(memory: &Memory, e: EdgeId) -> EdgeId
    ensures { result.0 ≡ cell real edge_prev memory.now e.0 }
{
    EdgeId(EDGE_PREV.get(memory, e.0))
}

// The face on the left of `e`.
pub fn face(memory: &Memory, e: EdgeId) -> FaceId
    ensures { result.0 ≡ cell real edge_face memory.now e.0 }
{
    FaceId(EDGE_FACE.get(memory, e.0))
}

// The vertex at the start of `e`.
pub fn origin(memory: &Memory, e: EdgeId) -> VertexId
    ensures { result.0 ≡ cell real edge_origin memory.now e.0 }
{
    VertexId(EDGE_ORIGIN.get(memory, e.0))
}

// All four at once, with one test of `e`.
pub fn half_edge(memory: &Memory, e: EdgeId) -> HalfEdge
    ensures next { result.next.0 ≡ cell real edge_next memory.now e.0 }
    ensures prev { result.prev.0 ≡ cell real edge_prev memory.now e.0 }
    ensures face { result.face.0 ≡ cell real edge_face memory.now e.0 }
    ensures origin { result.origin.0 ≡ cell real edge_origin memory.now e.0 }
{
    if e.0 < HALF_EDGES {
        HalfEdge {
            next: EdgeId(memory[(EDGE_NEXT.start + 4 * e.0) as usize]),
            prev: EdgeId(memory[(EDGE_PREV.start + 4 * e.0) as usize]),
            face: FaceId(memory[(EDGE_FACE.start + 4 * e.0) as usize]),
            origin: VertexId(memory[(EDGE_ORIGIN.start + 4 * e.0) as usize]),
        }
    } else {
        HalfEdge {
            next: EdgeId(0),
            prev: EdgeId(0),
            face: FaceId(0),
            origin: VertexId(0),
        }
    }
}

// One half edge of the face `f`.
pub fn edge(memory: &Memory, f: FaceId) -> EdgeId
    ensures { result.0 ≡ cell real face_edge memory.now f.0 }
{
    EdgeId(FACE_EDGE.get(memory, f.0))
}

// The worklist's word of the edge `i`, whose halves are 2i and 2i + 1.
pub fn worklist(memory: &Memory, i: u64) -> u64
    ensures { result ≡ cell real at-worklist memory.now i }
{
    WORKLIST.get(memory, i)
}
