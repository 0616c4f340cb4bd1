// The numbers that follow the last vertex, half edge and face.
ghost use Rattle.std.specs.Prelude.{◌≡◌, ◌≤◌};
ghost use Rattle.dcel.specs.Layout.{real};
ghost use Rattle.dcel.specs.Memory.{faces_in, half_edges_in, put_vertex, vertices_in};

use crate::accessors::{faces, half_edges, vertices};
use crate::ids::VertexId;
use crate::layout::Memory;
use crate::site::Site;
use crate::writers::set_vertex;

// What is new: a vertex, and the first of the half edges and of the faces.
#[derive(Clone, Copy)]
pub(crate) struct Fresh {
    pub(crate) vertex: VertexId,
    pub(crate) edge: u64,
    pub(crate) face: u64,
}

// Puts a vertex after the last one. The counts are not changed yet.
pub(crate) fn put_vertex(memory: &mut Memory, site: Site) -> Fresh
    ensures vertex { result.vertex.0 ≡ vertices_in real memory.old }
    ensures edge { result.edge ≡ half_edges_in real memory.old }
    ensures face { result.face ≡ faces_in real memory.old }
    ensures room { (result.vertex.0 ≤ 16384) × (result.edge ≤ 98304) × (result.face ≤ 32768) }
    ensures is { memory.new ≡ put_vertex real memory.old (vertices_in real memory.old) site.x site.y site.«data» }
{
    let fresh = Fresh {
        vertex: VertexId(vertices(memory)),
        edge: half_edges(memory),
        face: faces(memory),
    };
    set_vertex(memory, fresh.vertex, site);
    fresh
}
