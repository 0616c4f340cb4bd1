// Handles of vertices, half edges and faces.
#![tactic(auto, unfolding(crate::specs::Map::twin))]

ghost use Rattle.std.specs.Prelude.{◌≡◌};
ghost use Rattle.dcel.specs.Map.{twin as other_half};

#[derive(Clone, Copy, PartialEq, Eq, Debug)]
pub struct VertexId(pub u64);

#[derive(Clone, Copy, PartialEq, Eq, Debug)]
pub struct EdgeId(pub u64);

#[derive(Clone, Copy, PartialEq, Eq, Debug)]
pub struct FaceId(pub u64);

// The face that is no triangle: all that lies round the mesh.
pub const OUTSIDE: FaceId = FaceId(0);

// What is known of a half edge: the one that follows it round its face, the one before it, the face on its left, the vertex at its start.
#[derive(Clone, Copy, PartialEq, Eq, Debug)]
pub struct HalfEdge {
    pub next: EdgeId,
    pub prev: EdgeId,
    pub face: FaceId,
    pub origin: VertexId,
}

impl EdgeId {
    // The other half of the edge: two halves differ in the last bit.
    pub fn twin(self) -> EdgeId
        ensures { result.0 ≡ other_half self.0 }
    {
        if self.0 % 2 == 0 {
            EdgeId(self.0 + 1)
        } else {
            EdgeId(self.0 - 1)
        }
    }
}
