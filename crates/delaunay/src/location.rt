// Where a point is in a triangulation. NoEdge is a case and not an Option around the others, since all six are told alike.
use dcel::{EdgeId, VertexId};

#[derive(Clone, Copy, PartialEq, Eq, Debug)]
pub enum Location {
    OnVertex(VertexId),
    // Strictly between the ends of an edge.
    OnEdge(EdgeId),
    // Strictly inside the face of a half edge.
    InFace(EdgeId),
    // Strictly on the left of a half edge of the outside.
    Outside(EdgeId),
    // With all vertices on a line: on it, past the end of its last half edge.
    Beyond(EdgeId),
    // There is no edge.
    NoEdge,
}
