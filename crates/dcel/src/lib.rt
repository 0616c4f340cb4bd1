// A triangulation as half edges in lent words, with indices for handles and no heap, by a rule of the project: what is read, what is written, and the surgeries that keep it a mesh.
#![tactic(auto)]

mod accessors;
mod attaching;
mod flipping;
mod ids;
mod layout;
mod lines;
mod numbers;
mod site;
mod splitting;
mod starting;
mod table;
mod writers;

pub use accessors::{
    data, edge, face, faces, half_edge, half_edges, header, next, origin, out, prev, vertices,
    worklist, x, y,
};
pub use attaching::{attach, close_ear};
pub use flipping::flip;
pub use ids::{EdgeId, FaceId, HalfEdge, OUTSIDE, VertexId};
pub use layout::{COORDINATES, EDGES, Memory, VERTICES, WORDS};
pub use lines::{extend_line, split_line_edge, split_line_end};
pub use site::Site;
pub use splitting::{split_face, split_hull_edge, split_inner_edge};
pub use starting::{clear, put_first, put_second};
pub use writers::{set_data, set_header, set_worklist};
