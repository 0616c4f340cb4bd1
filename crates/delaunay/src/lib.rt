// Walking to a point, the vertex nearest to it, putting it in, and flipping till every edge is right, on half edges in lent memory.
#![tactic(auto)]

pub mod insert;
mod iterate;
pub mod legalize;
pub mod locate;
pub mod location;
pub mod nearest;
pub mod outside;
pub mod places;
pub mod walk;
pub mod worklist;
