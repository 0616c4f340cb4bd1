// What can be wrong with a case.
use std::alloc::AllocError;
use thiserror::Error;

#[derive(Clone, Copy, Debug, PartialEq, Eq, Error)]
pub enum Fault {
    #[error("it is not cleared")]
    NotCleared,
    #[error("a point has another number")]
    OtherNumber,
    #[error("all faces does not show rows of three and end")]
    NoRows,
    #[error("a triangle has a corner that is no vertex")]
    NoVertex,
    #[error("a triangle does not turn to the left")]
    TurnsRight,
    #[error("a point is inside a circle")]
    PointInside,
    #[error("two triangles overlap, or one is shown twice")]
    Overlap,
    #[error("a triangle with nothing else in its circle is not shown")]
    NotShown,
    #[error("there are more or fewer triangles than there should be")]
    OtherCount,
    #[error("other triangles are shown than were worked out")]
    OtherTriangles,
    // Ends the program, and tells nothing of the case.
    #[error("memory ran out")]
    NoMemory(#[from(alloc)] AllocError),
}

// Fails with the fault unless it holds.
pub fn check(holds: bool, fault: Fault) -> Result<(), Fault> {
    if holds { Ok(()) } else { Err(fault) }
}
