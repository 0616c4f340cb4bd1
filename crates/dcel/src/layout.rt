// Where the tables stand in memory, at the size in use.
use crate::table::Table;

// How many words of memory a mesh takes.
pub const WORDS: usize = 540688;

// The memory that a mesh is lent.
pub type Memory = [u64; WORDS];

// Coordinates are below this.
pub const COORDINATES: u64 = 1048576;

// How many vertices, half edges, faces and edges there is room for.
pub const VERTICES: u64 = 16384;

pub(crate) const HALF_EDGES: u64 = 98304;

pub(crate) const FACES: u64 = 32768;

pub const EDGES: u64 = 49152;

pub(crate) const HEADER: Table = Table {
    start: 0,
    stride: 1,
    rows: 16,
};

// The words of the header that are in use here: how many vertices, half edges and faces there are.
pub(crate) const VERTEX_COUNT: u64 = 0;

pub(crate) const HALF_EDGE_COUNT: u64 = 1;

pub(crate) const FACE_COUNT: u64 = 2;

// A vertex has four words, side by side.
pub(crate) const VERTEX_X: Table = Table {
    start: 16,
    stride: 4,
    rows: VERTICES,
};

pub(crate) const VERTEX_Y: Table = Table {
    start: 17,
    stride: 4,
    rows: VERTICES,
};

pub(crate) const VERTEX_DATA: Table = Table {
    start: 18,
    stride: 4,
    rows: VERTICES,
};

pub(crate) const VERTEX_OUT: Table = Table {
    start: 19,
    stride: 4,
    rows: VERTICES,
};

// So has a half edge.
pub(crate) const EDGE_NEXT: Table = Table {
    start: 65552,
    stride: 4,
    rows: HALF_EDGES,
};

pub(crate) const EDGE_PREV: Table = Table {
    start: 65553,
    stride: 4,
    rows: HALF_EDGES,
};

pub(crate) const EDGE_FACE: Table = Table {
    start: 65554,
    stride: 4,
    rows: HALF_EDGES,
};

pub(crate) const EDGE_ORIGIN: Table = Table {
    start: 65555,
    stride: 4,
    rows: HALF_EDGES,
};

pub(crate) const FACE_EDGE: Table = Table {
    start: 458768,
    stride: 1,
    rows: FACES,
};

pub(crate) const WORKLIST: Table = Table {
    start: 491536,
    stride: 1,
    rows: EDGES,
};
