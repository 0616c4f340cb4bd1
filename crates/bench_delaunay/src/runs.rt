// What is measured: flips of one edge, splits of faces, points put in at random and in a grid, places looked up among them.
use dcel::{
    EdgeId, Memory, Site, WORDS, attach, faces, flip, put_first, put_second, split_face, vertices,
};
use delaunay::insert::insert;
use delaunay::locate::{locate, resume};
use delaunay::nearest::nearest;
use exact::position::{LIMIT, Position};

// As many points as there is room for, among which places are looked up.
const POINTS: u64 = 16384;

pub fn run(memory: &mut [u64], what: &str, n: u64) -> (u64, u64) {
    let Some(memory) = memory.as_mut_array::<WORDS>() else {
        return (0, 0);
    };
    // A word chooses the run: a table of functions would hand out pointers.
    match what {
        "flip" => flips(memory, n),
        "split" => splits(memory, n),
        "insert" => {
            let mut generator = Generator { seed: 1 };
            inserts(memory, n, |_| generator.next());
        }
        "grid" => inserts(memory, n, grid),
        "locate" => lookups(memory, n, |memory, p| {
            let place = locate(memory, p);
            resume(memory, place);
        }),
        "nearest" => lookups(memory, n, |memory, p| {
            let _vertex = nearest(memory, p);
        }),
        _ => {}
    }
    (vertices(memory), faces(memory))
}

// Shorter than the literal; the tests of dcel have the like, in a crate of their own.
fn site(x: u64, y: u64, data: u64) -> Site {
    Site { x, y, data }
}

// One face.
fn face(memory: &mut Memory) {
    put_first(memory, site(0, 4, 0));
    put_second(memory, site(4, 4, 0));
    attach(memory, EdgeId(0), site(2, 8, 0));
}

// One edge between two faces, flipped n times.
fn flips(memory: &mut Memory, n: u64) {
    face(memory);
    attach(memory, EdgeId(1), site(2, 0, 0));
    for _ in 0..n {
        flip(memory, EdgeId(0));
    }
}

// One face, and then n vertices inside it, each with its number for its data.
fn splits(memory: &mut Memory, n: u64) {
    face(memory);
    for i in 0..n {
        split_face(memory, EdgeId(0), site(2, 5, i));
    }
}

// Pseudo-random positions, one after another. The same as in the other benchmark, since each program is a crate of its own. An Iterator would want its laws for this one method.
#[derive(Clone, Copy)]
struct Generator {
    seed: u64,
}

impl Generator {
    fn next(&mut self) -> Position {
        self.seed = self
            .seed
            .wrapping_mul(6364136223846793005)
            .wrapping_add(1442695040888963407);
        Position {
            x: (self.seed / LIMIT) % LIMIT,
            y: (self.seed / LIMIT / LIMIT) % LIMIT,
        }
    }
}

// A grid of 128 columns, row by row.
fn grid(i: u64) -> Position {
    Position {
        x: i % 128,
        y: (i / 128) % LIMIT,
    }
}

// n points, one after another. The number of each is its data.
fn inserts<F: FnMut(u64) -> Position>(memory: &mut Memory, n: u64, mut point: F)
    requires { F.IsAlwaysCallable point }
{
    for i in 0..n {
        let _number = insert(memory, point(i), i);
    }
}

// n places after as many points as there is room for, each looked up from where the last one was found.
fn lookups<F: FnMut(&mut Memory, Position)>(memory: &mut Memory, n: u64, mut look: F)
    requires { F.IsAlwaysCallable look }
{
    let mut generator = Generator { seed: 1 };
    inserts(memory, POINTS, |_| generator.next());
    for _ in 0..n {
        look(memory, generator.next());
    }
}
