// The two tests on positions that a generator makes, each position with those before it. Every call is counted once.
ghost use Rattle.std.specs.Prelude.{◌≡◌, ◌+◌};

use exact::plane::{circle, side};
use exact::position::{LIMIT, Position};
use exact::verdict::{Circle, Side};
use std::cmp::Ordering;

// How often a determinant was below 0, 0, and above 0.
#[derive(Clone, Copy)]
pub struct Counts {
    pub below: u64,
    pub zero: u64,
    pub above: u64,
}

// Pseudo-random positions, one after another. The same as in the other benchmark, since each program is a crate of its own. An Iterator would want its laws for this one method.
#[derive(Clone, Copy)]
struct Generator {
    seed: u64,
}

impl Generator {
    fn next(&mut self) -> Position {
        self.seed = self
            .seed
            .wrapping_mul(6364136223846793005)
            .wrapping_add(1442695040888963407);
        Position {
            x: (self.seed / LIMIT) % LIMIT,
            y: (self.seed / LIMIT / LIMIT) % LIMIT,
        }
    }
}

// How n calls come out. The counter has a name for the loop's invariant. An order is asked by its tests, which takes fewer instructions than a match.
fn tally<F: FnMut() -> Ordering>(n: u64, mut call: F) -> Counts
    requires { F.IsAlwaysCallable call }
    ensures { result.below + result.zero + result.above ≡ n }
{
    let mut below = 0;
    let mut zero = 0;
    let mut above = 0;
    for i in 0..n {
        let order = call();
        if order.is_lt() {
            below += 1;
        } else if order.is_eq() {
            zero += 1;
        } else {
            above += 1;
        }
    }
    Counts { below, zero, above }
}

// by side
pub fn sides(n: u64) -> Counts
    ensures { result.below + result.zero + result.above ≡ n }
{
    let mut generator = Generator { seed: 1 };
    let mut p = generator.next();
    let mut q = generator.next();
    tally(n, move || {
        let r = generator.next();
        let told = side(p, q, r);
        p = q;
        q = r;
        told.cmp(&Side::On)
    })
}

// by circle
pub fn circles(n: u64) -> Counts
    ensures { result.below + result.zero + result.above ≡ n }
{
    let mut generator = Generator { seed: 1 };
    let mut p = generator.next();
    let mut q = generator.next();
    let mut r = generator.next();
    tally(n, move || {
        let s = generator.next();
        let told = circle(p, q, r, s);
        p = q;
        q = r;
        r = s;
        told.cmp(&Circle::On)
    })
}

// by the order of a position's coordinates: what the generator and the counting take
pub fn places(n: u64) -> Counts
    ensures { result.below + result.zero + result.above ≡ n }
{
    let mut generator = Generator { seed: 1 };
    tally(n, move || {
        let p = generator.next();
        p.x.cmp(&p.y)
    })
}
