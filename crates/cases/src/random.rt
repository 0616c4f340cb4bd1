// A generator of numbers with a fixed start, so that every run tries the same cases. The benchmarks have the like: each program is a crate of its own.
use crate::plane::Point;

#[derive(Clone, Copy)]
pub struct Random(pub u64);

impl Random {
    // A number below n, or 0 if n is 0.
    pub fn below(&mut self, n: u32) -> u32 {
        if n == 0 {
            return 0;
        }
        (self.bits() % n as u64) as u32
    }

    // 31 bits.
    pub fn bits(&mut self) -> u64 {
        self.0 = self
            .0
            .wrapping_mul(6364136223846793005)
            .wrapping_add(1442695040888963407);
        self.0 >> 33
    }

    // A point of a square of so many columns and rows.
    pub fn point(&mut self, side: u32) -> Point {
        Point {
            x: self.below(side),
            y: self.below(side),
        }
    }

    pub fn shuffle(&mut self, points: &mut [Point]) {
        let n = points.len();
        // Each step swaps two places, so the loop goes over indices; the library's shuffle draws other numbers.
        for i in 0..n {
            let j = self.bits() as usize % n;
            points.swap(i, j);
        }
    }
}
