// Points, and on which side and in which circle they are, by plain numbers: written a second time, so that it can disagree with the machine.
use std::fmt;
use std::num::Wrapping;
use std::ops::Sub;

#[derive(Clone, Copy, PartialEq, Eq)]
pub struct Point {
    pub x: u32,
    pub y: u32,
}

impl fmt::Display for Point {
    fn fmt<W: fmt::Write>(&self, f: &mut fmt::Formatter<W>) -> fmt::Result {
        write!(f, "{} {}", self.x, self.y)
    }
}

// The way from one point to another. Coordinates are below 2^20, so all that is computed of it is below 2^88, and nothing wraps.
#[derive(Clone, Copy)]
pub struct Vector {
    x: Wrapping<i128>,
    y: Wrapping<i128>,
}

impl Sub for Point {
    type Output = Vector;

    fn sub(self, from: Point) -> Vector {
        Vector {
            x: Wrapping(i128::from(self.x)) - Wrapping(i128::from(from.x)),
            y: Wrapping(i128::from(self.y)) - Wrapping(i128::from(from.y)),
        }
    }
}

impl Vector {
    // Above 0 if the other turns to the left of this one, below 0 if to the right.
    fn cross(self, other: Vector) -> Wrapping<i128> {
        self.x * other.y - self.y * other.x
    }

    // The square of its length.
    pub fn square(self) -> Wrapping<i128> {
        self.x * self.x + self.y * self.y
    }
}

// Above 0 if r is to the left of the line from p to q, below 0 if to the right.
pub fn side(p: Point, q: Point, r: Point) -> i128 {
    (q - p).cross(r - p).0
}

// Three corners.
#[derive(Clone, Copy)]
pub struct Triangle(pub [Point; 3]);

impl Triangle {
    pub fn turns_left(self) -> bool {
        let [a, b, c] = self.0;
        side(a, b, c) > 0
    }

    // Above 0 if p is inside the circle of a triangle that turns to the left, below 0 if outside.
    pub fn circle(self, p: Point) -> i128 {
        let [a, b, c] = self.0.map(|corner| corner - p);
        (a.square() * b.cross(c) + b.square() * c.cross(a) + c.square() * a.cross(b)).0
    }

    pub fn edges(self) -> [(Point, Point); 3] {
        let [a, b, c] = self.0;
        [(a, b), (b, c), (c, a)]
    }

    pub fn has(self, p: Point) -> bool {
        self.0.contains(&p)
    }

    // Whether no corner is on the left of the line from p to q.
    pub fn is_right_of(self, p: Point, q: Point) -> bool {
        self.0.iter().all(|r| side(p, q, *r) <= 0)
    }
}
