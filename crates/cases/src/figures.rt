// The figures that the cases' points are taken from.
use crate::plane::Point;
use crate::random::Random;
use std::alloc::{AllocError, Global};
use std::iter;

#[derive(Clone, Copy)]
pub enum Figure {
    // Points of a grid of so many columns and rows; the bits of the case's number tell which.
    Part(u32),
    // Some points of a grid of 4 by 4 over the whole plane.
    Stretched,
    // Those, each moved a little, so that what was on a line or a circle is only nearly so.
    Moved,
    // Twelve points of a square of so many columns and rows; the same one may come again.
    Anywhere(u32),
    Line,
    // All points on the circle with this square of its radius.
    Circle(u32),
}

// How far apart the points of a grid of 4 by 4 over the whole plane are: a third of 2^20 - 1.
const STRETCH: u32 = 349525;

// The circles stand round (CENTRE, CENTRE), so that no coordinate is below 0.
const CENTRE: u32 = 20;

impl Figure {
    // The points of a case, and a few more that may be anywhere near, in a random order.
    pub fn points(
        self,
        heap: Global,
        random: &mut Random,
        number: u64,
        more: u64,
    ) -> Result<Vec<Point>, AllocError> {
        let mut points = self.draw(heap, random, number)?;
        points.extend((0..more).map(|_| random.point(2 * CENTRE)))?;
        random.shuffle(&mut points);
        Ok(points)
    }

    fn draw(
        self,
        heap: Global,
        random: &mut Random,
        number: u64,
    ) -> Result<Vec<Point>, AllocError> {
        match self {
            Figure::Part(side) => part(heap, side, number),
            Figure::Stretched => stretched(heap, random.bits()),
            Figure::Moved => {
                let mut points = stretched(heap, random.bits())?;
                jolt(&mut points, random);
                Ok(points)
            }
            Figure::Anywhere(side) => (0..12).map(|_| random.point(side)).collect(heap),
            Figure::Line => line(heap, random),
            Figure::Circle(square) => circle(heap, square),
        }
    }
}

// All points of a grid of so many columns and rows.
fn grid(heap: Global, side: u32) -> Result<Vec<Point>, AllocError> {
    (0..side)
        .flat_map(|x| (0..side).map(move |y| Point { x, y }))
        .collect(heap)
}

// The points of a grid whose bits in a number, from the lowest on, are 1.
fn part(heap: Global, side: u32, bits: u64) -> Result<Vec<Point>, AllocError> {
    grid(heap, side)?
        .iter()
        .zip(0..u64::BITS)
        .filter(|(_, i)| (bits >> *i) & 1 == 1)
        .map(|(p, _)| *p)
        .collect(heap)
}

// Points of a grid of 4 by 4, stretched over the whole plane.
fn stretched(heap: Global, bits: u64) -> Result<Vec<Point>, AllocError> {
    part(heap, 4, bits)?
        .iter()
        .map(|p| Point {
            x: p.x.wrapping_mul(STRETCH),
            y: p.y.wrapping_mul(STRETCH),
        })
        .collect(heap)
}

// Moves points by at most two, to where no coordinate is below 0 or too large.
fn jolt(points: &mut [Point], random: &mut Random) {
    for p in points {
        p.x = p.x.saturating_sub(random.below(3));
        p.y = p.y.saturating_sub(random.below(3));
    }
}

// Eight points in a row: level, upright, rising or falling, or all the same.
fn line(heap: Global, random: &mut Random) -> Result<Vec<Point>, AllocError> {
    let right = random.below(4);
    let up = random.below(4);
    let down = random.below(4);
    let first = Point {
        x: random.below(8),
        y: random.below(8).wrapping_add(24),
    };
    iter::successors(Some(first), |p| {
        Some(Point {
            x: p.x.wrapping_add(right),
            y: p.y.wrapping_add(up).wrapping_sub(down),
        })
    })
    .take(8)
    .collect(heap)
}

fn circle(heap: Global, square: u32) -> Result<Vec<Point>, AllocError> {
    let centre = Point {
        x: CENTRE,
        y: CENTRE,
    };
    let mut points = grid(heap, 2 * CENTRE)?;
    points.retain(|p| (*p - centre).square().0 == i128::from(square));
    Ok(points)
}
