// Whether shown triangles are a Delaunay triangulation of points, by trying everything.
use crate::fault::{Fault, check};
use crate::plane::{Point, Triangle, side};

pub fn judge(points: &[Point], shown: &[Triangle]) -> Result<(), Fault> {
    check(shown.iter().all(|t| t.turns_left()), Fault::TurnsRight)?;
    check(are_empty(points, shown), Fault::PointInside)?;
    check(!overlap(shown), Fault::Overlap)?;
    check(all_there(points, shown), Fault::NotShown)?;
    check(shown.len() == expected(points), Fault::OtherCount)
}

fn are_empty(points: &[Point], shown: &[Triangle]) -> bool {
    shown
        .iter()
        .all(|t| points.iter().all(|p| t.circle(*p) <= 0))
}

fn overlap(shown: &[Triangle]) -> bool {
    shown.iter().enumerate().any(|(i, t)| {
        shown
            .iter()
            .take(i)
            .any(|u| !beside(*t, *u) && !beside(*u, *t))
    })
}

// Whether an edge of t has u on its other side. Of two triangles that do not overlap, one has such an edge.
fn beside(t: Triangle, u: Triangle) -> bool {
    t.edges().iter().any(|(p, q)| u.is_right_of(*p, *q))
}

// Whether all triangles that have to be there are shown: those with no other point in or on their circle.
fn all_there(points: &[Point], shown: &[Triangle]) -> bool {
    points.iter().all(|a| {
        points.iter().all(|b| {
            points.iter().all(|c| {
                let t = Triangle([*a, *b, *c]);
                !has_to_be(t, points) || is_shown(t, shown)
            })
        })
    })
}

fn has_to_be(t: Triangle, points: &[Point]) -> bool {
    t.turns_left() && points.iter().all(|p| t.has(*p) || t.circle(*p) < 0)
}

fn is_shown(t: Triangle, shown: &[Triangle]) -> bool {
    shown.iter().any(|u| t.0.iter().all(|p| u.has(*p)))
}

// How many triangles there are: by Euler's formula 2n - 2 - h for n points, h of them on the border of the hull.
fn expected(points: &[Point]) -> usize {
    if on_a_line(points) {
        return 0;
    }
    let border = points.iter().filter(|p| is_on_border(**p, points)).count();
    points
        .len()
        .wrapping_mul(2)
        .wrapping_sub(2)
        .wrapping_sub(border)
}

fn on_a_line(points: &[Point]) -> bool {
    points
        .iter()
        .all(|p| points.iter().all(|q| !left_of(*p, *q, points)))
}

// Whether there is another point so that none is to the left of the line to it.
fn is_on_border(p: Point, points: &[Point]) -> bool {
    points.iter().any(|q| p != *q && !left_of(p, *q, points))
}

// Whether some point is to the left of the line from p to q.
fn left_of(p: Point, q: Point, points: &[Point]) -> bool {
    points.iter().any(|r| side(p, q, *r) > 0)
}
