// Examples that were worked out by hand: the triangles that must be shown.
use crate::bench::Bench;
use crate::fault::{Fault, check};
use crate::machine::{Machine, Row};
use crate::plane::Point;
use crate::tally::Tally;
use std::io;

pub fn examples(bench: &mut Bench) -> io::Result<Tally> {
    let mut tally = Tally::default();
    tally.count(rectangle(bench)?);
    tally.count(square(bench)?);
    tally.count(row(bench)?);
    Ok(tally)
}

// A rectangle with a point inside.
fn rectangle(bench: &mut Bench) -> io::Result<bool> {
    let points = [at(0, 0), at(4, 0), at(4, 3), at(0, 3), at(2, 1)];
    let fan = [Row(2, 3, 4), Row(0, 4, 3), Row(0, 1, 4), Row(1, 2, 4)];
    shows(bench, &points, &fan, &fan)
}

// Four points on a circle: either diagonal is right.
fn square(bench: &mut Bench) -> io::Result<bool> {
    let points = [at(0, 0), at(6, 0), at(6, 6), at(0, 6)];
    let one = [Row(0, 1, 2), Row(0, 2, 3)];
    let other = [Row(0, 1, 3), Row(1, 2, 3)];
    shows(bench, &points, &one, &other)
}

// Four points on a line.
fn row(bench: &mut Bench) -> io::Result<bool> {
    let points = [at(1, 1), at(3, 1), at(2, 1), at(5, 1)];
    shows(bench, &points, &[], &[])
}

// Whether the one triangles or the other are shown.
fn shows(bench: &mut Bench, points: &[Point], one: &[Row], other: &[Row]) -> io::Result<bool> {
    let outcome = match rows_of(&mut bench.machine, points) {
        Err(Fault::NoMemory(e)) => Err(e.into()),
        rows => check(
            rows.is_ok_and(|rows| same(&rows, one) || same(&rows, other)),
            Fault::OtherTriangles,
        ),
    };
    bench.holds(outcome, points)
}

fn at(x: u32, y: u32) -> Point {
    Point { x, y }
}

// All faces once the points are in.
fn rows_of(machine: &mut Machine, points: &[Point]) -> Result<Vec<Row>, Fault> {
    machine.clear()?;
    for (i, p) in points.iter().enumerate() {
        check(machine.insert(*p)? == i as u64, Fault::OtherNumber)?;
    }
    machine.faces()
}

// Whether the same triangles are shown, in any order.
fn same(rows: &[Row], want: &[Row]) -> bool {
    rows.len() == want.len() && want.iter().all(|row| rows.contains(row))
}
