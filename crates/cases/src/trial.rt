// One case: points go into the machine one by one, and after each all faces are judged.
use crate::fault::{Fault, check};
use crate::judge::judge;
use crate::machine::{Machine, Row};
use crate::plane::{Point, Triangle};
use std::alloc::{AllocError, Global};

// The machine that points go into, and the vertices that it must have by now.
#[derive(Drop)]
struct Trial<'a> {
    machine: &'a mut Machine,
    heap: Global,
    vertices: Vec<Point>,
}

// Fails with what goes wrong.
pub fn run(machine: &mut Machine, heap: Global, points: &[Point]) -> Result<(), Fault> {
    machine.clear()?;
    let mut trial = Trial {
        machine,
        heap,
        vertices: Vec::new(heap),
    };
    for p in points {
        trial.insert(*p)?;
        trial.judge()?;
    }
    Ok(())
}

impl Trial<'_> {
    fn insert(&mut self, p: Point) -> Result<(), Fault> {
        let number = self.number_of(p)?;
        check(self.machine.insert(p)? == number, Fault::OtherNumber)
    }

    // The number that a point must be told: its old one, or the next.
    fn number_of(&mut self, p: Point) -> Result<u64, AllocError> {
        let next = self.vertices.len();
        let number = self.vertices.iter().position(|v| *v == p).unwrap_or(next);
        if number == next {
            self.vertices.push(p)?;
        }
        Ok(number as u64)
    }

    fn judge(&mut self) -> Result<(), Fault> {
        let rows = self.machine.faces()?;
        let shown: Vec<Triangle> = rows
            .iter()
            .map(|row| triangle(*row, &self.vertices).ok_or(Fault::NoVertex))
            .try_collect(self.heap)?;
        judge(&self.vertices, &shown)
    }
}

fn triangle(row: Row, vertices: &[Point]) -> Option<Triangle> {
    let Row(a, b, c) = row;
    let corner = |number: u64| vertices.get(number as usize).copied();
    Some(Triangle([corner(a)?, corner(b)?, corner(c)?]))
}
