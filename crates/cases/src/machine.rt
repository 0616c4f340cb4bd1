// The machine as the cases drive it: clear, put a point in, list all faces.
use crate::fault::{Fault, check};
use crate::plane::Point;
use std::alloc::{AllocError, Global};
use triangles::points::Site;
use triangles::refusal::Refusal;
use triangles::request::Request;
use triangles::{GO_ON, MEMORY, ROW, Told, step};

// The numbers of a triangle's corners.
#[derive(Clone, Copy, PartialEq, Eq)]
pub struct Row(pub u64, pub u64, pub u64);

// More rows than any case shows.
const ROWS: u64 = 1000;

#[derive(Drop)]
pub struct Machine {
    memory: Vec<u64>,
    heap: Global,
}

impl Machine {
    pub fn new(heap: Global) -> Result<Machine, AllocError> {
        let memory = vec![in heap; 0u64; MEMORY]?;
        Ok(Machine { memory, heap })
    }

    pub fn clear(&mut self) -> Result<(), Fault> {
        let told = self.say(Request::Clear, &mut [0; ROW]);
        check(told == Ok(Told::Done), Fault::NotCleared)
    }

    // Puts a point in. Its number, unless something else is answered.
    pub fn insert(&mut self, p: Point) -> Result<u64, Fault> {
        let mut row = [0; ROW];
        let site = Site {
            x: p.x.into(),
            y: p.y.into(),
            data: 0,
        };
        let told = self.say(Request::Insert(site), &mut row);
        check(told == Ok(Told::Shows(1)), Fault::OtherNumber)?;
        let number = row[0];
        check(self.go_on(&mut row) == Ok(Told::Done), Fault::OtherNumber)?;
        Ok(number)
    }

    // All faces, unless the answer is something else than rows of three and then the end. keyboard and survey have loops of their own, as crates that do other things with a row.
    pub fn faces(&mut self) -> Result<Vec<Row>, Fault> {
        let mut rows = Vec::new(self.heap);
        let mut row = [0; ROW];
        let mut told = self.say(Request::AllFaces, &mut row);
        for _ in 0..ROWS {
            match told {
                Ok(Told::Shows(3)) => rows.push(Row(row[0], row[1], row[2]))?,
                Ok(Told::Done) => return Ok(rows),
                _ => return Err(Fault::NoRows),
            }
            told = self.go_on(&mut row);
        }
        Err(Fault::NoRows)
    }

    fn say(&mut self, request: Request, row: &mut [u64; ROW]) -> Result<Told, Refusal> {
        let (kind, a, b, c) = request.words();
        step(&mut self.memory, kind, a, b, c, row)
    }

    fn go_on(&mut self, row: &mut [u64; ROW]) -> Result<Told, Refusal> {
        step(&mut self.memory, GO_ON, 0, 0, 0, row)
    }
}
