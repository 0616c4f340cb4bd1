// Points put into the machine, and the faces it shows.
use std::alloc::{AllocError, Global};
use std::fs::File;
use std::io;
use std::io::{BufRead, BufReader, Write};
use triangles::points::{NotAPoint, Site, read_point};
use triangles::refusal::Refusal;
use triangles::request::Request;
use triangles::{GO_ON, ROW, Told, step};

// How far the reading is gets told once in so many points.
const OFTEN: u64 = 1000;

// Why a request did not come to its end.
#[derive(Debug, Drop)]
enum Stopped {
    Refused(Refusal),
    NoMemory(AllocError),
}

impl From<Refusal> for Stopped {
    fn from(why: Refusal) -> Stopped {
        Stopped::Refused(why)
    }
}

impl From<AllocError> for Stopped {
    fn from(e: AllocError) -> Stopped {
        Stopped::NoMemory(e)
    }
}

// Puts the points of a file in, and the vertices into places, by their numbers. What it is lent is not used together elsewhere.
pub fn put_points(
    rt: &HostRuntime,
    file: File,
    memory: &mut [u64],
    places: &mut Vec<Site>,
) -> io::Result<()> {
    // Of the lines only some are points, so these are counted.
    let mut count = 0u64;
    let lines = BufReader::new(rt.alloc(), file)?.split(rt.alloc(), b'\n');
    for (number, line) in (1u64..).zip(lines) {
        let line = line?;
        match read_point(&line) {
            Ok(None) => {}
            Ok(Some(point)) => {
                match insert(memory, point) {
                    Ok(vertex) => keep(places, vertex, point)?,
                    Err(Stopped::Refused(why)) => eprintln!(rt; "line {number} refused {why}")?,
                    Err(Stopped::NoMemory(e)) => return Err(e.into()),
                }
                count = count.saturating_add(1);
                if count % OFTEN == 0 {
                    eprintln!(rt; "{count} points read")?;
                }
            }
            Err(NotAPoint) => complain(rt, number, &line)?,
        }
    }
    Ok(())
}

// Names a line that is no point. It may hold any bytes, so it is no text.
fn complain(rt: &HostRuntime, number: u64, line: &[u8]) -> io::Result<()> {
    let mut err = rt.stderr();
    write!(err, "line {number} is no point: ")?;
    err.write_all(line)?;
    err.write_all(b"\n")
}

// Says a request, lets the machine go on till it ends, and hands on each row that it shows. keyboard and cases do so in loops of their own: each is a crate of its own, and does other things with a row.
fn ask<F: FnMut([u64; ROW]) -> Result<(), AllocError>>(
    memory: &mut [u64],
    request: Request,
    mut take: F,
) -> Result<(), Stopped>
    requires { F.IsAlwaysCallable take }
{
    let mut row = [0u64; ROW];
    let (kind, a, b, c) = request.words();
    let mut told = step(memory, kind, a, b, c, &mut row)?;
    for _ in 0..u64::MAX {
        let Told::Shows(_) = told else {
            break;
        };
        take(row)?;
        told = step(memory, GO_ON, 0, 0, 0, &mut row)?;
    }
    Ok(())
}

// The number of the vertex.
fn insert(memory: &mut [u64], point: Site) -> Result<u64, Stopped> {
    let mut vertex = 0;
    ask(memory, Request::Insert(point), |[number, ..]| {
        vertex = number;
        Ok(())
    })?;
    Ok(vertex)
}

// New vertices are numbered one after the other; a point that was there keeps its number.
fn keep(places: &mut Vec<Site>, vertex: u64, point: Site) -> Result<(), AllocError> {
    if vertex == places.len() as u64 {
        places.push(point)?;
    }
    Ok(())
}

// The faces, each as the numbers of its three vertices. That they are listed is never refused.
pub fn faces(heap: Global, memory: &mut [u64]) -> Result<Vec<[u64; 3]>, AllocError> {
    let mut all = Vec::new(heap);
    match ask(memory, Request::AllFaces, |[a, b, c, _]| {
        Ok(all.push([a, b, c])?)
    }) {
        Ok(()) | Err(Stopped::Refused(_)) => Ok(all),
        Err(Stopped::NoMemory(e)) => Err(e),
    }
}
