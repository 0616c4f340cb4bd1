// The points of a file, and their triangles: rows of vertex numbers, or a picture.
#![tactic(auto)]

use crate::picture::draw;
use crate::points::{faces, put_points};
use std::io::{BufWriter, ErrorKind, Write};
use std::{env, fs, io};
use triangles::MEMORY;

mod picture;
mod points;

#[derive(Drop)]
struct Task {
    points: String,
    // Where a picture is wanted.
    picture: Option<String>,
}

fn main(rt: HostRuntime) -> io::Result<()> {
    match asked(&rt)? {
        Some(task) => survey(&rt, &task),
        None => {
            eprintln!(rt; "usage: survey FILE [--svg OUT]")?;
            Err(io::Error::from(ErrorKind::InvalidInput))
        }
    }
}

// What the arguments ask for, if they are as they should be.
fn asked(rt: &HostRuntime) -> io::Result<Option<Task>> {
    let mut words = env::args(rt)?;
    let _ = words.next();
    let Some(points) = words.next() else {
        return Ok(None);
    };
    let Some(option) = words.next() else {
        return Ok(Some(Task {
            points,
            picture: None,
        }));
    };
    let picture = words.next();
    if option.as_str() != "--svg" || picture.is_none() || words.next().is_some() {
        return Ok(None);
    }
    Ok(Some(Task { points, picture }))
}

fn survey(rt: &HostRuntime, task: &Task) -> io::Result<()> {
    let mut memory = vec![in rt.alloc(); 0u64; MEMORY]?;
    let mut places = Vec::new(rt.alloc());
    let points = task.points.as_str();
    let file = named(rt, points, fs::open(rt, points))?;
    named(rt, points, put_points(rt, file, &mut memory, &mut places))?;
    let faces = faces(rt.alloc(), &mut memory)?;
    match &task.picture {
        None => named(
            rt,
            "standard output",
            rows(BufWriter::new(rt.alloc(), rt.stdout())?, &faces),
        ),
        Some(name) => {
            let name = name.as_str();
            let file = named(rt, name, fs::create(rt, name))?;
            named(
                rt,
                name,
                draw(BufWriter::new(rt.alloc(), file)?, &places, &faces),
            )
        }
    }
}

// Tells a failure together with the file's name.
fn named<T: Drop>(rt: &HostRuntime, name: &str, res: io::Result<T>) -> io::Result<T> {
    if let Err(e) = &res {
        eprintln!(rt; "{name}: {e}")?;
    }
    res
}

fn rows<W: Write + Drop>(mut out: BufWriter<W>, faces: &[[u64; 3]]) -> io::Result<()> {
    for [a, b, c] in faces {
        writeln!(out, "{a} {b} {c}")?;
    }
    out.flush()
}
