// The triangulation at a keyboard: a command to a line, what is shown and how it ended in answer.
#![tactic(auto)]

use std::io::{BufRead, BufReader};
use std::{fmt, io};
use triangles::line::read_line;
use triangles::request::Request;
use triangles::{GO_ON, MEMORY, ROW, Told, step};

fn main(rt: HostRuntime) -> io::Result<()> {
    let mut memory = vec![in rt.alloc(); 0u64; MEMORY]?;
    for line in BufReader::new(rt.alloc(), rt.stdin())?.split(rt.alloc(), b'\n') {
        let line = line?;
        answer(&rt, &mut memory, &line)?;
    }
    Ok(())
}

// Answers one line. Runtime and memory go on to the run as two: a struct of both would have these two functions for its methods.
fn answer(rt: &HostRuntime, memory: &mut [u64], line: &[u8]) -> io::Result<()> {
    match read_line(line) {
        Ok(None) => Ok(()),
        Ok(Some(request)) => run(rt, memory, request),
        Err(why) => {
            print!(rt; "{why}: ")?;
            rt.write_all(line)?;
            rt.write_all(b"\n")
        }
    }
}

// Says a command, and lets the machine go on till it ends. survey and cases have loops of their own: each is a crate of its own, and does other things with a row.
fn run(rt: &HostRuntime, memory: &mut [u64], request: Request) -> io::Result<()> {
    let mut out = [0u64; ROW];
    let (kind, a, b, c) = request.words();
    let mut told = step(memory, kind, a, b, c, &mut out);
    for _ in 0..u64::MAX {
        match told {
            Ok(Told::Shows(count)) => println!(rt; "{}", Row(&out[..ROW.min(count as usize)]))?,
            Ok(Told::Done) => return println!(rt; "done"),
            Err(why) => return println!(rt; "refused {why}"),
        }
        told = step(memory, GO_ON, 0, 0, 0, &mut out);
    }
    Ok(())
}

// Numbers with spaces between, or - for none.
#[derive(Drop)]
struct Row<'a>(&'a [u64]);

impl fmt::Display for Row<'_> {
    fn fmt<W: fmt::Write>(&self, f: &mut fmt::Formatter<W>) -> fmt::Result {
        let Some((first, rest)) = self.0.split_first() else {
            return f.write_str("-");
        };
        write!(f, "{first}")?;
        for n in rest {
            write!(f, " {n}")?;
        }
        Ok(())
    }
}
