// Runs one part of the triangulation N times, and prints how many vertices and faces there are then: for counting instructions.
#![tactic(auto)]

mod runs;

use anyhow::Context;
use dcel::WORDS;
use runs::run;
use std::env;

fn main(rt: HostRuntime) -> anyhow::Result<()> {
    let mut words = env::args(&rt)?;
    let _program = words.next();
    let n = words.next().context("no number")?.parse::<u64>()?;
    let what = words.next().context("nothing to run")?;
    let mut memory = vec![in rt.alloc(); 0u64; WORDS]?;
    let (vertices, faces) = run(&mut memory, what.as_str(), n);
    println!(rt; "{vertices} {faces}")?;
    Ok(())
}
