// Runs one of the two tests on N positions, and prints what it told: for counting instructions.
#![tactic(auto)]

mod runs;

use anyhow::Context;
use runs::{circles, places, sides};
use std::env;

fn main(rt: HostRuntime) -> anyhow::Result<()> {
    let mut words = env::args(&rt)?;
    let _program = words.next();
    let n = words.next().context("no number")?.parse::<u64>()?;
    let test = words.next().context("no test")?;
    // A word chooses the run: a table of functions would hand out pointers.
    let counts = match test.as_str() {
        "side" => sides(n),
        "circle" => circles(n),
        _ => places(n),
    };
    println!(rt; "{} {} {}", counts.below, counts.zero, counts.above)?;
    Ok(())
}
