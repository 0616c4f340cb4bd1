// Goes through cases, points in and what must come out, and tells how many hold.
#![tactic(auto)]

mod bench;
mod fault;
mod figures;
mod groups;
mod judge;
mod machine;
mod plane;
mod random;
mod tally;
mod trial;
mod worked;

use crate::bench::Bench;
use std::io;

fn main(rt: HostRuntime) -> io::Result<()> {
    groups::go_through(&mut Bench::new(rt)?)
}
