// The groups of cases, and a line for each.
use crate::bench::Bench;
use crate::figures::Figure;
use crate::random::Random;
use crate::tally::Tally;
use crate::{trial, worked};
use std::io;

struct Group {
    name: &'static str,
    figure: Figure,
    // How many points there are besides.
    more: u64,
    cases: u64,
}

// 65536 cases are all parts of a grid of 4 by 4; a smaller grid has each of its parts in several orders.
// Each says `more: 0`, since a constant calls no constructor, and an update as `..PLAIN` is no shorter.
const GROUPS: [Group; 14] = [
    Group {
        name: "grid 2 by 2",
        figure: Figure::Part(2),
        more: 0,
        cases: 1600,
    },
    Group {
        name: "grid 3 by 3",
        figure: Figure::Part(3),
        more: 0,
        cases: 5120,
    },
    Group {
        name: "grid 4 by 4",
        figure: Figure::Part(4),
        more: 0,
        cases: 65536,
    },
    Group {
        name: "grid 4 by 4 over the whole plane",
        figure: Figure::Stretched,
        more: 0,
        cases: 1000,
    },
    Group {
        name: "the same, moved a little",
        figure: Figure::Moved,
        more: 0,
        cases: 1000,
    },
    Group {
        name: "12 in a square of 4 by 4, so some twice",
        figure: Figure::Anywhere(4),
        more: 0,
        cases: 500,
    },
    Group {
        name: "12 in a square of 40 by 40",
        figure: Figure::Anywhere(40),
        more: 0,
        cases: 500,
    },
    Group {
        name: "12 in the whole plane",
        figure: Figure::Anywhere(1048576),
        more: 0,
        cases: 500,
    },
    Group {
        name: "8 on a line",
        figure: Figure::Line,
        more: 0,
        cases: 500,
    },
    Group {
        name: "8 on a line and 3 more",
        figure: Figure::Line,
        more: 3,
        cases: 500,
    },
    Group {
        name: "12 on a circle",
        figure: Figure::Circle(25),
        more: 0,
        cases: 100,
    },
    Group {
        name: "12 on a circle and 3 more",
        figure: Figure::Circle(50),
        more: 3,
        cases: 100,
    },
    Group {
        name: "16 on a circle",
        figure: Figure::Circle(65),
        more: 0,
        cases: 100,
    },
    Group {
        name: "24 on a circle",
        figure: Figure::Circle(325),
        more: 0,
        cases: 20,
    },
];

pub fn go_through(bench: &mut Bench) -> io::Result<()> {
    let mut all = worked::examples(bench)?;
    bench.tell("worked examples", all)?;
    for group in &GROUPS {
        all += try_group(bench, group)?;
    }
    bench.tell("all", all)
}

fn try_group(bench: &mut Bench, group: &Group) -> io::Result<Tally> {
    let mut random = Random(1);
    let mut tally = Tally::default();
    for number in 0..group.cases {
        let heap = bench.heap();
        let points = group.figure.points(heap, &mut random, number, group.more)?;
        let outcome = trial::run(&mut bench.machine, heap, &points);
        tally.count(bench.holds(outcome, &points)?);
    }
    bench.tell(group.name, tally)?;
    Ok(tally)
}
