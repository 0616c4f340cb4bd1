// The triangulation as a machine: one step over lent memory, and the entry that tells where a point lies to a small circle.
#![tactic(auto)]

ghost use Rattle.std.specs.Prelude.{◌≡◌};
ghost use Rattle.triangles.specs.Entry.{StepSays, step_fits, smaller};

use crate::event::Event;
use crate::machine::{run, tell};
use crate::refusal::Refusal;

mod event;
pub mod examples;
pub mod line;
mod machine;
pub mod points;
pub mod refusal;
pub mod request;
pub mod small;
pub mod theorems;
mod word;

pub use small::in_circle;

// What a step tells, unless it is refused. Acts are an enum of their own, and a row is lent with its length told, by a rule of the project.
#[derive(Clone, Copy, PartialEq, Eq, Debug)]
pub enum Told {
    // So many numbers.
    Shows(u64),
    Done,
}

// How many words of memory the machine is lent, all 0 at the start.
pub const MEMORY: usize = dcel::WORDS;

// The kinds of what can be told are numbered up to this one, which is to go on. It is a number, since a step is an entry by numbers.
pub const GO_ON: u64 = 8;

// The longest row that is shown.
pub const ROW: usize = 4;

// One step, by numbers, so that other languages can call it. Memory of another length, an unknown kind or a row too short for an answer is unfit, and nothing is changed.
pub fn step(
    memory: &mut [u64],
    kind: u64,
    a: u64,
    b: u64,
    c: u64,
    out: &mut [u64],
) -> Result<Told, Refusal>
    ensures { StepSays memory.old kind a b c out.old (step_fits memory.old kind out.old) result memory.new out.new }
{
    let Some(memory) = memory.as_mut_array::<MEMORY>() else {
        return Err(Refusal::Unfit);
    };
    let Some(event) = Event::of(kind, a, b, c) else {
        return Err(Refusal::Unfit);
    };
    let true = out.len() >= ROW else {
        return Err(Refusal::Unfit);
    };
    let outcome = run(memory, event)?;
    Ok(tell(outcome, out))
}

// The smaller of two counts.
pub fn smaller_of(a: u64, b: u64) -> u64
    ensures { result ≡ smaller a b }
{
    a.min(b)
}
