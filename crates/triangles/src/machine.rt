// The machine: what it does when it is told something.
ghost use Rattle.std.specs.Prelude.{◌≡◌, ◌≤◌, Ok, length};
ghost use Rattle.dcel.specs.Layout.{real};
ghost use Rattle.dcel.specs.Memory.{map_of};
ghost use Rattle.dcel.specs.Geometry.{face_tri};
ghost use Rattle.triangles.specs.Entry.{ActTold};
ghost use Rattle.triangles.specs.Machine.{machine_step, next_face as next-face-step, put_in, going_on, row_of};
ghost use Rattle.triangles.specs.Outcome.{act_of, shown};
ghost use Rattle.triangles.specs.Promise.{shows};
ghost use Rattle.triangles.specs.Request.{told};

use crate::Told;
use crate::event::Event;
use crate::refusal::Refusal;
use crate::request::Request;
use dcel::{FaceId, Memory, Site, edge, faces, header, next, origin, prev, set_header};
use delaunay::insert::insert;
use exact::position::Position;

// What a step comes to, unless it is refused: a row of one number or of three, or the end. Acts are an enum of their own, by a rule of the project.
#[derive(Clone, Copy, PartialEq, Eq, Debug)]
pub enum Outcome {
    One(u64),
    Three(u64, u64, u64),
    Done,
}

// The words of the header that have what the machine is at, a number since memory is lent words, and how many faces it has shown.
const MODE: u64 = 5;

const CURSOR: u64 = 6;

const ENDING: u64 = 0;

const LISTING: u64 = 1;

// Does what it is told.
#[tactic(auto, unfolding(crate::specs::Machine::machine_step))]
pub fn run(memory: &mut Memory, event: Event) -> Result<Outcome, Refusal>
    ensures memory { memory.new ≡ (machine_step real memory.old (told event)).memory }
    ensures act { act_of result ≡ (machine_step real memory.old (told event)).act }
{
    match event {
        Event::Said(Request::Insert(site)) => put(memory, site),
        Event::Said(Request::AllFaces) => Ok(next_face(memory, 0)),
        Event::Said(Request::Clear) => {
            dcel::clear(memory);
            set_header(memory, MODE, ENDING);
            Ok(Outcome::Done)
        }
        Event::Said(_) => Err(Refusal::NotKnown),
        Event::GoOn => Ok(go_on(memory)),
    }
}

// Puts a point in and tells its number.
fn put(memory: &mut Memory, site: Site) -> Result<Outcome, Refusal>
    ensures memory { memory.new ≡ (put_in real memory.old site.x site.y site.«data»).memory }
    ensures act { act_of result ≡ (put_in real memory.old site.x site.y site.«data»).act }
{
    let p = Position::new(site.x, site.y).ok_or(Refusal::TooLarge)?;
    let v = insert(memory, p, site.data).ok_or(Refusal::NoRoom)?;
    set_header(memory, MODE, ENDING);
    Ok(Outcome::One(v.0))
}

// Shows the face after the first `i`, or ends.
fn next_face(memory: &mut Memory, i: u64) -> Outcome
    ensures memory { memory.new ≡ (next-face-step real memory.old i).memory }
    ensures act { shown result ≡ (next-face-step real memory.old i).act }
{
    let count = faces(memory);
    if i >= count || i + 1 >= count {
        set_header(memory, MODE, ENDING);
        return Outcome::Done;
    }
    let shown = triangle(memory, FaceId(i + 1));
    set_header(memory, MODE, LISTING);
    set_header(memory, CURSOR, i + 1);
    shown
}

// The corners of a face, the smallest first.
#[tactic(auto, unfolding(dcel::specs::Geometry::face_tri, dcel::specs::Geometry::from_least))]
fn triangle(memory: &Memory, f: FaceId) -> Outcome
    ensures { shown result ≡ shows (row_of (face_tri (map_of real memory.now) f.0)) }
{
    let e = edge(memory, f);
    let a = origin(memory, e).0;
    let b = origin(memory, next(memory, e)).0;
    let c = origin(memory, prev(memory, e)).0;
    if a < b && a < c {
        Outcome::Three(a, b, c)
    } else if b < c && b < a {
        Outcome::Three(b, c, a)
    } else {
        Outcome::Three(c, a, b)
    }
}

#[tactic(auto, unfolding(crate::specs::Machine::going_on))]
fn go_on(memory: &mut Memory) -> Outcome
    ensures memory { memory.new ≡ (going_on real memory.old).memory }
    ensures act { shown result ≡ (going_on real memory.old).act }
{
    if header(memory, MODE) == LISTING {
        let shown = header(memory, CURSOR);
        next_face(memory, shown)
    } else {
        Outcome::Done
    }
}

// Shows the numbers of an outcome.
#[tactic(auto, using(crate::proofs::Entries::one_set, crate::proofs::Entries::three_set), unfolding(crate::specs::Entry::ActTold))]
pub fn tell(outcome: Outcome, out: &mut [u64]) -> Told
    requires { 4 ≤ length out.old }
    ensures { ActTold (shown outcome) (Ok result) out.old out.new }
{
    match outcome {
        Outcome::One(a) => {
            out[0] = a;
            Told::Shows(1)
        }
        Outcome::Three(a, b, c) => {
            out[0] = a;
            out[1] = b;
            out[2] = c;
            Told::Shows(3)
        }
        Outcome::Done => Told::Done,
    }
}
