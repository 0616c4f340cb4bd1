// Turning an edge between two faces.
ghost use Rattle.std.specs.Prelude.{◌≡◌};
ghost use Rattle.dcel.specs.Layout.{real};
ghost use Rattle.dcel.specs.Operations.{flipped, Keeps};
ghost use Rattle.dcel.specs.Surgery.{Flippable, flip_patch};

use crate::accessors::{half_edge, origin};
use crate::ids::EdgeId;
use crate::layout::Memory;
use crate::writers::{set_out, set_two_origins, triangle};

// Turns the edge of `e`, which runs from a to b between the faces abc and bad, so that it runs from d to c.
#[tactic(auto, using(crate::proofs::Laws::flip_keeps))]
pub fn flip(memory: &mut Memory, e: EdgeId)
    ensures is { memory.new ≡ flipped real memory.old e.0 }
    ensures keeps { Keeps real Flippable flip_patch memory.old e.0 memory.new }
{
    let t = e.twin();
    let ab = half_edge(memory, e);
    let ba = half_edge(memory, t);
    let c = origin(memory, ab.prev);
    let d = origin(memory, ba.prev);
    set_out(memory, ba.origin, ab.next);
    set_out(memory, ab.origin, ba.next);
    set_two_origins(memory, e, d, t, c);
    triangle(memory, t, ba.prev, ab.next, ba.face);
    triangle(memory, e, ab.prev, ba.next, ab.face);
}
