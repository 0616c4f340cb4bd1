// Flipping till every edge is right. This loop and that of the ears are no `iterate`: what they change is memory, which a step would have to lend and give back.
ghost use Rattle.std.specs.Prelude.{◌≡◌};
ghost use Rattle.dcel.specs.Layout.{real};
ghost use Rattle.delaunay.specs.Legalize.{to_flip, turned, settled_edge, legalized};

use crate::places::is_wrong;
use crate::worklist::{pop, push};
use dcel::{EdgeId, Memory, OUTSIDE, face, flip, half_edge};

// More turns than any mesh takes.
const FUEL: u128 = 3802951800684688204490109665280;

#[tactic(auto, unfolding(crate::specs::Legalize::to_flip))]
fn is_to_flip(memory: &Memory, e: EdgeId) -> bool
    ensures { result ≡ to_flip real memory.now e.0 }
{
    face(memory, e) != OUTSIDE && face(memory, e.twin()) != OUTSIDE && is_wrong(memory, e)
}

// Flips `e` and puts the four sides of its quadrilateral on the list.
#[tactic(auto, unfolding(crate::specs::Legalize::turned))]
fn turn(memory: &mut Memory, e: EdgeId)
    ensures { memory.new ≡ turned real memory.old e.0 }
{
    let ab = half_edge(memory, e);
    let ba = half_edge(memory, e.twin());
    flip(memory, e);
    push(memory, ab.next);
    push(memory, ab.prev);
    push(memory, ba.next);
    push(memory, ba.prev);
}

#[tactic(auto, unfolding(crate::specs::Legalize::settled_edge))]
fn settle_edge(memory: &mut Memory, e: EdgeId)
    ensures { memory.new ≡ settled_edge real memory.old e.0 }
{
    if is_to_flip(memory, e) {
        turn(memory, e);
    }
}

// Takes edges off the list till it is empty, and flips those that are not right.
pub fn legalize(memory: &mut Memory)
    ensures { memory.new ≡ legalized real memory.old }
{
    'settling: for _ in 0..FUEL {
        let Some(e) = pop(memory) else {
            break 'settling;
        };
        settle_edge(memory, e);
    }
}
