// The first vertices: none, one without a half edge, two with a pair of half edges between them.
ghost use Rattle.std.specs.Prelude.{◌≡◌};
ghost use Rattle.dcel.specs.Layout.{real};
ghost use Rattle.dcel.specs.Start.{cleared, Clears, first_put, PutsFirst, second_put, PutsSecond};

use crate::ids::{EdgeId, OUTSIDE, VertexId};
use crate::layout::Memory;
use crate::site::Site;
use crate::writers::{link, set_counts, set_face, set_out, set_two_origins, set_vertex};

// Forgets what memory holds: no vertex, and the outside alone.
#[tactic(auto, using(crate::proofs::FirstVertices::clear_clears))]
pub fn clear(memory: &mut Memory)
    ensures is { memory.new ≡ cleared real memory.old }
    ensures keeps { Clears real memory.old memory.new }
{
    set_counts(memory, 0, 0, 1);
}

// Puts vertex 0 into memory that has none.
#[tactic(auto, using(crate::proofs::FirstVertices::first_puts))]
pub fn put_first(memory: &mut Memory, site: Site)
    ensures is { memory.new ≡ first_put real memory.old site.x site.y site.«data» }
    ensures keeps { PutsFirst real memory.old site.x site.y site.«data» memory.new }
{
    set_vertex(memory, VertexId(0), site);
    set_counts(memory, 1, 0, 1);
}

// Puts vertex 1 into memory that has vertex 0 alone, and joins the two.
#[tactic(auto, using(crate::proofs::FirstVertices::second_puts))]
pub fn put_second(memory: &mut Memory, site: Site)
    ensures is { memory.new ≡ second_put real memory.old site.x site.y site.«data» }
    ensures keeps { PutsSecond real memory.old site.x site.y site.«data» memory.new }
{
    let ab = EdgeId(0);
    let ba = EdgeId(1);
    set_vertex(memory, VertexId(1), site);
    set_counts(memory, 2, 2, 1);
    set_out(memory, VertexId(1), ba);
    set_out(memory, VertexId(0), ab);
    set_two_origins(memory, ab, VertexId(0), ba, VertexId(1));
    set_face(memory, ba, OUTSIDE);
    set_face(memory, ab, OUTSIDE);
    link(memory, ba, ab);
    link(memory, ab, ba);
}
