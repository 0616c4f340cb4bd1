// The list of edges to look at: none is on it twice. It is linked in lent memory, since there is no heap, by a rule of the project.
ghost use Rattle.std.specs.Prelude.{◌≡◌, ◌≤◌};
ghost use Rattle.std.specs.Option.{option_map};
ghost use Rattle.dcel.specs.Layout.{real};
ghost use Rattle.delaunay.specs.Worklist.{head_of, pushed, pushed_face, first_listed, popped};

use dcel::{EDGES, EdgeId, Memory, header, next, prev, set_header, set_worklist, worklist};

// The word of the header that has the head of the list.
const HEAD: u64 = 3;

#[tactic(auto, unfolding(dcel::specs::Memory::at_most))]
fn head(memory: &Memory) -> u64
    ensures is { result ≡ head_of real memory.now }
    ensures room { result ≤ 49152 }
{
    header(memory, HEAD).min(EDGES)
}

// Puts the edge of `e` on the list, unless it is there.
#[tactic(auto, unfolding(crate::specs::Worklist::pushed))]
pub fn push(memory: &mut Memory, e: EdgeId)
    ensures { memory.new ≡ pushed real memory.old e.0 }
{
    let i = e.0 / 2;
    if worklist(memory, i) == 0 {
        let first = head(memory);
        set_worklist(memory, i, first + 1);
        set_header(memory, HEAD, i + 1);
    }
}

// Puts the three edges of the face of `e` on the list.
#[tactic(auto, unfolding(crate::specs::Worklist::pushed_face))]
pub fn push_face(memory: &mut Memory, e: EdgeId)
    ensures { memory.new ≡ pushed_face real memory.old e.0 }
{
    let n = next(memory, e);
    let q = prev(memory, e);
    push(memory, e);
    push(memory, n);
    push(memory, q);
}

// Takes an edge off the list.
#[tactic(auto, unfolding(crate::specs::Worklist::first_listed, crate::specs::Worklist::popped))]
pub fn pop(memory: &mut Memory) -> Option<EdgeId>
    ensures is { memory.new ≡ popped real memory.old }
    ensures edge { option_map (λ e. e.0) result ≡ first_listed real memory.old }
{
    let first = head(memory);
    if first == 0 {
        return None;
    }
    let i = first - 1;
    let rest = worklist(memory, i).saturating_sub(1);
    set_header(memory, HEAD, rest);
    set_worklist(memory, i, 0);
    Some(EdgeId(2 * i))
}
