// What a step is told.
ghost use Rattle.std.specs.Prelude.{◌≡◌, ◌<◌, ◌≤◌, MatchOption};
ghost use Rattle.triangles.specs.Entry.{event_of};
ghost use Rattle.triangles.specs.Request.{told};

use crate::GO_ON;
use crate::request::Request;
use dcel::Site;

#[derive(Clone, Copy, PartialEq, Eq, Debug)]
pub(crate) enum Event {
    Said(Request),
    // To go on with what was said.
    GoOn,
}

impl Event {
    // By a kind and three numbers. None for a kind that is none. A step is told by numbers, so that other languages can; the numbers of the kinds stand here and in Request::words.
    #[tactic(auto, unfolding(crate::specs::Entry::event_of))]
    pub(crate) fn of(kind: u64, a: u64, b: u64, c: u64) -> Option<Event>
        ensures { MatchOption result (8 < kind) (λ e. (kind ≤ 8) × (told e ≡ event_of kind a b c)) }
    {
        let request = match kind {
            0 => Request::Insert(Site {
                x: a,
                y: b,
                data: c,
            }),
            1 => Request::Remove(a),
            2 => Request::Locate(a, b),
            3 => Request::Nearest(a, b),
            4 => Request::AllFaces,
            5 => Request::Around(a),
            6 => Request::Hull,
            7 => Request::Clear,
            GO_ON => return Some(Event::GoOn),
            _ => return None,
        };
        Some(Event::Said(request))
    }
}
