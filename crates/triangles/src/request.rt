// What can be said to the machine, as a value.
ghost use Rattle.std.specs.Prelude.{◌≡◌};
ghost use Rattle.triangles.specs.Entry.{event_of};
ghost use Rattle.triangles.specs.Promise.{said};
ghost use Rattle.triangles.specs.Request.{command_of};

use dcel::Site;

#[derive(Clone, Copy, PartialEq, Eq, Debug)]
pub enum Request {
    Insert(Site),
    Remove(u64),
    Locate(u64, u64),
    Nearest(u64, u64),
    AllFaces,
    Around(u64),
    Hull,
    Clear,
}

impl Request {
    // The kind and the three numbers by which a step is told this. A step is told by numbers, for other languages too, so the kinds are numbers here and in Event::of. A tuple of four numbers says nothing of what it is, so this is a method and no From.
    #[tactic(auto, unfolding(crate::specs::Entry::event_of))]
    pub fn words(self) -> (u64, u64, u64, u64)
        ensures { event_of result.0 result.1 result.2 result.3 ≡ said (command_of self) }
    {
        match self {
            Request::Insert(site) => (0, site.x, site.y, site.data),
            Request::Remove(n) => (1, n, 0, 0),
            Request::Locate(x, y) => (2, x, y, 0),
            Request::Nearest(x, y) => (3, x, y, 0),
            Request::AllFaces => (4, 0, 0, 0),
            Request::Around(n) => (5, n, 0, 0),
            Request::Hull => (6, 0, 0, 0),
            Request::Clear => (7, 0, 0, 0),
        }
    }
}
