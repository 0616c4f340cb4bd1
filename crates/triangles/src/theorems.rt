// What is shown of the definitions alone: each function's contract is a theorem, so each is a function of its own.
ghost use Rattle.triangles.specs.Entry.{own};
ghost use Rattle.triangles.specs.House.{core};
ghost use Rattle.triangles.specs.Promise.{Whole, ThereIs, OnlyOne, AllUsed, LocalSuffices, NearestJoined, NoneNearer, Turns, OneDiagonal, StayApart, ComeAndGone};

// The machine is steady, and every list of commands is answered rightly from the start on: insert, all faces and clear as defined, what isn't known with 2.
#[tactic(auto, using(crate::proofs::Promises::Whole::whole_core), unfolding(crate::specs::Entry::own))]
pub fn whole_core()
    ensures { Whole core own }
{}

// For any vertices at whole places, no two at one, there is a Delaunay triangulation.
#[tactic(auto, using(crate::proofs::ThereIs::there_is))]
pub fn there_is()
    ensures { ThereIs }
{}

// Without four vertices on an empty circle there is only one Delaunay triangulation.
#[tactic(auto, using(exact::proofs::Statements::OnlyOne::only_one), unfolding(crate::specs::Promise::OnlyOne, crate::specs::Promise::has_tri, crate::specs::Promise::no_more_on))]
pub fn only_one()
    ensures { OnlyOne }
{}

// All vertices are in triangles, if they aren't on one line, and how many triangles there are.
#[tactic(auto, using(exact::proofs::Statements::AllUsed::all_used), unfolding(crate::specs::Promise::AllUsed, crate::specs::Promise::on_hull))]
pub fn all_used()
    ensures { AllUsed }
{}

// If no vertex is in a triangle but at its corners, it's enough to look across edges.
#[tactic(auto, using(exact::proofs::Statements::LocalSuffices::local_suffices), unfolding(crate::specs::Promise::LocalSuffices, crate::specs::Promise::locally))]
pub fn local_suffices()
    ensures { LocalSuffices }
{}

// The only nearest of a vertex is joined to it.
#[tactic(auto, using(exact::proofs::Statements::NearestJoined::nearest_joined), unfolding(crate::specs::Promise::NearestJoined))]
pub fn nearest_joined()
    ensures { NearestJoined }
{}

// If no neighbour of a vertex is nearer to a place than it is, no vertex is.
#[tactic(auto, using(exact::proofs::Statements::NoneNearer::none_nearer), unfolding(crate::specs::Promise::NoneNearer))]
pub fn none_nearer()
    ensures { NoneNearer }
{}

// Circle and side don't depend on where one begins; the other way round, the signs are turned.
#[tactic(auto, using(exact::proofs::Statements::FourPoints::turns), unfolding(crate::specs::Promise::Turns))]
pub fn turns()
    ensures { Turns }
{}

// Of a convex four one diagonal is right, or both if all are on a circle.
#[tactic(auto, using(exact::proofs::Statements::FourPoints::one_diagonal), unfolding(crate::specs::Promise::OneDiagonal))]
pub fn one_diagonal()
    ensures { OneDiagonal }
{}

// Vertices stay apart, whatever is said.
#[tactic(auto, using(crate::proofs::Apart::stay_apart))]
pub fn stay_apart()
    ensures { StayApart }
{}

// What is removed just after it came leaves the others as they were.
#[tactic(auto, using(crate::proofs::Apart::come_and_gone))]
pub fn come_and_gone()
    ensures { ComeAndGone }
{}
