// Small triangulations worked out, as theorems about the definitions: each function's contract is a theorem, so each is a function of its own.
ghost use Rattle.triangles.specs.Examples.{RectangleFanned, RectangleHull, RectangleLocated, RectangleNearest, RectangleLess, SquareEitherWay, RowJoined};

#[tactic(auto, using(crate::proofs::Worked::rectangle_fanned))]
pub fn rectangle_fanned()
    ensures { RectangleFanned }
{}

#[tactic(auto, using(crate::proofs::Worked::rectangle_hull))]
pub fn rectangle_hull()
    ensures { RectangleHull }
{}

#[tactic(auto, using(crate::proofs::Worked::rectangle_located))]
pub fn rectangle_located()
    ensures { RectangleLocated }
{}

#[tactic(auto, using(crate::proofs::Worked::rectangle_nearest))]
pub fn rectangle_nearest()
    ensures { RectangleNearest }
{}

#[tactic(auto, using(crate::proofs::Worked::rectangle_less))]
pub fn rectangle_less()
    ensures { RectangleLess }
{}

#[tactic(auto, using(crate::proofs::Worked::square_either_way))]
pub fn square_either_way()
    ensures { SquareEitherWay }
{}

#[tactic(auto, using(crate::proofs::Worked::row_joined))]
pub fn row_joined()
    ensures { RowJoined }
{}
