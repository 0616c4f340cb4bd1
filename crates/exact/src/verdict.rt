// What the two tests of the plane answer.
ghost use Rattle.std.specs.Prelude.{◌≡◌};

use crate::signed::Sign;

// Of a line, from one point to another. Their order is that of the determinant.
#[derive(Clone, Copy, PartialEq, Eq, PartialOrd, Ord, Debug)]
pub enum Side {
    Right,
    On,
    Left,
}

// Of the circle through three points that turn to the left.
#[derive(Clone, Copy, PartialEq, Eq, PartialOrd, Ord, Debug)]
pub enum Circle {
    Outside,
    On,
    Inside,
}

// The questions have names, since each is a word of the definitions.
impl Side {
    ghost use Rattle.exact.specs.Verdicts.{right?, on?, left?};

    pub fn is_right(self) -> bool
        ensures { result ≡ right? self }
    {
        matches!(self, Side::Right)
    }

    pub fn is_on(self) -> bool
        ensures { result ≡ on? self }
    {
        matches!(self, Side::On)
    }

    pub fn is_left(self) -> bool
        ensures { result ≡ left? self }
    {
        matches!(self, Side::Left)
    }
}

impl Circle {
    ghost use Rattle.exact.specs.Verdicts.{inside?};

    pub fn is_inside(self) -> bool
        ensures { result ≡ inside? self }
    {
        matches!(self, Circle::Inside)
    }
}

// Side and Circle are read off a sign in one way, in an impl each: a trait to share three arms would be longer.
impl From<Sign> for Side {
    ghost use Rattle.exact.specs.Verdicts.{by_sign};
    ghost use Rattle.exact.specs.declared.verdict.Side.TheVariants.{Right, On, Left};

    ghost from_gives = { λ sign side. side ≡ by_sign Right On Left sign };

    fn from(sign: Sign) -> Side {
        match sign {
            Sign::Negative => Side::Right,
            Sign::Zero => Side::On,
            Sign::Positive => Side::Left,
        }
    }
}

impl From<Sign> for Circle {
    ghost use Rattle.exact.specs.Verdicts.{by_sign};
    ghost use Rattle.exact.specs.declared.verdict.Circle.TheVariants.{Outside, On, Inside};

    ghost from_gives = { λ sign circle. circle ≡ by_sign Outside On Inside sign };

    fn from(sign: Sign) -> Circle {
        match sign {
            Sign::Negative => Circle::Outside,
            Sign::Zero => Circle::On,
            Sign::Positive => Circle::Inside,
        }
    }
}
