// Whole numbers of two words and a sign, and what is done with them. Nothing is lost: what could pass two words is ruled out by the bounds that a caller shows.
ghost use Rattle.std.specs.Prelude.{◌≡◌, ℕ, ◌+◌, ◌-◌, ◌*◌, ◌^◌, ◌<◌, ◌≤◌, ℤ, pos, negsuc, ◌+ℤ◌, ◌-ℤ◌, ◌*ℤ◌, neg_ℤ, ◌≤ℤ◌, unsigned_abs, refl};

use std::cmp::Ordering;
use std::marker::Model;
use std::ops::{Add, Mul, Neg, Sub};

const WORD: u128 = 18446744073709551616;

// Two words and a flag for the sign, by a rule of the project. A clause sees the integer.
#[derive(Clone, Copy, PartialEq, Eq, Debug)]
pub struct Signed {
    negative: bool,
    high: u64,
    low: u64,
}

// Zero has one form: it is never negative.
impl Model for Signed {
    ghost use Rattle.std.specs.Prelude.{ℤ};

    ghost Value = { ℤ };

    ghost use Rattle.exact.specs.Signed.{integer};
    ghost use Rattle.exact.specs.OneForm.{OneForm, words, words_integer};

    ghost view = { integer };

    ghost invariant = { OneForm };

    ghost inverse = { words };

    ghost inverse_ok = { words_integer };
}

// Not std's Ordering: a number has a sign, and two numbers have an order.
#[derive(Clone, Copy, PartialEq, Eq, Debug)]
pub enum Sign {
    Negative,
    Zero,
    Positive,
}

// Two such products lie close enough to 0 that their difference fits too.
fn product(a: i64, b: i64) -> i128
    ensures value { result ≡ a *ℤ b }
    ensures above { negsuc (2 ^ 126 - 2) ≤ℤ result }
    ensures below { result ≤ℤ pos (2 ^ 126) }
{
    (a as i128) * (b as i128)
}

impl Signed {
    ghost use Rattle.exact.specs.Signed.{signed as with-sign, sign_of};

    fn magnitude(self) -> u128
        ensures { result ≡ unsigned_abs self }
    {
        (self.high as u128) * WORD + (self.low as u128)
    }

    fn made(negative: bool, m: u128) -> Signed
        ensures value { result ≡ with-sign negative m }
        ensures size { unsigned_abs result ≡ m }
    {
        Signed {
            negative: negative && m != 0,
            high: (m / WORD) as u64,
            low: (m % WORD) as u64,
        }
    }

    // a - b
    pub fn difference(a: u64, b: u64) -> Signed
        ensures value { result ≡ pos a -ℤ pos b }
        ensures size { unsigned_abs result ≤ a + b }
    {
        Signed {
            negative: a < b,
            high: 0,
            low: a.abs_diff(b),
        }
    }

    // a d - b c, which two words hold whatever the four are
    #[tactic(auto, using(crate::proofs::Numbers::passed_fits, crate::proofs::Numbers::determinant_is))]
    pub fn determinant(a: i64, b: i64, c: i64, d: i64) -> Signed
        ensures value { result ≡ a *ℤ d -ℤ b *ℤ c }
        ensures size { unsigned_abs result ≤ 2 ^ 127 }
    {
        Signed::from(product(a, d) - product(b, c))
    }

    // The order of the tests is the one that is compiled without a branch.
    pub fn sign(self) -> Sign
        ensures { result ≡ sign_of self }
    {
        if !self.negative && (self.high != 0 || self.low != 0) {
            Sign::Positive
        } else if self.negative {
            Sign::Negative
        } else {
            Sign::Zero
        }
    }
}

impl From<i128> for Signed {
    ghost from_gives = { λ v a. (a ≡ v) × (unsigned_abs a ≤ 2 ^ 127) };

    fn from(v: i128) -> Signed {
        Signed::made(v < 0, v.unsigned_abs())
    }
}

impl Neg for Signed {
    type Output = Signed;

    ghost neg_gives = { λ a c. (c ≡ neg_ℤ a) × (unsigned_abs c ≡ unsigned_abs a) };

    fn neg(self) -> Signed {
        Signed::made(!self.negative, self.magnitude())
    }
}

impl Add for Signed {
    type Output = Signed;

    ghost can_add = { λ a b. unsigned_abs a + unsigned_abs b < 2 ^ 128 };

    ghost add_gives = { λ a b c. (c ≡ a +ℤ b) × (unsigned_abs c ≤ unsigned_abs a + unsigned_abs b) };

    fn add(self, other: Signed) -> Signed {
        let a = self.magnitude();
        let b = other.magnitude();
        if self.negative == other.negative {
            Signed::made(self.negative, a + b)
        } else if a < b {
            Signed::made(other.negative, b - a)
        } else {
            Signed::made(self.negative, a - b)
        }
    }
}

impl Sub for Signed {
    type Output = Signed;

    ghost can_sub = { λ a b. unsigned_abs a + unsigned_abs b < 2 ^ 128 };

    ghost sub_gives = { λ a b c. (c ≡ a -ℤ b) × (unsigned_abs c ≤ unsigned_abs a + unsigned_abs b) };

    fn sub(self, other: Signed) -> Signed {
        self + -other
    }
}

impl Mul for Signed {
    type Output = Signed;

    ghost can_mul = { λ a b. unsigned_abs a * unsigned_abs b < 2 ^ 128 };

    ghost mul_gives = { λ a b c. (c ≡ a *ℤ b) × (unsigned_abs c ≡ unsigned_abs a * unsigned_abs b)
        × ((k j : ℕ) → unsigned_abs a ≤ k → unsigned_abs b ≤ j → unsigned_abs c ≤ k * j) };

    fn mul(self, other: Signed) -> Signed {
        Signed::made(
            self.negative != other.negative,
            self.magnitude() * other.magnitude(),
        )
    }
}

impl Ord for Signed {
    ghost use Rattle.std.specs.Ordering.{int_cmp};
    ghost use Rattle.std.specs.Cmp.{int_cmp_total};
    ghost use Rattle.exact.specs.OneForm.{same_words};

    ghost cmp = { int_cmp };

    ghost total = { int_cmp_total };

    ghost matches_partial_cmp = { λ _ _. refl };

    ghost matches_eq = { same_words };

    fn cmp(&self, other: &Signed) -> Ordering {
        if self.negative != other.negative {
            other.negative.cmp(&self.negative)
        } else if self.negative {
            other.magnitude().cmp(&self.magnitude())
        } else {
            self.magnitude().cmp(&other.magnitude())
        }
    }
}

impl PartialOrd for Signed {
    ghost use Rattle.std.specs.Ordering.{int_cmp, as_partial_cmp};
    ghost use Rattle.std.specs.Cmp.{partial_order_from_agreeing_total, int_cmp_total};
    ghost use Rattle.exact.specs.OneForm.{same_words};

    ghost partial_cmp = { as_partial_cmp int_cmp };

    ghost laws = { partial_order_from_agreeing_total int_cmp int_cmp_total (λ _ _. refl) same_words };

    fn partial_cmp(&self, other: &Signed) -> Option<Ordering> {
        Some(self.cmp(other))
    }
}

impl From<i64> for Sign {
    ghost use Rattle.exact.specs.Signed.{sign_of};

    ghost from_gives = { λ v sign. sign ≡ sign_of v };

    fn from(v: i64) -> Sign {
        if v > 0 {
            Sign::Positive
        } else if v < 0 {
            Sign::Negative
        } else {
            Sign::Zero
        }
    }
}
