// The field of 2^64 elements: a polynomial over GF(2) of degree below 64, bit i the coefficient of t^i,
// modulo t^64 + t^4 + t^3 + t + 1.
#![tactic(auto)]

pub mod reduction;

ghost use Rattle.std.specs.Prelude.{◌≡◌, ◌≢◌, ◌^◌};
ghost use Rattle.gf64.specs.Polynomial.{remainder};
ghost use Rattle.gf64.specs.Field.{sum, product, power, inverse};

#[derive(Clone, Copy, Debug, PartialEq, Eq)]
pub struct Element(pub u64);

impl Element {
    pub const ZERO: Element = Element(0);

    pub const ONE: Element = Element(1);

    // t^64, reduced: R_64 of NIST SP 800-38B.
    pub const REDUCTION: Element = Element(0x1b);

    pub fn sum(self, other: Element) -> Element
        ensures { result.0 ≡ sum self.0 other.0 }
    {
        Element(self.0 ^ other.0)
    }

    pub fn product(self, other: Element) -> Element
        ensures value { result.0 ≡ product self.0 other.0 }
        ensures constant { Self.REDUCTION.0 ≡ remainder (2 ^ 64) }
    {
        Element(reduction::product(self.0, other.0))
    }

    // The inverse, self^(2^64 - 2); as in AES, zero has zero for its inverse.
    pub fn inverse(self) -> Element
        ensures value { result.0 ≡ inverse self.0 }
        ensures of_zero { self.0 ≡ Self.ZERO.0 → result.0 ≡ Self.ZERO.0 }
        ensures inverts { self.0 ≢ Self.ZERO.0 → product self.0 result.0 ≡ Self.ONE.0 }
    {
        if self == Element::ZERO {
            return Element::ZERO;
        }
        // ones_n is self^(2^n - 1), whose exponent has n bits, all set.
        let ones_2 = self.raised(1, self);
        let ones_3 = ones_2.raised(1, self);
        let ones_6 = ones_3.raised(3, ones_3);
        let ones_12 = ones_6.raised(6, ones_6);
        let ones_15 = ones_12.raised(3, ones_3);
        let ones_30 = ones_15.raised(15, ones_15);
        let ones_60 = ones_30.raised(30, ones_30);
        let ones_63 = ones_60.raised(3, ones_3);
        ones_63.squared(1)
    }

    // The inverse, for a caller that divides: it shows that self is not zero.
    pub fn inverse_of_nonzero(self) -> Element
        requires { self.0 ≢ 0 }
        ensures { result.0 ≡ inverse self.0 }
    {
        self.inverse()
    }

    // self^(2^n) · other.
    fn raised(self, n: usize, other: Element) -> Element
        ensures { result.0 ≡ product (power self.0 (2 ^ n)) other.0 }
    {
        self.squared(n).product(other)
    }

    // self^(2^n).
    fn squared(self, n: usize) -> Element
        ensures { result.0 ≡ power self.0 (2 ^ n) }
    {
        let mut x = self.0;
        for _ in 0..n {
            x = reduction::square(x);
        }
        Element(x)
    }
}
