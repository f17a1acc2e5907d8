// A product of two polynomials over GF(2), reduced.
ghost use Rattle.std.specs.Prelude.{◌≡◌};
ghost use Rattle.gf64.specs.Polynomial.{carryless, remainder, reduction};
ghost use Rattle.gf64.specs.Field.{product};
ghost use Rattle.carryless.specs.Window.{wide_of};

use crate::Element;
use carryless::Wide;

// a times t^4 + t^3 + t + 1, which is what t^64 · a reduces to.
fn times_reduction(a: u64) -> Wide
    ensures { wide_of result ≡ carryless reduction a }
{
    let mut w = Wide { high: 0, low: 0 };
    for i in 0..5 {
        if (Element::REDUCTION.0 >> i) % 2 == 1 {
            w = carryless::plus_shifted(w, a, i);
        }
    }
    w
}

// w modulo t^64 + t^4 + t^3 + t + 1. What t^64 · high reduces to has four bits over 64, which are reduced with it.
pub fn reduced(w: Wide) -> u64
    ensures { result ≡ remainder (wide_of w) }
{
    let over = times_reduction(w.high).high;
    w.low ^ times_reduction(w.high ^ over).low
}

// The product of the field. It goes by numbers, which return in a register, where an element returns in memory.
#[tactic(auto, unfolding(gf64::specs::Field::product))]
pub fn product(a: u64, b: u64) -> u64
    ensures { result ≡ product a b }
{
    reduced(carryless::wide_product(a, b))
}

// The square of the field, without the windows that a product builds.
#[tactic(auto, unfolding(gf64::specs::Field::product))]
pub fn square(a: u64) -> u64
    ensures { result ≡ product a a }
{
    reduced(carryless::wide_square(a))
}
