// The product of two polynomials over GF(2), by a window of four bits, and the square of one, by moving its bits apart;
// both before their reduction.
#![tactic(auto)]

ghost use Rattle.std.specs.Prelude.{◌≡◌, ◌*◌, ◌%◌, ◌^◌, ◌<◌};
ghost use Rattle.std.specs.Int.Bits.{bit_xor};
ghost use Rattle.gf64.specs.Polynomial.{carryless};
ghost use Rattle.carryless.specs.Window.{wide_of, Sums, joined_of};

use std::marker::Model;

// A polynomial of 128 bits.
#[derive(Clone, Copy, Debug, PartialEq, Eq)]
pub struct Wide {
    pub high: u64,
    pub low: u64,
}

// n · a, from half = (n / 2) · a.
fn multiple(n: usize, a: u64, half: u64) -> u64
    requires { half < 2 ^ 63 }
    ensures { result ≡ bit_xor (n % 2 * a) (half * 2) }
{
    if n % 2 == 1 {
        a ^ (half << 1)
    } else {
        half << 1
    }
}

// The multiples of a polynomial of 32 bits by all polynomials of four bits. A clause sees the polynomial.
#[derive(Drop)]
struct Window {
    entries: [u64; 16],
}

impl Model for Window {
    ghost use Rattle.std.specs.Prelude.{ℕ, get_or};
    ghost use Rattle.carryless.specs.Window.{Multiples};

    ghost Value = { ℕ };

    ghost view = { λ w. get_or w.entries 1 0 };

    ghost invariant = { λ w. Multiples (get_or w.entries 1 0) w.entries };
}

impl Window {
    fn of(a: u64) -> Window
        requires { a < 2 ^ 32 }
        ensures { result ≡ a }
    {
        let mut entries = [0u64; 16];
        for n in 1..16 {
            entries[n] = multiple(n, a, entries[n / 2]);
        }
        Window { entries }
    }

    // The product by a polynomial of four bits.
    fn times(&self, n: u64) -> u64
        requires { n < 2 ^ 4 }
        ensures { result ≡ carryless n self.now }
    {
        self.entries[n as usize]
    }
}

// The products of the two halves of a by two polynomials x and y, from the windows of the halves: low · y,
// low · x + high · y, and high · x.
#[derive(Clone, Copy, Debug, PartialEq, Eq)]
pub struct Products {
    pub low: u64,
    pub middle: u64,
    pub high: u64,
}

// For an x and a y of 4 bits.
fn times4(low: &Window, high: &Window, x: u64, y: u64) -> Products
    requires { (x < 2 ^ 4) × (y < 2 ^ 4) }
    ensures { Sums low.now high.now x y result }
{
    Products {
        low: low.times(y),
        middle: low.times(x) ^ high.times(y),
        high: high.times(x),
    }
}

// For an x and a y of 32 bits, four bits of both at a time, from the lowest on.
fn times32(low: &Window, high: &Window, x: u64, y: u64) -> Products
    requires halves { (low.now < 2 ^ 32) × (high.now < 2 ^ 32) }
    requires within { (x < 2 ^ 32) × (y < 2 ^ 32) }
    ensures { Sums low.now high.now x y result }
{
    let mut sums = Products {
        low: 0,
        middle: 0,
        high: 0,
    };
    for n in 0..8 {
        let upper = times4(low, high, (x >> (4 * n)) % 16, (y >> (4 * n)) % 16);
        sums = upper.joined(4 * n, sums);
    }
    sums
}

impl Products {
    // t^k · self + lower, without what t^k moves out of 64 bits.
    fn joined(self, k: u64, lower: Products) -> Products
        requires { k < 64 }
        ensures { result ≡ joined_of self k lower }
    {
        Products {
            low: (self.low << k) ^ lower.low,
            middle: (self.middle << k) ^ lower.middle,
            high: (self.high << k) ^ lower.high,
        }
    }
}

// a · b, by halves of 32 bits.
pub fn wide_product(a: u64, b: u64) -> Wide
    ensures { wide_of result ≡ carryless a b }
{
    let low = Window::of(a % 4294967296);
    let high = Window::of(a / 4294967296);
    let p = times32(&low, &high, b / 4294967296, b % 4294967296);
    Wide {
        high: p.high ^ (p.middle >> 32),
        low: p.low ^ (p.middle << 32),
    }
}

// a · a: the mixed products cancel, so that bit i moves to place 2 i. Each line moves the upper half of every block of
// bits up, down to blocks of one bit; of the two copies of each half the mask keeps one.
fn spread(a: u64) -> u64
    requires { a < 2 ^ 32 }
    ensures { result ≡ carryless a a }
{
    let x = (a ^ (a << 16)) & 0x0000ffff0000ffff;
    let x = (x ^ (x << 8)) & 0x00ff00ff00ff00ff;
    let x = (x ^ (x << 4)) & 0x0f0f0f0f0f0f0f0f;
    let x = (x ^ (x << 2)) & 0x3333333333333333;
    (x ^ (x << 1)) & 0x5555555555555555
}

// a · a, by halves of 32 bits.
pub fn wide_square(a: u64) -> Wide
    ensures { wide_of result ≡ carryless a a }
{
    Wide {
        high: spread(a / 4294967296),
        low: spread(a % 4294967296),
    }
}

// w + t^i · a.
pub fn plus_shifted(w: Wide, a: u64, i: u64) -> Wide
    requires { i < 64 }
    ensures { wide_of result ≡ bit_xor (wide_of w) (a * 2 ^ i) }
{
    Wide {
        high: w.high ^ ((a >> 1) >> (63 - i)),
        low: w.low ^ (a << i),
    }
}
