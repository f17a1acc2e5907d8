// The product by a fixed element, by a table of its multiples: for a run of products by one element.
#![tactic(auto)]

ghost use Rattle.std.specs.Prelude.{◌≡◌, ◌+◌, ℕ, ◌^◌, ◌≤◌, ◌<◌, length};
ghost use Rattle.gf64.specs.Field.{product};
ghost use Rattle.multiplier.specs.Table.{Filled};

use carryless::Wide;
use field::Element;
use std::marker::Model;

// An element with a table of its multiples, in which products by it are looked up, four bits at a time. A clause sees
// the element.
#[derive(Drop)]
pub struct Multiplier {
    entries: [u64; 64],
}

impl Model for Multiplier {
    ghost use Rattle.std.specs.Prelude.{ℕ, get_or};
    ghost use Rattle.multiplier.specs.Table.{Multiples};

    ghost Value = { ℕ };

    ghost view = { λ t. get_or t.entries 1 0 };

    ghost invariant = { λ t. Multiples (get_or t.entries 1 0) t.entries };
}

impl Multiplier {
    // Sixteen shifts, and a sum for each entry. It pays from the third product on.
    pub fn of(c: Element) -> Multiplier
        ensures { result ≡ c.0 }
    {
        let mut entries = [0u64; 64];
        let mut b = c.0;
        for n in 0..4 {
            fill_block(&mut entries[16 * n..16 * n + 16], b);
            b = shifted(b, 4);
        }
        Multiplier { entries }
    }

    // Four products by 16 bits, reduced together.
    pub fn times(&self, x: u64) -> u64
        ensures { result ≡ product self.now x }
    {
        let mut w = Wide { high: 0, low: 0 };
        for n in 0..4 {
            let part = self.times16(((x >> (16 * n)) % 65536) as usize);
            w = carryless::plus_shifted(w, part, 16 * n);
        }
        field::reduction::reduced(w)
    }

    // The product by 16 bits: a sum of four entries.
    fn times16(&self, x: usize) -> u64
        requires { x < 2 ^ 16 }
        ensures { result ≡ product self.now x }
    {
        let mut sum: u64 = 0;
        for n in 0..4 {
            sum ^= self.entries[16 * n + (x >> (4 * n)) % 16];
        }
        sum
    }
}

// t^k · v.
fn shifted(v: u64, k: u64) -> u64
    requires { k < 64 }
    ensures { result ≡ product v (2 ^ k) }
{
    field::reduction::reduced(carryless::plus_shifted(Wide { high: 0, low: 0 }, v, k))
}

// The multiples of b by the polynomials of four bits.
fn fill_block(block: &mut [u64], b: u64)
    requires { length block.old ≡ 16 }
    ensures { Filled b block.new 16 }
{
    block[0] = 0;
    for k in 0..4 {
        fill_row(block, 1 << k, shifted(b, k));
    }
}

// As many multiples again, each of them one that is there and the step.
fn fill_row(block: &mut [u64], count: usize, step: u64)
    requires { count + count ≤ length block.old }
    ensures { (b k : ℕ) → count ≡ 2 ^ k → step ≡ product b (2 ^ k) → Filled b block.old count
        → Filled b block.new (count + count) }
{
    for j in 0..count {
        block[count + j] = block[j] ^ step;
    }
}
