// A run as it was sent, but for its layers, and the queries.
#![tactic(auto)]

ghost use Rattle.std.specs.Prelude.{◌≡◌, ℕ, ◌^◌, ◌<◌, get_or};

use field::Element;
use layout::Shape;

#[derive(Clone, Copy)]
pub struct Sent<'a> {
    pub shape: Shape,
    pub offset: Element,
    pub basis: &'a [u64],
    pub challenges: &'a [u64],
    pub queries: &'a [u64],
    pub last: &'a [u64],
    // True of every slice of u64. Kept since a proof that is handed the struct is not told of the lists' numbers.
    pub ghost elements: { (i : ℕ) → (get_or basis.now i 0 < 2 ^ 64) × (get_or challenges.now i 0 < 2 ^ 64) },
}

impl<'a> Sent<'a> {
    pub fn new(
        shape: Shape,
        offset: Element,
        basis: &'a [u64],
        challenges: &'a [u64],
        queries: &'a [u64],
        last: &'a [u64],
    ) -> Sent<'a>
        ensures shape { (result.shape.parameters ≡ shape.parameters) × (result.offset ≡ offset) }
        ensures lists { (result.basis.now ≡ basis.now) × (result.challenges.now ≡ challenges.now)
            × (result.queries.now ≡ queries.now) × (result.last.now ≡ last.now) }
    {
        Sent {
            shape,
            offset,
            basis,
            challenges,
            queries,
            last,
        }
    }
}
