// A coset, and its points by index and in sequence.
#![tactic(auto)]

ghost use Rattle.std.specs.Prelude.{◌≡◌, ℕ, ◌^◌, ◌≤◌, ◌<◌, length, get_or, take};
ghost use Rattle.std.specs.Int.Count.{count_trailing_zeros};
ghost use Rattle.gf64.specs.Field.{sum};
ghost use Rattle.poly.specs.Carrier.{gf64};
ghost use Rattle.poly.specs.Polynomial.{padded};
ghost use Rattle.coset.specs.Coset.{point};
ghost use Rattle.coset.specs.Sequence.{prefix_sums};
ghost use Rattle.coset.specs.Span.{Independent};

use field::Element;

// A coset of at most 2^20 points, by its offset and its independent basis.
#[derive(Clone, Copy)]
pub struct Coset<'a> {
    pub offset: Element,
    pub basis: &'a [u64],
    pub ghost few: { length basis.now ≤ 20 },
    pub ghost independent: { Independent basis.now },
    // True of every slice of u64. Kept since a proof that is handed the struct is not told of the list's numbers.
    pub ghost elements: { (i : ℕ) → get_or basis.now i 0 < 2 ^ 64 },
}

impl<'a> Coset<'a> {
    pub fn new(offset: Element, basis: &'a [u64]) -> Coset<'a>
        requires { (length basis.now ≤ 20) × Independent basis.now }
        ensures { (result.offset ≡ offset) × (result.basis.now ≡ basis.now) }
    {
        Coset { offset, basis }
    }

    // Point j, j below the number of points.
    pub fn point(self, j: usize) -> Element
        ensures { result.0 ≡ point self.entry.offset.0 self.entry.basis.now j }
    {
        point(self.offset, self.basis, j)
    }
}

// Point j of the coset with this offset and this basis, whatever the basis.
pub fn point(offset: Element, basis: &[u64], j: usize) -> Element
    ensures { result.0 ≡ point offset.0 basis.now j }
{
    let mut point = offset;
    let mut bits = j;
    for b in basis {
        if bits % 2 == 1 {
            point = point.sum(Element(*b));
        }
        bits /= 2;
    }
    point
}

// The sums of the first one, two, .. elements of a basis of at most 20, and zeros: `stepped` goes from point to point
// by them.
pub fn prefix_sums(basis: &[u64]) -> [u64; 20]
    ensures { result ≡ padded gf64 20 (prefix_sums 0 (take 20 basis.now)) }
{
    let count = basis.len().min(20);
    let mut sums = [0u64; 20];
    let mut total = 0;
    for (t, b) in basis[..count].iter().enumerate() {
        total ^= *b;
        sums[t] = total;
    }
    sums
}

// From point j of a coset to point j + 1, where next is j + 1 and a point's index, and sums are the basis's prefix
// sums.
pub fn stepped(sums: &[u64], point: Element, next: usize) -> Element
    ensures { result.0 ≡ sum point.0 (get_or sums.now (count_trailing_zeros 64 next) 0) }
{
    match sums.get(usize::trailing_zeros(next) as usize) {
        Some(sum) => point.sum(Element(*sum)),
        None => point,
    }
}
