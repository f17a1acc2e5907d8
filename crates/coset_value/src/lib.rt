// A coset of the fold, and the value of its interpolant at a challenge. It is found by halving the coset: points 2 i
// and 2 i + 1 become one point, and their entries the value of the line through the two. The points are moved by the
// challenge before that, each is its sum with it: the maps X · (X - e) that halve the points are additive, so the
// halved points are moved as well, by the image of the challenge, and no halving needs the challenge itself.
#![tactic(auto)]

ghost use Rattle.std.specs.Prelude.{◌≡◌, ◌≢◌, ◌++◌, map, suc, ◌*◌, ◌/◌, ◌^◌, ◌≤◌, length, get_or};
ghost use Rattle.std.specs.Prelude.{take, drop};
ghost use Rattle.gf64.specs.Field.{sum, inverse};
ghost use Rattle.poly.specs.Carrier.{gf64};
ghost use Rattle.poly.specs.Polynomial.{All, padded};
ghost use Rattle.coset.specs.Coset.{points};
ghost use Rattle.fold.specs.Halving.{line_at, halved_points, halved_entries, value_at};
ghost use Rattle.coset_value.specs.Cosets.{elements, numbers, coset_of, coset_read};

use field::Element;

// Two, four or eight points, or one in the end, with the entries there. No value depends on what is behind the count.
#[derive(Clone, Copy)]
pub struct Coset {
    pub points: [Element; 8],
    pub entries: [Element; 8],
    pub count: usize,
}

impl Coset {
    // Point i is the first point plus entry i of the span; part is the coset's part of the word.
    pub fn read(span: &[u64], first: Element, part: &[u64]) -> Coset
        requires { (length span.now ≤ 8) × (length part.now ≡ length span.now) }
        ensures { result ≡ coset_read span.now first.0 part.now }
    {
        let mut points = [Element::ZERO; 8];
        let mut entries = [Element::ZERO; 8];
        for i in 0..span.len() {
            points[i] = first.sum(Element(span[i]));
            entries[i] = Element(part[i]);
        }
        Coset {
            points,
            entries,
            count: span.len(),
        }
    }

    // The value at the challenge of the polynomial with these entries, where the points are those of a coset of the
    // fold and the inverses those of the elements e of the step's maps X · (X - e) (`Halvings.entry`).
    pub fn value_at(self, challenge: Element, inverses: &[u64]) -> Element
        requires { (1 ≤ length inverses.now) × (length inverses.now ≤ 3)
            × (self.count ≡ 2 ^ length inverses.now) }
        ensures { result.0 ≡ value_at inverses.now (map (sum challenge.0) (numbers self.points))
            (numbers self.entries) }
    {
        let last = inverses.len() - 1;
        let mut coset = self.moved(challenge);
        for t in 0..last {
            coset = coset.halved(Element(inverses[t]));
        }
        coset.line(0, Element(inverses[last]))
    }

    // Each point becomes its sum with the challenge; what is behind the count stays.
    fn moved(self, challenge: Element) -> Coset
        requires { self.count ≤ 8 }
        ensures points { let points = numbers self.points in
            let moved = map (sum challenge.0) points in
            numbers result.points ≡ take self.count moved ++ drop self.count points }
        ensures others { (result.entries ≡ self.entries) × (result.count ≡ self.count) }
    {
        let mut points = self.points;
        for i in 0..self.count {
            points[i] = challenge.sum(points[i]);
        }
        Coset { points, ..self }
    }

    // One entry for each two neighbours, at their images under X · (X - e), where e is the difference of the two.
    fn halved(self, inverse: Element) -> Coset
        requires { self.count ≤ 8 }
        ensures { let half = self.count / 2 in
            let points = numbers self.points in
            let entries = numbers self.entries in
            result ≡ coset_of (halved_points half points) (halved_entries inverse.0 half points entries) half }
    {
        let half = self.count / 2;
        let mut points = [Element::ZERO; 8];
        let mut entries = [Element::ZERO; 8];
        for i in 0..half {
            points[i] = self.points[i * 2].product(self.points[i * 2 + 1]);
            entries[i] = self.line(i, inverse);
        }
        Coset {
            points,
            entries,
            count: half,
        }
    }

    // The value at the challenge, or its image, of the line through points 2 i and 2 i + 1, where inverse is that of
    // their difference.
    fn line(self, i: usize, inverse: Element) -> Element
        requires { i ≤ 3 }
        ensures { let point = get_or (numbers self.points) (i * 2) 0 in
            let u = get_or (numbers self.entries) (i * 2) 0 in
            let v = get_or (numbers self.entries) (suc (i * 2)) 0 in
            result.0 ≡ line_at inverse.0 point u v }
    {
        let u = self.entries[i * 2];
        let v = self.entries[i * 2 + 1];
        let slope = u.sum(v).product(inverse);
        u.sum(self.points[i * 2].product(slope))
    }
}

// What a coset of 2, 4 or 8 points is halved by: the inverses of the elements e of the step's maps X · (X - e), one for
// each halving (`Halvings.entry`), and the span, by whose entries its points differ from the first.
#[derive(Clone, Copy)]
pub struct FoldStep<'a> {
    pub inverses: &'a [u64],
    pub span: &'a [u64],
    pub ghost some: { 1 ≤ length inverses.now },
    pub ghost few: { length inverses.now ≤ 3 },
    pub ghost span_fits: { length span.now ≡ 2 ^ length inverses.now },
}

impl<'a> FoldStep<'a> {
    // The value at the challenge of the polynomial with these entries, where the coset's first point is given.
    pub fn value_at(self, first: Element, challenge: Element, part: &[u64]) -> Element
        requires { length part.now ≡ length self.span.now }
        ensures { let h = self.entry in
            let moved = sum challenge.0 first.0 in
            result.0 ≡ value_at h.inverses.now (map (sum moved) h.span.now) part.now }
    {
        Coset::read(self.span, first, part).value_at(challenge, self.inverses)
    }
}

// The inverses of at most three elements, and zeros. None of a step's elements is zero (`Subspaces.elements`).
pub fn inverses_of(elements: &[u64]) -> [u64; 3]
    requires { (length elements.now ≤ 3) × All (λ e. e ≢ 0) elements.now }
    ensures { result ≡ padded gf64 3 (map inverse elements.now) }
{
    let mut inverses = [0u64; 3];
    list_inverse::inverses_of_nonzero(elements, &mut inverses);
    inverses
}

// The span of at most three elements in point order, and zeros.
pub fn span_of(basis: &[u64]) -> [u64; 8]
    requires { length basis.now ≤ 3 }
    ensures { result ≡ padded gf64 8 (points 0 basis.now) }
{
    let size = 1 << basis.len();
    let mut span = [0u64; 8];
    for i in 0..size {
        span[i] = points::point(Element::ZERO, basis, i).0;
    }
    span
}
