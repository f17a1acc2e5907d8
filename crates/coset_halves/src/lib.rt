// The halves of the additive transform: from the products of the z_j to values at the points of a coset, and back, by
// recursion on halves of the slice, the dimension falling. z_j is the subspace polynomial of the first j basis
// elements, divided by its value e_j at basis element j.
#![tactic(auto)]

ghost use Rattle.std.specs.Prelude.{◌≡◌, ◌+◌, ◌^◌, ◌≤◌, ◌<◌, length};
ghost use Rattle.poly.specs.Carrier.{gf64};
ghost use Rattle.poly.specs.Polynomial.{DegreeBelow};
ghost use Rattle.transform.specs.Transform.{first_added, second_added, normalised_at};
ghost use Rattle.transform.specs.Transform.{split_in_halves, joined_from_halves};

use field::Element;

// What the z_j are made of: the elements e_j, and their inverses. The recursion is handed a reference, so that no
// level of it holds a copy.
#[derive(Clone, Copy)]
pub struct Maps<'a> {
    pub elements: &'a [u64],
    pub inverses: &'a [u64],
}

impl<'a> Maps<'a> {
    // z_n at x.
    #[tactic(auto, unfolding(transform::specs::Transform::normalised_at))]
    fn value(&self, n: usize, x: Element) -> Element
        requires { (n < length self.now.elements.now) × (n < length self.now.inverses.now) }
        ensures { result.0 ≡ normalised_at self.now.elements.now self.now.inverses.now n x.0 }
    {
        next_coset::composed_maps(&self.elements[..n], x).product(Element(self.inverses[n]))
    }
}

// From the products of the z_j to values. Entries from 2^used on are zero: above that dimension nothing is multiplied.
#[tactic(auto, using(crate::proofs::Halving::halving))]
pub fn split(
    used: usize,
    n: usize,
    offset: Element,
    basis: &[u64],
    maps: &Maps<'_>,
    slice: &mut [u64],
)
    requires { (n ≤ length basis.now) × (n ≤ length maps.now.elements.now)
        × (n ≤ length maps.now.inverses.now) × (length slice.old ≡ 2 ^ n)
        × DegreeBelow gf64 (2 ^ used) slice.old }
    ensures { let z = normalised_at maps.now.elements.now maps.now.inverses.now in
        slice.new ≡ split_in_halves z basis.now n offset.0 slice.old }
{
    if n == 0 {
        return;
    }
    let last = n - 1;
    step(used, last, offset, maps, slice);
    let (first, second) = slice.split_at_mut(slice.len() / 2);
    split(used, last, offset, basis, maps, first);
    let behind = offset.sum(Element(basis[last]));
    split(used, last, behind, basis, maps, second);
}

// Halves a, b become a + c b, a + c b + b, where c is z_n at the offset. Above the dimension in use b is zero.
#[tactic(auto, using(transform::proofs::Recursion::second_none))]
fn step(used: usize, n: usize, offset: Element, maps: &Maps<'_>, slice: &mut [u64])
    requires { (n < length maps.now.elements.now) × (n < length maps.now.inverses.now)
        × (length slice.old ≡ 2 ^ n + 2 ^ n)
        × DegreeBelow gf64 (2 ^ used) slice.old }
    ensures { let c = normalised_at maps.now.elements.now maps.now.inverses.now n offset.0 in
        slice.new ≡ first_added (2 ^ n) (second_added c (2 ^ n) slice.old) }
{
    if n < used {
        transform_steps::add_multiples(maps.value(n, offset), slice);
    }
    transform_steps::add_first(slice);
}

// From values to the products of the z_j.
#[tactic(auto, using(crate::proofs::Halving::halving))]
pub fn join(n: usize, offset: Element, basis: &[u64], maps: &Maps<'_>, slice: &mut [u64])
    requires { (n ≤ length basis.now) × (n ≤ length maps.now.elements.now)
        × (n ≤ length maps.now.inverses.now) × (length slice.old ≡ 2 ^ n) }
    ensures { let z = normalised_at maps.now.elements.now maps.now.inverses.now in
        slice.new ≡ joined_from_halves z basis.now n offset.0 slice.old }
{
    if n == 0 {
        return;
    }
    let last = n - 1;
    let (first, second) = slice.split_at_mut(slice.len() / 2);
    join(last, offset, basis, maps, first);
    join(last, offset.sum(Element(basis[last])), basis, maps, second);
    step_back(last, offset, maps, slice);
}

fn step_back(n: usize, offset: Element, maps: &Maps<'_>, slice: &mut [u64])
    requires { (n < length maps.now.elements.now) × (n < length maps.now.inverses.now)
        × (length slice.old ≡ 2 ^ n + 2 ^ n) }
    ensures { let c = normalised_at maps.now.elements.now maps.now.inverses.now n offset.0 in
        slice.new ≡ second_added c (2 ^ n) (first_added (2 ^ n) slice.old) }
{
    transform_steps::add_first(slice);
    transform_steps::add_multiples(maps.value(n, offset), slice);
}
