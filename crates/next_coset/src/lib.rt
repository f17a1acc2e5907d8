// The next coset: the subspace polynomial as a composition of maps, and the images under it.
#![tactic(auto)]

ghost use Rattle.std.specs.Prelude.{◌≡◌, map, ◌++◌, ◌≤◌, length, drop};
ghost use Rattle.poly.specs.Carrier.{gf64};
ghost use Rattle.poly.specs.Polynomial.{padded};
ghost use Rattle.coset.specs.Subspace.{next_basis};
ghost use Rattle.coset.specs.Steps.{composed_maps, step_elements};

use field::Element;
use short_list::ShortList;

// X · (X - e) for each of the elements, one after the other.
pub fn composed_maps(elements: &[u64], x: Element) -> Element
    ensures { result.0 ≡ composed_maps elements.now x.0 }
{
    let mut y = x;
    for e in elements {
        y = y.product(y.sum(Element(*e)));
    }
    y
}

// The elements e of the maps X · (X - e) whose composition is the subspace polynomial of the whole basis, into the
// front of a list.
pub fn fill_elements(basis: &[u64], elements: &mut [u64])
    requires { length basis.now ≤ length elements.old }
    ensures { let k = length basis.now in
        elements.new ≡ step_elements k basis.now ++ drop k elements.old }
{
    for (t, b) in basis.iter().enumerate() {
        elements[t] = composed_maps(&elements[..t], Element(*b)).0;
    }
}

// Those of a step, and zeros.
pub fn step_elements(basis: &[u64], step: usize) -> [u64; 3]
    requires { (step ≤ 3) × (step ≤ length basis.now) }
    ensures { result ≡ padded gf64 3 (step_elements step basis.now) }
{
    let mut elements = [0u64; 3];
    fill_elements(&basis[..step], &mut elements);
    elements
}

// The image of each number under the maps, into the front of a list.
pub fn fill_images(elements: &[u64], xs: &[u64], images: &mut [u64])
    requires { length xs.now ≤ length images.old }
    ensures { let front = map (composed_maps elements.now) xs.now in
        images.new ≡ front ++ drop (length xs.now) images.old }
{
    for (i, x) in xs.iter().enumerate() {
        images[i] = composed_maps(elements, Element(*x)).0;
    }
}

// The basis of the next coset.
#[tactic(auto, using(short_list::proofs::Zeros::behind))]
pub fn next_basis(basis: &[u64], step: usize) -> ShortList<20>
    requires { (step ≤ 3) × (step ≤ length basis.now) × (length basis.now ≤ 20) }
    ensures { result ≡ next_basis step basis.now }
{
    let elements = step_elements(basis, step);
    let mut next = [0u64; 20];
    fill_images(&elements[..step], &basis[step..], &mut next);
    ShortList::in_zeros(next, basis.len() - step)
}
