// The inverses of a list of elements, in its place: by blocks of 64, with one inverse for each block and three products
// for each element.
#![tactic(auto)]

ghost use Rattle.std.specs.Prelude.{◌≡◌, ◌≢◌, ◌++◌, map, ◌≤◌, length, drop};
ghost use Rattle.gf64.specs.Field.{inverse};
ghost use Rattle.poly.specs.Polynomial.{All};
ghost use Rattle.list_inverse.specs.Products.{nonzero_product, ProductsBefore};

use field::{Element, reduction};

// Each element of the list becomes its inverse; zeros stay zero.
pub fn invert(list: &mut [u64])
    ensures { list.new ≡ map inverse list.old }
{
    for at in (0..list.len()).step_by(64) {
        let end = list.len().min(at + 64);
        invert_block(&mut list[at..end]);
    }
}

// The inverses of the elements, into the front of another list, for a caller that divides: it shows that none of them
// is zero.
pub fn inverses_of_nonzero(elements: &[u64], inverses: &mut [u64])
    requires { (length elements.now ≤ length inverses.old) × All (λ x. x ≢ 0) elements.now }
    ensures { inverses.new
        ≡ map inverse elements.now ++ drop (length elements.now) inverses.old }
{
    let inverses = &mut inverses[..elements.len()];
    inverses.copy_from_slice(elements);
    invert(inverses);
}

// Each element of a block becomes its inverse. An element by itself needs no products beside its inverse.
fn invert_block(block: &mut [u64])
    requires { length block.old ≤ 64 }
    ensures { block.new ≡ map inverse block.old }
{
    if block.len() == 1 {
        block[0] = Element(block[0]).inverse().0;
        return;
    }
    let mut before = [0u64; 64];
    let all = products_before(block, &mut before);
    let rest = Element(all).inverse_of_nonzero();
    divide_back(rest.0, &before, block);
}

// Entry i of `before` becomes the product of the block's elements before place i, zeros passed over; the answer is that
// of all its elements.
fn products_before(block: &[u64], before: &mut [u64]) -> u64
    requires { length block.now ≤ length before.old }
    ensures all { result ≡ nonzero_product block.now (length block.now) }
    ensures each { ProductsBefore block.now before.new }
{
    let mut product: u64 = 1;
    for (i, factor) in block.iter().enumerate() {
        before[i] = product;
        if *factor != 0 {
            product = reduction::product(product, *factor);
        }
    }
    product
}

// From the last element to the first, where `rest` is the inverse of the product up to the element: without that of
// the elements before it, it is the inverse of this one.
fn divide_back(mut rest: u64, before: &[u64], block: &mut [u64])
    requires { (length block.old ≤ length before.now) × ProductsBefore block.old before.now
        × (rest ≡ inverse (nonzero_product block.old (length block.old))) }
    ensures { block.new ≡ map inverse block.old }
{
    for i in (0..block.len()).rev() {
        let x = block[i];
        if x != 0 {
            block[i] = reduction::product(rest, before[i]);
            rest = reduction::product(rest, x);
        }
    }
}
