// The steps of the additive transform that go over a list once. Each half step undoes itself.
#![tactic(auto)]

ghost use Rattle.std.specs.Prelude.{◌≡◌, ◌/◌, ◌%◌, ℕ, length};
ghost use Rattle.poly.specs.Carrier.{gf64};
ghost use Rattle.poly.specs.Polynomial.{scale};
ghost use Rattle.transform.specs.Transform.{second_added, first_added};
ghost use Rattle.transform_steps.specs.Factor.{Multiplies};

use field::Element;
use multiplier::Multiplier;

// Each entry of the first half plus the one of the second half.
#[tactic(auto, using(gf64::proofs::Ring::product_one_l))]
pub fn add_second(slice: &mut [u64])
    requires { length slice.old % 2 ≡ 0 }
    ensures { slice.new ≡ second_added 1 (length slice.old / 2) slice.old }
{
    add_images(|x| x, slice);
}

// Each entry of the first half plus c times the one of the second half. A table of c's multiples pays from the third
// product on.
pub fn add_multiples(c: Element, slice: &mut [u64])
    requires { length slice.old % 2 ≡ 0 }
    ensures { slice.new ≡ second_added c.0 (length slice.old / 2) slice.old }
{
    if slice.len() < 6 {
        add_images(|x| c.product(Element(x)).0, slice);
    } else {
        add_by_table(c, slice);
    }
}

// A function of its own, as `scale_by_table` is, so that a short list needs no room for the table.
fn add_by_table(c: Element, slice: &mut [u64])
    requires { length slice.old % 2 ≡ 0 }
    ensures { slice.new ≡ second_added c.0 (length slice.old / 2) slice.old }
{
    let table = Multiplier::of(c);
    add_images(|x| table.times(x), slice);
}

// Each entry of the first half plus the image of the one of the second half.
fn add_images<F: Fn(u64) -> u64>(image: F, slice: &mut [u64])
    requires callable { F.IsAlwaysCallable image }
    requires halves { length slice.old % 2 ≡ 0 }
    ensures { (c : ℕ) → Multiplies c (F.post image)
        → slice.new ≡ second_added c (length slice.old / 2) slice.old }
{
    let (first, second) = slice.split_at_mut(slice.len() / 2);
    for (i, a) in first.iter_mut().enumerate() {
        *a ^= image(second[i]);
    }
}

// Each entry of the second half plus the one of the first half.
pub fn add_first(slice: &mut [u64])
    requires { length slice.old % 2 ≡ 0 }
    ensures { slice.new ≡ first_added (length slice.old / 2) slice.old }
{
    let (first, second) = slice.split_at_mut(slice.len() / 2);
    for (i, b) in second.iter_mut().enumerate() {
        *b ^= first[i];
    }
}

// Every entry times c.
pub fn scale(c: Element, part: &mut [u64])
    ensures { part.new ≡ scale gf64 c.0 part.old }
{
    if part.len() < 3 {
        map_images(|x| c.product(Element(x)).0, part);
    } else {
        scale_by_table(c, part);
    }
}

fn scale_by_table(c: Element, part: &mut [u64])
    ensures { part.new ≡ scale gf64 c.0 part.old }
{
    let table = Multiplier::of(c);
    map_images(|x| table.times(x), part);
}

// Every entry's image in its place.
fn map_images<F: Fn(u64) -> u64>(image: F, part: &mut [u64])
    requires { F.IsAlwaysCallable image }
    ensures { (c : ℕ) → Multiplies c (F.post image) → part.new ≡ scale gf64 c part.old }
{
    for x in part.iter_mut() {
        *x = image(*x);
    }
}
