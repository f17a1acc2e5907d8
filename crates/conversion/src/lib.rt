// The conversion of the additive transform: from the powers of X to the products of the z_j, and back. z_j is the
// subspace polynomial of the first j basis elements, divided by its value e_j at basis element j. Regrouping is a
// recursion on halves of the slice.
#![tactic(auto)]

ghost use Rattle.std.specs.Prelude.{◌≡◌, ◌+◌, ◌/◌, ◌%◌, ◌^◌, ◌≤◌, ◌<◌, length};
ghost use Rattle.transform.specs.Transform.{quarters, quarters_back, regrouped, regrouped_back, scaled_runs};
ghost use Rattle.transform.specs.Transform.{converted, converted_back, ratio_of};

use coset_halves::Maps;
use field::Element;

// One level after the other.
pub fn convert(levels: usize, maps: Maps<'_>, slice: &mut [u64])
    requires { (levels ≤ length maps.elements.now) × (levels ≤ length maps.inverses.now) × (levels ≤ 20)
        × (length slice.old ≡ 2 ^ levels) }
    ensures { let ratio = ratio_of maps.entry.elements.now maps.entry.inverses.now in
        slice.new ≡ converted ratio 0 levels slice.old }
{
    for j in 0..levels {
        let r = ratio(maps.elements, maps.inverses, j);
        scale_runs(j, levels - j, r, slice);
        regroup(j, levels - j, slice);
    }
}

pub fn convert_back(levels: usize, maps: Maps<'_>, slice: &mut [u64])
    requires { (levels ≤ length maps.elements.now) × (levels ≤ length maps.inverses.now) × (levels ≤ 20)
        × (length slice.old ≡ 2 ^ levels) }
    ensures { let ratio = ratio_of maps.entry.inverses.now maps.entry.elements.now in
        slice.new ≡ converted_back ratio 0 levels slice.old }
{
    for j in (0..levels).rev() {
        let r = ratio(maps.inverses, maps.elements, j);
        regroup_back(j, levels - j, slice);
        scale_runs(j, levels - j, r, slice);
    }
}

// e_j / e_(j-1)^2, or e_0; with the lists exchanged the inverse of that.
#[tactic(auto, using(transform::proofs::InPlace::ratio_first, transform::proofs::InPlace::ratio_later))]
fn ratio(elements: &[u64], inverses: &[u64], j: usize) -> Element
    requires { (j < length elements.now) × (j < length inverses.now) }
    ensures { result.0 ≡ ratio_of elements.now inverses.now j }
{
    let e = Element(elements[j]);
    if j == 0 {
        return e;
    }
    let d = Element(inverses[j - 1]);
    e.product(d.product(d))
}

// Run i of the 2^upper runs of 2^lower entries times r^i.
fn scale_runs(lower: usize, upper: usize, r: Element, slice: &mut [u64])
    requires { (upper + lower ≤ 20) × (length slice.old ≡ 2 ^ (upper + lower)) }
    ensures { slice.new ≡ scaled_runs lower r.0 slice.old }
{
    let run = usize::pow(2, lower as u32);
    let mut power = Element::ONE;
    for i in 0..slice.len() / run {
        let at = i * run;
        transform_steps::scale(power, &mut slice[at..at + run]);
        power = power.product(r);
    }
}

// Exchanges quarters in the slice of 2^upper runs of 2^lower entries, and then in its halves, as long as they have four
// runs or more.
#[tactic(auto, using(crate::proofs::Halving::halving))]
fn regroup(lower: usize, upper: usize, slice: &mut [u64])
    requires { length slice.old ≡ 2 ^ (upper + lower) }
    ensures { slice.new ≡ regrouped lower upper slice.old }
{
    if upper < 2 {
        return;
    }
    quarters(slice);
    let (first, second) = slice.split_at_mut(slice.len() / 2);
    regroup(lower, upper - 1, first);
    regroup(lower, upper - 1, second);
}

#[tactic(auto, using(crate::proofs::Halving::halving))]
fn regroup_back(lower: usize, upper: usize, slice: &mut [u64])
    requires { length slice.old ≡ 2 ^ (upper + lower) }
    ensures { slice.new ≡ regrouped_back lower upper slice.old }
{
    if upper <= 1 {
        return;
    }
    let (first, second) = slice.split_at_mut(slice.len() / 2);
    regroup_back(lower, upper - 1, first);
    regroup_back(lower, upper - 1, second);
    quarters_back(slice);
}

// Quarters a, b, c, d become a, b + c + d, c + d, d.
fn quarters(slice: &mut [u64])
    requires { length slice.old % 4 ≡ 0 }
    ensures { slice.new ≡ quarters (length slice.old / 4) slice.old }
{
    let quarter = slice.len() / 4;
    let half = quarter + quarter;
    let end = quarter + half;
    transform_steps::add_second(&mut slice[half..]);
    transform_steps::add_second(&mut slice[quarter..end]);
}

fn quarters_back(slice: &mut [u64])
    requires { length slice.old % 4 ≡ 0 }
    ensures { slice.new ≡ quarters_back (length slice.old / 4) slice.old }
{
    let quarter = slice.len() / 4;
    let half = quarter + quarter;
    let end = quarter + half;
    transform_steps::add_second(&mut slice[quarter..end]);
    transform_steps::add_second(&mut slice[half..]);
}
