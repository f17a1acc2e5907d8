// Encoding and interpolation over a coset of at most 2^20 points, given by its offset and its basis.
#![tactic(auto)]

ghost use Rattle.std.specs.Prelude.{◌≡◌, cond, ℕ, ◌^◌, ◌≤◌, ◌<◌, leb, length};
ghost use Rattle.poly.specs.Carrier.{gf64};
ghost use Rattle.poly.specs.Polynomial.{padded};
ghost use Rattle.reed_solomon.specs.Answers.{checked, encode_outcome, interpolate_outcome, values_after};
ghost use Rattle.reed_solomon.specs.Answers.{coefficients_after};

use field::Element;
use points::Coset;
use refusal::{Cause, Lent};

// The polynomial's values at all 2^k points, in point order; k is the length of the basis, and coefficients that are
// left off are zero. Refused, in this order: k over 20 (4); over 2^k coefficients or other than 2^k values (13, list
// 3 or 6); a dependent basis (8). A refusal leaves the values as they were.
#[tactic(auto, using(crate::proofs::Used::used))]
pub fn encode(
    offset: Element,
    basis: &[u64],
    coefficients: &[u64],
    values: &mut [u64],
) -> Result<(), Cause>
    ensures answer { result ≡ encode_outcome basis.now coefficients.now values.old }
    ensures output { values.new
        ≡ values_after offset.0 basis.now coefficients.now values.old }
{
    let size = size_of(basis.len());
    checked(basis, coefficients.len() <= size, values.len() == size)?;
    fill(coefficients, values);
    let used = dimension_of(coefficients.len());
    coset_transform::evaluate_in_place(Coset::new(offset, basis), used, values);
    Ok(())
}

// The 2^k coefficients of the one polynomial of degree below 2^k that has the word's values at the points, in point
// order. Refused as encoding is, where list 3 is the word and list 6 the coefficients, each of length 2^k. A refusal
// leaves the coefficients as they were.
#[tactic(auto, using(poly::proofs::Filling::front_whole))]
pub fn interpolate(
    offset: Element,
    basis: &[u64],
    word: &[u64],
    coefficients: &mut [u64],
) -> Result<(), Cause>
    ensures answer { result ≡ interpolate_outcome basis.now word.now coefficients.old }
    ensures output { coefficients.new
        ≡ coefficients_after offset.0 basis.now word.now coefficients.old }
{
    let size = size_of(basis.len());
    checked(basis, word.len() == size, coefficients.len() == size)?;
    poly::copy(word, coefficients);
    coset_transform::interpolate_in_place(Coset::new(offset, basis), coefficients);
    Ok(())
}

// 2^k, or 0 for a dimension that is refused.
fn size_of(k: usize) -> usize
    ensures { result ≡ cond (leb k 20) (2 ^ k) 0 }
{
    if k <= 20 { usize::pow(2, k as u32) } else { 0 }
}

fn checked(basis: &[u64], fits3: bool, fits6: bool) -> Result<(), Cause>
    ensures { result ≡ checked basis.now fits3 fits6 }
{
    if basis.len() > 20 {
        return Err(Cause::DimensionOutOfRange);
    }
    if !fits3 {
        return Err(Cause::WrongLength { list: Lent::Word });
    }
    if !fits6 {
        return Err(Cause::WrongLength { list: Lent::Values });
    }
    independence::checked_basis(basis)
}

// The list, and zeros behind it.
fn fill(from: &[u64], to: &mut [u64])
    requires { length from.now ≤ length to.old }
    ensures { to.new ≡ padded gf64 (length to.old) from.now }
{
    let (front, rest) = to.split_at_mut(from.len());
    poly::copy(from, front);
    rest.fill(0);
}

// The least m with count ≤ 2^m.
fn dimension_of(count: usize) -> usize
    requires { count ≤ 2 ^ 20 }
    ensures { (count ≤ 2 ^ result) × ((m : ℕ) → m < result → 2 ^ m < count) }
{
    count.next_power_of_two().ilog2() as usize
}
