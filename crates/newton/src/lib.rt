// Interpolation over a coset of at most 2^20 points, in the place of the values: Newton's form, then its expansion.
#![tactic(auto)]

ghost use Rattle.std.specs.Prelude.{◌≡◌, ◌≢◌, ◌^◌, ◌≤◌, length, take};
ghost use Rattle.poly.specs.Carrier.{gf64};
ghost use Rattle.poly.specs.Polynomial.{All};
ghost use Rattle.poly.specs.Newton.{newton_coefficient, newton_coefficients, horner_step, expanded};
ghost use Rattle.coset.specs.Coset.{points};
ghost use Rattle.reed_solomon.specs.Codes.{interpolated};

use field::Element;
use points::Coset;

// Interpolation after the checks: the values at the points become the coefficients.
pub fn interpolate_in_place(coset: Coset<'_>, values: &mut [u64])
    requires { length values.old ≡ 2 ^ length coset.basis.now }
    ensures { values.new ≡ interpolated coset.entry.offset.0 coset.entry.basis.now values.old }
{
    fill_newton(coset, values);
    expand(coset.offset, coset.basis, values);
}

// Newton's coefficients in the place of the values, each from those before it.
fn fill_newton(coset: Coset<'_>, coefficients: &mut [u64])
    requires { length coefficients.old ≡ 2 ^ length coset.basis.now }
    ensures { let all = points coset.entry.offset.0 coset.entry.basis.now in
        coefficients.new ≡ newton_coefficients gf64 all coefficients.old }
{
    for i in 0..coefficients.len() {
        let z = coset.point(i);
        let y = Element(coefficients[i]);
        coefficients[i] = newton_coefficient(coset.offset, coset.basis, &coefficients[..i], z, y).0;
    }
}

// The coefficient that gives Newton's form, of which the known ones come first, the value y at z, which is none of the
// points passed: so what is divided by is not zero (`Interpolation.divisor`).
fn newton_coefficient(
    offset: Element,
    basis: &[u64],
    known: &[u64],
    z: Element,
    y: Element,
) -> Element
    requires { (length basis.now ≤ 20) × (length known.now ≤ 2 ^ length basis.now)
        × All (λ x. z.0 ≢ x) (take (length known.now) (points offset.0 basis.now)) }
    ensures { let passed = take (length known.now) (points offset.0 basis.now) in
        result.0 ≡ newton_coefficient gf64 passed known.now z.0 y.0 }
{
    let sums = points::prefix_sums(basis);
    let mut value = Element::ZERO;
    let mut vanishing = Element::ONE;
    let mut x = offset;
    for (j, c) in known.iter().enumerate() {
        value = value.sum(vanishing.product(Element(*c)));
        vanishing = vanishing.product(z.sum(x));
        x = points::stepped(&sums, x, j + 1);
    }
    y.sum(value).product(vanishing.inverse_of_nonzero())
}

// From Newton's form to the polynomial, from the last point to the first.
fn expand(offset: Element, basis: &[u64], coefficients: &mut [u64])
    requires { length coefficients.old ≡ 2 ^ length basis.now }
    ensures { let all = points offset.0 basis.now in
        coefficients.new ≡ expanded gf64 all coefficients.old }
{
    for i in (0..coefficients.len()).rev() {
        join(&mut coefficients[i..], points::point(offset, basis, i));
    }
}

// The coefficients c, p become those of c + (X - x) · p.
fn join(coefficients: &mut [u64], x: Element)
    ensures { coefficients.new ≡ horner_step gf64 x.0 coefficients.old }
{
    for j in 1..coefficients.len() {
        coefficients[j - 1] = Element(coefficients[j - 1])
            .sum(x.product(Element(coefficients[j])))
            .0;
    }
}
