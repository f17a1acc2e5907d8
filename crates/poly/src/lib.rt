// Polynomials over the field of 2^64 elements, as lists of coefficients, constant first.
#![tactic(auto)]

ghost use Rattle.std.specs.Prelude.{◌≡◌, ◌++◌, ◌≤◌, length, drop};
ghost use Rattle.poly.specs.Carrier.{gf64};
ghost use Rattle.poly.specs.Polynomial.{evaluate};
ghost use Rattle.poly.specs.Degree.{degree_bound};

use field::Element;

// The value of the polynomial at x, by Horner.
pub fn evaluate(coefficients: &[u64], x: Element) -> Element
    ensures { result.0 ≡ evaluate gf64 coefficients.now x.0 }
{
    coefficients.iter().rev().fold(Element::ZERO, |value, c| Element(*c).sum(x.product(value)))
}

// The degree plus 1, or 0 for the zero polynomial.
pub fn degree_bound(coefficients: &[u64]) -> usize
    ensures { result ≡ degree_bound coefficients.now }
{
    match coefficients.iter().rposition(|c| *c != 0) {
        Some(last) => last + 1,
        None => 0,
    }
}

// Copies a list into the front of another one. Entry by entry, of which the back end makes memcpy: of std's
// `copy_from_slice` it makes memmove, which the library for C would then need besides.
pub fn copy(from: &[u64], to: &mut [u64])
    requires { length from.now ≤ length to.old }
    ensures { to.new ≡ from.now ++ drop (length from.now) to.old }
{
    for (i, entry) in from.iter().enumerate() {
        to[i] = *entry;
    }
}
