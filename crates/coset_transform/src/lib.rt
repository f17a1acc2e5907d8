// Encoding and interpolation over a coset of at most 2^20 points, in the place of the list, by the additive transform:
// the coset is split in halves until one point is left. Local lists: two of twenty here, and a
// table of 64 below.
#![tactic(auto)]

ghost use Rattle.std.specs.Prelude.{◌≡◌, map, ◌^◌, ◌≤◌, length};
ghost use Rattle.gf64.specs.Field.{inverse};
ghost use Rattle.poly.specs.Carrier.{gf64};
ghost use Rattle.poly.specs.Polynomial.{DegreeBelow};
ghost use Rattle.coset.specs.Steps.{step_elements};
ghost use Rattle.reed_solomon.specs.Codes.{encoded, interpolated};

use coset_halves::Maps;
use points::Coset;
use short_list::ShortList;

// From coefficients to the values at the points, in point order. Coefficients from 2^used on are zero.
pub fn evaluate_in_place(coset: Coset<'_>, used: usize, slice: &mut [u64])
    requires { (used ≤ length coset.basis.now) × (length slice.old ≡ 2 ^ length coset.basis.now)
        × DegreeBelow gf64 (2 ^ used) slice.old }
    ensures { slice.new ≡ encoded coset.entry.offset.0 coset.entry.basis.now slice.old }
{
    let elements = step_elements(coset);
    let inverses = inverses_of(coset, &elements);
    let maps = Maps {
        elements: elements.as_slice(),
        inverses: inverses.as_slice(),
    };
    let size = usize::pow(2, used as u32);
    conversion::convert(used, maps, &mut slice[..size]);
    let k = coset.basis.len();
    coset_halves::split(used, k, coset.offset, coset.basis, &maps, slice);
}

// From the values at the points to the coefficients.
pub fn interpolate_in_place(coset: Coset<'_>, slice: &mut [u64])
    requires { length slice.old ≡ 2 ^ length coset.basis.now }
    ensures { slice.new ≡ interpolated coset.entry.offset.0 coset.entry.basis.now slice.old }
{
    let elements = step_elements(coset);
    let inverses = inverses_of(coset, &elements);
    let maps = Maps {
        elements: elements.as_slice(),
        inverses: inverses.as_slice(),
    };
    let k = coset.basis.len();
    coset_halves::join(k, coset.offset, coset.basis, &maps, slice);
    conversion::convert_back(k, maps, slice);
}

// The elements e_j of the maps X · (X - e) whose compositions are the subspace polynomials.
fn step_elements(coset: Coset<'_>) -> ShortList<20>
    ensures { let basis = coset.entry.basis.now in result ≡ step_elements (length basis) basis }
{
    let mut elements = [0u64; 20];
    next_coset::fill_elements(coset.basis, &mut elements);
    ShortList::front(elements, coset.basis.len())
}

// Their inverses. None of them is zero, since the basis is independent (`Subspaces.elements`).
fn inverses_of(coset: Coset<'_>, elements: &ShortList<20>) -> ShortList<20>
    requires { elements.now ≡ step_elements (length coset.basis.now) coset.basis.now }
    ensures { result ≡ map inverse elements.now }
{
    let elements = elements.as_slice();
    let mut inverses = [0u64; 20];
    list_inverse::inverses_of_nonzero(elements, &mut inverses);
    ShortList::front(inverses, coset.basis.len())
}
