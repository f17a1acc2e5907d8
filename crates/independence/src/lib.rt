// Whether a basis is independent, by elimination.
#![tactic(auto)]

ghost use Rattle.std.specs.Prelude.{◌≡◌, map, take};
ghost use Rattle.poly.specs.Carrier.{gf64};
ghost use Rattle.poly.specs.Polynomial.{padded};
ghost use Rattle.coset.specs.Span.{first_dependent};
ghost use Rattle.coset.specs.Answers.{basis_outcome};
ghost use Rattle.coset.specs.Elimination.{cleared};

use refusal::Cause;

// Refuses a dependent basis (8) at its first dependent place.
pub fn checked_basis(basis: &[u64]) -> Result<(), Cause>
    ensures { result ≡ basis_outcome basis.now }
{
    match first_dependent(basis) {
        Some(place) => Err(Cause::BasisDependent { place }),
        None => Ok(()),
    }
}

// The first place whose element lies in the span of the earlier ones.
#[tactic(auto, using(crate::proofs::Prefix::beyond_64, crate::proofs::Prefix::within_64))]
fn first_dependent(basis: &[u64]) -> Option<usize>
    ensures { result ≡ first_dependent basis.now }
{
    match first_among_64(basis) {
        Some(place) => Some(place),
        // More than 64 elements of 64 bits are never independent.
        None if basis.len() > 64 => Some(64),
        None => None,
    }
}

// The same among the first 64 elements, by elimination.
fn first_among_64(basis: &[u64]) -> Option<usize>
    ensures { result ≡ first_dependent (take 64 basis.now) }
{
    let count = basis.len().min(64);
    let mut rows = first_64(basis);
    for place in 0..count {
        let row = rows[place];
        if row == 0 {
            return Some(place);
        }
        clear(&mut rows[place + 1..count], row);
    }
    None
}

// The first 64 elements, and zeros where there are fewer.
fn first_64(basis: &[u64]) -> [u64; 64]
    ensures { result ≡ padded gf64 64 (take 64 basis.now) }
{
    let count = basis.len().min(64);
    let mut rows = [0u64; 64];
    rows[..count].copy_from_slice(&basis[..count]);
    rows
}

// Clears the highest bit of row from each of the rows.
fn clear(rows: &mut [u64], row: u64)
    ensures { rows.new ≡ map (cleared row) rows.old }
{
    for a in rows.iter_mut() {
        *a = cleared(row, *a);
    }
}

fn cleared(row: u64, a: u64) -> u64
    ensures { result ≡ cleared row a }
{
    if (a ^ row) < a { a ^ row } else { a }
}
