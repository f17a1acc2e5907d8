// The fold of a word over a coset of at most 2^20 points, with its refusals.
#![tactic(auto)]

ghost use Rattle.std.specs.Prelude.{◌≡◌, ◌≤◌, length};
ghost use Rattle.refusal.specs.Checks.{and_then};
ghost use Rattle.coset.specs.Answers.{basis_outcome};
ghost use Rattle.coset.specs.Subspace.{next_offset, next_basis};
ghost use Rattle.fold.specs.Fold.{folded};
ghost use Rattle.fold.specs.Answers.{fold_ranges_outcome, fold_lengths_outcome};
ghost use Rattle.lone_fold.specs.Calls.{FoldCall, FoldedBy, CallFits};

use field::Element;
use points::Coset;
use refusal::{Cause, Lent};

// The fold of a word at the challenge, with the step, into `values`; the basis of the next coset into `next_basis`;
// its offset as the answer. Refused, in this order: k outside 2..20 (4); a step outside 1..3 (6); k below the step
// (7); a list whose length is not the one due, the lowest of 1, 3, 6 and 7 (13); a dependent basis (8). A refusal
// leaves both lists as they were.
pub fn fold(
    k: usize,
    step: usize,
    offset: Element,
    basis: &[u64],
    word: &[u64],
    challenge: Element,
    values: &mut [u64],
    next_basis: &mut [u64],
) -> Result<Element, Cause>
    ensures { let call : FoldCall = record {
      k = k;
      step = step;
      offset = offset.0;
      basis = basis.now;
      word = word.now;
      challenge = challenge.0;
      values = values.old;
      next = next_basis.old;
    } in
        FoldedBy call result values.new next_basis.new }
{
    checked(k, step, basis, word.len(), values.len(), next_basis.len())?;
    let coset = Coset::new(offset, basis);
    Ok(fold_checked(step, coset, word, challenge, values, next_basis))
}

// The fold after the checks: values and next basis are filled in, and the next offset is the answer.
fn fold_checked(
    step: usize,
    coset: Coset<'_>,
    word: &[u64],
    challenge: Element,
    values: &mut [u64],
    next: &mut [u64],
) -> Element
    requires { CallFits step coset.basis.now word.now values.old next.old }
    ensures answer { result.0 ≡ next_offset step coset.entry.offset.0 coset.entry.basis.now }
    ensures output { values.new ≡ folded step coset.entry.offset.0 coset.entry.basis.now word.now challenge.0 }
    ensures next { next.new ≡ next_basis step coset.entry.basis.now }
{
    let elements = next_coset::step_elements(coset.basis, step);
    word_fold::fill_values(&elements[..step], coset, word, challenge, values);
    next_coset::fill_images(&elements[..step], &coset.basis[step..], next);
    next_coset::composed_maps(&elements[..step], coset.offset)
}

fn checked(
    k: usize,
    step: usize,
    basis: &[u64],
    length3: usize,
    length6: usize,
    length7: usize,
) -> Result<(), Cause>
    ensures { let lengths = fold_lengths_outcome k step (length basis.now) length3 length6 length7 in
        result ≡ and_then (fold_ranges_outcome k step) (and_then lengths (basis_outcome basis.now)) }
{
    checked_ranges(k, step)?;
    checked_lengths(k, step, basis.len(), length3, length6, length7)?;
    independence::checked_basis(basis)
}

fn checked_ranges(k: usize, step: usize) -> Result<(), Cause>
    ensures { result ≡ fold_ranges_outcome k step }
{
    if k < 2 || k > 20 {
        return Err(Cause::DimensionOutOfRange);
    }
    if step < 1 || step > 3 {
        return Err(Cause::StepOutOfRange);
    }
    if k < step {
        return Err(Cause::DimensionTooSmall);
    }
    Ok(())
}

fn checked_lengths(
    k: usize,
    step: usize,
    length1: usize,
    length3: usize,
    length6: usize,
    length7: usize,
) -> Result<(), Cause>
    requires { (k ≤ 20) × (step ≤ k) }
    ensures { result ≡ fold_lengths_outcome k step length1 length3 length6 length7 }
{
    if length1 != k {
        return Err(Cause::WrongLength { list: Lent::Basis });
    }
    if length3 != 1 << k {
        return Err(Cause::WrongLength { list: Lent::Word });
    }
    if length6 != 1 << (k - step) {
        return Err(Cause::WrongLength { list: Lent::Values });
    }
    if length7 != k - step {
        return Err(Cause::WrongLength {
            list: Lent::NextBasis,
        });
    }
    Ok(())
}
