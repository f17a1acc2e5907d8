// The checks that prover, judge and writer have in common, in the order of the papers.
#![tactic(auto)]

ghost use Rattle.std.specs.Prelude.{◌≡◌, IfOk};
ghost use Rattle.refusal.specs.Outcome.{outcome_of};
ghost use Rattle.refusal.specs.Checks.{and_then};
ghost use Rattle.fri.specs.Checks.{parameters_outcome, lengths_outcome, run_outcome};
ghost use Rattle.layout.specs.Parameters.{run_claimed};

use layout::{Claim, Shape};
use refusal::{Cause, Lent};

// The checks that prover and judge have in common, in the order of the papers: 4, 5, 6, 7, 13, 8. Any offset passes.
pub fn checked(claim: &Claim, store: &[u64], last: &[u64]) -> Result<Shape, Cause>
    ensures outcome { outcome_of result ≡ run_outcome (run_claimed claim.now store.now last.now) }
    ensures shape { IfOk result (λ shape. shape.parameters ≡ claim.now.parameters) }
{
    let shape = checked_lists(claim, store, last)?;
    independence::checked_basis(claim.basis)?;
    Ok(shape)
}

// Refuses parameters out of range (4 to 7), then the lowest list whose length is not the one due (13).
pub fn checked_lists(claim: &Claim, store: &[u64], last: &[u64]) -> Result<Shape, Cause>
    ensures outcome { let run = run_claimed claim.now store.now last.now in
        outcome_of result
        ≡ and_then (parameters_outcome run.k run.rate run.step) (lengths_outcome run) }
    ensures shape { IfOk result (λ shape. shape.parameters ≡ claim.now.parameters) }
{
    let shape = claim.parameters.checked()?;
    let due = shape.lengths();
    if claim.basis.len() != claim.parameters.k {
        return Err(Cause::WrongLength { list: Lent::Basis });
    }
    if claim.challenges.len() != due.rounds {
        return Err(Cause::WrongLength {
            list: Lent::Challenges,
        });
    }
    if claim.word.len() != 1 << claim.parameters.k {
        return Err(Cause::WrongLength { list: Lent::Word });
    }
    if store.len() != due.store {
        return Err(Cause::WrongLength { list: Lent::Store });
    }
    if last.len() != due.last {
        return Err(Cause::WrongLength { list: Lent::Last });
    }
    Ok(shape)
}
