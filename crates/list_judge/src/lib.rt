// The judge over lists: all checks in order, then the round checks query by query, and the verdict with the entries
// read.
#![tactic(auto)]

ghost use Rattle.std.specs.Prelude.{◌≡◌, IfOk};
ghost use Rattle.refusal.specs.Outcome.{outcome_of};
ghost use Rattle.fri.specs.Judge.{checks_outcome, verdict_of};
ghost use Rattle.layout.specs.Parameters.{run_claimed};

mod lists;

use fri::Verdict;
use layout::{Claim, Shape};
use lists::Lists;
use refusal::Cause;
use round_checks::Judging;
use round_checks::sent::Sent;

// The verdict on a run, with the entries read. Refused, in this order: parameters (4, 5, 6, 7), the lowest list whose
// length is not the one due (13), a dependent basis (8), the number of queries (9), a query out of range (10), one that
// shares a first-layer coset with an earlier one (17), and the first round check that fails (11).
pub fn judge(claim: &Claim, queries: &[u64], store: &[u64], last: &[u64]) -> Verdict
    ensures { result ≡ verdict_of (run_claimed claim.now store.now last.now) queries.now }
{
    match checked(claim, queries, store, last) {
        Ok(shape) => judge_checked(shape, claim, queries, store, last),
        Err(cause) => Verdict {
            answer: Err(cause),
            reads: 0,
        },
    }
}

// All checks before the round checks.
fn checked(claim: &Claim, queries: &[u64], store: &[u64], last: &[u64]) -> Result<Shape, Cause>
    ensures outcome { outcome_of result ≡ checks_outcome (run_claimed claim.now store.now last.now) queries.now }
    ensures shape { IfOk result (λ shape. shape.parameters ≡ claim.now.parameters) }
{
    let shape = run_checks::checked(claim, store, last)?;
    query_checks::checked_queries(claim.parameters.k, claim.parameters.step, queries)?;
    Ok(shape)
}

// The round checks, where the others pass.
fn judge_checked(
    shape: Shape,
    claim: &Claim,
    queries: &[u64],
    store: &[u64],
    last: &[u64],
) -> Verdict
    requires shape { shape.parameters ≡ claim.now.parameters }
    requires checks { checks_outcome (run_claimed claim.now store.now last.now) queries.now ≡ Ok tt }
    ensures { result ≡ verdict_of (run_claimed claim.now store.now last.now) queries.now }
{
    let sent = Sent::new(
        shape,
        claim.offset,
        claim.basis,
        claim.challenges,
        queries,
        last,
    );
    let layers = Lists::new(shape, claim.word, store);
    Judging::new(sent, layers).verdict()
}
