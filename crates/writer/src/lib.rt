// The writer: it puts the transcript of a run and its queries into a lent list of bytes of exactly the needed length,
// which is told beforehand.
#![tactic(auto)]

ghost use Rattle.std.specs.Prelude.{◌≡◌, ◌^◌, ◌<◌, IfOk};
ghost use Rattle.refusal.specs.Outcome.{outcome_of};
ghost use Rattle.layout.specs.Parameters.{steps_by, run_claimed};
ghost use Rattle.written.specs.Transcript.{transcript_length};
ghost use Rattle.written.specs.Writer.{write_outcome};
ghost use Rattle.writer.specs.Lengths.{transcript_length_of};
ghost use Rattle.writer.specs.Written.{Written};

use layout::{Claim, Parameters, Shape};
use refusal::{Cause, Lent};

// No list of 64-bit numbers has as many entries.
const LIST_LIMIT: usize = 1 << 60;

// How many bytes the transcript of a run with these parameters and so many queries has; 0 for parameters out of range,
// and for more queries than a list can hold.
pub fn transcript_length(parameters: Parameters, queries: usize) -> u64
    ensures { result ≡ transcript_length_of parameters queries }
{
    match parameters.checked() {
        Ok(shape) if queries < LIST_LIMIT => length_due(shape, queries) as u64,
        _ => 0,
    }
}

// The transcript of a run and its queries, section by section, into `bytes`, list 8. Any lists that pass the checks
// are written, honest or not. Refused, in this order, as by the judge over lists: parameters (4, 5, 6, 7), the lowest
// of lists 1 to 5 whose length is not the one due, then list 8 (13), a dependent basis (8), the number of queries (9),
// a query out of range (10), two queries that share a first-layer coset (17). A refusal leaves every byte.
pub fn write(
    claim: &Claim,
    queries: &[u64],
    store: &[u64],
    last: &[u64],
    bytes: &mut [u8],
) -> Result<(), Cause>
    ensures { Written (run_claimed claim.now store.now last.now) queries.now bytes.old result bytes.new }
{
    let shape = checked(claim, queries, store, last, bytes.len())?;
    run_writer::put_transcript(shape, claim, queries, store, last, bytes);
    Ok(())
}

// All checks; `size` is the length of list 8.
fn checked(
    claim: &Claim,
    queries: &[u64],
    store: &[u64],
    last: &[u64],
    size: usize,
) -> Result<Shape, Cause>
    ensures outcome { let run = run_claimed claim.now store.now last.now in
        outcome_of result ≡ write_outcome run queries.now size }
    ensures shape { IfOk result (λ shape. shape.parameters ≡ claim.now.parameters) }
{
    let shape = run_checks::checked_lists(claim, store, last)?;
    if size != length_due(shape, queries.len()) {
        return Err(Cause::WrongLength { list: Lent::Bytes });
    }
    independence::checked_basis(claim.basis)?;
    query_checks::checked_queries(shape.parameters.k, shape.parameters.step, queries)?;
    Ok(shape)
}

// The needed length of list 8: a count for each section, and the entries of all: k, R and η, the coset, challenges,
// queries, word, store and last coefficients.
fn length_due(shape: Shape, queries: usize) -> usize
    requires { queries < 2 ^ 60 }
    ensures { let p = shape.parameters in
        result ≡ transcript_length p.k p.rate (steps_by p) queries }
{
    let k = shape.parameters.k;
    let word: usize = 1 << k;
    let due = shape.lengths();
    4 * (5 + due.rounds) + 8 * (3 + (1 + k) + due.rounds + queries + word + due.store + due.last)
}
