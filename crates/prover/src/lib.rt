// The prover: it folds a word at the challenges and leaves layers 1 to r - 1 in the store and, in a list of their
// own, the first d coefficients of layer r's interpolant.
#![tactic(auto)]

ghost use Rattle.std.specs.Prelude.{◌≡◌, ◌^◌, ◌≤◌, Ok, length};
ghost use Rattle.fri.specs.Layout.{dimension};
ghost use Rattle.refusal.specs.Checks.{afterwards};
ghost use Rattle.fri.specs.Layers.{honest_store, honest_last};
ghost use Rattle.fri.specs.Checks.{run_outcome};
ghost use Rattle.fri.specs.Run.{steps_in, rounds_in};
ghost use Rattle.fri.specs.Prover.{degree_outcome};
ghost use Rattle.layout.specs.Parameters.{run_claimed};
ghost use Rattle.prover.specs.Last.{last_outcome, last_coefficients};
ghost use Rattle.prover.specs.Proved.{Proved};

use layout::Claim;
use refusal::Cause;

// The honest proof of a word at its challenges: layers 1 to r - 1, joined, into the store, and the first d
// coefficients of layer r's interpolant into `last`. Refused, in this order: k, R or η out of range, or k too small
// for them (4, 5, 6, 7); a list whose length is not the one due, the lowest of 1 to 5 (13); a dependent basis (8).
// These refusals leave both lists as they were. Then a layer r whose degree is not below the number of last
// coefficients (12), with that degree: the store holds the layers, and `last` what it held.
pub fn prove(claim: &Claim, store: &mut [u64], last: &mut [u64]) -> Result<(), Cause>
    ensures { Proved (run_claimed claim.now store.old last.old) result store.new last.new }
{
    let shape = run_checks::checked(claim, store, last)?;
    let mut room = [0u64; 256];
    let size: usize = 1 << shape.dimension(shape.rounds());
    prove_in(claim, store, last, &mut room[..size])
}

// The prover after the checks, with room for layer r, whose coefficients take the place of its values.
fn prove_in(
    claim: &Claim,
    store: &mut [u64],
    last: &mut [u64],
    room: &mut [u64],
) -> Result<(), Cause>
    requires passed { run_outcome (run_claimed claim.now store.old last.old) ≡ Ok tt }
    requires room_len { let run = run_claimed claim.now store.old last.old in
        length room.old ≡ 2 ^ dimension run.k (steps_in run) (rounds_in run) }
    ensures answer { result ≡ degree_outcome (run_claimed claim.now store.old last.old) }
    ensures store { store.new ≡ honest_store (run_claimed claim.now store.old last.old) }
    ensures last { let run = run_claimed claim.now store.old last.old in
        last.new ≡ afterwards (degree_outcome run) (honest_last run) run.last }
{
    let coset = honest_layers::fold_layers(claim, store, room);
    newton::interpolate_in_place(coset.as_coset(), room);
    last_coefficients(room, last)
}

// The first coefficients of the interpolant, unless its degree is their number or more (12).
fn last_coefficients(interpolant: &[u64], last: &mut [u64]) -> Result<(), Cause>
    requires { length last.old ≤ length interpolant.now }
    ensures answer { result ≡ last_outcome interpolant.now (length last.old) }
    ensures last { last.new ≡ last_coefficients interpolant.now last.old }
{
    let count = last.len();
    let bound = poly::degree_bound(interpolant);
    if bound > count {
        return Err(Cause::DegreeTooLarge { degree: bound - 1 });
    }
    last.copy_from_slice(&interpolant[..count]);
    Ok(())
}
