// The layers of a prover: the word folded at one challenge after the other.
#![tactic(auto)]

ghost use Rattle.std.specs.Prelude.{◌≡◌, suc, ◌-◌, ◌^◌, ◌≤◌, length, take};
ghost use Rattle.coset.specs.Span.{Independent};
ghost use Rattle.fold.specs.Fold.{folded};
ghost use Rattle.fri.specs.Layout.{dimension, layer_start, joined_layers};
ghost use Rattle.fri.specs.Run.{steps_in, rounds_in};
ghost use Rattle.fri.specs.Layers.{honest_layer, honest_store};
ghost use Rattle.honest_layers.specs.Input.{input_of, Passed, coset_in, Joined, Filled};

use field::Element;
use layer_cosets::LayerCoset;
use layout::Claim;
use points::Coset;

// All layers: 1 to r - 1 into the store, layer r into a list of its own. The answer is the coset of layer r.
pub fn fold_layers(claim: &Claim, store: &mut [u64], last: &mut [u64]) -> LayerCoset
    requires { Passed claim.now (length store.old) (length last.old) }
    ensures answer { let run = input_of claim.now in
        result ≡ coset_in run (rounds_in run) }
    ensures independent { Independent result.basis }
    ensures store { store.new ≡ honest_store (input_of claim.now) }
    ensures last { let run = input_of claim.now in
        last.new ≡ honest_layer run (rounds_in run) }
{
    let step = claim.parameters.step;
    let last_round = claim.challenges.len() - 1;
    let mut coset = LayerCoset::first(claim.offset, claim.basis);
    let mut start: usize = 0;
    for i in 0..last_round {
        start = fold_round(claim, i, coset.as_coset(), start, store);
        coset = coset.next(step);
    }
    fold_joined(claim, last_round, coset.as_coset(), store, last);
    coset.next(step)
}

// Folds layer i into layer i + 1 of the store, which begins at `start`, behind layers 1 to i. The answer is its end.
fn fold_round(claim: &Claim, i: usize, coset: Coset, start: usize, store: &mut [u64]) -> usize
    requires filled { Filled claim.now i coset.offset.0 coset.basis.now start store.old }
    requires another { suc (suc i) ≤ rounds_in (input_of claim.now) }
    ensures end { let run = input_of claim.now in
        result ≡ layer_start run.k (steps_in run) (suc (suc i)) }
    ensures store { take result store.new ≡ joined_layers (honest_layer (input_of claim.now)) (suc i) }
{
    let size = 1 << (coset.basis.len() - claim.parameters.step);
    let (joined, behind) = store.split_at_mut(start);
    fold_joined(claim, i, coset, joined, &mut behind[..size]);
    start + size
}

// Folds layer i, the word or the last one of layers 1 to i, which are joined, into layer i + 1.
fn fold_joined(claim: &Claim, i: usize, coset: Coset, joined: &[u64], next: &mut [u64])
    requires joined { Joined claim.now i coset.offset.0 coset.basis.now joined.now }
    requires next_fits { let run = input_of claim.now in
        length next.old ≡ 2 ^ dimension run.k (steps_in run) (suc i) }
    ensures { next.new ≡ honest_layer (input_of claim.now) (suc i) }
{
    let step = claim.parameters.step;
    let challenge = Element(claim.challenges[i]);
    if i == 0 {
        fold_layer(coset, step, challenge, claim.word, next);
        return;
    }
    let start = joined.len() - (1 << coset.basis.len());
    fold_layer(coset, step, challenge, &joined[start..], next);
}

// Folds a layer into the next one.
fn fold_layer(coset: Coset, step: usize, challenge: Element, layer: &[u64], next: &mut [u64])
    requires { (1 ≤ step) × (step ≤ 3) × (step ≤ length coset.basis.now)
        × (length layer.now ≡ 2 ^ length coset.basis.now)
        × (length next.old ≡ 2 ^ (length coset.basis.now - step)) }
    ensures { next.new ≡ folded step coset.entry.offset.0 coset.entry.basis.now layer.now challenge.0 }
{
    let elements = next_coset::step_elements(coset.basis, step);
    word_fold::fill_values(&elements[..step], coset, layer, challenge, next);
}
