// The C interface: the prover. include/razgwilh.h says the same to C.
#![tactic(auto)]

ghost use Rattle.layout.specs.Parameters.{run_of};
ghost use Rattle.c_prover.specs.Calls.{ProofAnswered};

use c_answers::Answer;
use field::Element;
use layout::{Claim, Parameters};

#[unsafe(no_mangle)]
pub extern "C" fn rz_prove(
    k: usize,
    rate: usize,
    step: usize,
    offset: u64,
    basis: &[u64],
    challenges: &[u64],
    word: &[u64],
    store: &mut [u64],
    last: &mut [u64],
    answer: &mut [u64],
)
    ensures { let run = run_of (record { k = k; rate = rate; step = step }) offset basis.now
        challenges.now word.now store.old last.old in
        ProofAnswered run answer.old answer.new store.new last.new }
{
    if answer.len() != Answer::LENGTH {
        return;
    }
    let claim = Claim {
        parameters: Parameters { k, rate, step },
        offset: Element(offset),
        basis,
        challenges,
        word,
    };
    let outcome = prover::prove(&claim, store, last);
    Answer::of_proved(outcome).write(answer);
}
