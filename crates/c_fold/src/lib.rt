// The C interface: the fold of a word. include/razgwilh.h says the same to C.
#![tactic(auto)]

ghost use Rattle.lone_fold.specs.Calls.{FoldCall};
ghost use Rattle.c_fold.specs.Calls.{FoldAnswered};

use c_answers::Answer;
use field::Element;

#[unsafe(no_mangle)]
pub extern "C" fn rz_fold(
    k: usize,
    step: usize,
    offset: u64,
    basis: &[u64],
    word: &[u64],
    challenge: u64,
    values: &mut [u64],
    next_basis: &mut [u64],
    answer: &mut [u64],
)
    ensures { let call : FoldCall = record {
      k = k;
      step = step;
      offset = offset;
      basis = basis.now;
      word = word.now;
      challenge = challenge;
      values = values.old;
      next = next_basis.old;
    } in
        FoldAnswered call answer.old answer.new values.new
        next_basis.new }
{
    if answer.len() != Answer::LENGTH {
        return;
    }
    let folded = lone_fold::fold(
        k,
        step,
        Element(offset),
        basis,
        word,
        Element(challenge),
        values,
        next_basis,
    );
    Answer::from(folded).write(answer);
}
