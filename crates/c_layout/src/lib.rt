// The C interface: the lengths of a run and the layer lookup. include/razgwilh.h says the same to C.
#![tactic(auto)]

ghost use Rattle.std.specs.Prelude.{◌≡◌, length};
ghost use Rattle.layout.specs.Parts.{part_of};
ghost use Rattle.layout.specs.Lengths.{lengths_of};
ghost use Rattle.c_answers.specs.Answers.{answer_of_part, answered};

use c_answers::Answer;
use layout::Parameters;

#[unsafe(no_mangle)]
pub extern "C" fn rz_rounds(k: usize, rate: usize, step: usize) -> usize
    ensures { result ≡ (lengths_of (record { k = k; rate = rate; step = step })).rounds }
{
    let parameters = Parameters { k, rate, step };
    parameters.lengths().rounds
}

#[unsafe(no_mangle)]
pub extern "C" fn rz_store_length(k: usize, rate: usize, step: usize) -> usize
    ensures { result ≡ (lengths_of (record { k = k; rate = rate; step = step })).store }
{
    let parameters = Parameters { k, rate, step };
    parameters.lengths().store
}

#[unsafe(no_mangle)]
pub extern "C" fn rz_last_length(k: usize, rate: usize, step: usize) -> usize
    ensures { result ≡ (lengths_of (record { k = k; rate = rate; step = step })).last }
{
    let parameters = Parameters { k, rate, step };
    parameters.lengths().last
}

#[unsafe(no_mangle)]
pub extern "C" fn rz_layer(
    k: usize,
    rate: usize,
    step: usize,
    store: &[u64],
    i: usize,
    answer: &mut [u64],
)
    ensures { let part = part_of (record { k = k; rate = rate; step = step }) (length store.now) i in
        answer.new ≡ answered (answer_of_part part) answer.old }
{
    if answer.len() != Answer::LENGTH {
        return;
    }
    let parameters = Parameters { k, rate, step };
    Answer::from(parameters.part(store.len(), i)).write(answer);
}
