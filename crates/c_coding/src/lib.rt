// The C interface: encoding and interpolation. include/razgwilh.h says the same to C.
#![tactic(auto)]

ghost use Rattle.std.specs.Prelude.{◌≡◌};
ghost use Rattle.reed_solomon.specs.Answers.{encode_outcome, interpolate_outcome, values_after, coefficients_after};
ghost use Rattle.c_answers.specs.Answers.{answer_of_outcome, answered, where_answered};

use c_answers::Answer;
use field::Element;

#[unsafe(no_mangle)]
pub extern "C" fn rz_encode(
    offset: u64,
    basis: &[u64],
    coefficients: &[u64],
    values: &mut [u64],
    answer: &mut [u64],
)
    ensures answer { let outcome = encode_outcome basis.now coefficients.now values.old in
        answer.new ≡ answered (answer_of_outcome outcome) answer.old }
    ensures output { let after = values_after offset basis.now coefficients.now values.old in
        values.new ≡ where_answered answer.old after values.old }
{
    if answer.len() != Answer::LENGTH {
        return;
    }
    let outcome = coding::encode(Element(offset), basis, coefficients, values);
    Answer::from(outcome).write(answer);
}

#[unsafe(no_mangle)]
pub extern "C" fn rz_interpolate(
    offset: u64,
    basis: &[u64],
    word: &[u64],
    coefficients: &mut [u64],
    answer: &mut [u64],
)
    ensures answer { let outcome = interpolate_outcome basis.now word.now coefficients.old in
        answer.new ≡ answered (answer_of_outcome outcome) answer.old }
    ensures output { let after = coefficients_after offset basis.now word.now coefficients.old in
        coefficients.new ≡ where_answered answer.old after coefficients.old }
{
    if answer.len() != Answer::LENGTH {
        return;
    }
    let outcome = coding::interpolate(Element(offset), basis, word, coefficients);
    Answer::from(outcome).write(answer);
}
