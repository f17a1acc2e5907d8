// The C interface: the field and the inverses of a list. include/razgwilh.h says the same to C.
#![tactic(auto)]

ghost use Rattle.std.specs.Prelude.{◌≡◌, map};
ghost use Rattle.gf64.specs.Field.{sum, product, inverse};
ghost use Rattle.c_answers.specs.Answers.{answer_of_value, answered};

use c_answers::Answer;
use field::Element;

#[unsafe(no_mangle)]
pub extern "C" fn rz_sum(a: u64, b: u64) -> u64
    ensures { result ≡ sum a b }
{
    Element(a).sum(Element(b)).0
}

#[unsafe(no_mangle)]
pub extern "C" fn rz_product(a: u64, b: u64) -> u64
    ensures { result ≡ product a b }
{
    Element(a).product(Element(b)).0
}

#[unsafe(no_mangle)]
pub extern "C" fn rz_inverse(a: u64, answer: &mut [u64])
    ensures { answer.new ≡ answered (answer_of_value 0 (inverse a)) answer.old }
{
    if answer.len() != Answer::LENGTH {
        return;
    }
    Answer::of_value(0, Element(a).inverse().0).write(answer);
}

#[unsafe(no_mangle)]
pub extern "C" fn rz_invert(list: &mut [u64])
    ensures { list.new ≡ map inverse list.old }
{
    list_inverse::invert(list);
}
