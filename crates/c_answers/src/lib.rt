// The five numbers by which the C interface answers.
#![tactic(auto)]

ghost use Rattle.std.specs.Prelude.{◌≡◌, length};
ghost use Rattle.c_answers.specs.Answers.{or_none, answer_of_value, answer_of_result, answer_of_folded};
ghost use Rattle.c_answers.specs.Answers.{answer_of_outcome, answer_of_proved, answer_of_part, answer_of_verdict};
ghost use Rattle.c_answers.specs.Answers.{numbers_of};

use field::Element;
use fri::Verdict;
use layout::Part;
use refusal::Cause;

// The five numbers of an answer.
#[derive(Drop)]
pub struct Answer {
    pub number: u64,
    pub place: u64,
    pub round: u64,
    pub reads: u64,
    pub value: u64,
}

// Stands for a place, a round or a value that there is none of: 2^64 - 1.
const NONE: u64 = 0xffffffffffffffff;

fn or_none(p: Option<usize>) -> u64
    ensures { result ≡ or_none p }
{
    p.map_or(NONE, |n| n as u64)
}

impl Answer {
    // How many numbers an answer has, and with that the list that it is written into.
    pub const LENGTH: usize = 5;

    pub fn of_value(reads: u64, value: u64) -> Answer
        ensures { result ≡ answer_of_value reads value }
    {
        Answer {
            number: 0,
            place: NONE,
            round: NONE,
            reads,
            value,
        }
    }

    // Number, place and round are the refusal's.
    fn of_result<T: Copy>(outcome: Result<T, Cause>, reads: u64, value: u64) -> Answer
        ensures { result ≡ answer_of_result outcome reads value }
    {
        match outcome {
            Ok(_) => Answer::of_value(reads, value),
            Err(cause) => Answer {
                number: cause.number(),
                place: or_none(cause.place()),
                round: or_none(cause.round()),
                reads,
                value,
            },
        }
    }

    // The degree that number 12 tells is the value too.
    pub fn of_proved(outcome: Result<(), Cause>) -> Answer
        ensures { result ≡ answer_of_proved outcome }
    {
        let value = match outcome {
            Err(Cause::DegreeTooLarge { degree }) => degree as u64,
            _ => NONE,
        };
        Answer::of_result(outcome, 0, value)
    }

    pub fn write(self, lent: &mut [u64])
        requires { length lent.old ≡ 5 }
        ensures { lent.new ≡ numbers_of self }
    {
        let numbers = [self.number, self.place, self.round, self.reads, self.value];
        lent.copy_from_slice(&numbers);
    }
}

impl From<Result<(), Cause>> for Answer {
    ghost from_gives = { λ outcome answer. answer ≡ answer_of_outcome outcome };

    fn from(outcome: Result<(), Cause>) -> Answer {
        Answer::of_result(outcome, 0, NONE)
    }
}

// That of a fold, whose value is the next offset.
impl From<Result<Element, Cause>> for Answer {
    ghost from_gives = { λ folded answer. answer ≡ answer_of_folded folded };

    fn from(folded: Result<Element, Cause>) -> Answer {
        match folded {
            Ok(offset) => Answer::of_value(0, offset.0),
            Err(_) => Answer::of_result(folded, 0, NONE),
        }
    }
}

impl From<Verdict> for Answer {
    ghost from_gives = { λ verdict answer. answer ≡ answer_of_verdict verdict };

    fn from(verdict: Verdict) -> Answer {
        Answer::of_result(verdict.answer, verdict.reads, NONE)
    }
}

// That of the layer lookup.
impl From<Part> for Answer {
    ghost from_gives = { λ part answer. answer ≡ answer_of_part part };

    fn from(part: Part) -> Answer {
        Answer {
            number: 0,
            place: part.start as u64,
            round: NONE,
            reads: 0,
            value: part.length as u64,
        }
    }
}
