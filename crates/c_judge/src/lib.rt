// The C interface: the judges over lists and over the bytes of a transcript. include/razgwilh.h says the same to C.
#![tactic(auto)]

ghost use Rattle.std.specs.Prelude.{◌≡◌};
ghost use Rattle.fri.specs.Judge.{verdict_of};
ghost use Rattle.layout.specs.Parameters.{run_of};
ghost use Rattle.transcript.specs.Judge.{transcript_verdict};
ghost use Rattle.c_answers.specs.Answers.{answer_of_verdict, answered};

use c_answers::Answer;
use field::Element;
use layout::{Claim, Parameters};

#[unsafe(no_mangle)]
pub extern "C" fn rz_judge(
    k: usize,
    rate: usize,
    step: usize,
    offset: u64,
    basis: &[u64],
    challenges: &[u64],
    queries: &[u64],
    word: &[u64],
    store: &[u64],
    last: &[u64],
    answer: &mut [u64],
)
    ensures { let run = run_of (record { k = k; rate = rate; step = step }) offset basis.now
        challenges.now word.now store.now last.now in
        let verdict = verdict_of run queries.now in
        answer.new ≡ answered (answer_of_verdict verdict) answer.old }
{
    if answer.len() != Answer::LENGTH {
        return;
    }
    let claim = Claim {
        parameters: Parameters { k, rate, step },
        offset: Element(offset),
        basis,
        challenges,
        word,
    };
    let verdict = list_judge::judge(&claim, queries, store, last);
    Answer::from(verdict).write(answer);
}

#[unsafe(no_mangle)]
pub extern "C" fn rz_judge_transcript(bytes: &[u8], answer: &mut [u64])
    ensures { let verdict = transcript_verdict bytes.now in
        answer.new ≡ answered (answer_of_verdict verdict) answer.old }
{
    if answer.len() != Answer::LENGTH {
        return;
    }
    let verdict = reader::judge(bytes);
    Answer::from(verdict).write(answer);
}
