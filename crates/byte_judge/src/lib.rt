// The verdict on the run that the bytes of a transcript carry.
#![tactic(auto)]

ghost use Rattle.std.specs.Prelude.{◌≡◌};
ghost use Rattle.fri.specs.Judge.{verdict_of};
ghost use Rattle.transcript.specs.Sections.{run_in, queries_in};
ghost use Rattle.transcript.specs.Judge.{transcript_verdict};

use fri::Verdict;
use layer_sections::Passed;
use sections::Transcript;

// The verdict on a transcript.
#[tactic(auto, using(crate::proofs::Verdicts::passed))]
pub fn verdict(transcript: Transcript) -> Verdict
    ensures { result ≡ transcript_verdict transcript.entry.bytes.now }
{
    match layer_sections::checked(transcript) {
        Ok(passed) => judge_passed(passed),
        Err(cause) => Verdict {
            answer: Err(cause),
            reads: 0,
        },
    }
}

// The verdict where all sections pass.
#[tactic(auto, using(byte_rounds::proofs::Carried::carried_checks))]
fn judge_passed(passed: Passed) -> Verdict
    ensures { let sent = passed.entry.transcript.bytes.now in result ≡ verdict_of (run_in sent) (queries_in sent) }
{
    let transcript = passed.transcript;
    let lists = small_lists::read(passed);
    let begin = transcript.layers().body();
    byte_rounds::judge_rounds(lists.sent(passed), transcript.bytes, begin)
}
