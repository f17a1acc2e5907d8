// The judge over the bytes of a transcript. They are read through one small view, `sections::Transcript`: a struct with
// a reference to them and where their sections begin, and thin functions over it.
#![tactic(auto)]

ghost use Rattle.std.specs.Prelude.{◌≡◌};
ghost use Rattle.transcript.specs.Judge.{transcript_verdict, long_verdict, input_verdict};

use fri::Verdict;
use refusal::Cause;
use sections::Transcript;

// The verdict on a transcript of any length. Refused section by section: its count's bytes (1), its count (2, or 9 in
// section 4), its entries' bytes (1), their values (4 to 7 in section 1, 8 in section 2, 10 and 17 in section 4); then
// bytes after the last section (3); then the first round check that fails (11).
pub fn judge(bytes: &[u8]) -> Verdict
    ensures { result ≡ transcript_verdict bytes.now }
{
    byte_judge::verdict(Transcript::new(bytes))
}

// The whole answer of the program `judge`: up to 65,536 bytes as `judge` says; to more, the first refusal of sections 1
// to 4, else the length (14).
#[tactic(auto, using(transcript::proofs::Theorems::short, transcript::proofs::Theorems::long))]
pub fn judge_input(bytes: &[u8]) -> Verdict
    ensures { result ≡ input_verdict bytes.now }
{
    if bytes.len() > 65536 {
        return judge_long(bytes);
    }
    judge(bytes)
}

// Its answer to more bytes than that.
fn judge_long(bytes: &[u8]) -> Verdict
    ensures { result ≡ long_verdict bytes.now }
{
    let cause = match front_sections::checked_front(Transcript::new(bytes)) {
        Ok(_) => Cause::InputTooLong,
        Err(cause) => cause,
    };
    Verdict {
        answer: Err(cause),
        reads: 0,
    }
}
