// The prover and the judges together: what a judge answers on what the prover left, over lists, and as the bytes that
// the writer makes of them.
#![tactic(auto)]

ghost use Rattle.layout.specs.Parameters.{run_claimed};
ghost use Rattle.end_to_end.specs.Judged.{ProvedThenJudged, ProvedThenWritten};

use fri::Verdict;
use layout::Claim;
use refusal::Cause;

// What the prover answered, and the verdict on what it left.
#[derive(Drop)]
pub struct ProvedAndJudged {
    pub outcome: Result<(), Cause>,
    pub verdict: Verdict,
}

// What the prover and the writer answered, and the verdict on the bytes.
#[derive(Drop)]
pub struct ProvedWrittenJudged {
    pub proved: Result<(), Cause>,
    pub written: Result<(), Cause>,
    pub verdict: Verdict,
}

// Proves, and judges what the two lent lists hold then, whatever the prover answered. Where the word has low degree,
// the other input is valid and no two queries share a first-layer coset, it is proved and accepted.
pub fn prove_and_judge(
    claim: &Claim,
    queries: &[u64],
    store: &mut [u64],
    last: &mut [u64],
) -> ProvedAndJudged
    ensures { let run = run_claimed claim.now store.old last.old in
        ProvedThenJudged run queries.now result store.new last.new }
{
    let outcome = prover::prove(claim, store, last);
    let verdict = list_judge::judge(claim, queries, store, last);
    ProvedAndJudged { outcome, verdict }
}

// Proves, writes what the two lent lists hold then as a transcript, and judges the bytes that list 8 holds then,
// whatever prover and writer answered. Where the word has low degree, the other input is valid, no two queries share a
// first-layer coset and list 8 has the needed length, it is proved, written and accepted.
pub fn prove_write_and_judge(
    claim: &Claim,
    queries: &[u64],
    store: &mut [u64],
    last: &mut [u64],
    bytes: &mut [u8],
) -> ProvedWrittenJudged
    ensures { let run = run_claimed claim.now store.old last.old in
        ProvedThenWritten run queries.now bytes.old result store.new last.new bytes.new }
{
    let proved = prover::prove(claim, store, last);
    let written = writer::write(claim, queries, store, last, bytes);
    let verdict = reader::judge(bytes);
    ProvedWrittenJudged {
        proved,
        written,
        verdict,
    }
}
