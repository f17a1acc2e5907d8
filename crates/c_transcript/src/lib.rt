// The C interface: writing a transcript, and its marking sheet. include/razgwilh.h says the same to C.
#![tactic(auto)]

ghost use Rattle.std.specs.Prelude.{◌≡◌, length};
ghost use Rattle.layout.specs.Parameters.{run_of};
ghost use Rattle.sheet_text.specs.Sheet.{transcript_sheet, in_front};
ghost use Rattle.writer.specs.Lengths.{transcript_length_of};
ghost use Rattle.c_transcript.specs.Calls.{WriteAnswered};

use c_answers::Answer;
use field::Element;
use layout::{Claim, Parameters};

#[unsafe(no_mangle)]
pub extern "C" fn rz_sheet(bytes: &[u8], out: &mut [u8]) -> u64
    ensures length { result ≡ length (transcript_sheet bytes.now) }
    ensures list { out.new ≡ in_front (transcript_sheet bytes.now) out.old }
{
    marking::sheet(bytes, out) as u64
}

#[unsafe(no_mangle)]
pub extern "C" fn rz_transcript_length(k: usize, rate: usize, step: usize, queries: usize) -> u64
    ensures { result ≡ transcript_length_of (record { k = k; rate = rate; step = step }) queries }
{
    let parameters = Parameters { k, rate, step };
    writer::transcript_length(parameters, queries)
}

#[unsafe(no_mangle)]
pub extern "C" fn rz_write_transcript(
    k: usize,
    rate: usize,
    step: usize,
    offset: u64,
    basis: &[u64],
    challenges: &[u64],
    queries: &[u64],
    word: &[u64],
    store: &[u64],
    last: &[u64],
    bytes: &mut [u8],
    answer: &mut [u64],
)
    ensures { let run = run_of (record { k = k; rate = rate; step = step }) offset basis.now
        challenges.now word.now store.now last.now in
        WriteAnswered run queries.now bytes.old answer.old answer.new
        bytes.new }
{
    if answer.len() != Answer::LENGTH {
        return;
    }
    let claim = Claim {
        parameters: Parameters { k, rate, step },
        offset: Element(offset),
        basis,
        challenges,
        word,
    };
    let outcome = writer::write(&claim, queries, store, last, bytes);
    Answer::from(outcome).write(answer);
}
