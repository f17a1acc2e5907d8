// The marking sheet of a transcript, put into a lent list of bytes: a line for every query and every round.
#![tactic(auto)]

ghost use Rattle.std.specs.Prelude.{◌≡◌, length};
ghost use Rattle.sheet_text.specs.Sheet.{transcript_sheet, sheet_of, in_front};

use layer_sections::Passed;
use placing::Cursor;
use sections::Transcript;

// How many bytes a line has, its line feed counted.
const LINE_LENGTH: usize = 56;

// Puts the sheet of a transcript of any length at the front of the list, which keeps what stands behind, and answers
// its length. A list that has less room is left as it was. A transcript that its sections refuse has no lines.
pub fn sheet(bytes: &[u8], out: &mut [u8]) -> usize
    ensures length { result ≡ length (transcript_sheet bytes.now) }
    ensures list { out.new ≡ in_front (transcript_sheet bytes.now) out.old }
{
    match layer_sections::checked(Transcript::new(bytes)) {
        Ok(passed) => sheet_passed(passed, out),
        Err(_) => 0,
    }
}

// What the program `sheet` prints: the same, but nothing over the limit of 65,536 bytes.
#[tactic(auto, using(crate::proofs::Inputs::over, crate::proofs::Inputs::within, crate::proofs::Fronts::nothing))]
pub fn sheet_input(bytes: &[u8], out: &mut [u8]) -> usize
    ensures length { result ≡ length (sheet_of bytes.now) }
    ensures list { out.new ≡ in_front (sheet_of bytes.now) out.old }
{
    if bytes.len() > 65536 {
        return 0;
    }
    sheet(bytes, out)
}

// The sheet where all sections pass. Its length is known before any round is computed.
#[tactic(auto, using(crate::proofs::Lengths::lines_few, crate::proofs::Lengths::length_is))]
fn sheet_passed(passed: Passed, out: &mut [u8]) -> usize
    ensures length { result ≡ length (transcript_sheet passed.entry.transcript.bytes.now) }
    ensures list { out.new ≡ in_front (transcript_sheet passed.entry.transcript.bytes.now) out.old }
{
    let transcript = passed.transcript;
    let lists = small_lists::read(passed);
    let sent = lists.sent(passed);
    let length = sent.queries.len() * passed.shape.rounds() * LINE_LENGTH;
    if out.len() < length {
        return length;
    }
    let mut cursor = Cursor { out, at: 0 };
    let begin = transcript.layers().body();
    sheet_rounds::put_lines(sent, transcript.bytes, begin, &mut cursor);
    length
}
