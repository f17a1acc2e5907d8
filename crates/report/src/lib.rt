// What the program `judge` prints of a verdict: a header and a line.
#![tactic(auto)]

ghost use Rattle.std.specs.Prelude.{◌≡◌, ◌++◌, ◌+◌, ◌-◌, ◌≤◌, [], length, take, drop, replicate};
ghost use Rattle.line_text.specs.Digits.{bytes};
ghost use Rattle.placing.specs.Put.{Puts, HasRoom};
ghost use Rattle.line_text.specs.Lines.{or_hyphen, numbers_text, line_of, lines_of};

use fri::Verdict;
use placing::Cursor;
use std::marker::Model;
use writing::put_number;

// A text of at most 128 bytes: at most 32 of the header and 93 of the line. It stands at the front of the array, and
// zeros after it.
#[derive(Drop)]
pub struct Text {
    bytes: [u8; 128],
    length: usize,
}

impl Model for Text {
    ghost use Rattle.std.specs.Prelude.{◌≡◌, List, ℕ, ◌-◌, ◌≤◌, take, drop, replicate};

    ghost Value = { List ℕ };

    ghost view = { λ t. take t.length t.bytes };

    ghost invariant = { λ t. (t.length ≤ 128) × (drop t.length t.bytes ≡ replicate (128 - t.length) 0) };
}

impl Text {
    // No byte.
    pub fn new() -> Text
        ensures { result ≡ [] }
    {
        Text {
            bytes: [0; 128],
            length: 0,
        }
    }

    pub fn as_bytes(&self) -> &[u8]
        ensures text { result.now ≡ self.now }
        ensures few { length result.now ≤ 128 }
    {
        &self.bytes[..self.length]
    }

    // The text at the front of the array, and zeros after it.
    pub fn array(&self) -> [u8; 128]
        ensures text { take (length self.now) result ≡ self.now }
        ensures rest { drop (length self.now) result ≡ replicate (128 - length self.now) 0 }
    {
        self.bytes
    }
}

// The header and the line.
pub fn lines(verdict: Verdict) -> Text
    ensures text { result ≡ lines_of verdict }
    ensures few { length result ≤ 128 }
{
    let mut bytes = [0u8; 128];
    let mut cursor = Cursor {
        out: &mut bytes,
        at: 0,
    };
    cursor.put(b"answer number place round reads\n");
    put_line(verdict, &mut cursor);
    let length = cursor.at;
    Text { bytes, length }
}

// `accepted` or `refused`, at most 8 bytes, and what follows it, at most 85.
#[tactic(auto, using(placing::proofs::Puts::puts_append), unfolding(line_text::specs::Digits::bytes, line_text::specs::Lines::answer_text, line_text::specs::Lines::line_of))]
fn put_line(verdict: Verdict, cursor: &mut Cursor)
    requires { HasRoom cursor.old 93 }
    ensures { Puts cursor.old (line_of verdict) cursor.new }
{
    match verdict.answer {
        Ok(()) => {
            cursor.put(b"accepted");
            put_numbers(0, None, None, verdict.reads, cursor);
        }
        Err(cause) => {
            cursor.put(b"refused");
            put_numbers(
                cause.number(),
                cause.place(),
                cause.round(),
                verdict.reads,
                cursor,
            );
        }
    }
}

// Four numbers of up to 20 digits, each after a space, and a line feed.
fn put_numbers(
    number: u64,
    place: Option<usize>,
    round: Option<usize>,
    reads: u64,
    cursor: &mut Cursor,
)
    requires { HasRoom cursor.old 85 }
    ensures { Puts cursor.old (numbers_text number place round reads) cursor.new }
{
    put_number(number, cursor);
    put_position(place, cursor);
    put_position(round, cursor);
    put_number(reads, cursor);
    cursor.put(b"\n");
}

// A space, and a place or a round or a hyphen.
#[tactic(auto, unfolding(line_text::specs::Digits::bytes, line_text::specs::Lines::or_hyphen))]
fn put_position(position: Option<usize>, cursor: &mut Cursor)
    requires { HasRoom cursor.old 21 }
    ensures text { Puts cursor.old (bytes " " ++ or_hyphen position) cursor.new }
    ensures short { cursor.new.at ≤ cursor.old.at + 21 }
{
    match position {
        Some(n) => put_number(n as u64, cursor),
        None => cursor.put(b" -"),
    }
}
