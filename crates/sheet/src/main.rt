// The marking program: reads a transcript from standard input and prints its marking sheet. One byte over the limit of
// 65,536 is read, so that a longer input is known; what follows it decides nothing. Where a read fails nothing is
// printed.
#![tactic(auto)]

ghost use Rattle.std.specs.Prelude.{◌≡◌, ◌+◌, ◌≤◌, length};
ghost use Rattle.transcript.specs.Judge.{input_limit};
ghost use Rattle.sheet_text.specs.Sheet.{sheet_of, largest_sheet};
ghost use Rattle.input.specs.Reading.{Over, Prints};

use std::io::{Print, Stdout};

// What is printed, at the front of the second list. The first list has room for the limit and one byte more, the second
// for the largest sheet of any transcript.
fn answer<'a>(input: &[u8], reading: Option<usize>, out: &'a mut [u8]) -> &'a [u8]
    requires size { length input.now ≡ input_limit + 1 }
    requires over { Over (length input.now) reading }
    requires room { length out.old ≡ largest_sheet }
    ensures text { Prints sheet_of reading input.now result.now }
    ensures few { length result.now ≤ length out.old }
{
    let length = match reading {
        Some(count) => marking::sheet_input(&input[..count], out),
        None => 0,
    };
    &out[..length]
}

// The one place that prints. Input and reading are handed over so that the contract can say which lines these are:
// those of any input that begins with what was read. To be read here, since no contract can say it: they are written,
// once.
fn print(stdout: Stdout, lines: &[u8], input: &[u8], reading: Option<usize>)
    requires { Prints sheet_of reading input.now lines.now }
{
    let _written = stdout.write_all(lines);
}

// To be read here, since no contract can say it: the reading is what `read` answered, and it is printed once.
fn main(rt: HostRuntime) {
    let mut input = [0u8; 65537];
    let reading = input::read(rt.stdin(), &mut input);
    let mut out = [0u8; 272384];
    let lines = answer(&input, reading, &mut out);
    print(rt.stdout(), lines, &input, reading);
}
