// The judging program: reads a transcript from standard input and prints a header and the verdict's line. One byte over
// the limit of 65,536 is read, so that a longer input is known; what follows it decides nothing. Where a read fails
// nothing is printed.
#![tactic(auto)]

ghost use Rattle.std.specs.Prelude.{◌≡◌, ◌+◌, ◌≤◌, length};
ghost use Rattle.transcript.specs.Judge.{input_limit};
ghost use Rattle.input.specs.Reading.{Over, Prints};
ghost use Rattle.judge.specs.Printed.{verdict_lines};

use report::Text;
use std::io::{Print, Stdout};

// What is printed. The list has room for the limit and one byte more.
fn answer(input: &[u8], reading: Option<usize>) -> Text
    requires size { length input.now ≡ input_limit + 1 }
    requires over { Over (length input.now) reading }
    ensures text { Prints verdict_lines reading input.now result }
    ensures few { length result ≤ 128 }
{
    let Some(count) = reading else {
        return Text::new();
    };
    report::lines(reader::judge_input(&input[..count]))
}

// The one place that prints. Input and reading are handed over so that the contract can say which lines these are:
// those of any input that begins with what was read. To be read here, since no contract can say it: they are written,
// once.
fn print(stdout: Stdout, lines: &[u8], input: &[u8], reading: Option<usize>)
    requires { Prints verdict_lines reading input.now lines.now }
{
    let _written = stdout.write_all(lines);
}

// To be read here, since no contract can say it: the reading is what `read` answered, and it is printed once.
fn main(rt: HostRuntime) {
    let mut input = [0u8; 65537];
    let reading = input::read(rt.stdin(), &mut input);
    let text = answer(&input, reading);
    print(rt.stdout(), text.as_bytes(), &input, reading);
}
