// Reading an input, for the programs: all bytes of a reader, as far as a lent list has room for them. And printing what
// is answered to it, for other programs than `judge` and `sheet`, which have a `print` of their own.
#![tactic(auto)]

ghost use Rattle.std.specs.Prelude.{◌≡◌, ◌+◌, ◌≤◌, List, ℕ, Option, length, IfSome};
ghost use Rattle.std.specs.Io.{ReadsAtMost};
ghost use Rattle.std.specs.Io.KnownBytes.{ReadConsumes};
ghost use Rattle.std.specs.Result.{result_ok};
ghost use Rattle.input.specs.Reading.{read_after, Over, Filled, ReadBy, Prints};

use std::io::{Print, Read, Result, Stdout};
use std::ops::ControlFlow;

// A reader of which can be said what its reads gave.
pub trait Source: Read {
    // A read of the first gave so many bytes, or failed, and left the second. Code for every source has this of
    // `read_once` alone.
    ghost Gave: { Self → Option ℕ → Self → Type 0 };

    // One read.
    fn read_once(&mut self, list: &mut [u8]) -> Result<usize>
        ensures bound { ReadsAtMost result list.new }
        ensures bytes { ReadConsumes (Self.remaining self.old) (Self.remaining self.new) result list.new }
        ensures gave { Gave self.old (result_ok result) self.new };
}

// To be read here, since no contract of the kit says which bytes a read gives, or where it fails: this is one read.
impl<R: Read> Source for R {
    ghost Gave = { λ _ _ _. Unit {0} };

    fn read_once(&mut self, list: &mut [u8]) -> Result<usize> {
        self.read(list)
    }
}

// Reads until the list is full or the input ends, and answers how many bytes that is, or nothing where a read failed.
pub fn read<R: Source + Drop>(mut source: R, input: &mut [u8]) -> Option<usize>
    ensures over { Over (length input.new) result }
    ensures filled { Filled (R.remaining source) result input.new }
    ensures reads { ReadBy R.Gave (length input.new) result source }
{
    let mut count: usize = 0;
    loop {
        let got = source.read_once(&mut input[count..]).ok();
        match after(count, got, input.len())? {
            ControlFlow::Break(whole) => return Some(whole),
            ControlFlow::Continue(next) => count = next,
        }
    }
}

// After `count` of `size` bytes a read gave so many more, or failed: done at the end of the input, or where the room
// is full.
fn after(count: usize, got: Option<usize>, size: usize) -> Option<ControlFlow<usize, usize>>
    requires { IfSome got (λ more. count + more ≤ size) }
    ensures { result ≡ read_after count got size }
{
    let more = got?;
    let whole = count + more;
    if more == 0 || whole == size {
        return Some(ControlFlow::Break(whole));
    }
    Some(ControlFlow::Continue(whole))
}

// Prints lines that are the caller's text of any input that begins with what was read. Which text that is a proof file
// of the caller's says, to be read there. To be read here, since no contract can say it: the lines are written, once.
pub fn print(stdout: Stdout, lines: &[u8], input: &[u8], reading: Option<usize>)
    ghost text: { List ℕ → List ℕ }
    requires { Prints text reading input.now lines.now }
{
    let _written = stdout.write_all(lines);
}
