// Numbers put at a cursor, in ASCII.
#![tactic(auto)]

ghost use Rattle.std.specs.Prelude.{◌≡◌, ◌++◌, ◌+◌, ◌≤◌, ◌<◌, length};
ghost use Rattle.line_text.specs.Digits.{bytes, digits, places_within, decimal};
ghost use Rattle.line_text.specs.Digits.{digit as digit_of};
ghost use Rattle.placing.specs.Put.{Puts, HasRoom};

use placing::Cursor;

// A space and a decimal number of up to 20 digits.
#[tactic(auto, using(line_text::proofs::Decimals::length_digits), unfolding(line_text::specs::Digits::bytes, line_text::specs::Digits::decimal))]
pub fn put_number(n: u64, cursor: &mut Cursor)
    requires { HasRoom cursor.old 21 }
    ensures text { Puts cursor.old (bytes " " ++ decimal n) cursor.new }
    ensures short { cursor.new.at ≤ cursor.old.at + 21 }
{
    cursor.put(b" ");
    put_digits(n, 10, places(n), cursor);
}

// The last `width` digits of n in a base, filled in from the right.
pub fn put_digits(n: u64, base: u64, width: usize, cursor: &mut Cursor)
    requires base { (0 < base) × (base ≤ 16) }
    requires room { HasRoom cursor.old width }
    ensures { Puts cursor.old (digits base width n) cursor.new }
{
    let end = cursor.at + width;
    let mut rest = n;
    for place in (cursor.at..end).rev() {
        cursor.out[place] = digit(rest % base);
        rest /= base;
    }
    cursor.at = end;
}

// The code of a digit, `a` to `f` from 10 on.
fn digit(d: u64) -> u8
    requires { d < 16 }
    ensures { result ≡ digit_of d }
{
    if d < 10 {
        b'0' + d as u8
    } else {
        b'a' - 10 + d as u8
    }
}

// How many decimal digits a number has.
#[tactic(auto, using(crate::proofs::Powers::places_64, crate::proofs::Powers::places_zero))]
pub fn places(n: u64) -> usize
    ensures { (result ≡ places_within 19 n) × (result ≤ 20) }
{
    n.checked_ilog10().unwrap_or(0) as usize + 1
}
