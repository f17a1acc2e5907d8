// A line of the marking sheet put at a cursor.
#![tactic(auto)]

ghost use Rattle.std.specs.Prelude.{◌≡◌, ◌+◌, ◌^◌, ◌≤◌, ◌<◌, length};
ghost use Rattle.line_text.specs.Digits.{decimal};
ghost use Rattle.placing.specs.Put.{Puts, HasRoom};
ghost use Rattle.sheet_text.specs.Sheet.{decimal_field, value_field, mark_field, line_text, line_length};

use placing::Cursor;
use writing::{places, put_digits};

// The line of a query and a round. The numbers must fit into their fields of 5, 8 and 3 digits.
#[tactic(auto, using(placing::proofs::Puts::puts_append, crate::proofs::Padding::decimal_fits), unfolding(sheet_text::specs::Sheet::line_text))]
pub fn put_line(
    query: usize,
    index: u64,
    round: usize,
    computed: u64,
    found: u64,
    cursor: &mut Cursor,
)
    requires narrow { (query < 10 ^ 5) × (index < 10 ^ 8) × (round < 10 ^ 3) }
    requires room { HasRoom cursor.old line_length }
    ensures text { Puts cursor.old (line_text query index round computed found) cursor.new }
    ensures ends { cursor.new.at ≡ cursor.old.at + line_length }
{
    put_decimal(query as u64, 5, cursor);
    put_decimal(index, 8, cursor);
    put_decimal(round as u64, 3, cursor);
    put_value(computed, cursor);
    put_value(found, cursor);
    put_mark(computed, found, cursor);
}

// A decimal number with spaces on its left, and a space. The widest field has 8 bytes.
#[tactic(auto, using(crate::proofs::Padding::length_spaces, crate::proofs::Padding::length_decimal, line_text::proofs::Decimals::length_digits))]
fn put_decimal(n: u64, width: usize, cursor: &mut Cursor)
    requires narrow { (length (decimal n) ≤ width) × (width ≤ 8) }
    requires room { HasRoom cursor.old (width + 1) }
    ensures text { Puts cursor.old (decimal_field width n) cursor.new }
    ensures ends { cursor.new.at ≡ cursor.old.at + width + 1 }
{
    let count = places(n);
    let spaces = [b' '; 8];
    cursor.put(&spaces[..width - count]);
    put_digits(n, 10, count, cursor);
    cursor.put(b" ");
}

// A value in 16 hexadecimal digits, and a space.
#[tactic(auto, using(placing::proofs::Puts::puts_append, line_text::proofs::Decimals::length_digits), unfolding(sheet_text::specs::Sheet::value_field, line_text::specs::Digits::bytes))]
fn put_value(value: u64, cursor: &mut Cursor)
    requires { HasRoom cursor.old 17 }
    ensures text { Puts cursor.old (value_field value) cursor.new }
    ensures ends { cursor.new.at ≡ cursor.old.at + 17 }
{
    put_digits(value, 16, 16, cursor);
    cursor.put(b" ");
}

// `ok` or `no`, and a line feed.
#[tactic(auto, unfolding(line_text::specs::Digits::bytes, sheet_text::specs::Sheet::mark_field))]
fn put_mark(computed: u64, found: u64, cursor: &mut Cursor)
    requires { HasRoom cursor.old 3 }
    ensures text { Puts cursor.old (mark_field computed found) cursor.new }
    ensures ends { cursor.new.at ≡ cursor.old.at + 3 }
{
    cursor.put(if computed == found { b"ok\n" } else { b"no\n" });
}
