// Counts, entries and sections of a transcript put at a cursor, little-endian.
#![tactic(auto)]

ghost use Rattle.std.specs.Prelude.{◌+◌, ◌*◌, length};
ghost use Rattle.placing.specs.Put.{Puts, HasRoom};
ghost use Rattle.written.specs.Bytes.{count_bytes, entry_bytes, entries_bytes, section_bytes};

use placing::Cursor;

// A count, in 4 bytes: of a larger number the lowest four.
#[tactic(auto, using(crate::proofs::Numbers::count_is))]
pub fn put_count(count: u64, cursor: &mut Cursor)
    requires { HasRoom cursor.old 4 }
    ensures { Puts cursor.old (count_bytes count) cursor.new }
{
    cursor.put(&count.to_le_bytes()[..4]);
}

// An entry, in 8 bytes.
#[tactic(auto, using(crate::proofs::Numbers::entry_is))]
pub fn put_entry(entry: u64, cursor: &mut Cursor)
    requires { HasRoom cursor.old 8 }
    ensures { Puts cursor.old (entry_bytes entry) cursor.new }
{
    cursor.put(&entry.to_le_bytes());
}

// Entries one after the other.
pub fn put_entries(entries: &[u64], cursor: &mut Cursor)
    requires { HasRoom cursor.old (8 * length entries.now) }
    ensures { Puts cursor.old (entries_bytes entries.now) cursor.new }
{
    for entry in entries {
        put_entry(*entry, cursor);
    }
}

// A section: its count and its entries.
#[tactic(auto, using(placing::proofs::Puts::puts_append, written::proofs::Bytes::length_number), unfolding(written::specs::Bytes::section_bytes))]
pub fn put_section(entries: &[u64], cursor: &mut Cursor)
    requires { HasRoom cursor.old (4 + 8 * length entries.now) }
    ensures { Puts cursor.old (section_bytes entries.now) cursor.new }
{
    put_count(entries.len() as u64, cursor);
    put_entries(entries, cursor);
}
