// The sections of a run and its queries, one behind the other, where parameters are in range and all lists have the
// lengths due.
#![tactic(auto)]

ghost use Rattle.std.specs.Prelude.{◌≡◌, ◌∷◌, ◌+◌, ◌*◌, ◌-◌, ◌≤◌, length};
ghost use Rattle.fri.specs.Theorems.{Fit};
ghost use Rattle.layout.specs.Parameters.{steps_by, run_claimed};
ghost use Rattle.placing.specs.Put.{Puts, HasRoom};
ghost use Rattle.written.specs.Bytes.{section_bytes, sections_bytes};
ghost use Rattle.written.specs.Transcript.{transcript_of};
ghost use Rattle.run_writer.specs.Layers.{stored_layers};

use field::Element;
use layout::{Claim, Shape};
use placing::Cursor;
use section_writer::{put_count, put_entries, put_entry, put_section};

// The transcript of a run whose lists fit and its queries into a list of bytes of its length.
pub fn put_transcript(
    shape: Shape,
    claim: &Claim,
    queries: &[u64],
    store: &[u64],
    last: &[u64],
    bytes: &mut [u8],
)
    requires shape { shape.parameters ≡ claim.now.parameters }
    requires fit { Fit (run_claimed claim.now store.now last.now) }
    requires room { length bytes.old ≡ length (transcript_of (run_claimed claim.now store.now last.now) queries.now) }
    ensures { bytes.new ≡ transcript_of (run_claimed claim.now store.now last.now) queries.now }
{
    let parameters = shape.parameters;
    let numbers = [
        parameters.k as u64,
        parameters.rate as u64,
        parameters.step as u64,
    ];
    let mut cursor = Cursor { out: bytes, at: 0 };
    put_section(&numbers, &mut cursor);
    put_coset(claim.offset, claim.basis, &mut cursor);
    put_section(claim.challenges, &mut cursor);
    put_section(queries, &mut cursor);
    put_section(claim.word, &mut cursor);
    put_stored_layers(shape, store, &mut cursor);
    put_section(last, &mut cursor);
}

// The section of the coset: offset and basis.
#[tactic(auto, using(placing::proofs::Puts::puts_append, written::proofs::Bytes::length_number), unfolding(written::specs::Bytes::section_bytes, written::specs::Bytes::entries_bytes))]
fn put_coset(offset: Element, basis: &[u64], cursor: &mut Cursor)
    requires { HasRoom cursor.old (12 + 8 * length basis.now) }
    ensures { Puts cursor.old (section_bytes (offset.0 ∷ basis.now)) cursor.new }
{
    put_count(basis.len() as u64 + 1, cursor);
    put_entry(offset.0, cursor);
    put_entries(basis, cursor);
}

// The sections of layers 1 to r - 1.
fn put_stored_layers(shape: Shape, store: &[u64], cursor: &mut Cursor)
    requires { let layers = stored_layers shape.parameters store.now 1 (length (steps_by shape.parameters) - 1) in
        HasRoom cursor.old (length (sections_bytes layers)) }
    ensures { let layers = stored_layers shape.parameters store.now 1 (length (steps_by shape.parameters) - 1) in
        Puts cursor.old (sections_bytes layers) cursor.new }
{
    for i in 1..shape.rounds() {
        put_section(layout::layer(shape.parameters, store, i), cursor);
    }
}
