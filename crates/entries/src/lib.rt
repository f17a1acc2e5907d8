// Counts and entries in bytes, little-endian. Bytes beyond the end count as zeros, so that every place may be read; one
// whose bytes are all there is read by one load.
#![tactic(auto)]

ghost use Rattle.std.specs.Prelude.{◌≡◌, ◌+◌, ◌*◌, ◌^◌, ◌≤◌, ◌<◌, length, take, drop};
ghost use Rattle.poly.specs.Carrier.{gf64};
ghost use Rattle.poly.specs.Polynomial.{padded};
ghost use Rattle.transcript.specs.Numerals.{count_at, entry_at, entries_at};

use short_list::ShortList;

// The count that begins there, in 4 bytes.
#[tactic(auto, using(crate::proofs::Chunks::count_of))]
pub fn count_at(bytes: &[u8], at: usize) -> usize
    ensures value { result ≡ count_at bytes.now at }
    ensures small { result < 2 ^ 32 }
{
    u32::from_le_bytes(chunk_at(bytes, at)) as usize
}

// The entry that begins there, in 8 bytes.
#[tactic(auto, using(crate::proofs::Chunks::entry_of_8))]
pub fn entry_at(bytes: &[u8], at: usize) -> u64
    ensures { result ≡ entry_at bytes.now at }
{
    u64::from_le_bytes(chunk_at(bytes, at))
}

// N bytes from there on, zeros for those beyond the end.
#[tactic(auto, using(crate::proofs::Chunks::no_chunk, crate::proofs::Chunks::short_chunk))]
fn chunk_at<const N: usize>(bytes: &[u8], at: usize) -> [u8; N]
    ensures { result ≡ padded gf64 N (take N (drop at bytes.now)) }
{
    if at > bytes.len() {
        return [0; N];
    }
    let rest = &bytes[at..];
    match rest.first_chunk::<N>() {
        Some(chunk) => *chunk,
        None => cut(rest),
    }
}

// The bytes before the end, and zeros after them. A function of its own, so that a chunk that is all there needs no
// room in memory.
#[tactic(auto, using(poly::proofs::Filling::padded_front))]
fn cut<const N: usize>(rest: &[u8]) -> [u8; N]
    requires { length rest.now < N }
    ensures { result ≡ padded gf64 N rest.now }
{
    let mut chunk = [0; N];
    chunk[..rest.len()].copy_from_slice(rest);
    chunk
}

// As many entries as the list has, the first of which begins there.
#[tactic(auto, using(crate::proofs::Filled::next, crate::proofs::Filled::all, poly::proofs::Filling::filled_start))]
pub fn read(bytes: &[u8], at: usize, out: &mut [u64])
    requires { at + 8 * length out.old ≤ 2 ^ 61 }
    ensures { out.new ≡ entries_at bytes.now at (length out.old) }
{
    for (i, entry) in out.iter_mut().enumerate() {
        *entry = entry_at(bytes, at + 8 * i);
    }
}

// So many entries, the first of which begins there.
#[tactic(auto, using(short_list::proofs::Zeros::behind))]
pub fn list<const N: usize>(bytes: &[u8], at: usize, count: usize) -> ShortList<N>
    requires { (count ≤ N) × (at + 8 * count ≤ 2 ^ 61) }
    ensures { result ≡ entries_at bytes.now at count }
{
    let mut room = [0u64; N];
    read(bytes, at, &mut room[..count]);
    ShortList::in_zeros(room, count)
}
