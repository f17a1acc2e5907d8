// A list of at most N numbers, held in fixed memory.
#![tactic(auto)]

ghost use Rattle.std.specs.Prelude.{◌≡◌, ◌≤◌, ◌-◌, length, take, drop, replicate};

use std::marker::Model;

// The list stands at the front of the array; zeros follow it.
#[derive(Clone, Copy)]
pub struct ShortList<const N: usize> {
    room: [u64; N],
    count: usize,
}

impl<const N: usize> Model for ShortList<N> {
    ghost use Rattle.std.specs.Prelude.{◌≡◌, ◌≤◌, ◌-◌, ◌++◌, List, ℕ, length, take, drop, replicate};
    ghost use Rattle.short_list.specs.Room.{room_is, count_is};

    ghost Value = { List ℕ };

    ghost view = { λ list. take list.count list.room };

    ghost invariant = { λ list. (list.count ≤ N) × (length list.room ≡ N)
        × (drop list.count list.room ≡ replicate (N - list.count) 0) };

    ghost inverse = { λ list. record { room = list ++ replicate (N - length list) 0; count = length list } };

    ghost inverse_ok = { λ list h i. record {
      room = room_is N list.count list.room h.0 h.1 h.2 i;
      count = count_is N list.count list.room h.0 h.1 i;
    } };
}

impl<const N: usize> ShortList<N> {
    // The first entries of an array. What follows them becomes zeros.
    pub fn front(mut room: [u64; N], count: usize) -> ShortList<N>
        requires { count ≤ N }
        ensures { result ≡ take count room.entry }
    {
        let entries = &mut room[..];
        entries[count..].fill(0);
        ShortList::in_zeros(room, count)
    }

    // The same, where zeros follow already, so that nothing is cleared: a large room is not copied.
    pub fn in_zeros(room: [u64; N], count: usize) -> ShortList<N>
        requires few { count ≤ N }
        requires zeros { drop count room ≡ replicate (N - count) 0 }
        ensures { result ≡ take count room.entry }
    {
        ShortList { room, count }
    }

    // A copy of a list.
    #[tactic(auto, using(crate::proofs::Zeros::behind))]
    pub fn of(list: &[u64]) -> ShortList<N>
        requires { length list.now ≤ N }
        ensures { result ≡ list.now }
    {
        let mut room = [0u64; N];
        let count = list.len();
        room[..count].copy_from_slice(list);
        ShortList::in_zeros(room, count)
    }

    pub fn as_slice(&self) -> &[u64]
        ensures list { result.now ≡ self.now }
        ensures few { length result.now ≤ N }
    {
        &self.room[..self.count]
    }
}
