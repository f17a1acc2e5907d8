// The layers of a run that was lent as lists.
#![tactic(auto)]

ghost use Rattle.std.specs.Prelude.{◌≡◌, ℕ, ◌^◌, ◌<◌, length, get_or};
ghost use Rattle.fri.specs.Layout.{store_length};
ghost use Rattle.layout.specs.Parameters.{steps_by};

use layout::Shape;
use round_checks::Layers;

// The word and the store.
#[derive(Clone, Copy)]
pub struct Lists<'a> {
    pub shape: Shape,
    pub word: &'a [u64],
    pub store: &'a [u64],
    ghost word_fits: { length word.now ≡ 2 ^ shape.parameters.k },
    ghost store_fits: { length store.now ≡ store_length shape.parameters.k (steps_by shape.parameters) },
    // True of every slice of u64.
    ghost elements: { (i : ℕ) → (get_or word.now i 0 < 2 ^ 64) × (get_or store.now i 0 < 2 ^ 64) },
}

impl<'a> Lists<'a> {
    pub fn new(shape: Shape, word: &'a [u64], store: &'a [u64]) -> Lists<'a>
        requires word { length word.now ≡ 2 ^ shape.parameters.k }
        requires store { length store.now ≡ store_length shape.parameters.k (steps_by shape.parameters) }
        ensures shape { result.shape.parameters ≡ shape.parameters }
        ensures lists { (result.word.now ≡ word.now) × (result.store.now ≡ store.now) }
    {
        Lists { shape, word, store }
    }
}

impl<'a> Layers for Lists<'a> {
    ghost parameters = { λ lists. lists.shape.parameters };

    ghost word = { λ lists. lists.word.now };

    ghost store = { λ lists. lists.store.now };

    fn entry(&self, i: usize, start: usize, index: usize) -> u64 {
        if i == 0 {
            self.word[index]
        } else {
            self.store[start + index]
        }
    }

    ghost elements = { λ lists. lists.elements };
}
