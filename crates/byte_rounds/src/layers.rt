// The layers of a run that lie in the bytes of a transcript.
#![tactic(auto)]

ghost use Rattle.std.specs.Prelude.{◌≡◌, ℕ, ◌^◌, ◌<◌, get_or};
ghost use Rattle.transcript.specs.Sections.{run_in};
ghost use Rattle.byte_rounds.specs.Layers.{layers_in, LaidOut};

use layout::Shape;
use round_checks::Layers;

// The bytes, where the entries of layer 0 begin at `begin`.
#[derive(Clone, Copy)]
pub struct ByteLayers<'a> {
    pub shape: Shape,
    pub bytes: &'a [u8],
    pub begin: usize,
    ghost laid: { LaidOut bytes.now begin (layers_in shape.parameters bytes.now) },
    ghost elements: { (i : ℕ) → (get_or (run_in bytes.now).word i 0 < 2 ^ 64) × (get_or (run_in bytes.now).store i 0 < 2 ^ 64) },
}

impl<'a> ByteLayers<'a> {
    pub fn new(shape: Shape, bytes: &'a [u8], begin: usize) -> ByteLayers<'a>
        requires { LaidOut bytes.now begin (layers_in shape.parameters bytes.now) }
        ensures { (result.shape.parameters ≡ shape.parameters) × (result.bytes.now ≡ bytes.now) }
    {
        ByteLayers {
            shape,
            bytes,
            begin,
        }
    }
}

impl<'a> Layers for ByteLayers<'a> {
    ghost parameters = { λ layers. layers.shape.parameters };

    ghost word = { λ layers. (run_in layers.bytes.now).word };

    ghost store = { λ layers. (run_in layers.bytes.now).store };

    // A count stands between two layers, and the word before the store.
    fn entry(&self, i: usize, start: usize, index: usize) -> u64 {
        let before = if i == 0 {
            0
        } else {
            start + (1 << self.shape.parameters.k)
        };
        entries::entry_at(self.bytes, self.begin + 4 * i + 8 * (before + index))
    }

    ghost elements = { λ layers. layers.elements };
}
