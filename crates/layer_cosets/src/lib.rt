// The coset of a layer, by value, and that of the next layer.
#![tactic(auto)]

ghost use Rattle.std.specs.Prelude.{◌≡◌, ◌≤◌, length};
ghost use Rattle.coset.specs.Span.{Independent};
ghost use Rattle.coset.specs.Steps.{step_elements};
ghost use Rattle.coset.specs.Subspace.{next_offset, next_basis};
ghost use Rattle.layer_cosets.specs.Cosets.{layer_coset_of};

use field::Element;
use points::Coset;
use short_list::ShortList;
use std::marker::Model;

// Offset and basis.
#[derive(Clone, Copy)]
pub struct LayerCoset {
    pub offset: Element,
    pub basis: ShortList<20>,
}

// A clause sees the two, and they give the fields back: so a coset may be passed by value twice.
impl Model for LayerCoset {
    ghost use Rattle.layer_cosets.specs.OffsetAndBasis.{OffsetAndBasis};

    ghost Value = { OffsetAndBasis };

    ghost view = { λ coset. record { offset = coset.offset; basis = coset.basis } };

    ghost inverse = { λ parts. record { offset = parts.offset; basis = parts.basis } };
}

impl LayerCoset {
    // That of layer 0.
    pub fn first(offset: Element, basis: &[u64]) -> LayerCoset
        requires { length basis.now ≤ 20 }
        ensures { result ≡ layer_coset_of offset.0 basis.now }
    {
        LayerCoset {
            offset,
            basis: ShortList::of(basis),
        }
    }

    // The coset that it is, where the basis is independent.
    pub fn as_coset(&self) -> Coset<'_>
        requires { Independent self.now.basis }
        ensures { (result.offset ≡ self.now.offset) × (result.basis.now ≡ self.now.basis) }
    {
        Coset::new(self.offset, self.basis.as_slice())
    }

    // That of the next layer.
    pub fn next(self, step: usize) -> LayerCoset
        requires { (step ≤ 3) × (step ≤ length self.basis) }
        ensures { result ≡ layer_coset_of (next_offset step self.offset.0 self.basis) (next_basis step self.basis) }
    {
        let basis = self.basis.as_slice();
        let elements = self.step_elements(step);
        LayerCoset {
            offset: next_coset::composed_maps(elements.as_slice(), self.offset),
            basis: next_coset::next_basis(basis, step),
        }
    }

    // The elements of the maps of a step.
    pub fn step_elements(&self, step: usize) -> ShortList<3>
        requires { (step ≤ 3) × (step ≤ length self.now.basis) }
        ensures { result ≡ step_elements step self.now.basis }
    {
        ShortList::front(next_coset::step_elements(self.basis.as_slice(), step), step)
    }
}
