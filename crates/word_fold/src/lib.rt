// The fold of a word whose lists fit.
#![tactic(auto)]

ghost use Rattle.std.specs.Prelude.{◌≡◌, ◌*◌, ◌^◌, ◌≤◌, length};
ghost use Rattle.gf64.specs.Field.{sum};
ghost use Rattle.fold.specs.Fold.{folded};
ghost use Rattle.fold.specs.Halving.{coset_values};
ghost use Rattle.word_fold.specs.Fitting.{WordFits};

use coset_value::FoldStep;
use field::Element;
use points::Coset;

// Fills in the fold. The elements e are those of the maps X · (X - e) whose composition is the subspace polynomial;
// inverses and span are computed once, before the cosets.
pub fn fill_values(
    elements: &[u64],
    coset: Coset<'_>,
    word: &[u64],
    challenge: Element,
    values: &mut [u64],
)
    requires { WordFits elements.now coset.basis.now word.now values.old }
    ensures { let step = length elements.now in
        values.new ≡ folded step coset.entry.offset.0 coset.entry.basis.now word.now challenge.0 }
{
    let step = elements.len();
    let size = 1 << step;
    let inverses = coset_value::inverses_of(elements);
    let span = coset_value::span_of(&coset.basis[..step]);
    let fold_step = FoldStep {
        inverses: &inverses[..step],
        span: &span[..size],
    };
    fill_cosets(
        fold_step,
        coset.offset,
        &coset.basis[step..],
        word,
        challenge,
        values,
    );
}

// One value for each coset. The upper basis is that from the step's place on, over which the cosets' first points go,
// from the offset on.
fn fill_cosets(
    fold_step: FoldStep<'_>,
    offset: Element,
    upper: &[u64],
    word: &[u64],
    challenge: Element,
    values: &mut [u64],
)
    requires { (length upper.now ≤ 20) × (length values.old ≡ 2 ^ length upper.now)
        × (length word.now ≡ 2 ^ length upper.now * length fold_step.span.now) }
    ensures { let h = fold_step.entry in
        let moved = sum offset.0 challenge.0 in
        values.new ≡ coset_values h.inverses.now h.span.now moved upper.now word.now }
{
    let sums = points::prefix_sums(upper);
    let size = fold_step.span.len();
    let mut first = offset;
    for j in 0..values.len() {
        let start = j * size;
        let part = &word[start..start + size];
        values[j] = fold_step.value_at(first, challenge, part).0;
        first = points::stepped(&sums, first, j + 1);
    }
}
