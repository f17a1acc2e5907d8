// The round checks of the judge over lists and of the one over bytes, and of the marking sheet: what is computed once
// for each round, before the queries, and a query's way through the layers, wherever these lie.
#![tactic(auto)]

ghost use Rattle.std.specs.Prelude.{◌≡◌, ◌≢◌, eqb, List, ℕ, ◌+◌, ◌^◌, ◌≤◌, ◌<◌, min, length, get_or};
ghost use Rattle.poly.specs.Polynomial.{All};
ghost use Rattle.coset.specs.Span.{Independent};
ghost use Rattle.coset.specs.Steps.{step_elements};
ghost use Rattle.fri.specs.Rounds.{value_computed, value_found};
ghost use Rattle.fri.specs.Judge.{checks_outcome, verdict_of};
ghost use Rattle.layout.specs.declared.Parameters.{Parameters};
ghost use Rattle.layout.specs.Parameters.{steps_by};
ghost use Rattle.round_checks.specs.Rounds.{round_over, round_at, Holds, query_point_at, next_query_point, value_folded};
ghost use Rattle.round_checks.specs.Judging.{layer_of, EntryWithin, run_sent, query_point_of, Reached, Made};
ghost use Rattle.round_checks.specs.Judging.{Prepared, elements_prop};
ghost use Rattle.std.proofs.Props.{props};

pub mod sent;

use coset_value::FoldStep;
use field::Element;
use fri::Verdict;
use layer_cosets::LayerCoset;
use layout::Shape;
use refusal::Cause;
use sent::Sent;

// The layers of a run, wherever they lie: layer 0, the word, and the store.
pub trait Layers: Copy + Drop {
    ghost parameters: { Self → Parameters };

    ghost word: { Self → List ℕ };

    ghost store: { Self → List ℕ };

    // Entry `index` of layer i, which begins at `start` in the store, if it is stored.
    fn entry(&self, i: usize, start: usize, index: usize) -> u64
        requires { EntryWithin (parameters self.now) i start index }
        ensures { result ≡ get_or (layer_of (parameters self.now) (word self.now) (store self.now) i) index 0 };

    ghost elements: { (layers : Self) (i : ℕ) → (get_or (word layers) i 0 < 2 ^ 64) × (get_or (store layers) i 0 < 2 ^ 64) };
}

// A round: the elements of its step's maps, their inverses, the span of the step's basis elements in point order, the
// challenge, and where its layer begins in the store: the word, layer 0, is not there.
#[derive(Clone, Copy)]
pub struct Round {
    pub elements: [u64; 3],
    pub inverses: [u64; 3],
    pub span: [u64; 8],
    pub challenge: Element,
    pub start: usize,
}

// A query's index in a layer, and the point there.
#[derive(Clone, Copy)]
pub struct QueryPoint {
    pub index: usize,
    pub point: Element,
}

// The two values of a round check, which passes where they are equal.
#[derive(Clone, Copy)]
pub struct RoundCheck {
    pub computed: Element,
    pub found: Element,
}

impl RoundCheck {
    pub fn passes(self) -> bool
        ensures { result ≡ eqb self.computed.0 self.found.0 }
    {
        self.computed == self.found
    }
}

// All that is there before the queries.
#[derive(Drop)]
pub struct Judging<'a, L: Layers> {
    pub sent: Sent<'a>,
    pub layers: L,
    pub count: usize,
    pub table: [Round; 19],
    pub ghost same: { L.parameters layers ≡ sent.shape.parameters },
    pub ghost prepared: { Prepared (run_sent sent (L.word layers) (L.store layers)) sent.queries.now count table } by { Prim.hlevel (props, elements_prop) },
}

// Where `count` is r: how many cosets a query has read when the check of round i fails, those up to round i and, for
// the value found, the next one, if there is one.
pub fn read_until(i: usize, count: usize) -> usize
    requires { i < count }
    ensures { result ≡ min (i + 2) count }
{
    i + (count - i).min(2)
}

// All rounds. What is inverted is inverted here, before the queries: the elements of each round's maps. None of them is
// zero, since the bases of all layers are independent.
pub fn set_up(shape: Shape, basis: &[u64], challenges: &[u64]) -> [Round; 19]
    requires { let p = shape.parameters in
        (length basis.now ≡ p.k) × Independent basis.now × (length challenges.now ≡ length (steps_by p)) }
    ensures { let round = round_at shape.parameters basis.now challenges.now in
        Holds result round (length (steps_by shape.parameters)) }
{
    let none = Round {
        elements: [0; 3],
        inverses: [0; 3],
        span: [0; 8],
        challenge: Element::ZERO,
        start: 0,
    };
    let step = shape.parameters.step;
    let mut table = [none; 19];
    let mut coset = LayerCoset::first(Element::ZERO, basis);
    let mut start: usize = 0;
    for (i, challenge) in challenges.iter().enumerate() {
        table[i] = Round::over(coset.basis.as_slice(), step, Element(*challenge), start);
        coset = coset.next(step);
        start = shape.layer_start(i + 1);
    }
    table
}

impl Round {
    // The round whose layer lies over a coset with this basis.
    fn over(basis: &[u64], step: usize, challenge: Element, start: usize) -> Round
        requires { (step ≤ 3) × (step ≤ length basis.now) × All (λ e. e ≢ 0) (step_elements step basis.now) }
        ensures { result ≡ round_over step basis.now challenge.0 start }
    {
        let elements = next_coset::step_elements(basis, step);
        Round {
            elements,
            inverses: coset_value::inverses_of(&elements[..step]),
            span: coset_value::span_of(&basis[..step]),
            challenge,
            start,
        }
    }

    // The fold of the coset that holds the query's index, which has these entries. Its first point is the query's plus
    // entry (index mod 2^step) of the span, by which the query's point differs from it.
    pub fn folded(self, step: usize, here: QueryPoint, part: &[u64]) -> Element
        requires { (1 ≤ step) × (step ≤ 3) × (length part.now ≡ 2 ^ step) }
        ensures { result.0 ≡ value_folded step self here part.now }
    {
        let size = 1 << step;
        let span = self.span;
        let inverses = self.inverses;
        let between = span[here.index % size];
        let first = here.point.sum(Element(between));
        let fold_step = FoldStep {
            inverses: &inverses[..step],
            span: &span[..size],
        };
        fold_step.value_at(first, self.challenge, part)
    }
}

impl QueryPoint {
    // In layer 0.
    pub fn first(offset: Element, basis: &[u64], index: usize) -> QueryPoint
        ensures { result ≡ query_point_at offset.0 basis.now index }
    {
        QueryPoint {
            index,
            point: points::point(offset, basis, index),
        }
    }

    // In the next layer.
    pub fn next(self, round: Round, step: usize) -> QueryPoint
        requires { step ≤ 3 }
        ensures { result ≡ next_query_point step round.elements self }
    {
        let elements = round.elements;
        QueryPoint {
            index: self.index >> step,
            point: next_coset::composed_maps(&elements[..step], self.point),
        }
    }
}

impl<'a, L: Layers> Judging<'a, L> {
    // Where all checks before the round checks pass.
    pub fn new(sent: Sent<'a>, layers: L) -> Judging<'a, L>
        requires same { L.parameters layers ≡ sent.shape.parameters }
        requires checked { let run = run_sent sent (L.word layers) (L.store layers) in
            checks_outcome run sent.queries.now ≡ Ok tt }
        ensures run { run_sent result.sent (L.word result.layers) (L.store result.layers)
            ≡ run_sent sent.entry (L.word layers) (L.store layers) }
        ensures queries { result.sent.queries.now ≡ sent.entry.queries.now }
    {
        Judging {
            sent,
            layers,
            count: sent.shape.rounds(),
            table: set_up(sent.shape, sent.basis, sent.challenges),
        }
    }

    // The query at index j, in layer 0.
    pub fn first(&self, j: u64) -> QueryPoint
        ensures { let run = run_sent self.now.sent (L.word self.now.layers) (L.store self.now.layers) in
            result ≡ query_point_of run j 0 }
    {
        QueryPoint::first(self.sent.offset, self.sent.basis, j as usize)
    }

    // The check of round i of a query that is there in layer i, and where the query is in the next layer.
    pub fn check(&self, i: usize, here: QueryPoint) -> (RoundCheck, QueryPoint)
        requires round { i < self.now.count }
        requires reached { let run = run_sent self.now.sent (L.word self.now.layers) (L.store self.now.layers) in
            Reached run i here }
        ensures { let run = run_sent self.now.sent (L.word self.now.layers) (L.store self.now.layers) in
            (j : ℕ) → j < 2 ^ run.k → here ≡ query_point_of run j i → Made run j i result.0 result.1 }
    {
        let next = here.next(self.table[i], self.sent.shape.parameters.step);
        let computed = self.computed(i, here);
        let found = self.found(i, next);
        (RoundCheck { computed, found }, next)
    }

    // The fold, at the round's challenge, of the coset of layer i that holds the query's index.
    pub fn computed(&self, i: usize, here: QueryPoint) -> Element
        requires round { i < self.now.count }
        requires reached { let run = run_sent self.now.sent (L.word self.now.layers) (L.store self.now.layers) in
            Reached run i here }
        ensures { let run = run_sent self.now.sent (L.word self.now.layers) (L.store self.now.layers) in
            (j : ℕ) → j < 2 ^ run.k → here ≡ query_point_of run j i → result.0 ≡ value_computed run j i }
    {
        let round = self.table[i];
        let step = self.sent.shape.parameters.step;
        let size = 1 << step;
        let begin = here.index / size * size;
        let mut part = [0u64; 8];
        for t in 0..size {
            part[t] = self.layers.entry(i, round.start, begin + t);
        }
        round.folded(step, here, &part[..size])
    }

    // The value that the fold must equal: an entry of the next layer, where that is stored, or, in the last round, the
    // last polynomial's.
    pub fn found(&self, i: usize, next: QueryPoint) -> Element
        requires round { i < self.now.count }
        requires reached { let run = run_sent self.now.sent (L.word self.now.layers) (L.store self.now.layers) in
            Reached run (i + 1) next }
        ensures { let run = run_sent self.now.sent (L.word self.now.layers) (L.store self.now.layers) in
            (j : ℕ) → j < 2 ^ run.k → next ≡ query_point_of run j (i + 1) → result.0 ≡ value_found run j i }
    {
        if i + 1 < self.count {
            Element(
                self.layers
                    .entry(i + 1, self.table[i + 1].start, next.index),
            )
        } else {
            poly::evaluate(self.sent.last, next.point)
        }
    }

    // The round checks, lowest query first, then lowest round, up to the first that fails.
    pub fn verdict(&self) -> Verdict
        ensures { let run = run_sent self.now.sent (L.word self.now.layers) (L.store self.now.layers) in
            result ≡ verdict_of run self.now.sent.queries.now }
    {
        let mut answer = Ok(());
        let mut cosets: usize = 0;
        'queries: for (query, j) in self.sent.queries.iter().enumerate() {
            let mut here = self.first(*j);
            for round in 0..self.count {
                let (check, next) = self.check(round, here);
                if !check.passes() {
                    answer = Err(Cause::RoundCheckFails { query, round });
                    cosets += read_until(round, self.count);
                    break 'queries;
                }
                here = next;
            }
            cosets += self.count;
        }
        let reads = (cosets << self.sent.shape.parameters.step) as u64;
        Verdict { answer, reads }
    }
}
