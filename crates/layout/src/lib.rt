// The parameters of a run, and where each of its layers lies in the store.
#![tactic(auto)]

ghost use Rattle.std.specs.Prelude.{◌≡◌, ◌≤◌, length, IfOk};
ghost use Rattle.refusal.specs.Outcome.{outcome_of};
ghost use Rattle.fri.specs.Layout.{dimension, last_count, layer_start};
ghost use Rattle.fri.specs.Checks.{parameters_outcome};
ghost use Rattle.fri.specs.Lookup.{layer_part};
ghost use Rattle.layout.specs.Parameters.{steps_by, Valid};
ghost use Rattle.layout.specs.Parts.{part_of, part_in};
ghost use Rattle.layout.specs.Lengths.{lengths_of, lengths_due};

use field::Element;
use refusal::Cause;

// k, R and η, in range or not.
#[derive(Clone, Copy, Debug, PartialEq, Eq)]
pub struct Parameters {
    pub k: usize,
    pub rate: usize,
    pub step: usize,
}

// The shape of a run: parameters in range.
#[derive(Clone, Copy)]
pub struct Shape {
    pub parameters: Parameters,
    pub ghost valid: { Valid parameters },
}

// What a prover is given: parameters, a coset by offset and basis, a challenge for each round, and the word.
#[derive(Clone, Copy)]
pub struct Claim<'a> {
    pub parameters: Parameters,
    pub offset: Element,
    pub basis: &'a [u64],
    pub challenges: &'a [u64],
    pub word: &'a [u64],
}

// A part of a list.
#[derive(Clone, Copy, Debug, PartialEq, Eq)]
pub struct Part {
    pub start: usize,
    pub length: usize,
}

// How many challenges, entries of the store and last coefficients a run has.
#[derive(Clone, Copy, Debug, PartialEq, Eq)]
pub struct Lengths {
    pub rounds: usize,
    pub store: usize,
    pub last: usize,
}

// Layer i of a store, 1 ≤ i < r, or the empty part for bad parameters, another i or a store of another length.
pub fn layer(parameters: Parameters, store: &[u64], i: usize) -> &[u64]
    ensures layer { result.now ≡ layer_part parameters.k parameters.rate parameters.step store.now i }
    ensures part { result.now ≡ part_in (part_of parameters (length store.now) i) store.now }
{
    let part = parameters.part(store.len(), i);
    let start = part.start;
    let end = start + part.length;
    &store[start..end]
}

impl Parameters {
    // Refuses parameters out of range, in the order 4, 5, 6, 7.
    pub fn checked(self) -> Result<Shape, Cause>
        ensures outcome { outcome_of result ≡ parameters_outcome self.k self.rate self.step }
        ensures shape { IfOk result (λ shape. shape.parameters ≡ self) }
    {
        if self.k < 2 || self.k > 20 {
            return Err(Cause::DimensionOutOfRange);
        }
        if self.rate < 1 || self.rate > 6 {
            return Err(Cause::RateOutOfRange);
        }
        if self.step < 1 || self.step > 3 {
            return Err(Cause::StepOutOfRange);
        }
        if self.k < self.rate + self.step {
            return Err(Cause::DimensionTooSmall);
        }
        Ok(Shape { parameters: self })
    }

    // What prover and judge are to be lent; all 0 for parameters out of range.
    pub fn lengths(self) -> Lengths
        ensures { result ≡ lengths_of self }
    {
        match self.checked() {
            Ok(shape) => shape.lengths(),
            Err(_) => Lengths {
                rounds: 0,
                store: 0,
                last: 0,
            },
        }
    }

    // Where layer i lies in a store of that length; the empty part, from 0, where `layer` hands it back.
    pub fn part(self, store_length: usize, i: usize) -> Part
        ensures { result ≡ part_of self store_length i }
    {
        match self.checked() {
            Ok(shape) if 1 <= i && i < shape.rounds() && store_length == shape.lengths().store => {
                Part {
                    start: shape.layer_start(i),
                    length: 1 << shape.dimension(i),
                }
            }
            _ => Part {
                start: 0,
                length: 0,
            },
        }
    }
}

impl Shape {
    // r.
    pub fn rounds(self) -> usize
        ensures { result ≡ length (steps_by self.parameters) }
    {
        (self.parameters.k - self.parameters.rate) / self.parameters.step
    }

    // The dimension of layer i.
    pub fn dimension(self, i: usize) -> usize
        requires { i ≤ length (steps_by self.parameters) }
        ensures { result ≡ dimension self.parameters.k (steps_by self.parameters) i }
    {
        self.parameters.k - i * self.parameters.step
    }

    // d.
    pub fn last_count(self) -> usize
        ensures { result ≡ last_count self.parameters.k self.parameters.rate (steps_by self.parameters) }
    {
        1 << (self.dimension(self.rounds()) - self.parameters.rate)
    }

    // Where layer i, from 1 on, begins in the store.
    pub fn layer_start(self, i: usize) -> usize
        requires { (1 ≤ i) × (i ≤ length (steps_by self.parameters)) }
        ensures { result ≡ layer_start self.parameters.k (steps_by self.parameters) i }
    {
        let mut start: usize = 0;
        for before in 1..i {
            start += 1 << self.dimension(before);
        }
        start
    }

    // What prover and judge are to be lent.
    pub fn lengths(self) -> Lengths
        ensures { result ≡ lengths_due self.parameters }
    {
        let rounds = self.rounds();
        Lengths {
            rounds,
            store: self.layer_start(rounds),
            last: self.last_count(),
        }
    }
}
