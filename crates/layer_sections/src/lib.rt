// The refusals before the round checks: sections 1 to 4, then those of the layers and the last one, then bytes after
// it (3).
#![tactic(auto)]

ghost use Rattle.std.specs.Prelude.{◌≡◌, ◌^◌, ◌≤◌, Ok, IfOk, length};
ghost use Rattle.refusal.specs.Outcome.{outcome_of};
ghost use Rattle.fri.specs.Layout.{dimension};
ghost use Rattle.layout.specs.Parameters.{steps_by};
ghost use Rattle.transcript.specs.Sections.{layer_section, transcript_rounds};
ghost use Rattle.transcript.specs.Checks.{end_outcome, layers_outcome, transcript_outcome};
ghost use Rattle.sections.specs.Views.{parameters_in};

use front_sections::Shaped;
use layout::Shape;
use refusal::Cause;
use sections::{Section, Transcript};

// A transcript whose sections pass, with the shape of its run.
#[derive(Clone, Copy)]
pub struct Passed<'a> {
    pub transcript: Transcript<'a>,
    pub shape: Shape,
    pub ghost read: { shape.parameters ≡ parameters_in transcript.bytes.now },
    pub ghost passed: { transcript_outcome transcript.bytes.now ≡ Ok tt },
}

// All sections.
pub fn checked<'a>(transcript: Transcript<'a>) -> Result<Passed<'a>, Cause>
    ensures outcome { outcome_of result ≡ transcript_outcome transcript.entry.bytes.now }
    ensures bytes { IfOk result (λ passed. passed.transcript.bytes ≡ transcript.entry.bytes) }
{
    let front = front_sections::checked_front(transcript)?;
    checked_layers(front)?;
    Ok(Passed {
        transcript: front.transcript,
        shape: front.shape,
    })
}

// The sections of the layers, and the last one.
#[tactic(auto, using(crate::proofs::Layers::passed, crate::proofs::Layers::refused, crate::proofs::Layers::all))]
fn checked_layers(front: Shaped) -> Result<(), Cause>
    ensures { result ≡ layers_outcome front.entry.transcript.bytes.now }
{
    let mut section = front.transcript.layers();
    for i in 0..front.shape.rounds() {
        section.checked_due(layer_count(front.shape, i))?;
        section = section.next();
    }
    checked_end(front, section)
}

// How many entries layer i has.
#[tactic(auto, using(layout::proofs::Sizes::dimension_most, coset::proofs::Sizes::size_shifted))]
fn layer_count(shape: Shape, i: usize) -> usize
    requires { i ≤ length (steps_by shape.parameters) }
    ensures { result ≡ 2 ^ dimension shape.parameters.k (steps_by shape.parameters) i }
{
    1 << shape.dimension(i)
}

// The last coefficients, after which nothing follows (3).
fn checked_end(front: Shaped, last: Section) -> Result<(), Cause>
    requires { (last.bytes.now ≡ front.transcript.bytes.now)
        × (last.number ≡ layer_section (transcript_rounds last.bytes.now)) }
    ensures { result ≡ end_outcome front.entry.transcript.bytes.now }
{
    last.checked_due(front.shape.last_count())?;
    if last.end() != last.bytes.len() {
        return Err(Cause::TrailingBytes);
    }
    Ok(())
}
