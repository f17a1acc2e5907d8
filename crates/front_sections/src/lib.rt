// The refusals of sections 1 to 4: in each the count's bytes (1), its value (2, or 9 in section 4), the entries' bytes
// (1), their values.
#![tactic(auto)]

ghost use Rattle.std.specs.Prelude.{◌≡◌, IfOk};
ghost use Rattle.refusal.specs.Outcome.{outcome_of};
ghost use Rattle.transcript.specs.Checks.{parameters_section, coset_section, queries_section};
ghost use Rattle.transcript.specs.Checks.{lists_outcome, front_outcome};
ghost use Rattle.sections.specs.Views.{parameters_in};

use layout::Shape;
use refusal::Cause;
use sections::{Section, Transcript};
use short_list::ShortList;

// A transcript with the shape of its run: the parameters in section 1 are in range.
#[derive(Clone, Copy)]
pub struct Shaped<'a> {
    pub transcript: Transcript<'a>,
    pub shape: Shape,
    ghost read: { shape.parameters ≡ parameters_in transcript.bytes.now },
}

// Sections 1 to 4.
pub fn checked_front<'a>(transcript: Transcript<'a>) -> Result<Shaped<'a>, Cause>
    ensures outcome { outcome_of result ≡ front_outcome transcript.entry.bytes.now }
    ensures bytes { IfOk result (λ shaped. shaped.transcript.bytes ≡ transcript.entry.bytes) }
{
    let shaped = checked_parameters(transcript)?;
    shaped.checked_lists()?;
    Ok(shaped)
}

// Section 1: k, R and η in range (4 to 7).
fn checked_parameters<'a>(transcript: Transcript<'a>) -> Result<Shaped<'a>, Cause>
    ensures outcome { outcome_of result ≡ parameters_section transcript.entry.bytes.now }
    ensures bytes { IfOk result (λ shaped. shaped.transcript.bytes ≡ transcript.entry.bytes) }
{
    Section::first(transcript.bytes).checked_due(3)?;
    let shape = transcript.parameters().checked()?;
    Ok(Shaped { transcript, shape })
}

impl<'a> Shaped<'a> {
    // Sections 2, 3 and 4.
    fn checked_lists(self) -> Result<(), Cause>
        ensures { result ≡ lists_outcome self.entry.transcript.bytes.now }
    {
        self.checked_coset()?;
        self.transcript
            .challenges()
            .checked_due(self.shape.rounds())?;
        self.checked_queries()
    }

    // Section 2: the offset, then an independent basis (8).
    #[tactic(auto, using(transcript::proofs::Numerals::length_entries))]
    fn checked_coset(self) -> Result<(), Cause>
        ensures { result ≡ coset_section self.entry.transcript.bytes.now }
    {
        let section = self.transcript.coset();
        section.checked_due(self.shape.parameters.k + 1)?;
        let coset: ShortList<21> = section.entries();
        independence::checked_basis(&coset.as_slice()[1..])
    }

    // Section 4: 1 to 256 queries (9), then their indices (10, then 17).
    fn checked_queries(self) -> Result<(), Cause>
        ensures { result ≡ queries_section self.entry.transcript.bytes.now }
    {
        let section = self.transcript.queries();
        let few = query_checks::is_query_count(section.count());
        section.checked(few, Cause::QueryCountOutOfRange)?;
        let queries: ShortList<256> = section.entries();
        query_checks::checked_indices(
            self.shape.parameters.k,
            self.shape.parameters.step,
            queries.as_slice(),
        )
    }
}
