// A transcript, and its sections: where they begin, and whether their counts and bytes are right.
#![tactic(auto)]

ghost use Rattle.std.specs.Prelude.{◌≡◌, suc, ◌+◌, ◌^◌, ◌≤◌};
ghost use Rattle.transcript.specs.Sections.{section_start, section_end, section_count, section_entries};
ghost use Rattle.transcript.specs.Checks.{section_outcome, due_outcome};
ghost use Rattle.sections.specs.Views.{EachByte, sections_in, parameters_in};

use layout::Parameters;
use refusal::Cause;
use short_list::ShortList;

// The bytes of a transcript, and where their sections begin by the counts as they stand, whatever these are.
#[derive(Clone, Copy)]
pub struct Transcript<'a> {
    pub bytes: &'a [u8],
    pub sections: Sections,
    pub ghost known: { EachByte bytes.now },
    pub ghost found: { sections ≡ sections_in bytes.now },
}

// Where sections 2, 3, 4 and 5 begin; section 1 begins at 0.
#[derive(Clone, Copy)]
pub struct Sections {
    pub coset: usize,
    pub challenges: usize,
    pub queries: usize,
    pub layers: usize,
}

// One section, by its number and where it begins. There are at most 5 + 19 of them, and the end of the last is where
// one more would begin.
#[derive(Clone, Copy)]
pub struct Section<'a> {
    pub bytes: &'a [u8],
    pub number: usize,
    pub at: usize,
    pub ghost known: { EachByte bytes.now },
    pub ghost begins: { at ≡ section_start bytes.now number },
    pub ghost numbered: { (1 ≤ number) × (number ≤ 25) },
}

// Where a section ends that begins there. A count has 4 bytes, so that a section has less than 2^35 bytes, and all of
// them, at most 5 + 19, end before 2^40.
pub fn end_of(bytes: &[u8], at: usize) -> usize
    requires { at ≤ 2 ^ 40 }
    ensures { result ≡ section_end bytes.now at }
{
    at + 4 + 8 * entries::count_at(bytes, at)
}

impl<'a> Transcript<'a> {
    pub fn new(bytes: &'a [u8]) -> Transcript<'a>
        ensures { result.bytes ≡ bytes.entry }
    {
        let coset = Section::first(bytes).next();
        let challenges = coset.next();
        let queries = challenges.next();
        let layers = queries.next();
        let sections = Sections {
            coset: coset.at,
            challenges: challenges.at,
            queries: queries.at,
            layers: layers.at,
        };
        Transcript { bytes, sections }
    }

    // k, R and η, where section 1 has the three.
    #[tactic(auto, using(crate::proofs::Places::parameter_is))]
    pub fn parameters(self) -> Parameters
        requires { section_count self.bytes.now 1 ≡ 3 }
        ensures { result ≡ parameters_in self.entry.bytes.now }
    {
        Parameters {
            k: entries::entry_at(self.bytes, 4) as usize,
            rate: entries::entry_at(self.bytes, 12) as usize,
            step: entries::entry_at(self.bytes, 20) as usize,
        }
    }

    // Section 2.
    pub fn coset(self) -> Section<'a>
        ensures { (result.bytes ≡ self.entry.bytes) × (result.number ≡ 2) }
    {
        Section {
            bytes: self.bytes,
            number: 2,
            at: self.sections.coset,
        }
    }

    // Section 3.
    pub fn challenges(self) -> Section<'a>
        ensures { (result.bytes ≡ self.entry.bytes) × (result.number ≡ 3) }
    {
        Section {
            bytes: self.bytes,
            number: 3,
            at: self.sections.challenges,
        }
    }

    // Section 4.
    pub fn queries(self) -> Section<'a>
        ensures { (result.bytes ≡ self.entry.bytes) × (result.number ≡ 4) }
    {
        Section {
            bytes: self.bytes,
            number: 4,
            at: self.sections.queries,
        }
    }

    // Section 5, that of layer 0.
    pub fn layers(self) -> Section<'a>
        ensures { (result.bytes ≡ self.entry.bytes) × (result.number ≡ 5) }
    {
        Section {
            bytes: self.bytes,
            number: 5,
            at: self.sections.layers,
        }
    }
}

impl<'a> Section<'a> {
    #[tactic(auto, using(crate::proofs::Places::begins_first))]
    pub fn first(bytes: &'a [u8]) -> Section<'a>
        ensures { (result.bytes ≡ bytes.entry) × (result.number ≡ 1) }
    {
        Section {
            bytes,
            number: 1,
            at: 0,
        }
    }

    pub fn next(self) -> Section<'a>
        requires { self.number ≤ 24 }
        ensures { (result.bytes ≡ self.entry.bytes) × (result.number ≡ suc self.entry.number) }
    {
        Section {
            bytes: self.bytes,
            number: self.number + 1,
            at: self.end(),
        }
    }

    pub fn count(self) -> usize
        ensures { result ≡ section_count self.entry.bytes.now self.entry.number }
    {
        entries::count_at(self.bytes, self.at)
    }

    // Where it ends.
    #[tactic(auto, using(crate::proofs::Places::start_near, transcript::proofs::Sections::end_is))]
    pub fn end(self) -> usize
        ensures { result ≡ section_start self.entry.bytes.now (suc self.entry.number) }
    {
        end_of(self.bytes, self.at)
    }

    // Where its entries begin, after its count.
    #[tactic(auto, using(crate::proofs::Places::start_near))]
    pub fn body(self) -> usize
        ensures { result ≡ section_start self.entry.bytes.now self.entry.number + 4 }
    {
        self.at + 4
    }

    // Its entries, where there are at most N.
    #[tactic(auto, using(crate::proofs::Places::near))]
    pub fn entries<const N: usize>(self) -> ShortList<N>
        requires { section_count self.bytes.now self.number ≤ N }
        ensures { result ≡ section_entries self.entry.bytes.now self.entry.number }
    {
        entries::list(self.bytes, self.body(), self.count())
    }

    // Refused unless its count is the one due (2).
    pub fn checked_due(self, due: usize) -> Result<(), Cause>
        ensures { result ≡ due_outcome self.entry.bytes.now self.entry.number due }
    {
        self.checked(
            self.count() == due,
            Cause::CountDiffers {
                section: self.number,
            },
        )
    }

    // Refused with the cause unless its count passes a test.
    pub fn checked(self, test: bool, cause: Cause) -> Result<(), Cause>
        ensures { result ≡ section_outcome self.entry.bytes.now self.entry.number test cause }
    {
        if self.body() > self.bytes.len() {
            return Err(Cause::BytesEnd {
                section: self.number,
            });
        }
        if !test {
            return Err(cause);
        }
        if self.end() > self.bytes.len() {
            return Err(Cause::BytesEnd {
                section: self.number,
            });
        }
        Ok(())
    }
}
