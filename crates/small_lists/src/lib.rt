// The small lists of a transcript: all but the layers, whose entries stay in the bytes.
#![tactic(auto)]

ghost use Rattle.std.specs.Prelude.{◌≡◌};
ghost use Rattle.layout.specs.Parameters.{run_of};
ghost use Rattle.transcript.specs.Sections.{run_in, queries_in};
ghost use Rattle.small_lists.specs.Lists.{lists_in};

use field::Element;
use layer_sections::Passed;
use round_checks::sent::Sent;
use short_list::ShortList;

// The offset and behind it the basis, challenges, queries and last coefficients.
#[derive(Drop)]
pub struct Lists {
    pub coset: ShortList<21>,
    pub challenges: ShortList<20>,
    pub queries: ShortList<256>,
    pub last: ShortList<20>,
}

impl Lists {
    // What was sent of the run that the transcript carries, but for its layers, and the queries.
    #[tactic(auto, using(crate::proofs::Places::coset_some))]
    pub fn sent<'a>(&'a self, passed: Passed) -> Sent<'a>
        requires { self.now ≡ lists_in passed.transcript.bytes.now }
        ensures run { let run = run_in passed.entry.transcript.bytes.now in
            run_of result.shape.parameters result.offset.0 result.basis.now result.challenges.now run.word run.store
            result.last.now ≡ run }
        ensures queries { result.queries.now ≡ queries_in passed.entry.transcript.bytes.now }
    {
        let coset = self.coset.as_slice();
        Sent::new(
            passed.shape,
            Element(coset[0]),
            &coset[1..],
            self.challenges.as_slice(),
            self.queries.as_slice(),
            self.last.as_slice(),
        )
    }
}

// Those of a transcript whose sections pass. Nothing follows the last coefficients, so that they are found from the
// end.
#[tactic(auto, using(crate::proofs::Places::lists_few))]
pub fn read(passed: Passed) -> Lists
    ensures { result ≡ lists_in passed.entry.transcript.bytes.now }
{
    let transcript = passed.transcript;
    Lists {
        coset: transcript.coset().entries(),
        challenges: transcript.challenges().entries(),
        queries: transcript.queries().entries(),
        last: last(passed),
    }
}

#[tactic(auto, using(crate::proofs::Places::last_lies, crate::proofs::Places::last_are))]
fn last(passed: Passed) -> ShortList<20>
    ensures { result ≡ (run_in passed.entry.transcript.bytes.now).last }
{
    let count = passed.shape.last_count();
    let bytes = passed.transcript.bytes;
    entries::list(bytes, bytes.len() - 8 * count, count)
}
