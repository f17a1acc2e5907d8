// The round checks of a run whose layers lie in the bytes of a transcript. A coset's entries are read from the bytes as
// they are needed.
#![tactic(auto)]

ghost use Rattle.std.specs.Prelude.{◌≡◌};
ghost use Rattle.fri.specs.Judge.{checks_outcome, verdict_of};
ghost use Rattle.byte_rounds.specs.Layers.{sent_in, LaidOut};

pub mod layers;

use fri::Verdict;
use layers::ByteLayers;
use round_checks::Judging;
use round_checks::sent::Sent;

// The round checks, lowest query first, then lowest round, up to the first that fails; the entries of layer 0 begin at
// `begin`.
pub fn judge_rounds(sent: Sent, bytes: &[u8], begin: usize) -> Verdict
    requires checks { let run = sent_in sent.shape.parameters sent.offset.0 sent.basis.now sent.challenges.now bytes.now
        sent.last.now in checks_outcome run sent.queries.now ≡ Ok tt }
    requires layers { let run = sent_in sent.shape.parameters sent.offset.0 sent.basis.now sent.challenges.now bytes.now
        sent.last.now in LaidOut bytes.now begin run }
    ensures { let s = sent.entry in
        let run = sent_in s.shape.parameters s.offset.0 s.basis.now s.challenges.now bytes.now s.last.now in
        result ≡ verdict_of run s.queries.now }
{
    let layers = ByteLayers::new(sent.shape, bytes, begin);
    Judging::new(sent, layers).verdict()
}
