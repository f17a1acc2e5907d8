// The lines of the marking sheet of a run whose layers lie in the bytes of a transcript.
#![tactic(auto)]

ghost use Rattle.std.specs.Prelude.{◌≡◌, ◌*◌, ◌^◌, ◌<◌, length};
ghost use Rattle.fri.specs.Judge.{checks_outcome};
ghost use Rattle.placing.specs.Put.{Puts, HasRoom};
ghost use Rattle.sheet_text.specs.Sheet.{query_lines, sheet_lines, line_length};
ghost use Rattle.round_checks.specs.Judging.{run_sent};
ghost use Rattle.byte_rounds.specs.Layers.{sent_in, LaidOut};

use byte_rounds::layers::ByteLayers;
use placing::Cursor;
use round_checks::sent::Sent;
use round_checks::{Judging, Layers};

// All lines, by query, then round, put where there is room for them; the entries of layer 0 begin at `begin`. Each round
// check is made once, also after one that fails.
pub fn put_lines(sent: Sent, bytes: &[u8], begin: usize, cursor: &mut Cursor)
    requires checks { let run = sent_in sent.shape.parameters sent.offset.0 sent.basis.now sent.challenges.now bytes.now
        sent.last.now in checks_outcome run sent.queries.now ≡ Ok tt }
    requires layers { let run = sent_in sent.shape.parameters sent.offset.0 sent.basis.now sent.challenges.now bytes.now
        sent.last.now in LaidOut bytes.now begin run }
    requires room { let run = sent_in sent.shape.parameters sent.offset.0 sent.basis.now sent.challenges.now bytes.now
        sent.last.now in HasRoom cursor.old (length (sheet_lines run sent.queries.now 0)) }
    ensures { let s = sent.entry in
        let run = sent_in s.shape.parameters s.offset.0 s.basis.now s.challenges.now bytes.now s.last.now in
        Puts cursor.old (sheet_lines run s.queries.now 0) cursor.new }
{
    let layers = ByteLayers::new(sent.shape, bytes, begin);
    let judging = Judging::new(sent, layers);
    for (query, j) in sent.queries.iter().enumerate() {
        put_query(&judging, query, *j, cursor);
    }
}

// The lines of the query at index j.
fn put_query<L: Layers>(judging: &Judging<L>, query: usize, j: u64, cursor: &mut Cursor)
    requires index { j < 2 ^ judging.now.sent.shape.parameters.k }
    requires narrow { (query < 10 ^ 5) × (j < 10 ^ 8) }
    requires room { HasRoom cursor.old (line_length * judging.now.count) }
    ensures { let run = run_sent judging.now.sent (L.word judging.now.layers) (L.store judging.now.layers) in
        Puts cursor.old (query_lines run query j 0 judging.now.count) cursor.new }
{
    let mut here = judging.first(j);
    for i in 0..judging.count {
        let (check, next) = judging.check(i, here);
        sheet_writer::put_line(query, j, i, check.computed.0, check.found.0, cursor);
        here = next;
    }
}
