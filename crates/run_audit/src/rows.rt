ghost use Rattle.std.specs.Prelude.{◌≡◌, ◌<◌, ◌≤◌, ◌^◌, length, All};
ghost use Rattle.jass_base.specs.declared.answer.Hit.{Hit};
ghost use Rattle.run_audit.specs.Private.Places.{Advances};
ghost use Rattle.run_audit.specs.Rows.{hit_rows};

use crate::place::Place;
use crate::row::{Wanted, check_row};
use index_file::IndexFile;
use jass_base::Hit;
use trec_run::RunLine;

/// Compares the rows of an answer with what comes next in the run.
pub fn check_hits(
    index: &IndexFile,
    run: &[RunLine],
    id: &str,
    tag: &[u8],
    hits: &[Hit],
    place: &mut Place,
)
    requires docs { All (λ (hit : Hit). hit.doc < length index.now.index.names) hits.now }
    requires few { length hits.now < 2 ^ 63 }
    requires within { place.old.at ≤ length run.now }
    ensures within { place.new.at ≤ length run.now }
    ensures advances { Advances run.now place.old place.new (hit_rows index.now.index.names id.now tag.now 1 hits.now) }
{
    let mut rank = 1;
    for hit in hits {
        let wanted = Wanted {
            id,
            name: index.name(hit.doc),
            rank,
            score: hit.score,
            tag,
        };
        check_row(run, &wanted, place);
        rank += 1;
    }
}
