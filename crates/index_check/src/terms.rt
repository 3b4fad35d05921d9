ghost use Rattle.std.specs.Prelude.{ℕ, ◌≡◌, ◌≤◌, ◌*◌, ◌+◌, None, List, IfOk, OnOk};
ghost use Rattle.index_layout.specs.Reading.{heads_in, read_heads, read_terms, term_end, term_in};
ghost use Rattle.index_file.specs.Contents.{IsContent, Reads, outside};
ghost use Rattle.index_check.specs.Private.Answers.{EndsHeads, EndsTerms, PlacesTerm, before_of};
ghost use Rattle.index_check.specs.Private.Pieces.{Holds};
ghost use Rattle.jass_base.specs.declared.limits.TheConstants.{GREATEST_IMPACT, LONGEST_FILE, MOST_DOCUMENTS};

use crate::held::Held;
use crate::term::{check_term, term_room};
use index_file::parts::{Sums, moved, read_heads};
use index_layout::OpenFault;
use jass_base::{Cabinet, Row};
use std::alloc::Global;

/// Checks so many terms with their heads from a place on, and gives the sums of the heads and the place
/// behind the last.
pub(crate) fn check_terms<C: Cabinet>(
    alloc: Global,
    files: &mut C,
    name: &str,
    held: &mut Held,
    docs: u32,
    count: u32,
    from: usize,
) -> Result<(Sums, usize), OpenFault>
    requires from { from ≤ held.old.size }
    requires few { held.old.size ≤ LONGEST_FILE }
    requires docs { docs ≤ MOST_DOCUMENTS }
    ensures exact { (content : List ℕ) → IsContent (C.told files.old) name.now content → Holds content held.old
        → EndsTerms result (read_terms content docs count None from) }
    ensures none { count ≡ 0 → IfOk result (λ x. (x.0.postings ≡ 0) × (x.0.greatest ≡ 0)) }
    ensures within { IfOk result (λ x. x.1 ≤ held.old.size) }
    ensures held { (content : List ℕ) → IsContent (C.told files.old) name.now content
        → Holds content held.old → Holds content held.new }
    ensures size { held.new.size ≡ held.old.size }
    ensures reads { Reads (outside C.Cabinet files.old) (outside C.Cabinet files.new) name.now result }
{
    let mut term = Row::new(alloc);
    let mut sums = Sums {
        postings: 0,
        greatest: 0,
    };
    let mut at = from;
    'terms: for i in 0..count {
        let (place, heads) = next_term(files, name, held, &mut term, i == 0, at)?;
        at = next_heads(files, name, held, &mut sums, docs, heads, place)?;
    }
    Ok((sums, at))
}

/// Checks the term at a place, which takes the place of the one before, and gives the place of its heads
/// and their number.
fn next_term<C: Cabinet>(
    files: &mut C,
    name: &str,
    held: &mut Held,
    term: &mut Row<u8>,
    is_first: bool,
    at: usize,
) -> Result<(usize, u32), OpenFault>
    requires at { at ≤ held.old.size }
    requires few { held.old.size ≤ LONGEST_FILE }
    ensures exact { (content : List ℕ) → IsContent (C.told files.old) name.now content → Holds content held.old
        → PlacesTerm result (term_end content (before_of is_first term.old) at) }
    ensures term { OnOk result ((content : List ℕ) → IsContent (C.told files.old) name.now content
        → Holds content held.old → term.new ≡ term_in content (before_of is_first term.old) at) }
    ensures heads { IfOk result (λ x. (content : List ℕ) → IsContent (C.told files.old) name.now content
        → Holds content held.old → x.1 ≡ heads_in content at) }
    ensures within { IfOk result (λ x. x.0 ≤ held.old.size) }
    ensures behind { IfOk result (λ x. at ≤ x.0) }
    ensures held { (content : List ℕ) → IsContent (C.told files.old) name.now content
        → Holds content held.old → Holds content held.new }
    ensures size { held.new.size ≡ held.old.size }
    ensures reads { Reads (outside C.Cabinet files.old) (outside C.Cabinet files.new) name.now result }
{
    held.reach(files, name, at, 4)?;
    let room = term_room(held.from(at));
    held.reach(files, name, at, room)?;
    match check_term(term, is_first, held.from(at)) {
        Ok((size, heads)) => Ok((at + size, heads)),
        Err(fault) => Err(moved(fault, at)),
    }
}

/// Checks so many heads from a place on, adds them to the sums, and gives the place behind them.
fn next_heads<C: Cabinet>(
    files: &mut C,
    name: &str,
    held: &mut Held,
    sums: &mut Sums,
    docs: u32,
    count: u32,
    at: usize,
) -> Result<usize, OpenFault>
    requires at { at ≤ held.old.size }
    requires few { held.old.size ≤ LONGEST_FILE }
    requires docs { docs ≤ MOST_DOCUMENTS }
    requires small { sums.old.postings ≤ MOST_DOCUMENTS * at }
    ensures exact { (content : List ℕ) → IsContent (C.told files.old) name.now content → Holds content held.old
        → EndsHeads sums.old sums.new result (read_heads content docs count (GREATEST_IMPACT + 1) at) }
    ensures small { IfOk result (λ end. sums.new.postings ≤ MOST_DOCUMENTS * end) }
    ensures within { IfOk result (λ end. end ≤ held.old.size) }
    ensures held { (content : List ℕ) → IsContent (C.told files.old) name.now content
        → Holds content held.old → Holds content held.new }
    ensures size { held.new.size ≡ held.old.size }
    ensures reads { Reads (outside C.Cabinet files.old) (outside C.Cabinet files.new) name.now result }
{
    held.reach(files, name, at, 11 * count as usize)?;
    let mut here = Sums {
        postings: 0,
        greatest: 0,
    };
    match read_heads(&mut here, held.from(at), docs, count, 0) {
        Ok(size) => {
            *sums = Sums {
                postings: sums.postings + here.postings,
                greatest: sums.greatest.max(here.greatest),
            };
            Ok(at + size)
        }
        Err(fault) => Err(moved(fault, at)),
    }
}
