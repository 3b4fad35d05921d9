ghost use Rattle.std.specs.Prelude.{◌≡◌, ◌<◌, max, All, IfOk, length, map, replicate, slice_index, slice_set};
ghost use Rattle.std.specs.List.{range_with_len};
ghost use Rattle.accumulator_pages.specs.Adding.{page_count};
ghost use Rattle.segment_plan.specs.declared.entry.PlanEntry.{PlanEntry};
ghost use Rattle.segment_plan.specs.Entries.{greatest_at};
ghost use Rattle.session_engine.specs.Plans.{AreKnown, session_plan};
ghost use Rattle.session_engine.specs.Standing.{IsPlanned};
ghost use Rattle.sharp_bounds.specs.Marks.{next_weights};

use index_file::Source;
use jass_base::{NoMemory, Query};
use segment_plan::{Plan, PlanEntry};
use session_engine::laws::a_session_plan_names_its_segments;
use session_engine::plan_of;
use sharp_bounds::Masks;
use std::alloc::Global;

/// What a search has before it has a chain: its plan, a mask of each document, and the next weight of each term.
#[derive(Drop)]
pub struct Tables {
    pub plan: Plan,
    pub masks: Masks,
    pub weights: Vec<u32>,
}

/// The tables of a query before anything is scored.
pub fn tables_of<S: Source>(alloc: Global, source: &S, query: &Query) -> Result<Tables, NoMemory>
    requires known { AreKnown (S.index source.now) query.now.terms }
    ensures planned { IfOk result (λ t. IsPlanned (S.index source.now) query.now.terms t.plan) }
    ensures masks { IfOk result (λ t. t.masks.masks ≡ replicate (length (S.index source.now).names) 0) }
    ensures frames { IfOk result (λ t. t.masks.frames ≡ page_count (length (S.index source.now).names)) }
    ensures each { IfOk result (λ t. length t.masks.masks ≡ length (S.index source.now).names) }
    ensures many { IfOk result (λ t. length t.weights.items ≡ length query.now.terms) }
    ensures weights { IfOk result
        (λ t. t.weights.items ≡ next_weights 0 (session_plan (S.index source.now) query.now.terms)) }
{
    a_session_plan_names_its_segments();
    source.is_searchable();
    let docs = source.docs();
    let plan = plan_of(alloc, source, query)?;
    let masks = Masks::new(alloc, docs, docs.div_ceil(256))?;
    let weights = first_weights(alloc, &plan, query.terms.as_slice().len())?;
    Ok(Tables {
        plan,
        masks,
        weights,
    })
}

/// The greatest weight of each term of a plan.
fn first_weights(alloc: Global, plan: &Plan, terms: usize) -> Result<Vec<u32>, NoMemory>
    requires { All (λ (entry : PlanEntry). entry.term_place < terms) plan.now.entries }
    ensures { IfOk result (λ weights. weights.items
        ≡ map (λ term_place. greatest_at term_place plan.now.entries) (range_with_len 0 terms)) }
{
    let mut weights = match vec![in alloc; 0u32; terms] {
        Ok(weights) => weights,
        Err(_) => return Err(NoMemory),
    };
    let mut from = plan.len();
    'entries: while from > 0 {
        from -= 1;
        raise(&mut weights, plan.entry(from));
    }
    Ok(weights)
}

/// Raises the weight of an entry's term to that of the entry.
fn raise(weights: &mut Vec<u32>, entry: PlanEntry)
    requires { entry.term_place < length weights.old.items }
    ensures { weights.new.items ≡ slice_set weights.old.items entry.term_place
        (max entry.weight (slice_index weights.old.items entry.term_place)) }
{
    let place = entry.term_place as usize;
    weights[place] = entry.weight.max(weights[place]);
}
