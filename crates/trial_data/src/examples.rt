//! The definitions on small trials, by computation.

ghost use Rattle.std.specs.Prelude.{◌≡◌, ◌∷◌, [], codes};
ghost use Rattle.trial_data.specs.Examples.{small_trial};
ghost use Rattle.trial_data.specs.Generator.{drawn, next_state};
ghost use Rattle.trial_data.specs.Trials.{trial_collection, trial_queries, trial_state};

/// The first three numbers of seed 1.
#[tactic(auto, unfolding(crate::specs::Generator::next_state, crate::specs::Generator::drawn))]
pub fn the_first_numbers_of_a_seed()
    ensures first { drawn (next_state 1) ≡ 4310654 }
    ensures second { drawn (next_state (next_state 1)) ≡ 1474224 }
    ensures third { drawn (next_state (next_state (next_state 1))) ≡ 2589156 }
{}

/// The trial of four documents and one term by seed 1: its collection, the state behind it, and its
/// first query.
pub fn a_small_trial()
    ensures collection { trial_collection 1 4 1 ≡ small_trial }
    ensures state { trial_state 1 4 1 ≡ next_state 486256185 }
    ensures query { trial_queries 1 4 1 1 ≡ (codes "t0" ∷ codes "t0" ∷ codes "t0" ∷ []) ∷ [] }
{}
