#![tactic(auto)]

//! Lemmas on lists, numbers, bits and texts that the proofs of several crates need, and that
//! the standard library lacks. They speak of its words alone and stand in `proofs/`; there is no
//! code.
