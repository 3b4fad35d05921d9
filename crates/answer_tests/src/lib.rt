#![tactic(auto)]

//! Worked rows of an answer: queries, plans, scores, sessions, desks and what is printed. They stand in a crate of their own,
//! since a crate that has tests is proved twice.

#[cfg(test)]
mod audits;
#[cfg(test)]
mod cursors;
#[cfg(test)]
mod desks;
#[cfg(test)]
mod feeds;
#[cfg(test)]
mod grades;
#[cfg(test)]
mod heaps;
#[cfg(test)]
mod plans;
#[cfg(test)]
mod queries;
#[cfg(test)]
mod runs;
#[cfg(test)]
mod scores;
#[cfg(test)]
mod sessions;
#[cfg(test)]
mod shards;
#[cfg(test)]
mod texts;
#[cfg(test)]
mod trials;
#[cfg(test)]
mod words;
