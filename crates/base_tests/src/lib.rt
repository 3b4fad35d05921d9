#![tactic(auto)]

//! Worked rows of the crates that the others stand on: kernels, codecs, gaps, weights, the ranking, and scores in
//! frames. They stand in a crate of their own, since a crate that has tests is proved twice.

#[cfg(test)]
mod base;
#[cfg(test)]
mod frames;
#[cfg(test)]
mod kernels;
#[cfg(test)]
mod lists;
#[cfg(test)]
mod packed;
#[cfg(test)]
mod pages;
#[cfg(test)]
mod plain;
#[cfg(test)]
mod ranking;
#[cfg(test)]
mod segments;
#[cfg(test)]
mod simple8;
#[cfg(test)]
mod weighing;
