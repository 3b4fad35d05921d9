#![tactic(auto)]

//! The program's worked examples. They stand in a crate of their own, since a crate that has tests is proved twice.

#[cfg(test)]
mod commands;
