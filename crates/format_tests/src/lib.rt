#![tactic(auto)]

//! Worked rows of the formats: what is read, what is written, and what is refused. They stand in
//! a crate of their own, since a crate that has tests is proved twice.

#[cfg(test)]
mod ciff_reading;
#[cfg(test)]
mod ciff_walking;
#[cfg(test)]
mod ciff_writing;
#[cfg(test)]
mod exporting;
#[cfg(test)]
mod head_bounds;
#[cfg(test)]
mod impacts;
#[cfg(test)]
mod index_reading;
#[cfg(test)]
mod index_spelling;
#[cfg(test)]
mod index_writing;
#[cfg(test)]
mod version1;
