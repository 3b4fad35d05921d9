#![tactic(auto)]

//! Makes an index file of a CIFF file in passes over the file, with one list and the postings that
//! were kept in memory.
//! The first pass judges the file, and keeps the documents' names and lengths, the place of each
//! list, and the postings of lists while there is room. The second finds the range of all weights,
//! and passes over each list that can't widen it; the third spells the terms with the heads of their
//! segments and the payloads, for which it reads again the lists whose postings weren't kept. Of a
//! collection with many postings it finds the heads alone, and a last pass writes the payloads.

mod fault;
mod heads;
mod import;
mod kept_docs;
mod kept_postings;
mod list_entry;
mod list_term;
mod outline;
mod passed_sizes;
mod ranging;
mod reading;
mod spelling;
mod survey;
mod weighing;
mod writing;

pub use fault::ImportFault;
pub use import::import_file;
