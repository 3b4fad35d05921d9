#![tactic(auto)]

//! What every crate of the engine stands on: the plain types with what they keep, the
//! outside (files, input, output) as traits whose clauses say what an implementation may
//! do, implementations of these in memory, and the counter of steps.

mod answer;
mod cabinet;
mod collection;
mod copy_at;
mod count_sink;
mod decimal;
mod doc_record;
mod faults;
mod feed;
mod file_sink;
mod gap;
mod header;
mod impact_index;
pub mod laws;
mod lexicon;
pub mod limits;
mod mem_cabinet;
mod mem_feed;
mod mem_sink;
mod names;
mod payload_fault;
mod posting;
mod postings_list;
mod query;
mod query_term;
mod row;
mod scripted;
mod segment;
mod sink;
mod slice_feed;
mod steps;
mod term_segments;
mod text;

pub use answer::{Budget, Grade, Hit, Report, Totals};
pub use cabinet::Cabinet;
pub use collection::Collection;
pub use count_sink::CountSink;
pub use decimal::read_decimal;
pub use doc_record::DocRecord;
pub use faults::{Failed, NoMemory, ReadFault, ReadStop, WriteFault};
pub use feed::Feed;
pub use file_sink::FileSink;
pub use gap::{gap_length, known_gap, put_gap, read_gap};
pub use header::Header;
pub use impact_index::ImpactIndex;
pub use lexicon::Lexicon;
pub use mem_cabinet::MemCabinet;
pub use mem_feed::MemFeed;
pub use mem_sink::MemSink;
pub use names::Names;
pub use payload_fault::PayloadFault;
pub use posting::Posting;
pub use postings_list::PostingsList;
pub use query::Query;
pub use query_term::QueryTerm;
pub use row::Row;
pub use scripted::Scripted;
pub use segment::Segment;
pub use sink::Sink;
pub use slice_feed::SliceFeed;
pub use steps::Steps;
pub use term_segments::TermSegments;
pub use text::Text;
