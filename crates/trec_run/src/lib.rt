#![tactic(auto)]

//! The texts of an answer: TREC run lines of six columns, the report line, and the totals line of
//! an index. Writing them takes no memory. A run is read by the same columns, or refused at a line.

mod answer;
mod block;
mod columns;
mod frame;
pub mod laws;
mod line;
mod report;
mod run;
mod run_line;
mod totals;

pub use answer::{gather_answer, put_answer};
pub use report::{gather_report, put_report};
pub use run::read_run;
pub use run_line::{RunFault, RunLine, RunWhy};
pub use totals::put_totals;
