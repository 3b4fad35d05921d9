use crate::head_table::HeadTable;
use crate::term_row::TermRow;
use jass_base::Row;

/// The terms of a file: their text one after the other, a row for each and one behind them, and their heads.
#[derive(Drop)]
pub(crate) struct TermTable {
    pub(crate) text: Row<u8>,
    pub(crate) rows: Row<TermRow>,
    pub(crate) heads: HeadTable,
}
