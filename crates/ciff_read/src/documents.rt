ghost use Rattle.std.specs.Prelude.{◌≡◌, ◌∷◌, [], ◌++◌, IfOk, OnOk};
ghost use Rattle.ciff_read.specs.Judging.{is_among};
ghost use Rattle.ciff_read.specs.Private.Places.{seen_in, AreMarked};
ghost use Rattle.ciff_read.specs.Private.Table.{table_with, values_of};

use crate::doc_set::DocSet;
use crate::doc_table::DocTable;
use jass_base::{DocRecord, NoMemory, Row};
use std::alloc::Global;

/// The records of documents so far with their numbers, as they came. They lie in order only
/// once all are there: a table for the greatest number of a short file would cost far more
/// than the file.
#[derive(Drop)]
pub struct Documents {
    pub numbers: DocSet,
    pub records: Vec<(u32, DocRecord)>,
}

impl Documents {
    /// No records yet.
    pub fn new(alloc: Global) -> Documents
        ensures none { result.records.items ≡ [] }
        ensures marked { AreMarked result }
    {
        Documents {
            numbers: DocSet::new(alloc),
            records: Vec::new(alloc),
        }
    }

    /// Whether the document's record is there.
    pub fn has(&self, doc: u32) -> bool
        requires { AreMarked self.now }
        ensures { result ≡ is_among doc (seen_in self.now) }
    {
        self.numbers.contains(doc)
    }

    /// Puts the document's record to those before.
    pub fn put(&mut self, doc: u32, entry: DocRecord) -> Result<(), NoMemory>
        requires { AreMarked self.old }
        ensures records { OnOk result (self.new.records.items ≡ self.old.records.items ++ (doc, entry) ∷ []) }
        ensures marked { OnOk result (AreMarked self.new) }
    {
        self.numbers.insert(doc)?;
        self.records.push((doc, entry))?;
        Ok(())
    }

    /// The records by rising numbers of their documents.
    pub fn into_row(self, alloc: Global) -> Result<Row<DocRecord>, NoMemory>
        ensures { IfOk result (λ row. row ≡ values_of (table_with self.records.items)) }
    {
        let Documents {
            numbers: _,
            records,
        } = self;
        let mut table = DocTable::new(alloc);
        'records: for (doc, record) in records {
            table.put(doc, record)?;
        }
        table.into_row(alloc)
    }
}
