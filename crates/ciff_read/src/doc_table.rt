ghost use Rattle.std.specs.Prelude.{◌≡◌, [], IfOk, OnOk};
ghost use Rattle.ciff_read.specs.Private.Table.{with_value, values_of};

use jass_base::{DocRecord, NoMemory, Row};
use std::alloc::Global;

/// Records, each at the place of its document's number.
#[derive(Drop)]
pub struct DocTable {
    pub records: Vec<Option<DocRecord>>,
}

impl DocTable {
    /// No records yet.
    pub fn new(alloc: Global) -> DocTable
        ensures { result.records.items ≡ [] }
    {
        DocTable {
            records: Vec::new(alloc),
        }
    }

    /// Puts the document's record at its place.
    pub fn put(&mut self, doc: u32, entry: DocRecord) -> Result<(), NoMemory>
        ensures { OnOk result (self.new.records.items ≡ with_value self.old.records.items doc entry) }
    {
        let place = doc as usize;
        'reaching: while self.records.len() <= place {
            self.records.push(None)?;
        }
        self.records[place] = Some(entry);
        Ok(())
    }

    /// The records by rising numbers of their documents.
    pub fn into_row(self, alloc: Global) -> Result<Row<DocRecord>, NoMemory>
        ensures { IfOk result (λ row. row ≡ values_of self.records.items) }
    {
        let DocTable { records } = self;
        let mut row = Row::new(alloc);
        'records: for entry in records {
            if let Some(record) = entry {
                match row.push(record) {
                    Ok(()) => {}
                    Err((_, refused)) => return Err(refused),
                }
            }
        }
        Ok(row)
    }
}
