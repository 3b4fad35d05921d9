//! The documents of a file, whose names stand one behind the other.

ghost use Rattle.std.specs.Prelude.{◌≡◌, ◌≤◌, [], ◌∷◌, ◌++◌, All, IfOk, OnOk, length, map, slice_range};
ghost use Rattle.index_write.specs.Spelled.{AreSpelledNames};
ghost use Rattle.index_import.specs.declared.kept_docs.KeptDoc.{KeptDoc};
ghost use Rattle.index_import.specs.Private.KeptDocs.{AreInOrder, IsKept, lengths_in, names_in, numbered, records_at};
ghost use Rattle.jass_base.specs.declared.limits.TheConstants.{MOST_DOCUMENTS};

use index_write::SpelledNames;
use jass_base::{DocRecord, NoMemory, Row, Text};
use std::alloc::Global;
use std::marker::Model;

/// A document: its number and its length, and where its name stands among the bytes of all names.
#[derive(Clone, Copy)]
pub(crate) struct KeptDoc {
    pub number: u32,
    pub length: u32,
    pub from: usize,
    pub to: usize,
}

/// The documents of a file. Contracts see them as their records.
#[derive(Drop)]
pub(crate) struct KeptDocs {
    /// The names one behind the other, so that none takes memory of its own.
    bytes: Vec<u8>,
    docs: Vec<KeptDoc>,
}

impl Model for KeptDocs {
    ghost use Rattle.std.specs.Prelude.{All, List};
    ghost use Rattle.ciff_read.specs.Judging.{NumberedDoc};
    ghost use Rattle.index_import.specs.Private.KeptDocs.{IsKept, records_at};

    ghost Value = { List NumberedDoc };

    ghost view = { λ k. records_at k.bytes.items k.docs.items };

    ghost invariant = { λ k. All (IsKept k.bytes.items) k.docs.items };
}

impl KeptDocs {
    /// No documents yet.
    pub fn new(alloc: Global) -> KeptDocs
        ensures { result ≡ [] }
    {
        KeptDocs {
            bytes: Vec::new(alloc),
            docs: Vec::new(alloc),
        }
    }

    /// Keeps one document more, with a copy of its name.
    pub fn push(&mut self, number: u32, item: DocRecord) -> Result<(), NoMemory>
        ensures { OnOk result (self.new ≡ self.old ++ numbered (number, item) ∷ []) }
    {
        let length = item.length;
        let from = self.bytes.len();
        let extended = self.bytes.extend_from_slice(item.name.as_str().as_bytes());
        drop(item);
        extended?;
        let to = self.bytes.len();
        let doc = KeptDoc {
            number,
            length,
            from,
            to,
        };
        // Where memory is refused the bytes stay behind the others, and are no document's.
        self.docs.push(doc)?;
        Ok(())
    }

    /// Puts the documents in order by rising numbers.
    pub fn put_in_order(&mut self) -> Result<(), NoMemory>
        ensures { OnOk result (AreInOrder self.old self.new) }
    {
        self.docs.sort_by(|a, b| a.number.cmp(&b.number))?;
        Ok(())
    }

    /// The lengths of the documents.
    pub fn lengths(&self, alloc: Global) -> Result<Vec<u32>, NoMemory>
        ensures { IfOk result (λ lengths. lengths.items ≡ lengths_in self.now) }
    {
        lengths_of(alloc, &self.docs)
    }

    /// The names of the documents, as an index file has them.
    pub fn spelled_names(&self, alloc: Global) -> Result<SpelledNames, NoMemory>
        requires { length self.now ≤ MOST_DOCUMENTS }
        ensures { IfOk result (λ names. AreSpelledNames names (names_in self.now)) }
    {
        spelled_of(alloc, &self.bytes, &self.docs)
    }

    /// The names of the documents, each as a text.
    pub fn names(&self, alloc: Global) -> Result<Row<Text>, NoMemory>
        ensures { IfOk result (λ names. names ≡ names_in self.now) }
    {
        names_of(alloc, &self.bytes, &self.docs)
    }
}

fn lengths_of(alloc: Global, docs: &[KeptDoc]) -> Result<Vec<u32>, NoMemory>
    ensures { IfOk result (λ lengths. lengths.items ≡ map (λ (d : KeptDoc). d.length) docs.now) }
{
    let mut lengths = Vec::with_capacity(alloc, docs.len())?;
    for doc in docs {
        lengths.push(doc.length)?;
    }
    Ok(lengths)
}

/// The name of a document, which stands among these bytes.
fn name_at(bytes: &[u8], doc: KeptDoc) -> &str
    requires { IsKept bytes.now doc }
    ensures { result.now ≡ slice_range bytes.now doc.from doc.to }
{
    unsafe { std::str::from_utf8_unchecked(&bytes[doc.from..doc.to]) }
}

/// The names of documents, which stand among these bytes, as an index file has them.
fn spelled_of(alloc: Global, bytes: &[u8], docs: &[KeptDoc]) -> Result<SpelledNames, NoMemory>
    requires kept { All (IsKept bytes.now) docs.now }
    requires few { length docs.now ≤ MOST_DOCUMENTS }
    ensures { IfOk result (λ names. AreSpelledNames names (names_in (records_at bytes.now docs.now))) }
{
    let mut names = SpelledNames::with_room(alloc, bytes.len().saturating_add(4 * docs.len()));
    for doc in docs {
        names.push(name_at(bytes, *doc))?;
    }
    Ok(names)
}

/// The names of documents, which stand among these bytes, each as a text.
fn names_of(alloc: Global, bytes: &[u8], docs: &[KeptDoc]) -> Result<Row<Text>, NoMemory>
    requires { All (IsKept bytes.now) docs.now }
    ensures { IfOk result (λ names. names ≡ names_in (records_at bytes.now docs.now)) }
{
    let mut names = Row::with_room(alloc, docs.len())?;
    for doc in docs {
        names.push(Text::from_str(alloc, name_at(bytes, *doc))?)?;
    }
    Ok(names)
}
