ghost use Rattle.std.specs.Prelude.{◌≡◌};
ghost use Rattle.index_file.specs.Places.{texts_of};

use crate::file::IndexFile;
use crate::source::Source;
use jass_base::{Lexicon, Names};

/// A source of segments that also finds a term by its bytes, and tells the name of a document: a query of words is
/// asked of it, and answered by name.
pub trait NamedSource: Source + Names + Lexicon {
    /// That names and terms are those of the index: a caller learns it by the call.
    fn tells_its_index(&self)
        ensures names { Self.names self.now ≡ (Self.index self.now).names }
        ensures terms { Self.terms self.now ≡ texts_of (Self.index self.now).terms };
}

impl NamedSource for IndexFile {
    fn tells_its_index(&self) {}
}
