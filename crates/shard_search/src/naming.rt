ghost use Rattle.std.specs.Prelude.{◌≡◌, ◌<◌, length, slice_get};
ghost use Rattle.shard_search.specs.Parts.{file_at};
ghost use Rattle.shard_search.specs.Sums.{file_docs, indexes_of};
ghost use Rattle.shard_search.specs.Union.{union_index};
ghost use Rattle.index_model.specs.Unions.{union_names};

use crate::shards::Shards;
use index_file::IndexFile;
use jass_base::Names;

/// The part of a document, and its number there.
fn place_of(parts: &[IndexFile], doc: u32) -> (usize, u32)
    requires { doc < length (union_names (indexes_of parts.now)) }
    ensures part { result.0 < length parts.now }
    ensures doc { result.1 < file_docs (file_at parts.now result.0) }
    ensures name { slice_get (union_names (indexes_of parts.now)) doc
        ≡ slice_get (file_at parts.now result.0).index.names result.1 }
{
    let mut rest = doc;
    'parts: for i in 0..parts.len() {
        let docs = parts[i].docs();
        if rest < docs {
            return (i, rest);
        }
        rest -= docs;
    }
    (0, 0)
}

impl Names for Shards {
    ghost names = { λ shards. (union_index shards).names };

    fn docs(&self) -> u32 {
        self.docs
    }

    fn name(&self, doc: u32) -> &str {
        let (part, doc) = place_of(self.parts.as_slice(), doc);
        self.parts.as_slice()[part].name(doc)
    }
}
