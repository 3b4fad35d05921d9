//! Names of documents, spelled as they come.

ghost use Rattle.std.specs.Prelude.{◌≡◌, ◌<◌, ◌≤◌, [], ◌∷◌, ◌++◌, List, ℕ, length, OnOk};
ghost use Rattle.index_write.specs.Spelled.{AreSpelledNames};
ghost use Rattle.jass_base.specs.declared.limits.TheConstants.{LONGEST_NAME, MOST_DOCUMENTS};

use crate::front::put_name;
use jass_base::{NoMemory, Row};
use std::alloc::Global;
use std::marker::Model;

/// Names of documents in the bytes that an index file has of them, so that no name takes memory of
/// its own.
#[derive(Drop)]
pub struct SpelledNames {
    bytes: Row<u8>,
    count: u32,
}

impl Model for SpelledNames {
    ghost use Rattle.index_write.specs.Spelled.{NamesView};

    ghost Value = { NamesView };

    ghost view = { λ s. record { bytes = s.bytes; count = s.count } };
}

impl SpelledNames {
    /// No names yet, in a row that has room for so many bytes, where these are given.
    pub fn with_room(alloc: Global, room: usize) -> SpelledNames
        ensures { AreSpelledNames result [] }
    {
        SpelledNames {
            bytes: roomy_row(alloc, room),
            count: 0,
        }
    }

    /// Puts a name behind the others. After an error these are of no more use.
    pub fn push(&mut self, name: &str) -> Result<(), NoMemory>
        requires { length name.now ≤ LONGEST_NAME }
        ensures { OnOk result ((names : List (List ℕ)) → AreSpelledNames self.old names
            → length names < MOST_DOCUMENTS → AreSpelledNames self.new (names ++ name.now ∷ [])) }
    {
        put_name(name, &mut self.bytes)?;
        self.count = self.count.saturating_add(1);
        Ok(())
    }

    /// The bytes of the names.
    pub(crate) fn as_slice(&self) -> &[u8]
        ensures { result.now ≡ self.now.bytes }
    {
        self.bytes.as_slice()
    }

    /// How many names these are.
    pub(crate) fn len(&self) -> u32
        ensures { result ≡ self.now.count }
    {
        self.count
    }
}

/// An empty row that has room for so many bytes, or for none yet where they aren't given.
fn roomy_row(alloc: Global, room: usize) -> Row<u8>
    ensures { result ≡ [] }
{
    match Row::with_room(alloc, room) {
        Ok(row) => row,
        Err(_) => Row::new(alloc),
    }
}
