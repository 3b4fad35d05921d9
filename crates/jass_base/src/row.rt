ghost use Rattle.std.specs.Prelude.{◌≡◌, ◌==◌, ◌∷◌, [], ◌++◌, length, take, IfOk, OnOk, OnErr, IfErr};

use crate::faults::NoMemory;
use std::alloc::Global;
use std::marker::Model;

/// An owned vector. Contracts see it as its list.
#[derive(Debug, Drop)]
pub struct Row<T> {
    vec: Vec<T>,
}

impl<T> Model for Row<T> {
    ghost use Rattle.std.specs.Prelude.{List};

    ghost Value = { List T };

    ghost view = { λ r. r.vec.items };
}

impl<T> Row<T> {
    /// An empty row, which takes no memory yet.
    pub fn new(alloc: Global) -> Row<T>
        ensures { result ≡ [] }
    {
        Row {
            vec: Vec::new(alloc),
        }
    }

    /// An empty row that has room for so many values, so that they are never moved.
    pub fn with_room(alloc: Global, count: usize) -> Result<Row<T>, NoMemory>
        ensures { IfOk result (λ row. row ≡ []) }
    {
        Ok(Row {
            vec: Vec::with_capacity(alloc, count)?,
        })
    }

    /// Puts a value at the end, or hands it back where memory is refused.
    pub fn push(&mut self, value: T) -> Result<(), (T, NoMemory)>
        ensures ok { OnOk result (self.new ≡ self.old ++ value ∷ []) }
        ensures err { OnErr result (self.new ≡ self.old) }
        ensures value_returned { IfErr result (λ e. e.0 ≡ value) }
    {
        match self.vec.push(value) {
            Ok(()) => Ok(()),
            Err(refused) => Err((refused.value, NoMemory)),
        }
    }

    pub fn len(&self) -> usize
        ensures { result ≡ length self.now }
    {
        self.vec.len()
    }

    pub fn is_empty(&self) -> bool
        ensures { result ≡ (length self.now == 0) }
    {
        self.vec.is_empty()
    }

    pub fn as_slice(&self) -> &[T]
        ensures { result.now ≡ self.now }
    {
        self.vec.as_slice()
    }

    /// The row of a vector, and below the vector of a row: values are sorted and moved out
    /// of a row as a vector.
    pub fn from_vec(items: Vec<T>) -> Row<T>
        ensures { result ≡ items.items }
    {
        Row { vec: items }
    }

    pub fn into_vec(self) -> Vec<T>
        ensures { result.items ≡ self }
    {
        let Row { vec } = self;
        vec
    }
}

impl<T: Copy> Row<T> {
    /// Appends all items, or none where memory is refused.
    pub fn extend(&mut self, items: &[T]) -> Result<(), NoMemory>
        ensures ok { OnOk result (self.new ≡ self.old ++ items.now) }
        ensures err { OnErr result (self.new ≡ self.old) }
    {
        match self.vec.extend_from_slice(items) {
            Ok(()) => Ok(()),
            Err(_) => Err(NoMemory),
        }
    }
}

impl<T: Drop> Row<T> {
    /// Keeps the first `len` items, or all where there are fewer.
    pub fn truncate(&mut self, len: usize)
        ensures { self.new ≡ take len self.old }
    {
        self.vec.truncate(len);
    }
}
