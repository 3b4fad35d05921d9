ghost use Rattle.std.specs.Prelude.{◌≡◌};
ghost use Rattle.index_file.specs.Sources.{piece_count};

/// Some documents of a segment, as a source hands them out.
#[derive(Clone, Copy)]
pub enum Piece<'a> {
    /// So many documents, which stand at the front of the block that was passed.
    Block {
        count: u32,
    },
    /// The documents whose bits are set, which are so many: bit i of the bytes is that of document 128 * row + i. Bit 0
    /// is the lowest bit of the first byte.
    Bits {
        row: u32,
        bits: &'a [u8],
        count: u32,
    },
}

impl<'a> Piece<'a> {
    /// How many documents it has.
    pub fn count(&self) -> u32
        ensures { result ≡ piece_count self.now }
    {
        match self {
            Piece::Block { count } => *count,
            Piece::Bits {
                row: _,
                bits: _,
                count,
            } => *count,
        }
    }
}
