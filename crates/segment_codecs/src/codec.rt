ghost use Rattle.std.specs.Prelude.{◌≡◌};
ghost use Rattle.segment_codecs.specs.Codecs.{codec_number, codec_of};

/// How the documents of a segment are spelled.
#[derive(Clone, Copy, Debug, PartialEq, Eq)]
pub enum Codec {
    /// Gaps as shortest varints.
    Varbyte,
    /// Gaps in packed blocks of 128, the last ones as varints.
    Packed,
    /// A bit for each document of the index.
    Bitmap,
    /// Gaps in words of 64 bits.
    Simple8,
}

impl Codec {
    /// The codec's number in an index file, 0 to 3.
    pub fn number(self) -> u8
        ensures { result ≡ codec_number self }
    {
        match self {
            Codec::Varbyte => 0,
            Codec::Packed => 1,
            Codec::Bitmap => 2,
            Codec::Simple8 => 3,
        }
    }

    /// The codec with this number, and `None` above 3.
    pub fn from_number(number: u8) -> Option<Codec>
        ensures { result ≡ codec_of number }
    {
        match number {
            0 => Some(Codec::Varbyte),
            1 => Some(Codec::Packed),
            2 => Some(Codec::Bitmap),
            3 => Some(Codec::Simple8),
            _ => None,
        }
    }
}
