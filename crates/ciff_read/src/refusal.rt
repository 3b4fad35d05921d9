ghost use Rattle.std.specs.Prelude.{◌≡◌};
ghost use Rattle.ciff_read.specs.Refusals.{number_of, why_of};

use wire_fields::{WireFault, WireWhy};

/// Why bytes are no CIFF file. The number of each refusal stands beside it.
#[derive(Clone, Copy, Debug, PartialEq, Eq)]
pub enum CiffWhy {
    /// 10: the file, a message or a posting ends too early.
    Cut,
    /// 11: a varint whose value doesn't fit 64 bits.
    Varint,
    /// 12: a wire type of 3, 4, 6 or 7, or a bad field number.
    Wire,
    /// 13: a number outside the range of its signed type, or below 0.
    Range,
    /// 14: a string that isn't UTF-8.
    Text,
    /// 15: a posting, not the first, whose gap is 0.
    Gap,
    /// 16: a document at or above the number of documents.
    DocRange,
    /// 17: a posting whose tf is 0.
    Tf,
    /// 18: a term that an earlier list has.
    TermTwice,
    /// 19: a document that an earlier record has.
    DocTwice,
    /// 20: a document's name that is empty, too long, or holds a blank or a control character.
    NameText,
    /// 21: bytes behind the last message.
    Trailing,
    /// 22: a limit is passed.
    Limit,
    /// 23: what is read again isn't what was read before: of two numbers that should agree the
    /// one that was kept, and the one that was found. Never from `read_collection`.
    Changed { kept: u64, found: u64 },
}

impl CiffWhy {
    /// The number that is printed for the refusal.
    pub fn number(self) -> u32
        ensures { result ≡ number_of self }
    {
        match self {
            CiffWhy::Cut => 10,
            CiffWhy::Varint => 11,
            CiffWhy::Wire => 12,
            CiffWhy::Range => 13,
            CiffWhy::Text => 14,
            CiffWhy::Gap => 15,
            CiffWhy::DocRange => 16,
            CiffWhy::Tf => 17,
            CiffWhy::TermTwice => 18,
            CiffWhy::DocTwice => 19,
            CiffWhy::NameText => 20,
            CiffWhy::Trailing => 21,
            CiffWhy::Limit => 22,
            CiffWhy::Changed { .. } => 23,
        }
    }
}

/// A refusal, and the place in the file where it stands.
#[derive(Clone, Copy, Debug, PartialEq, Eq)]
pub struct CiffRefusal {
    pub at: u64,
    pub why: CiffWhy,
}

/// Why no collection was read.
#[derive(Clone, Copy, Debug, PartialEq, Eq)]
pub enum CiffFault {
    Refused(CiffRefusal),
    /// The file could not be read. Never from `read_collection`, which is given the bytes.
    ReadFault,
    NoMemory,
}

/// A refusal at a place.
pub fn refused(at: usize, why: CiffWhy) -> CiffFault
    ensures { result ≡ CiffFault.Refused (record { at = at; why = why }) }
{
    CiffFault::Refused(CiffRefusal { at: at as u64, why })
}

/// What a fault in the fields is as a refusal of the file.
pub fn refused_field(fault: WireFault) -> CiffFault
    ensures { result ≡ CiffFault.Refused (record { at = fault.at; why = why_of fault.why }) }
{
    let why = match fault.why {
        WireWhy::Cut => CiffWhy::Cut,
        WireWhy::LongVarint => CiffWhy::Varint,
        WireWhy::BadWire | WireWhy::FieldNumber => CiffWhy::Wire,
    };
    refused(fault.at, why)
}
