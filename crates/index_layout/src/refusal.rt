ghost use Rattle.std.specs.Prelude.{◌≡◌};
ghost use Rattle.index_layout.specs.Refusals.{number_of};

use jass_base::PayloadFault;

/// Why bytes are no index file. The number of each refusal stands beside it.
#[derive(Clone, Copy, Debug, PartialEq, Eq)]
pub enum OpenWhy {
    /// 39: a file of version 1.
    Old,
    /// 40: no index file at all.
    Magic,
    /// 41: the file ends too early or too late.
    Length,
    /// 42: a name that is empty, too long, no UTF-8, or holds a blank or a control character.
    Names,
    /// 43: a term that isn't UTF-8, too long, not above the one before, or not front coded.
    TermOrder,
    /// 44: a term without segments, or a segment's head whose numbers are out of range or order.
    Heads,
    /// 30 to 33: a payload that isn't one.
    Payload(PayloadFault),
    /// 46: a document that an earlier segment of the same term has.
    DocTwice,
    /// 47: the totals aren't those of the segments.
    Totals,
    /// 48: a limit is passed.
    Limit,
}

impl OpenWhy {
    /// The number that is printed for the refusal.
    pub fn number(self) -> u32
        ensures { result ≡ number_of self }
    {
        match self {
            OpenWhy::Old => 39,
            OpenWhy::Magic => 40,
            OpenWhy::Length => 41,
            OpenWhy::Names => 42,
            OpenWhy::TermOrder => 43,
            OpenWhy::Heads => 44,
            OpenWhy::Payload(fault) => fault.number(),
            OpenWhy::DocTwice => 46,
            OpenWhy::Totals => 47,
            OpenWhy::Limit => 48,
        }
    }
}

/// A refusal, and the place in the file where it stands.
#[derive(Clone, Copy, Debug, PartialEq, Eq)]
pub struct OpenRefusal {
    pub at: u64,
    pub why: OpenWhy,
}

/// Why no index file was opened.
#[derive(Clone, Copy, Debug, PartialEq, Eq)]
pub enum OpenFault {
    Refused(OpenRefusal),
    /// The file could not be read, or there is none of this name. Never where the bytes are given.
    ReadFault,
    NoMemory,
}

/// A refusal at a place.
pub fn refused(at: usize, why: OpenWhy) -> OpenFault
    ensures { result ≡ OpenFault.Refused (record { at = at; why = why }) }
{
    OpenFault::Refused(OpenRefusal { at: at as u64, why })
}
