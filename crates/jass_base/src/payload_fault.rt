ghost use Rattle.std.specs.Prelude.{◌≡◌};
ghost use Rattle.jass_base.specs.PayloadFaults.{fault_number};

/// Why bytes are no payload of a segment.
#[derive(Clone, Copy, Debug, PartialEq, Eq)]
pub enum PayloadFault {
    /// The bytes end too early (refusal 30).
    Cut,
    /// Bytes are left over (refusal 31).
    Longer,
    /// Not the one spelling of a list (refusal 32).
    Shape,
    /// A document at or above the number of documents (refusal 33).
    DocRange,
}

impl PayloadFault {
    /// The number that is printed for the refusal.
    pub fn number(self) -> u32
        ensures { result ≡ fault_number self }
    {
        match self {
            PayloadFault::Cut => 30,
            PayloadFault::Longer => 31,
            PayloadFault::Shape => 32,
            PayloadFault::DocRange => 33,
        }
    }
}
