ghost use Rattle.std.specs.Prelude.{◌≡◌};
ghost use Rattle.wire_fields.specs.Numbers.{fault_number};

/// Why bytes are no field.
#[derive(Clone, Copy, Debug, PartialEq, Eq)]
pub enum WireWhy {
    /// The bytes end too early.
    Cut,
    /// A varint has a tenth byte above 1, so its value doesn't fit 64 bits.
    LongVarint,
    /// A wire type of 3, 4, 6 or 7.
    BadWire,
    /// A field number of 0 or above 536,870,911.
    FieldNumber,
}

impl WireWhy {
    /// The fault's number, 1 to 4 in the order above.
    pub fn number(self) -> u32
        ensures { result ≡ fault_number self }
    {
        match self {
            WireWhy::Cut => 1,
            WireWhy::LongVarint => 2,
            WireWhy::BadWire => 3,
            WireWhy::FieldNumber => 4,
        }
    }
}

/// A fault, and the place of the varint or of the field's first byte.
#[derive(Clone, Copy, Debug, PartialEq, Eq)]
pub struct WireFault {
    pub at: usize,
    pub why: WireWhy,
}
