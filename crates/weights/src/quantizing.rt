// How weights become impacts.

ghost use Rattle.std.specs.Prelude.{◌≡◌, ◌*◌, ◌/◌, ◌^◌, ◌≤◌};
ghost use Rattle.weights.specs.Quantizing.{empty_range, widened, IsImpactWidth, IsInRange, impact_of};

use crate::impact_limit::GREATEST_IMPACT;

/// How a weight becomes an impact.
#[derive(Clone, Copy, PartialEq, Eq, Debug)]
pub enum Bits {
    /// The weight itself, cut off at 65,535.
    Raw,
    /// Its place in the range of the collection's weights, in 1 to 16 bits.
    Of(u8),
}

/// The least and the greatest weight of a collection.
#[derive(Clone, Copy, PartialEq, Eq, Debug)]
pub struct Range {
    /// The least weight, or `u64::MAX` before the first one.
    pub least: u64,
    /// The greatest weight, or 0 before the first one.
    pub greatest: u64,
}

impl Range {
    /// The range before its first weight, which then becomes both of its ends.
    pub fn new() -> Range
        ensures { result ≡ empty_range }
    {
        Range {
            least: u64::MAX,
            greatest: 0,
        }
    }

    /// Makes the range hold `w` too.
    pub fn widen(&mut self, w: u64)
        ensures { self.new ≡ widened self.old w }
    {
        self.least = self.least.min(w);
        self.greatest = self.greatest.max(w);
    }
}

/// The impact of the weight `w` in a collection whose weights have this range.
///
/// With `Bits::Of(b)` the least weight gets 1 and the greatest 2^b - 1, and those between them their place on the
/// straight line, rounded down. Where both ends are the same each weight gets 1.
pub fn impact_of(bits: Bits, range: Range, w: u64) -> u16
    requires width { IsImpactWidth bits }
    requires in_range { IsInRange bits range w }
    requires some_weight { 1 ≤ w }
    ensures value { result ≡ impact_of bits range w }
    ensures positive { 1 ≤ result }
{
    match bits {
        Bits::Raw => w.min(GREATEST_IMPACT) as u16,
        Bits::Of(_) if range.least == range.greatest => 1,
        Bits::Of(b) => {
            let steps = (1u64 << b) - 2;
            (1 + steps_to(w - range.least, range.greatest - range.least, steps)) as u16
        }
    }
}

/// How many of the steps that divide a width lie within what is above its least end, rounded down.
fn steps_to(above: u64, width: u64, steps: u64) -> u64
    requires some { 1 ≤ width }
    requires above_limit { above ≤ 2 ^ 40 }
    requires steps_limit { steps ≤ 2 ^ 16 }
    ensures { result ≡ above * steps / width }
{
    above * steps / width
}
