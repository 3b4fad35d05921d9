// The binary logarithm in whole numbers.

ghost use Rattle.std.specs.Prelude.{◌≡◌, ℕ, ◌+◌, ◌-◌, ◌*◌, ◌/◌, ◌^◌, ◌<◌, ◌≤◌};
ghost use Rattle.weights.specs.Logarithm.{lg};

/// 1,024 times the binary logarithm of `x`: exact at the powers of two, and rounded down on the straight line between
/// two of them. It is 0 at 1 and 65,535 at the greatest `u64`.
pub fn lg(x: u64) -> u32
    requires { 1 ≤ x }
    ensures value { result ≡ lg x }
    ensures formula { (e : ℕ) → 2 ^ e ≤ x → x < 2 ^ (e + 1) → result ≡ 1024 * e + (x - 2 ^ e) * 1024 / 2 ^ e }
{
    let exponent = x.ilog2();
    // Up to 63 bits, so that ten more don't fit 64.
    let above = u128::from(x - (1 << exponent));
    1024 * exponent + ((above * 1024) >> exponent) as u32
}
