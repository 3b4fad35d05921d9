ghost use Rattle.std.specs.Prelude.{◌≡◌, ◌<◌, ◌+◌, ◌*◌, ◌^◌, IsTrue};
ghost use Rattle.std.specs.Char.{digit_value, is_ascii_digit};
ghost use Rattle.std.specs.Option.{SomeIff};
ghost use Rattle.jass_base.specs.Decimal.{decimal_of};
ghost use Rattle.jass_base.specs.Private.Decimal.{value_after};

/// The number that 1 to 20 ASCII digits stand for. Leading zeros are allowed. None exactly
/// where the bytes are something else, or the number is 2^64 or more.
pub fn read_decimal(bytes: &[u8]) -> Option<u64>
    ensures { result ≡ decimal_of bytes.now }
{
    if bytes.is_empty() {
        return None;
    }
    if bytes.len() > 20 {
        return None;
    }
    value_of(bytes)
}

/// The number that digits stand for, be they none or many.
fn value_of(bytes: &[u8]) -> Option<u64>
    ensures { result ≡ value_after 0 bytes.now }
{
    let mut value: u64 = 0;
    for byte in bytes {
        let Some(digit) = digit_of(*byte) else {
            return None;
        };
        let Some(next) = followed_by(value, digit) else {
            return None;
        };
        value = next;
    }
    Some(value)
}

/// The value of an ASCII digit.
fn digit_of(byte: u8) -> Option<u64>
    ensures { SomeIff result (IsTrue (is_ascii_digit byte)) (digit_value byte) }
{
    if byte.is_ascii_digit() {
        Some(u64::from(byte - b'0'))
    } else {
        None
    }
}

/// The number with one more digit at its end.
fn followed_by(value: u64, digit: u64) -> Option<u64>
    ensures { SomeIff result (value * 10 + digit < 2 ^ 64) (value * 10 + digit) }
{
    match value.checked_mul(10) {
        Some(tens) => tens.checked_add(digit),
        None => None,
    }
}
