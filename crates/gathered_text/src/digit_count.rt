ghost use Rattle.std.specs.Prelude.{◌≡◌, ◌≤◌, ◌<◌, length, decimal};

/// How many decimal digits a number has. Four go at a time, since most numbers of a line have no more.
pub fn digit_count(number: u64) -> usize
    ensures { result ≡ length (decimal number) }
{
    let mut rest = number;
    let mut behind = 0;
    while rest >= 10_000 {
        rest /= 10_000;
        behind += 4;
    }
    behind + digits_of_few(rest)
}

/// How many decimal digits a number has that has four of them at the most.
fn digits_of_few(number: u64) -> usize
    requires { number < 10000 }
    ensures { result ≡ length (decimal number) }
{
    if number < 10 {
        1
    } else if number < 100 {
        2
    } else if number < 1000 {
        3
    } else {
        4
    }
}

/// The digits of a number that has three of them.
#[inline(always)]
pub fn three_digits(number: u64) -> [u8; 3]
    requires { (100 ≤ number) × (number < 1000) }
    ensures { result ≡ decimal number }
{
    [
        b'0' + (number / 100) as u8,
        b'0' + (number / 10 % 10) as u8,
        b'0' + (number % 10) as u8,
    ]
}
