//! Numbers as packets have them: digits of four bits, one to a byte, highest first.

ghost use Rattle.std.specs.Prelude.{◌≡◌};
ghost use Rattle.rows.specs.Digits.{from_digit as digit_read, from_level as level_read, from_digits as digits_read, signed as signed_of, bits as bits_of, digits as digits_of};

/// The number of `0p`.
pub(crate) fn from_digit(p: u8) -> Option<u8>
    ensures { result ≡ digit_read p }
{
    match p {
        0..=15 => Some(p),
        _ => None,
    }
}

/// The number of `00 00 0p 0q`.
pub(crate) fn from_level(digits: [u8; 4]) -> Option<u8>
    ensures { result ≡ level_read digits }
{
    match digits {
        [0, 0, p @ 0..=15, q @ 0..=15] => Some(p * 16 + q),
        _ => None,
    }
}

/// The number of four digits.
pub(crate) fn from_digits(digits: [u8; 4]) -> Option<u16>
    ensures { result ≡ digits_read digits }
{
    match digits.map(u16::from) {
        [p @ 0..=15, q @ 0..=15, r @ 0..=15, s @ 0..=15] => Some(p * 4096 + q * 256 + r * 16 + s),
        _ => None,
    }
}

/// Sixteen bits in two's complement.
pub(crate) fn signed(n: u16) -> i32
    ensures { result ≡ signed_of n }
{
    i32::from(n.cast_signed())
}

// And back: the lowest sixteen bits of a value.
fn bits(value: i32) -> u16
    ensures { result ≡ bits_of value }
{
    value.rem_euclid(0x1_0000) as u16
}

/// The four digits of a value's lowest sixteen bits.
pub(crate) fn digits(value: i32) -> [u8; 4]
    ensures { result ≡ digits_of (bits_of value) }
{
    let n = bits(value);
    [
        (n / 4096) as u8,
        (n / 256 % 16) as u8,
        (n / 16 % 16) as u8,
        (n % 16) as u8,
    ]
}
