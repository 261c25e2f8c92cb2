//! Bytes as people write them in packets: two hexadecimal digits each.

#![tactic(auto)]

ghost use Rattle.std.specs.Prelude.{◌≡◌};
ghost use Rattle.hexadecimal.specs.Digits.{digit_of, byte_of};

use std::fmt;

fn digit(c: u8) -> Option<u8>
    ensures { result ≡ digit_of c }
{
    char::from(c).to_digit(16).map(|value| value as u8)
}

/// A byte of two digits, in either case.
pub fn byte(word: &str) -> Option<u8>
    ensures { result ≡ byte_of word.now }
{
    match word.as_bytes() {
        [high, low] => Some(digit(*high)? * 16 + digit(*low)?),
        _ => None,
    }
}

/// Bytes to be shown, in upper case and separated by spaces.
#[derive(Clone, Copy, Debug, PartialEq, Eq)]
pub struct Hex<'a>(pub &'a [u8]);

impl fmt::Display for Hex<'_> {
    fn fmt<W: fmt::Write>(&self, f: &mut fmt::Formatter<W>) -> fmt::Result {
        // No chain: a gap stands between two bytes, and `fmt` may not make a text to join.
        let mut gap = "";
        for byte in self.0 {
            write!(f, "{gap}{byte:02X}")?;
            gap = " ";
        }
        Ok(())
    }
}
