// Times and sizes.
ghost use Rattle.std.specs.Prelude.{◌≡◌};
ghost use Rattle.vcd_values.specs.Numbers as rule;

use crate::numbers::{is_digit, is_number};

// A size: no wider than a bit, or wider.
#[derive(Clone, Copy)]
pub enum Width {
    Bit,
    Wide,
}

// A time, by its value: leading zeros do not count. No number, or one of more than 64 bits, is none.
pub fn time(word: &[u8]) -> Option<u64>
    ensures { result ≡ rule.time_of word.now }
{
    if word.is_empty() {
        return None;
    }
    let mut value: u64 = 0;
    for b in word {
        if !is_digit(*b) {
            return None;
        }
        let tens = value.checked_mul(10)?;
        value = tens.checked_add(u64::from(*b - b'0'))?;
    }
    Some(value)
}

// A size that is no time is wide, if it is a number.
pub fn size(word: &[u8]) -> Option<Width>
    ensures { result ≡ rule.size_of word.now }
{
    match time(word) {
        Some(n) => Some(if 1 < n { Width::Wide } else { Width::Bit }),
        None => is_number(word).then_some(Width::Wide),
    }
}
