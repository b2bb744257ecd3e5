// Real numbers.
ghost use Rattle.std.specs.Prelude.{◌≡◌};
ghost use Rattle.vcd_values.specs.Numbers as rule;

use crate::numbers::{has_digits, is_number, past_digits};

fn past_sign(word: &[u8]) -> &[u8]
    ensures { result.now ≡ rule.past_sign word.now }
{
    match word {
        [b'+' | b'-', rest @ ..] => rest,
        _ => word,
    }
}

// Nothing, or an exponent.
fn is_exponent(word: &[u8]) -> bool
    ensures { result ≡ rule.is_exponent word.now }
{
    match word {
        [] => true,
        [b'E' | b'e', rest @ ..] => is_number(past_sign(rest)),
        _ => false,
    }
}

// What may stand behind the digits.
fn is_fraction(word: &[u8]) -> bool
    ensures { result ≡ rule.is_fraction word.now }
{
    match word {
        [] => true,
        [b'.', digits @ ..] => has_digits(digits) && is_exponent(past_digits(digits)),
        _ => is_exponent(word),
    }
}

// In any case.
fn is_nameless(word: &[u8]) -> bool
    ensures { result ≡ rule.is_nameless word.now }
{
    word.eq_ignore_ascii_case(b"nan") || word.eq_ignore_ascii_case(b"inf")
}

// A real number, in decimal or as nan or inf.
#[tactic(auto, unfolding(crate::specs::Numbers::is_real))]
pub fn is_real(word: &[u8]) -> bool
    ensures { result ≡ rule.is_real word.now }
{
    let unsigned = past_sign(word);
    is_nameless(unsigned) || has_digits(unsigned) && is_fraction(past_digits(unsigned))
}
