// Decimal numbers: what they are read for, and their digits.
ghost use Rattle.std.specs.Prelude.{◌≡◌, length, ltb, take_while};
ghost use Rattle.vcd_values.specs.Numbers as rule;

pub(crate) fn is_digit(b: u8) -> bool
    ensures { result ≡ rule.is_digit b }
{
    b.is_ascii_digit()
}

// How many digits a word begins with.
fn leading(word: &[u8]) -> usize
    ensures { result ≡ length (take_while rule.is_digit word.now) }
{
    word.iter().take_while(|b| is_digit(**b)).count()
}

pub(crate) fn has_digits(word: &[u8]) -> bool
    ensures { result ≡ ltb 0 (rule.leading word.now) }
{
    0 < leading(word)
}

pub(crate) fn past_digits(word: &[u8]) -> &[u8]
    ensures { result.now ≡ rule.past_digits word.now }
{
    let n = leading(word);
    &word[n..]
}

pub(crate) fn is_number(word: &[u8]) -> bool
    ensures { result ≡ rule.is_number word.now }
{
    !word.is_empty() && leading(word) == word.len()
}
