// The walk over a text: to the next digit, and over the digits.
ghost use Rattle.std.specs.Prelude.{◌≡◌, ◌-◌};
ghost use Rattle.test_numerals.specs.Rows.{is_digit, skipped, digits_at};

// A number of a text, and the place after its last digit.
#[derive(Clone, Copy, Debug, PartialEq, Eq)]
pub struct Number {
    pub value: u64,
    pub next: usize,
}

fn digit(b: u8) -> bool
    ensures { result ≡ is_digit b }
{
    matches!(b, b'0'..=b'9')
}

// What a digit counts.
fn figure(b: u8) -> u64
    ensures { result ≡ b - 48 }
{
    (b as u64).saturating_sub(48)
}

// The place of the first digit at or after the place at, or the text's end.
pub(crate) fn skip(s: &[u8], at: usize) -> usize
    ensures { result ≡ skipped s.now at }
{
    for i in at..s.len() {
        if digit(s[i]) {
            return i;
        }
    }
    s.len()
}

// The number whose digits begin at the place at.
pub(crate) fn digits(s: &[u8], at: usize) -> Number
    ensures { result ≡ digits_at s.now at }
{
    let mut value: u64 = 0;
    for i in at..s.len() {
        let b = s[i];
        if !digit(b) {
            return Number { value, next: i };
        }
        value = value.saturating_mul(10).saturating_add(figure(b));
    }
    Number {
        value,
        next: at.max(s.len()),
    }
}
