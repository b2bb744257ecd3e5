// Decimal numbers out of a text, for programs that replay stored answers.
#![tactic(auto)]

mod scan;

ghost use Rattle.std.specs.Prelude.{◌≡◌};
ghost use Rattle.test_numerals.specs.Rows.{number_at};

pub use scan::Number;

// The first number at or after the place at: what is no digit is passed over. A text with no digit
// left gives 0 and its length.
pub fn number(s: &[u8], at: usize) -> Number
    ensures { result ≡ number_at s.now at }
{
    scan::digits(s, scan::skip(s, at))
}
