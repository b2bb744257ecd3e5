// The values of a change.
ghost use Rattle.std.specs.Prelude.{◌≡◌};
ghost use Rattle.vcd_values.specs.Levels as rule;

// The level of x and z, and of a real number; the others are 0 and 1. Numbers, as `Body` and `Bus` have
// them: what may not change, since callers of `feed` and `takes` hand these in, and an enum is narrower.
pub const UNKNOWN: u8 = 2;

// A digit of a value.
#[tactic(auto, unfolding(crate::specs::Levels::level))]
pub fn level(b: u8) -> Option<u8>
    ensures { result ≡ rule.level b }
{
    match b {
        b'0' => Some(0),
        b'1' => Some(1),
        b'X' | b'Z' | b'x' | b'z' => Some(UNKNOWN),
        _ => None,
    }
}

// A vector, by its last digit.
#[tactic(auto, unfolding(crate::specs::Levels::vector_level))]
pub fn vector_level(word: &[u8]) -> Option<u8>
    ensures { result ≡ rule.vector_level word.now }
{
    let mut last = None;
    for b in word {
        last = Some(level(*b)?);
    }
    last
}
