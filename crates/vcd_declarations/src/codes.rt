// The codes of the five signals, by their places in some bytes.
ghost use Rattle.std.specs.Prelude.{◌≡◌};
ghost use Rattle.std.specs.List.{list_any};
ghost use Rattle.vcd_words.specs.Words.{alike, among};
ghost use Rattle.vcd_declarations.specs.Codes as rule;

use vcd_words::{Span, same};

// A code without bytes is that of no signal.
#[derive(Clone, Copy)]
pub struct Codes {
    pub cs: Span,
    pub dc: Span,
    pub clk: Span,
    pub mosi: Span,
    pub rst: Span,
}

// Codes that one of the five was declared with again, each of them once; the last one first.
#[derive(Clone, Copy)]
pub struct Further {
    pub codes: [Span; 8],
    // There were more than eight.
    pub full: bool,
}

// The bytes at a place, as far as it lies in them.
fn code_in(bytes: &[u8], place: Span) -> &[u8]
    ensures { result.now ≡ rule.code_in bytes.now place }
{
    let to = place.to.min(bytes.len());
    if place.from < to {
        &bytes[place.from..to]
    } else {
        &[]
    }
}

// The code is the one at that place.
pub fn is_code(bytes: &[u8], place: Span, code: &[u8]) -> bool
    ensures { result ≡ alike code.now (rule.code_in bytes.now place) }
{
    same(code, code_in(bytes, place))
}

fn is_first(bytes: &[u8], c: Codes, code: &[u8]) -> bool
    ensures { result ≡ among (rule.five_in bytes.now c) code.now }
{
    is_code(bytes, c.cs, code)
        || is_code(bytes, c.dc, code)
        || is_code(bytes, c.clk, code)
        || is_code(bytes, c.mosi, code)
        || is_code(bytes, c.rst, code)
}

fn is_further(bytes: &[u8], f: Further, code: &[u8]) -> bool
    ensures { result ≡ list_any (λ place. alike code.now (rule.code_in bytes.now place)) f.codes }
{
    f.codes.iter().any(|place| is_code(bytes, *place, code))
}

// The code is one of all of these.
#[tactic(auto, using(crate::proofs::PlacedLaws::placed_is))]
pub(crate) fn is_placed(bytes: &[u8], c: Codes, f: Further, code: &[u8]) -> bool
    ensures { result ≡ among (rule.placed_in bytes.now c f) code.now }
{
    is_first(bytes, c, code) || is_further(bytes, f, code)
}
