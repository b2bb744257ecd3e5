// A dump's refusal in words, to stand behind its name: `: line 12: 5!`, `: clk missing`. No newline.
ghost use Rattle.std.specs.Prelude.{◌≡◌, map};
ghost use Rattle.text.specs.Text.{put};
ghost use Rattle.vcd_reasons.specs.Wording as rule;

use text::Text;
use vcd_declarations::{Begun, Head};
use vcd_words::Span;

// The bytes of a word that are shown.
const SHOWN: usize = 40;

fn visible(b: u8) -> u8
    ensures { result ≡ rule.visible b }
{
    if 33 <= b && b <= 126 { b } else { b'?' }
}

// Some bytes, `?` for each that is not printable.
#[tactic(auto, using(text::proofs::Filling::puts, crate::proofs::WordLaws::shown_more))]
fn seen(text: &mut Text<'_>, bytes: &[u8])
    ensures { text.new ≡ put (map rule.visible bytes.now) text.old }
{
    for b in bytes {
        text.byte(visible(*b));
    }
}

// The first bytes of a word.
#[tactic(auto, using(std::proofs::lemmas::List::take_min))]
fn shown(text: &mut Text<'_>, word: &[u8])
    ensures { text.new ≡ put (rule.shown word.now) text.old }
{
    seen(text, &word[..SHOWN.min(word.len())]);
}

// A word of the simulation, and the line that it stands in.
#[tactic(auto, using(text::proofs::Filling::puts))]
pub fn at_word(text: &mut Text<'_>, line: u64, word: &[u8])
    ensures { text.new ≡ put (rule.at_word line word.now) text.old }
{
    text.put(b": line ");
    text.decimal(line);
    text.put(b": ");
    shown(text, word);
}

// Whether the declarations alone do not make a dump malformed.
pub fn is_declared_well(b: Begun) -> bool
    ensures { result ≡ rule.is_declared_well b }
{
    !b.head.broken && b.ended && b.head.scaled
}

// What is wrong with the declarations of a malformed dump.
pub fn declared(text: &mut Text<'_>, b: Begun)
    ensures { text.new ≡ put (rule.declared b) text.old }
{
    if b.head.broken {
        text.put(b": in the declarations");
    } else if b.ended {
        text.put(b": no timescale");
    } else {
        text.put(b": ends within a declaration");
    }
}

// The simulation is not over at a dump's end.
pub fn unfinished(text: &mut Text<'_>)
    ensures { text.new ≡ put rule.unfinished text.old }
{
    text.put(b": ends within a section, a comment or a change");
}

fn is_none(s: Span) -> bool
    ensures { result ≡ rule.is_none s }
{
    s.from == s.to
}

// Which of the five signals is wrong, of a dump that is turned back for them.
pub fn unsignalled(text: &mut Text<'_>, h: Head)
    ensures { text.new ≡ put (rule.unsignalled h) text.old }
{
    let c = h.codes;
    if is_none(c.cs) {
        text.put(b": cs missing");
    } else if is_none(c.dc) {
        text.put(b": dc missing");
    } else if is_none(c.clk) {
        text.put(b": clk missing");
    } else if is_none(c.mosi) {
        text.put(b": mosi missing");
    } else if is_none(c.rst) {
        text.put(b": rst missing");
    } else {
        text.put(b": one of cs, dc, clk, mosi, rst is declared twice or wider than a bit");
    }
}
