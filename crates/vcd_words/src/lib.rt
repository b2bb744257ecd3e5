// The words of a Value Change Dump (IEEE 1364): what stands between white space.
#![tactic(auto)]

ghost use Rattle.std.specs.Prelude.{◌≡◌, [], length, eqb, take_while, MatchOption};
ghost use Rattle.vcd_words.specs.Words as rule;
ghost use Rattle.vcd_words.specs.Places as place;

// A word, by its places in some bytes.
#[derive(Clone, Copy)]
pub struct Span {
    pub from: usize,
    pub to: usize,
}

impl Span {
    // Without bytes.
    pub fn is_empty(self) -> bool
        ensures { result ≡ eqb self.from self.to }
    {
        self.from == self.to
    }
}

// White space.
pub fn is_blank(b: u8) -> bool
    ensures { result ≡ rule.is_blank b }
{
    matches!(b, 9..=13 | 32)
}

// How many blanks there are at the front, and how many bytes that are none.
fn blanks(bytes: &[u8]) -> usize
    ensures { result ≡ length (take_while rule.is_blank bytes.now) }
{
    bytes.iter().take_while(|b| is_blank(**b)).count()
}

fn solids(bytes: &[u8]) -> usize
    ensures { result ≡ length (take_while place.is_solid bytes.now) }
{
    bytes.iter().take_while(|b| !is_blank(**b)).count()
}

// The next word from a place on; at the end one without bytes.
pub fn next_word(bytes: &[u8], at: usize) -> Span
    ensures { result ≡ place.span_at bytes.now at }
{
    if bytes.len() <= at {
        return Span { from: at, to: at };
    }
    let from = at + blanks(&bytes[at..]);
    let to = from + solids(&bytes[from..]);
    Span { from, to }
}

// The first word and what stands behind it.
#[tactic(auto, using(crate::proofs::SpanLaws::span_ordered, crate::proofs::SpanLaws::span_inside))]
pub fn first_word(bytes: &[u8]) -> Option<(&[u8], &[u8])>
    ensures { MatchOption result (rule.words bytes.now ≡ []) (λ s. place.Splits bytes.now s.0.now s.1.now) }
{
    let w = next_word(bytes, 0);
    if w.is_empty() {
        return None;
    }
    Some((&bytes[w.from..w.to], &bytes[w.to..]))
}

// Two words of the same bytes. Rattle has no `==` of a slice and a literal: here both are slices.
pub fn same(a: &[u8], b: &[u8]) -> bool
    ensures { result ≡ rule.alike a.now b.now }
{
    a == b
}

// Bytes 33 to 126 alone.
#[tactic(auto, unfolding(crate::specs::Words::printable))]
pub fn printable(word: &[u8]) -> bool
    ensures { result ≡ rule.printable word.now }
{
    word.iter().all(|b| (33..=126).contains(b))
}

// A word is one of some, which stand with blanks between.
pub fn is_one_of(list: &[u8], word: &[u8]) -> bool
    ensures { result ≡ rule.among (rule.words list.now) word.now }
{
    let mut rest = list;
    while let Some((w, behind)) = first_word(rest) {
        if same(word, w) {
            return true;
        }
        rest = behind;
    }
    false
}
