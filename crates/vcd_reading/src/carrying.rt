// The word that a cut leaves open, carried into the next part.
ghost use Rattle.std.specs.Prelude.{◌≡◌, [], ◌≤◌, length, drop};
ghost use Rattle.vcd_words.specs.Words.{closed, opened};
ghost use Rattle.vcd_words.specs.Places.{front, is_solid};
ghost use Rattle.vcd_reading.specs.InnerCarried.{Carries};

use vcd_words::next_word;

// More bytes of a word, behind those that are carried: how many there are then, if they fit.
pub(crate) fn extend(word: &mut [u8], carried: usize, bytes: &[u8]) -> Option<usize>
    requires { carried ≤ length word.old }
    ensures { Carries bytes.now carried result word.old word.new }
{
    if word.len() - carried < bytes.len() {
        return None;
    }
    let end = carried + bytes.len();
    word[carried..end].copy_from_slice(bytes);
    Some(end)
}

// The word that is open at the end of some bytes, of which no word is closed from a place on.
pub(crate) fn carry(word: &mut [u8], bytes: &[u8], at: usize) -> Option<usize>
    requires at_in_bounds { at ≤ length bytes.now }
    requires bytes_value { closed (drop at bytes.now) ≡ [] }
    ensures { Carries (opened (drop at bytes.now)) 0 result word.old word.new }
{
    let s = next_word(bytes, at);
    extend(word, 0, &bytes[s.from..s.to])
}

// How many bytes stand before the first blank.
pub(crate) fn solid(bytes: &[u8]) -> usize
    ensures { (result ≡ front is_solid bytes.now) × (result ≤ length bytes.now) }
{
    let s = next_word(bytes, 0);
    if s.from == 0 {
        return s.to;
    }
    0
}
