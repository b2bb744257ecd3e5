// The pieces of a chunk of a dump. They are cut so that the word after which a dump is malformed lies
// whole in one of the buffers: where the declarations are kept, where an open word is, or in the
// piece itself.
ghost use Rattle.std.specs.Prelude.{◌≡◌, ◌≤◌, ◌<◌, length};
ghost use Rattle.dumping.specs.Reading as rule;

use vcd_reading::{Reader, Stage};
use vcd_reasons::{is_broken, is_declared_well};
use vcd_words::next_word;

// The place behind the first blank, or the end.
fn past_blank(bytes: &[u8], from: usize) -> usize
    requires { from < length bytes.now }
    ensures { (from < result) × (result ≤ length bytes.now) }
{
    let w = next_word(bytes, from);
    if from < w.from {
        return from + 1;
    }
    if w.to < bytes.len() {
        return w.to + 1;
    }
    bytes.len()
}

// The place behind so many bytes, one at least, or the end.
fn past_most(n: usize, from: usize, most: usize) -> usize
    requires { from < n }
    ensures { (from < result) × (result ≤ n) }
{
    from + most.max(1).min(n - from)
}

// Where the piece ends that begins at a place: while all is kept, with the space for it; with a word
// open, behind that word; else with the chunk.
pub(crate) fn piece(r: Reader, kept: usize, bytes: &[u8], from: usize) -> usize
    requires { from < length bytes.now }
    ensures { (from < result) × (result ≤ length bytes.now) }
{
    match r.stage {
        Stage::Heading => past_most(bytes.len(), from, kept.saturating_sub(r.held)),
        Stage::Playing => {
            if r.carried == 0 {
                return bytes.len();
            }
            past_blank(bytes, from)
        }
        Stage::HeadTooLong | Stage::WordTooLong => bytes.len(),
    }
}

// After the declarations: the dump is malformed, whatever follows. A word that breaks the syntax is
// mended by no other, and nothing is declared any more.
fn is_lost(r: Reader) -> bool
    ensures { result ≡ rule.is_lost r }
{
    !is_declared_well(r.begun) || is_broken(r.body)
}

// Whether what follows does not count.
pub(crate) fn is_settled(r: Reader) -> bool
    ensures { result ≡ rule.is_settled r }
{
    match r.stage {
        Stage::Heading => false,
        Stage::Playing => is_lost(r),
        Stage::HeadTooLong | Stage::WordTooLong => true,
    }
}
