// Words of the simulation, as many as the buffer has room for the events of.
ghost use Rattle.std.specs.Prelude.{◌≡◌};
ghost use Rattle.vcd_simulation.specs.Feed as rule;

use crate::body::Body;
use crate::word::word_done;
use vcd_declarations::Head;
use vcd_words::next_word;

// The bytes that the events of a word take at most.
const ROOM: usize = 20;

// The body after some words, the place behind the last of them, and how many bytes of events are
// held.
#[derive(Clone, Copy)]
pub struct Fed {
    pub body: Body,
    pub next: usize,
    pub held: usize,
}

// A word that ends with the bytes goes on in what follows them, unless the dump ends there.
fn is_open(last: bool, to: usize, n: usize) -> bool
    ensures { result ≡ rule.is_open last to n }
{
    !last && n <= to
}

// The words of some bytes from a place on, after those of a head; the last of them only where a
// blank or the dump's end closes it.
#[tactic(auto, using(vcd_words::proofs::SpanLaws::span_ordered, vcd_words::proofs::SpanLaws::span_inside))]
pub fn feed(
    head: &[u8],
    h: Head,
    bytes: &[u8],
    at: usize,
    last: bool,
    b: Body,
    out: &mut [u8],
) -> Fed
    ensures { rule.Feeds (rule.codes_by head.now h) bytes.now at last b result out.old out.new }
{
    let mut body = b;
    let mut next = at;
    let mut held = 0;
    // A step is a word long, and its place is wanted: no plainer by an iterator.
    while next < bytes.len() {
        let w = next_word(bytes, next);
        if w.is_empty() || is_open(last, w.to, bytes.len()) || out.len() - held < ROOM {
            break;
        }
        let s = word_done(head, h, &bytes[w.from..w.to], body, out, held);
        body = s.body;
        held = s.held;
        next = w.to;
    }
    Fed { body, next, held }
}
