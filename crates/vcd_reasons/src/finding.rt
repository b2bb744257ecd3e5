// Where a dump breaks.
ghost use Rattle.std.specs.Prelude.{◌≡◌, ◌<◌};
ghost use Rattle.vcd_simulation.specs.Feed.{codes_by};
ghost use Rattle.vcd_reasons.specs.Finding as rule;

use vcd_declarations::Head;
use vcd_simulation::{Body, Wanted, feed};
use vcd_words::{Span, next_word};

const NEWLINE: u8 = 10;

// Room for the events of a word, and what is free behind them where all of it was read.
const ROOM: usize = 40;

const FREE: usize = 20;

// Nothing mends the syntax any more.
pub fn is_broken(b: Body) -> bool
    ensures { result ≡ rule.is_broken b.wanted }
{
    matches!(b.wanted, Wanted::Broken)
}

// How many newlines some bytes have. A loop: every byte of a dump is seen by it, and `filter(..).count()` took half as
// much time again.
pub fn newlines(bytes: &[u8]) -> u64
    ensures { result ≡ rule.newlines bytes.now }
{
    let mut count = 0;
    for b in bytes {
        count += u64::from(*b == NEWLINE);
    }
    count
}

// The first word, from a place on, after which the syntax is broken; one without bytes where there
// is none.
pub fn first_broken(head: &[u8], h: Head, bytes: &[u8], at: usize, b: Body) -> Span
    ensures { result.from < result.to → rule.Breaks (codes_by head.now h) bytes.now at b result }
{
    let mut out = [0u8; ROOM];
    let mut body = b;
    let mut next = at;
    // A step is a word long, and its place is wanted: no plainer by an iterator.
    while next < bytes.len() {
        let w = next_word(bytes, next);
        if w.is_empty() {
            return w;
        }
        let f = feed(head, h, &bytes[..w.to], next, true, body, &mut out);
        if ROOM - FREE < f.held {
            return Span {
                from: w.to,
                to: w.to,
            };
        }
        body = f.body;
        if is_broken(body) {
            return w;
        }
        next = w.to;
    }
    Span {
        from: next,
        to: next,
    }
}
