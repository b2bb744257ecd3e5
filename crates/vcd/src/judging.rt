// Whether a dump is malformed, or one of the five signals is wanting. Its events are not kept.
ghost use Rattle.std.specs.Prelude.{◌≡◌};
ghost use Rattle.vcd.specs.Dump as rule;
ghost use Rattle.vcd.specs.Judging as by;

use vcd_declarations::{Begun, Codes, Head, declarations};
use vcd_simulation::{Body, begun, feed, is_over};

// What turns a dump back.
#[derive(Clone, Copy)]
pub enum Fault {
    Malformed,
    Unsignalled,
}

// The bytes of events that are gathered before they are let go.
const ROOM: usize = 1_000;

// The events of a word, and those of one word before it: where so many bytes are free, all was read.
const FREE: usize = 20;

// The body after all words from a place of the dump on.
fn simulate(dump: &[u8], h: Head, at: usize) -> Body
    ensures { result ≡ by.body_after dump.now h at }
{
    let mut out = [0u8; ROOM];
    let mut body = begun();
    let mut next = at;
    // A step is as many words as the buffer has room for: no plainer by an iterator.
    while next < dump.len() {
        let f = feed(dump, h, dump, next, true, body, &mut out);
        body = f.body;
        if f.held <= ROOM - FREE {
            return body;
        }
        next = f.next;
    }
    body
}

// One of the five has no code.
fn any_none(c: Codes) -> bool
    ensures { result ≡ by.any_none c }
{
    c.cs.is_empty() || c.dc.is_empty() || c.clk.is_empty() || c.mosi.is_empty() || c.rst.is_empty()
}

// A break of the syntax.
fn is_malformed(b: Begun, body: Body) -> bool
    ensures { result ≡ by.malformed_by b body }
{
    b.head.broken || !b.head.scaled || !b.ended || !is_over(body)
}

fn is_unsignalled(h: Head) -> bool
    ensures { result ≡ by.unsignalled_by h }
{
    h.bad || any_none(h.codes)
}

// What turns a dump back, by what its declarations say and the body after its last word.
#[tactic(auto, unfolding(crate::specs::Judging::judged_by))]
pub fn verdict(b: Begun, body: Body) -> Result<(), Fault>
    ensures { result ≡ by.judged_by b body }
{
    if is_malformed(b, body) {
        return Err(Fault::Malformed);
    }
    if is_unsignalled(b.head) {
        return Err(Fault::Unsignalled);
    }
    Ok(())
}

// What turns a dump back, if anything does.
pub fn judge(dump: &[u8]) -> Result<(), Fault>
    ensures { result ≡ rule.judged dump.now }
{
    let b = declarations(dump);
    let body = simulate(dump, b.head, b.next);
    verdict(b, body)
}
