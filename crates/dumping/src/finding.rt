// Why a dump is malformed, in words, and where.
use input::front;
use text::Text;
use vcd_declarations::Head;
use vcd_reading::{Reader, Stage};
use vcd_reasons::{at_word, declared, first_broken, is_declared_well, newlines, unfinished};
use vcd_simulation::{Body, begun};
use vcd_words::next_word;

// The first word that breaks the syntax, from a place on, behind so many lines; where none does, the
// dump ends too early.
fn in_words(
    why: &mut Text<'_>,
    head: &[u8],
    h: Head,
    bytes: &[u8],
    at: usize,
    b: Body,
    lines: u64,
) {
    let w = first_broken(head, h, bytes, at, b);
    if w.is_empty() {
        unfinished(why);
    } else {
        let above = lines.saturating_add(newlines(front(bytes, w.from)));
        let word = bytes.get(w.from..w.to).unwrap_or(b"");
        at_word(why, above.saturating_add(1), word);
    }
}

// How many bytes stand before the first blank.
fn solid(bytes: &[u8]) -> usize {
    let w = next_word(bytes, 0);
    if w.from == 0 {
        return w.to;
    }
    0
}

// The declarations are fine, and a piece behind so many lines breaks the syntax; the readers before
// and after it.
fn in_simulation(
    why: &mut Text<'_>,
    r: Reader,
    s: Reader,
    kept: &[u8],
    word: &[u8],
    piece: &[u8],
    lines: u64,
) {
    let b = s.begun;
    let head = front(kept, s.held);
    match r.stage {
        Stage::Heading => in_words(why, head, b.head, head, b.next, begun(), 0),
        Stage::Playing if r.carried == 0 => in_words(why, head, b.head, piece, 0, r.body, lines),
        Stage::Playing => {
            let open = front(word, r.carried.saturating_add(solid(piece)));
            in_words(why, head, b.head, open, 0, r.body, lines);
        }
        Stage::HeadTooLong | Stage::WordTooLong => {}
    }
}

// Why a dump is malformed, whatever follows a piece.
pub(crate) fn in_piece(
    why: &mut Text<'_>,
    r: Reader,
    s: Reader,
    kept: &[u8],
    word: &[u8],
    piece: &[u8],
    lines: u64,
) {
    if is_declared_well(s.begun) {
        in_simulation(why, r, s, kept, word, piece, lines);
    } else {
        declared(why, s.begun);
    }
}

// Why a dump is malformed that was read to its end: in its last words, or because it ends there.
pub(crate) fn at_end(why: &mut Text<'_>, r: Reader, kept: &[u8], word: &[u8], lines: u64) {
    let b = r.begun;
    if is_declared_well(b) {
        let head = front(kept, r.held);
        match r.stage {
            Stage::Heading => in_words(why, head, b.head, head, b.next, begun(), 0),
            Stage::Playing => {
                let open = front(word, r.carried);
                in_words(why, head, b.head, open, 0, r.body, lines);
            }
            Stage::HeadTooLong | Stage::WordTooLong => {}
        }
    } else {
        declared(why, b);
    }
}
