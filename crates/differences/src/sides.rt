// An event or a diagnostic row of two captures in words: both, or the one that there is.
ghost use Rattle.std.specs.Prelude.{◌≡◌};
ghost use Rattle.text.specs.Text.{put};
ghost use Rattle.differences.specs.Lines as rule;

use crate::finding::ROW;
use capture::{EVENT_BYTES, byte, little};
use text::Text;

// Where in an event the kind and the value stand; the bytes of its time.
const KIND: usize = 8;

const VALUE: usize = 9;

const TIME: usize = 8;

// By its number, the file's byte, which may be any.
#[tactic(auto, using(text::proofs::Filling::puts, crate::proofs::LineLaws::unnamed), unfolding(crate::specs::Lines::kind_word))]
fn kind_word(text: &mut Text<'_>, kind: u8)
    ensures { text.new ≡ put (rule.kind_word kind) text.old }
{
    match kind {
        1 => text.put(b"command"),
        2 => text.put(b"data"),
        3 => text.put(b"read"),
        4 => text.put(b"reset"),
        5 => text.put(b"advance"),
        6 => text.put(b"rule"),
        _ => {}
    }
}

// An event by its kind, value and time.
#[tactic(auto, using(text::proofs::Filling::puts), unfolding(crate::specs::Lines::event_words))]
fn event(text: &mut Text<'_>, events: &[u8], i: usize)
    ensures { text.new ≡ put (rule.event_words events.now i) text.old }
{
    if i < events.len() / EVENT_BYTES {
        let at = EVENT_BYTES * i;
        kind_word(text, byte(events, at, KIND));
        text.number(byte(events, at, VALUE) as u64);
        text.put(b" at");
        text.number(little(events, at, TIME));
    }
}

// Beside `row_sides`, not one with it: its halves would be closures with contracts, longer than this.
pub(crate) fn event_sides(text: &mut Text<'_>, a: &[u8], b: &[u8], i: usize)
    ensures { text.new ≡ put (rule.event_sides a.now b.now i) text.old }
{
    if i >= a.len() / EVENT_BYTES {
        text.put(b"only in B, ");
        event(text, b, i);
    } else if i >= b.len() / EVENT_BYTES {
        text.put(b"only in A, ");
        event(text, a, i);
    } else {
        event(text, a, i);
        text.put(b", ");
        event(text, b, i);
    }
}

// The five numbers of a row.
#[tactic(auto, using(text::proofs::Filling::puts), unfolding(crate::specs::Lines::row_words))]
fn row(text: &mut Text<'_>, rows: &[u64], i: usize)
    ensures { text.new ≡ put (rule.row_words rows.now i) text.old }
{
    if i < rows.len() / ROW {
        let at = ROW * i;
        text.decimal(rows[at]);
        text.number(rows[at + 1]);
        text.number(rows[at + 2]);
        text.number(rows[at + 3]);
        text.number(rows[at + 4]);
    }
}

pub(crate) fn row_sides(text: &mut Text<'_>, a: &[u64], b: &[u64], i: usize)
    ensures { text.new ≡ put (rule.row_sides a.now b.now i) text.old }
{
    if i >= a.len() / ROW {
        text.put(b"only in B, ");
        row(text, b, i);
    } else if i >= b.len() / ROW {
        text.put(b"only in A, ");
        row(text, a, i);
    } else {
        row(text, a, i);
        text.put(b", ");
        row(text, b, i);
    }
}
