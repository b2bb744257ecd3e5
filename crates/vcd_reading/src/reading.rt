// One part more of a dump.
ghost use Rattle.std.specs.Prelude.{◌≡◌, List, ◌++◌, ℕ, ◌≤◌, ◌<◌, length, take, drop};
ghost use Rattle.controller.specs.World.{World, buffers, world};
ghost use Rattle.controller.specs.Lent.{before, after, Keeps};
ghost use Rattle.vcd_words.specs.Words.{closed};
ghost use Rattle.vcd_declarations.specs.Begun.{Begins};
ghost use Rattle.vcd_reading.specs.Reading as rule;
ghost use Rattle.vcd_reading.specs.InnerStep as inner;

use crate::carrying::{carry, extend, solid};
use crate::reader::{Reader, Stage};
use controller::{Lent, Uc8253};
use vcd_declarations::{Begun, declarations};
use vcd_playing::play_words;
use vcd_simulation::{Body, begun};
use vcd_words::next_word;

// The reader and the record after a part.
#[derive(Clone, Copy)]
pub struct Step {
    pub reader: Reader,
    pub chip: Uc8253,
}

fn is_playing(stage: Stage) -> bool
    ensures { result ≡ inner.is_playing stage }
{
    matches!(stage, Stage::Playing)
}

// With another body, and so many bytes of a word that is open, if it fits.
fn gone_on(r: Reader, body: Body, carried: Option<usize>) -> Reader
    ensures { result ≡ inner.gone_on r body carried }
{
    match carried {
        Some(n) => Reader {
            stage: Stage::Playing,
            body,
            carried: n,
            ..r
        },
        None => Reader {
            stage: Stage::WordTooLong,
            body,
            carried: 0,
            ..r
        },
    }
}

// Words from a place of some bytes on, and the open one at their end.
fn play_part(
    r: Reader,
    p: Uc8253,
    kept: &[u8],
    bytes: &[u8],
    at: usize,
    word: &mut [u8],
    lent: &mut Lent<'_>,
) -> Step
    requires { at ≤ length bytes.now }
    ensures plays { inner.PlaysPart kept.now r bytes.now at result word.old word.new
        (world p (before lent)) (world result.chip (after lent)) }
    ensures same { Keeps lent }
{
    let head = &kept[..r.held.min(kept.len())];
    let t = play_words(p, head, r.begun.head, bytes, at, false, r.body, lent);
    let carried = carry(word, bytes, t.next);
    Step {
        reader: gone_on(r, t.body, carried),
        chip: t.chip,
    }
}

// A part after the declarations.
fn go_on(
    r: Reader,
    p: Uc8253,
    kept: &[u8],
    bytes: &[u8],
    word: &mut [u8],
    lent: &mut Lent<'_>,
) -> Step
    ensures goes { (d : List ℕ) (w : World) → rule.Playing d r kept.now word.old w (world p (before lent))
        → rule.Stands (d ++ bytes.now) result.reader kept.now word.new w (world result.chip (after lent)) }
    ensures same { Keeps lent }
{
    let n = solid(bytes);
    if word.len() < r.carried {
        return Step { reader: r, chip: p };
    }
    let Some(carried) = extend(word, r.carried, &bytes[..n]) else {
        let reader = Reader {
            stage: Stage::WordTooLong,
            ..r
        };
        return Step { reader, chip: p };
    };
    if n == bytes.len() {
        let reader = gone_on(r, r.body, Some(carried));
        return Step { reader, chip: p };
    }
    let head = &kept[..r.held.min(kept.len())];
    let open = &word[..carried];
    let t = play_words(p, head, r.begun.head, open, 0, true, r.body, lent);
    let q = gone_on(r, t.body, Some(carried));
    play_part(q, t.chip, kept, bytes, n, word, lent)
}

// The declarations are over in the first bytes, and so many of a part were kept.
fn settle(
    b: Begun,
    held: usize,
    p: Uc8253,
    kept: &[u8],
    bytes: &[u8],
    taken: usize,
    word: &mut [u8],
    lent: &mut Lent<'_>,
) -> Step
    requires held_in_bounds { held ≤ length kept.now }
    requires taken_in_bounds { taken ≤ length bytes.now }
    requires begins { Begins (take held kept.now) b }
    requires nonzero { 0 < length (closed (drop b.next (take held kept.now))) }
    ensures stands { rule.Stands (take held kept.now ++ drop taken bytes.now) result.reader kept.now word.new
        (world p (before lent)) (world result.chip (after lent)) }
    ensures same { Keeps lent }
{
    let r = Reader {
        stage: Stage::Playing,
        held,
        begun: b,
        body: begun(),
        carried: 0,
    };
    let s = play_part(r, p, kept, &kept[..held], b.next, word, lent);
    if is_playing(s.reader.stage) {
        return go_on(s.reader, s.chip, kept, &bytes[taken..], word, lent);
    }
    s
}

// A part while all bytes are kept.
fn keep(
    r: Reader,
    p: Uc8253,
    bytes: &[u8],
    kept: &mut [u8],
    word: &mut [u8],
    lent: &mut Lent<'_>,
) -> Step
    ensures keeps { (d : List ℕ) → rule.Heading d r.held kept.old
        → rule.Stands (d ++ bytes.now) result.reader kept.new word.new
        (world p (before lent)) (world result.chip (after lent)) }
    ensures same { Keeps lent }
{
    if kept.len() < r.held {
        return Step { reader: r, chip: p };
    }
    let taken = bytes.len().min(kept.len() - r.held);
    let held = r.held + taken;
    kept[r.held..held].copy_from_slice(&bytes[..taken]);
    let front = &kept[..held];
    let b = declarations(front);
    let w = next_word(front, b.next);
    if w.to < held {
        return settle(b, held, p, kept, bytes, taken, word, lent);
    }
    if taken == bytes.len() {
        let reader = Reader {
            stage: Stage::Heading,
            held,
            begun: b,
            carried: 0,
            ..r
        };
        return Step { reader, chip: p };
    }
    let reader = Reader {
        stage: Stage::HeadTooLong,
        ..r
    };
    Step { reader, chip: p }
}

// By the stage: a limit that was met stays met.
fn next_part(
    r: Reader,
    p: Uc8253,
    bytes: &[u8],
    kept: &mut [u8],
    word: &mut [u8],
    lent: &mut Lent<'_>,
) -> Step
    ensures stands { (d : List ℕ) (w : World)
        → rule.Stands d r kept.old word.old w (world p (before lent))
        → rule.Stands (d ++ bytes.now) result.reader kept.new word.new w (world result.chip (after lent)) }
    ensures same { Keeps lent }
{
    match r.stage {
        Stage::Heading => keep(r, p, bytes, kept, word, lent),
        Stage::Playing => go_on(r, p, kept, bytes, word, lent),
        Stage::HeadTooLong | Stage::WordTooLong => Step { reader: r, chip: p },
    }
}

// The slices are apart: that each keeps its length is known of slices, and not of what is lent as one.
fn part_in(
    r: Reader,
    p: Uc8253,
    bytes: &[u8],
    kept: &mut [u8],
    word: &mut [u8],
    old: &mut [u8],
    new: &mut [u8],
    states: &mut [i64],
    picture: &mut [u8],
    rows: &mut [u64],
) -> Step
    ensures { (d : List ℕ) (w : World)
        → rule.Stands d r kept.old word.old w
        (world p (buffers old.old new.old states.old picture.old rows.old))
        → rule.Stands (d ++ bytes.now) result.reader kept.new word.new w
        (world result.chip (buffers old.new new.new states.new picture.new rows.new)) }
{
    let mut lent = Lent {
        old,
        new,
        states,
        picture,
        rows,
    };
    next_part(r, p, bytes, kept, word, &mut lent)
}

// The next part of a dump, of any length.
pub fn part(
    r: Reader,
    p: Uc8253,
    bytes: &[u8],
    kept: &mut [u8],
    word: &mut [u8],
    lent: &mut Lent<'_>,
) -> Step
    ensures stands { (d : List ℕ) (w : World)
        → rule.Stands d r kept.old word.old w (world p (before lent))
        → rule.Stands (d ++ bytes.now) result.reader kept.new word.new w (world result.chip (after lent)) }
    ensures lengths { rule.SameLengths lent }
    ensures same { Keeps lent }
{
    let (old, new, states, picture, rows) = (
        &mut *lent.old,
        &mut *lent.new,
        &mut *lent.states,
        &mut *lent.picture,
        &mut *lent.rows,
    );
    part_in(r, p, bytes, kept, word, old, new, states, picture, rows)
}
