// A dump from a descriptor, chunk by chunk, through the controller.
ghost use Rattle.std.specs.Prelude.{◌≡◌, true, false, length};
ghost use Rattle.controller.specs.World.{World, world};
ghost use Rattle.controller.specs.Lent.{before, after, Keeps};
ghost use Rattle.dumping.specs.Reading as rule;

use crate::finding::{at_end, in_piece};
use crate::pieces::{is_settled, piece};
use controller::{Lent, Uc8253};
use input::{front, read_all};
use std::io::Read;
use text::Text;
use vcd::Fault;
use vcd_reading::{Limit, Reader, Stage, close, part, start};
use vcd_reasons::{newlines, unsignalled};

// How far reading got: one of four, no Option or Result.
#[derive(Clone, Copy)]
enum Course {
    // There may be more.
    On,
    // The input is at its end.
    Whole,
    // What follows does not count.
    Settled,
    // A read failed.
    Unread,
}

// The record and the reader after some of a dump, and how many newlines that has.
#[derive(Clone, Copy)]
struct Gone {
    chip: Uc8253,
    reader: Reader,
    lines: u64,
    course: Course,
}

// The record after the last call; how reading the dump ended, unless a read failed.
#[derive(Drop)]
pub(crate) struct Closed {
    pub(crate) chip: Uc8253,
    pub(crate) ending: Option<Result<Result<(), Fault>, Limit>>,
}

// There may be more.
fn goes_on(course: Course) -> bool
    ensures { result ≡ rule.is_on course }
{
    matches!(course, Course::On)
}

// One piece more. Why the dump is malformed, once it is known to be, is put into a text.
fn play_piece(
    g: Gone,
    piece: &[u8],
    why: &mut Text<'_>,
    kept: &mut [u8],
    word: &mut [u8],
    lent: &mut Lent<'_>,
) -> Gone
    ensures steps { rule.Steps piece.now g.reader result kept.old word.old kept.new word.new
        (world g.chip (before lent)) (world result.chip (after lent)) }
    ensures same { Keeps lent }
{
    let s = part(g.reader, g.chip, piece, kept, word, lent);
    if is_settled(s.reader) {
        in_piece(why, g.reader, s.reader, kept, word, piece, g.lines);
        return Gone {
            chip: s.chip,
            reader: s.reader,
            lines: g.lines,
            course: Course::Settled,
        };
    }
    Gone {
        chip: s.chip,
        reader: s.reader,
        lines: g.lines.saturating_add(newlines(piece)),
        course: Course::On,
    }
}

// A chunk, piece by piece.
fn play_chunk(
    g: Gone,
    bytes: &[u8],
    why: &mut Text<'_>,
    kept: &mut [u8],
    word: &mut [u8],
    lent: &mut Lent<'_>,
) -> Gone
    requires { rule.is_on g.course ≡ true }
    ensures plays { rule.Plays bytes.now g.reader result kept.old word.old kept.new word.new
        (world g.chip (before lent)) (world result.chip (after lent)) }
    ensures same { Keeps lent }
{
    let mut q = g;
    let mut from: usize = 0;
    // A step is a piece long, which what was read before it says: no plainer by an iterator.
    while from < bytes.len() {
        let to = piece(q.reader, kept.len(), bytes, from);
        q = play_piece(q, &bytes[from..to], why, kept, word, lent);
        if !goes_on(q.course) {
            return q;
        }
        from = to;
    }
    q
}

// Before the first chunk.
fn begin(chip: Uc8253) -> Gone
    ensures { rule.Begins chip result }
{
    Gone {
        chip,
        reader: start(),
        lines: 0,
        course: Course::On,
    }
}

// No chunk more.
fn ended(g: Gone, course: Course) -> Gone
    ensures { result ≡ rule.ended course g }
{
    Gone { course, ..g }
}

// After a chunk with which the input ended, if it did.
#[tactic(auto, unfolding(crate::specs::Reading::last_of))]
fn last_of(g: Gone, over: bool) -> Gone
    ensures { result ≡ rule.last_of over g }
{
    if over && goes_on(g.course) {
        return ended(g, Course::Whole);
    }
    g
}

// As much as there is space for. The chunk is filled before it is looked at: as long as the
// declarations go on they are read again with each.
fn next_chunk<I: Read>(
    g: Gone,
    input: &mut I,
    chunk: &mut [u8],
    why: &mut Text<'_>,
    kept: &mut [u8],
    word: &mut [u8],
    lent: &mut Lent<'_>,
) -> Gone
    requires { rule.is_on g.course ≡ true }
    ensures stood { (w : World) → rule.Stood g kept.old word.old w (world g.chip (before lent))
        → rule.Stood result kept.new word.new w (world result.chip (after lent)) }
    ensures same { Keeps lent }
{
    match read_all(input, chunk) {
        Ok(0) => ended(g, Course::Whole),
        Ok(n) => {
            let q = play_chunk(g, front(chunk, n), why, kept, word, lent);
            last_of(q, n < chunk.len())
        }
        Err(_) => ended(g, Course::Unread),
    }
}

// Chunk after chunk. Nothing says that an input ends, so the turns are counted.
fn read_chunks<I: Read>(
    p: Uc8253,
    input: &mut I,
    chunk: &mut [u8],
    why: &mut Text<'_>,
    kept: &mut [u8],
    word: &mut [u8],
    lent: &mut Lent<'_>,
) -> Gone
    ensures stood { rule.Stood result kept.new word.new (world p (before lent))
        (world result.chip (after lent)) }
    ensures same { Keeps lent }
{
    let mut g = begin(p);
    'chunks: for _ in 0..u64::MAX {
        g = next_chunk(g, input, chunk, why, kept, word, lent);
        if !goes_on(g.course) {
            return g;
        }
    }
    g
}

// The dump is to be closed where it was read so far.
fn is_open(course: Course) -> bool
    ensures { result ≡ rule.is_open course }
{
    matches!(course, Course::On | Course::Whole)
}

// Reading stopped before the end.
fn settled(r: Reader) -> Result<Result<(), Fault>, Limit>
    ensures { result ≡ rule.settled_ending r.stage }
{
    match r.stage {
        Stage::Heading | Stage::Playing => Ok(Err(Fault::Malformed)),
        Stage::HeadTooLong => Err(Limit::HeadTooLong),
        Stage::WordTooLong => Err(Limit::WordTooLong),
    }
}

fn stopped(course: Course, r: Reader) -> Option<Result<Result<(), Fault>, Limit>>
    ensures { result ≡ rule.stopped_ending course r.stage }
{
    match course {
        Course::Settled => Some(settled(r)),
        Course::On | Course::Whole | Course::Unread => None,
    }
}

// No chunk follows.
fn close_dump(g: Gone, why: &mut Text<'_>, kept: &[u8], word: &[u8], lent: &mut Lent<'_>) -> Closed
    ensures read { (w : World) → rule.Stood g kept.now word.now w (world g.chip (before lent))
        → rule.Read result (length kept.now) (length word.now) w (world result.chip (after lent)) }
    ensures same { Keeps lent }
{
    let c = close(g.reader, g.chip, kept, word, lent);
    match c.ending {
        Ok(Err(Fault::Malformed)) => at_end(why, g.reader, kept, word, g.lines),
        Ok(Err(Fault::Unsignalled)) => unsignalled(why, g.reader.begun.head),
        Ok(Ok(())) | Err(_) => {}
    }
    Closed {
        chip: c.chip,
        ending: Some(c.ending),
    }
}

// The whole dump, from a record on.
pub(crate) fn read_dump<I: Read>(
    p: Uc8253,
    input: &mut I,
    chunk: &mut [u8],
    why: &mut Text<'_>,
    kept: &mut [u8],
    word: &mut [u8],
    lent: &mut Lent<'_>,
) -> Closed
    ensures read { rule.Read result (length kept.new) (length word.new) (world p (before lent))
        (world result.chip (after lent)) }
    ensures same { Keeps lent }
{
    let g = read_chunks(p, input, chunk, why, kept, word, lent);
    if is_open(g.course) {
        return close_dump(g, why, kept, word, lent);
    }
    Closed {
        chip: g.chip,
        ending: stopped(g.course, g.reader),
    }
}
