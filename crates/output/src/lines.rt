// The lines of document 01's program.
ghost use Rattle.std.specs.Prelude.{◌≡◌, [], ◌∷◌, ◌++◌, ◌+◌, ◌/◌, ◌<◌, length, get_or};
ghost use Rattle.text.specs.Text.{ascii, put};
ghost use Rattle.output.specs.Lines as lines;
ghost use Rattle.output.specs.Units.{read_of, last_of, lines_of};

use crate::parts::row_of;
use capture::{EVENT_BYTES, NO_READ, NOTHING, little};
use diagnostic_log::Log;
use glass::{PanelImage, RefreshKind};
use text::Text;

// The numbers of a stored row.
const NUMBERS: u16 = 5;

// A refusal, by its number.
#[tactic(auto, using(text::proofs::Filling::puts), unfolding(crate::specs::Lines::refused_line))]
pub(crate) fn refused(text: &mut Text<'_>, no: u8)
    ensures { text.new ≡ put (lines.refused_line no) text.old }
{
    text.put(b"refused");
    text.number(no as u64);
    text.byte(b'\n');
}

// A read, at the event's own time.
#[tactic(auto, using(text::proofs::Filling::puts), unfolding(crate::specs::Lines::read_line))]
fn read(text: &mut Text<'_>, time: u64, answer: u16)
    ensures { text.new ≡ put (lines.read_line time answer) text.old }
{
    text.put(b"read");
    text.number(time);
    if answer == NOTHING {
        text.put(b" none");
    } else {
        text.number(answer as u64);
    }
    text.byte(b'\n');
}

// The line of event i, if it is a read.
fn read_at(text: &mut Text<'_>, events: &[u8], answers: &[u16], i: usize)
    requires { i < length events.now / 10 }
    ensures { text.new ≡ put (read_of events.now answers.now i) text.old }
{
    if i < answers.len() && answers[i] != NO_READ {
        read(text, little(events, i * EVENT_BYTES, 8), answers[i]);
    }
}

// A stored row: its numbers, with a blank before each.
#[tactic(auto, using(text::proofs::Filling::puts, crate::proofs::Words::numbers), unfolding(crate::specs::Lines::diag_line))]
fn diagnostic(text: &mut Text<'_>, row: &[u64])
    ensures { text.new ≡ put (lines.diag_line row.now) text.old }
{
    text.put(b"diag");
    for x in row {
        text.number(*x);
    }
    text.byte(b'\n');
}

#[tactic(auto, using(text::proofs::Filling::puts), unfolding(crate::specs::Lines::dropped_line))]
fn dropped(text: &mut Text<'_>, count: u64)
    ensures { text.new ≡ put (lines.dropped_line count) text.old }
{
    text.put(b"dropped");
    text.number(count);
    text.byte(b'\n');
}

fn kind(text: &mut Text<'_>, k: RefreshKind)
    ensures { text.new ≡ put (32 ∷ lines.kind_word k) text.old }
{
    match k {
        RefreshKind::PowerOn => text.put(b" poweron"),
        RefreshKind::Full => text.put(b" full"),
        RefreshKind::Partial => text.put(b" partial"),
    }
}

fn flag(text: &mut Text<'_>, b: bool)
    ensures { text.new ≡ put (32 ∷ lines.flag_word b) text.old }
{
    text.put(if b { b" 1" } else { b" 0" });
}

// How the picture came about and when, the end of its head.
fn refresh(text: &mut Text<'_>, i: PanelImage)
    ensures { text.new ≡ put (lines.behind (lines.refresh_words i) ++ ascii "\n") text.old }
{
    kind(text, i.kind);
    flag(text, i.interrupted);
    text.number(i.started);
    text.number(i.at);
    text.byte(b'\n');
}

// The head of the picture.
fn image(text: &mut Text<'_>, i: PanelImage)
    ensures { text.new ≡ put (lines.image_line i) text.old }
{
    text.put(b"image");
    text.number(i.width as u64);
    text.number(i.height as u64);
    text.number(i.generation);
    refresh(text, i);
}

// The greys of a row, with a blank between.
#[tactic(auto, using(text::proofs::Filling::puts, crate::proofs::Words::numbers), unfolding(crate::specs::Lines::greys_line))]
fn greys(text: &mut Text<'_>, row: &[u8])
    ensures { text.new ≡ put (lines.greys_line row.now) text.old }
{
    if let Some((first, rest)) = row.split_first() {
        text.decimal(*first as u64);
        for x in rest {
            text.number(*x as u64);
        }
    }
    text.byte(b'\n');
}

// Below the reads and the stored rows: the dropped count, the picture's head and its rows.
fn below(text: &mut Text<'_>, lost: u64, i: PanelImage, picture: &[u8], k: usize)
    ensures { text.new ≡ put (get_or (last_of lost i picture.now) k []) text.old }
{
    if k == 0 {
        dropped(text, lost);
    } else if k == 1 {
        image(text, i);
    } else if k - 2 < i.height as usize {
        greys(text, row_of(picture, i.width, (k - 2) as u16));
    }
}

// How many lines there are, an empty one for each event that is no read.
pub(crate) fn count(events: &[u8], stored: u16, height: u16) -> usize
    ensures { result ≡ length events.now / 10 + (stored + height + 2) }
{
    events.len() / EVENT_BYTES + (stored as usize + height as usize + 2)
}

// Line i: the reads, the stored rows, and what stands below them.
pub(crate) fn unit(
    text: &mut Text<'_>,
    log: Log,
    image: PanelImage,
    events: &[u8],
    answers: &[u16],
    picture: &[u8],
    rows: &[u64],
    i: usize,
)
    ensures { text.new
        ≡ put (get_or (lines_of log image events.now answers.now picture.now rows.now) i []) text.old }
{
    let reads = events.len() / EVENT_BYTES;
    if i < reads {
        return read_at(text, events, answers, i);
    }
    let j = i - reads;
    let stored = log.stored as usize;
    if j < stored {
        return diagnostic(text, row_of(rows, NUMBERS, j as u16));
    }
    below(text, log.dropped, image, picture, j - stored);
}
