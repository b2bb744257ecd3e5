// What is written of a capture (document 01, "The capture program"): its lines, or its last picture
// as a graymap or a PNG file.
//
// It is cut into units, a line or a row each, and a text of any length goes through a lent buffer
// part by part: each part is as many whole units as end before the buffer does.
#![tactic(auto, using(text::proofs::Filling::puts))]

mod lines;
mod parts;
mod pgm;
mod png_file;
mod samples;
mod wide;

ghost use Rattle.std.specs.Prelude.{◌≡◌, List, [], ◌∷◌, ℕ, length, get_or};
ghost use Rattle.text.specs.Text.{put};
ghost use Rattle.output.specs.Lines.{no_events_line, refused_line};
ghost use Rattle.output.specs.Units.{played_of, units_of};
ghost use Rattle.output.specs.InnerCount.{played_count};
ghost use Rattle.output.specs.Parts.{Lays};

use diagnostic_log::Log;
use glass::PanelImage;
pub use outcome::Came;
use text::Text;
pub use wide::{wide_count, wide_part};

// What is written of a capture that is played.
#[derive(Clone, Copy)]
pub enum Form {
    // The lines of document 01, as `panel` writes them.
    Panel,
    // The same lines, for a panel of any size.
    Lines,
    // The last picture alone, as a graymap.
    Graymap,
    // The last picture alone, as a PNG file.
    Png,
}

// What a capture came to, beside what its buffers hold.
#[derive(Clone, Copy)]
pub struct Outcome {
    pub came: Came,
    pub log: Log,
    pub image: PanelImage,
}

// A part of the text: how many bytes of the buffer it has, and the unit that comes after it.
#[derive(Clone, Copy)]
pub struct Part {
    pub held: usize,
    pub next: usize,
}

// How many units there are.
pub fn count(form: Form, o: Outcome, events: &[u8]) -> usize
    ensures { (answers picture rows : List ℕ) → result ≡ length (units_of form o events.now answers picture rows) }
{
    match o.came {
        Came::NoEvents | Came::Refused(_) => 1,
        Came::Played => played_count(form, o.log.stored, o.image.height, events),
    }
}

// Of a capture that was played.
fn played_count(form: Form, stored: u16, height: u16, events: &[u8]) -> usize
    ensures { result ≡ played_count form stored height events.now }
{
    match form {
        Form::Panel | Form::Lines => lines::count(events, stored, height),
        Form::Graymap => height as usize + 1,
        Form::Png => height as usize + 2,
    }
}

// An evening without events has one unit.
#[tactic(auto, using(text::proofs::Filling::puts), unfolding(crate::specs::Lines::no_events_line))]
pub(crate) fn no_events(text: &mut Text<'_>, i: usize)
    ensures { text.new ≡ put (get_or (no_events_line ∷ []) i []) text.old }
{
    if i == 0 {
        text.put(b"no events\n");
    }
}

// A refused capture has one unit.
pub(crate) fn refused(text: &mut Text<'_>, no: u8, i: usize)
    ensures { text.new ≡ put (get_or (refused_line no ∷ []) i []) text.old }
{
    if i == 0 {
        lines::refused(text, no);
    }
}

// Unit i of a capture that was played.
#[tactic(auto, unfolding(crate::specs::Units::png_units))]
fn played(
    text: &mut Text<'_>,
    form: Form,
    log: Log,
    image: PanelImage,
    events: &[u8],
    answers: &[u16],
    picture: &[u8],
    rows: &[u64],
    i: usize,
)
    ensures { text.new
        ≡ put (get_or (played_of form log image events.now answers.now picture.now rows.now) i []) text.old }
{
    match form {
        Form::Panel | Form::Lines => {
            lines::unit(text, log, image, events, answers, picture, rows, i)
        }
        Form::Graymap => pgm::unit(text, image, picture, i),
        Form::Png => png_file::unit(text, image.width, image.height, picture, i),
    }
}

// Unit i.
pub fn unit(
    text: &mut Text<'_>,
    form: Form,
    o: Outcome,
    events: &[u8],
    answers: &[u16],
    picture: &[u8],
    rows: &[u64],
    i: usize,
)
    ensures { text.new
        ≡ put (get_or (units_of form o events.now answers.now picture.now rows.now) i []) text.old }
{
    match o.came {
        Came::NoEvents => no_events(text, i),
        Came::Refused(no) => refused(text, no, i),
        Came::Played => played(
            text, form, o.log, o.image, events, answers, picture, rows, i,
        ),
    }
}

// The next part, from a unit on.
pub fn next_part(
    buffer: &mut [u8],
    form: Form,
    o: Outcome,
    events: &[u8],
    answers: &[u16],
    picture: &[u8],
    rows: &[u64],
    from: usize,
) -> Part
    ensures { Lays
        (units_of form o events.now answers.now picture.now rows.now)
        from buffer.old buffer.new result }
{
    let end = count(form, o, events);
    let mut text = Text::new(buffer);
    for next in from..end {
        let held = text.held();
        unit(&mut text, form, o, events, answers, picture, rows, next);
        if text.is_full() {
            return Part { held, next };
        }
    }
    Part {
        held: text.held(),
        next: from.max(end),
    }
}
