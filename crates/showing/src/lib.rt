// A capture played in lent buffers, and then written: the lines of document 01, or the picture as a
// file that any viewer opens.
//
// The text goes through a buffer part by part, so that an output takes few writes.
#![tactic(auto)]

mod play;
mod write;

ghost use Rattle.std.specs.Prelude.{◌≡◌};
ghost use Rattle.capture.specs.Reading.{Reads};
ghost use Rattle.controller.specs.Lent.{before, after, held, Keeps};
ghost use Rattle.controller.specs.World.{buffers};
ghost use Rattle.showing.specs.Played.{is_panel, played};
ghost use Rattle.showing.specs.Shown.{left_by, lent_answers, panel_lent, Fits};
ghost use Rattle.showing.specs.Output.{came_of, shaded_of};
ghost use Rattle.shades.specs.Shades.{shades_of};

use base::number_of;
use capture::{Capture, MOST_EVENTS, MOST_PIXELS};
use controller::{Lent, Uc8253};
use diagnostic_log::ROWS;
use outcome::{Came, came_by, panel_came};
pub use output::Form;
use output::Outcome;
use play::play;
pub use play::tested;
use shades::Tone;
use std::io;
use std::io::Write;
use uc8253::zeros;
use write::write;

// A capture of the largest size and one byte more, so that a larger one is seen to be larger.
pub const INPUT: usize = 65_537;

// How many entries each lent buffer has.
#[derive(Clone, Copy)]
pub struct Sizes {
    pub old: usize,
    pub new: usize,
    pub states: usize,
    pub picture: usize,
    pub rows: usize,
}

// The program `panel`; every other word takes panels up to 800 by 600.
pub(crate) fn is_panel(form: Form) -> bool
    ensures { result ≡ is_panel form }
{
    matches!(form, Form::Panel)
}

// What the file came to; an empty one is no events for `panel` alone.
fn came_of(form: Form, file: &[u8], number: u8) -> Came
    ensures { result ≡ came_of form file.now number }
{
    if is_panel(form) {
        return panel_came(file, number);
    }
    came_by(number)
}

// Writes the picture at a top that playing the file left. What it is of, and the sizes lent, are named
// for the condition alone.
fn write_at<W: Write>(
    file: &[u8],
    form: Form,
    top: u16,
    to: &mut W,
    sizes: Sizes,
    p: Uc8253,
    lent: &Lent<'_>,
) -> io::Result<()>
    requires { shades_of form top p (held lent.now).states ≡ shaded_of form top file.now sizes }
{
    shades::write(form, top, to, p, lent.states)
}

// The capture in buffers of its panel's size: played, and then written. What was lent has the sizes. The
// slices are apart: tried with what is lent as one, the proof didn't close, since what is left in a part of a
// slice that a struct holds isn't known.
fn show_in<W: Write>(
    file: &[u8],
    c: Capture,
    tone: Tone,
    to: &mut W,
    sizes: Sizes,
    answers: &mut [u16],
    old: &mut [u8],
    new: &mut [u8],
    states: &mut [i64],
    picture: &mut [u8],
    rows: &mut [u64],
) -> io::Result<()>
    requires reads { Reads file.now c }
    requires fits { Fits file.now sizes (buffers old.now new.now states.now picture.now rows.now) }
    requires answers_value { answers.old ≡ lent_answers }
    ensures { buffers old.new new.new states.new picture.new rows.new
        ≡ (played tone.form file.now (buffers old.old new.old states.old picture.old rows.old)).lent }
{
    let mut lent = Lent {
        old,
        new,
        states,
        picture,
        rows,
    };
    let form = tone.form;
    let played = play(form, file, c, answers, &mut lent);
    let number = number_of(played.err());
    let chip = played.unwrap_or(zeros());
    if let Some(top) = tone.top {
        return write_at(file, form, top, to, sizes, chip, &lent);
    }
    let o = Outcome {
        came: came_of(form, file, number),
        log: chip.log,
        image: chip.image,
    };
    write(file, c.end, form, to, sizes, o, answers, &lent)
}

// The capture in the front of what is lent.
fn show_front<W: Write>(
    file: &[u8],
    tone: Tone,
    to: &mut W,
    old: &mut [u8],
    new: &mut [u8],
    states: &mut [i64],
    picture: &mut [u8],
    rows: &mut [u64],
) -> io::Result<()>
    ensures { buffers old.new new.new states.new picture.new rows.new
        ≡ left_by tone.form file.now (buffers old.old new.old states.old picture.old rows.old) }
{
    let mut answers = [0u16; MOST_EVENTS];
    let sizes = Sizes {
        old: old.len(),
        new: new.len(),
        states: states.len(),
        picture: picture.len(),
        rows: rows.len(),
    };
    let c = capture::read(file);
    let pixels = capture::pixels(c.config);
    let n = pixels.min(states.len());
    let q = pixels.min(picture.len());
    show_in(
        file,
        c,
        tone,
        to,
        sizes,
        &mut answers,
        old,
        new,
        &mut states[..n],
        &mut picture[..q],
        rows,
    )
}

// The capture in the front of what is lent, and its lines or its picture written to the output: at a top
// of its own, 0 standing for 255 (2026-03), or as the panel has it. The answer is whether all of it could be
// written.
pub fn show<W: Write>(file: &[u8], tone: Tone, to: &mut W, lent: &mut Lent<'_>) -> io::Result<()>
    ensures left { after lent ≡ left_by tone.form file.now (before lent) }
    ensures kept { Keeps lent }
{
    let (old, new, states, picture, rows) = (
        &mut *lent.old,
        &mut *lent.new,
        &mut *lent.states,
        &mut *lent.picture,
        &mut *lent.rows,
    );
    show_front(file, tone, to, old, new, states, picture, rows)
}

// The capture as `panel` writes it, over the two lent planes, which then hold what its last event
// left in them.
pub fn show_panel<R: Print + Eprint>(rt: &R, file: &[u8], old: &mut [u8], new: &mut [u8])
    ensures after { old.new ≡ (left_by Form.Panel file.now (panel_lent old.old new.old)).old }
    ensures after_2 { new.new ≡ (left_by Form.Panel file.now (panel_lent old.old new.old)).new }
{
    let mut states = [0i64; MOST_PIXELS];
    let mut picture = [0u8; MOST_PIXELS];
    let mut rows = [0u64; ROWS];
    let tone = Tone {
        form: Form::Panel,
        top: None,
    };
    let mut to = io::writer(rt);
    let mut lent = Lent {
        old,
        new,
        states: &mut states,
        picture: &mut picture,
        rows: &mut rows,
    };
    if show(file, tone, &mut to, &mut lent).is_err() {
        let _ = eprintln!(rt; "could not write to standard output");
    }
}
