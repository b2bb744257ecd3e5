// A record's picture at a top of its own, drawn from its states, to an output (2026-03).
#![tactic(auto)]

ghost use Rattle.std.specs.Prelude.{◌≡◌, ◌-◌, ◌≤◌, replicate};
ghost use Rattle.glass.specs.Gray.{top_of};
ghost use Rattle.output.specs.Units.{wide_of};
ghost use Rattle.output.specs.Parts.{units_from};
ghost use Rattle.shades.specs.Shades as spec;

use base::number_of;
use controller::Uc8253;
use outcome::came_by;
use output::{Form, Outcome, Part, wide_count, wide_part};
use questions::wide_picture;
use std::io;
use std::io::{Error, ErrorKind, Write};

// What is written of a panel: its form, and, of a picture, the top of its own that it is drawn at, if it
// is.
#[derive(Clone, Copy)]
pub struct Tone {
    pub form: Form,
    pub top: Option<u16>,
}

// The pixels of the largest panel, 800 by 600.
const PIXELS: usize = 480_000;

// The bytes of the buffer that the text goes through.
const ROOM: usize = 8_192;

// Writes the bytes, which are the picture's from one unit up to another, and answers whether they
// could be written. What they are of is named for the condition alone.
fn emit<W: Write>(
    form: Form,
    top: u16,
    to: &mut W,
    p: Uc8253,
    states: &[i64],
    from: usize,
    next: usize,
    bytes: &[u8],
) -> io::Result<()>
    requires { bytes.now ≡ units_from from (next - from) (spec.shades_of form top p states.now) }
{
    to.write_all(bytes)
}

// All units, part by part, up to a write that fails.
fn write_parts<W: Write>(
    text: &mut [u8],
    form: Form,
    top: u16,
    to: &mut W,
    p: Uc8253,
    states: &[i64],
    o: Outcome,
    wide: &[u16],
) -> io::Result<()>
    requires { wide_of form (top_of top) o wide.now ≡ spec.shades_of form top p states.now }
{
    let end = wide_count(form, o);
    let mut from: usize = 0;
    while from < end {
        let Part { held, next } = wide_part(text, form, o, wide, top, from);
        if next == from {
            return Err(Error::from(ErrorKind::WriteZero));
        }
        emit(form, top, to, p, states, from, next, &text[..held])?;
        from = next;
    }
    Ok(())
}

// The picture in a buffer that has an entry for each pixel.
fn write_in<W: Write>(
    form: Form,
    top: u16,
    to: &mut W,
    p: Uc8253,
    states: &[i64],
    wide: &mut [u16],
) -> io::Result<()>
    requires { wide.old ≡ replicate (spec.room p) 0 }
{
    let refused = wide_picture(p, states, wide, top).err();
    let o = Outcome {
        came: came_by(number_of(refused)),
        log: p.log,
        image: p.image,
    };
    let mut text = [0u8; ROOM];
    write_parts(&mut text, form, top, to, p, states, o, wide)
}

fn room(p: Uc8253) -> usize
    ensures { (result ≡ spec.room p) × (result ≤ 480_000) }
{
    let pixels = p.config.panel.sources as usize * p.config.panel.gates as usize;
    pixels.min(PIXELS)
}

// The picture of the states at a top, 0 standing for 255; the answer is whether all of it could be
// written.
pub fn write<W: Write>(
    form: Form,
    top: u16,
    to: &mut W,
    p: Uc8253,
    states: &[i64],
) -> io::Result<()> {
    let mut wide = [0u16; PIXELS];
    let n = room(p);
    write_in(form, top, to, p, states, &mut wide[..n])
}
