// A published picture as a PNG file, and its line.
ghost use Rattle.std.specs.Prelude.{◌≡◌, ◌++◌};
ghost use Rattle.text.specs.Text.{ascii, digits, put};

use diagnostic_log::Log;
use files::{create, path, tell};
use glass::PanelImage;
use input::front;
use output::{Came, Form, Outcome};
use std::io::{Error, ErrorKind, Write};
use std::rt::Files;
use std::{fs, io};
use text::Text;

// `DIR/GENERATION.png`
#[tactic(auto, using(text::proofs::Filling::puts))]
fn file_name(text: &mut Text<'_>, dir: &[u8], generation: u64)
    ensures { text.new ≡ put (dir.now ++ ascii "/" ++ digits generation ++ ascii ".png") text.old }
{
    text.put(dir);
    text.put(b"/");
    text.decimal(generation);
    text.put(b".png");
}

// What is written of the picture alone: no read and no row stands before it.
fn outcome(image: PanelImage) -> Outcome {
    let log = Log {
        stored: 0,
        dropped: 0,
    };
    let came = Came::Played;
    Outcome { came, log, image }
}

// The picture, part by part, up to a write that fails: a while, since each turn takes as many units as the
// buffer does.
fn write_parts<W: Write>(to: &mut W, o: Outcome, picture: &[u8]) -> io::Result<()> {
    let mut text = [0u8; crate::ROOM];
    let answers = [0u16; 1];
    let rows = [0u64; 1];
    let end = output::count(Form::Png, o, b"");
    let mut from: usize = 0;
    while from < end {
        let part = output::next_part(&mut text, Form::Png, o, b"", &answers, picture, &rows, from);
        if part.next <= from {
            return Err(Error::from(ErrorKind::WriteZero));
        }
        to.write_all(front(&text, part.held))?;
        from = part.next;
    }
    Ok(())
}

// The picture in a file of that name.
fn write_new<R: Files>(rt: &R, name: &[u8], o: Outcome, picture: &[u8]) -> io::Result<()> {
    let mut file = create(rt, name)?;
    write_parts(&mut file, o, picture)
}

// The picture in a file of that name; what fails is said.
fn write_file<R: Files + Eprint>(rt: &R, name: &[u8], o: Outcome, picture: &[u8]) -> bool {
    match write_new(rt, name, o, picture) {
        Ok(()) => true,
        Err(error) => {
            tell(rt, name, error);
            false
        }
    }
}

// The picture in the folder; what fails is said.
pub(crate) fn keep<R: Files + Eprint>(
    rt: &R,
    image: PanelImage,
    dir: &[u8],
    picture: &[u8],
) -> bool {
    let mut room = [0u8; crate::ROOM];
    let mut name = Text::new(&mut room);
    file_name(&mut name, dir, image.generation);
    write_file(rt, name.written(), outcome(image), picture)
}

// Its head, as `panel` writes it: the line behind the dropped count.
pub(crate) fn say<W: Write>(image: PanelImage, to: &mut W, picture: &[u8]) -> io::Result<()> {
    let mut room = [0u8; 256];
    let mut text = Text::new(&mut room);
    let answers = [0u16; 1];
    let rows = [0u64; 1];
    let o = outcome(image);
    output::unit(&mut text, Form::Lines, o, b"", &answers, picture, &rows, 1);
    to.write_all(text.written())
}

// The folder of that name, which is not there.
fn make_new<R: Files>(rt: &R, dir: &[u8]) -> io::Result<()> {
    let path = path(dir)?;
    fs::create_dir(rt, path)
}

// The folder; one that is there already is as good. What fails is said.
pub(crate) fn make<R: Files + Eprint>(rt: &R, dir: &[u8]) -> bool {
    match make_new(rt, dir) {
        Ok(()) => true,
        Err(error) => match error.kind() {
            ErrorKind::AlreadyExists => true,
            _ => {
                tell(rt, dir, error);
                false
            }
        },
    }
}
