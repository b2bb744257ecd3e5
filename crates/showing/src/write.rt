// The text of a capture that was played, to an output.
ghost use Rattle.std.specs.Prelude.{◌≡◌};
ghost use Rattle.output.specs.Units.{units_of};
ghost use Rattle.capture.specs.Reading.{events_end, events_of};
ghost use Rattle.controller.specs.Lent.{held};
ghost use Rattle.showing.specs.Output.{Output, Between};

use crate::Sizes;
use controller::Lent;
use output::{Form, Outcome, count, next_part};
use std::io;
use std::io::{Error, ErrorKind, Write};

// The bytes of the buffer: most outputs take one write.
const ROOM: usize = 8_192;

// Writes the bytes, which are the file's output from one unit up to another, and answers whether
// they could be written. What they are of, and the sizes lent, are named for the condition alone.
fn emit<W: Write>(
    file: &[u8],
    form: Form,
    to: &mut W,
    sizes: Sizes,
    from: usize,
    next: usize,
    bytes: &[u8],
) -> io::Result<()>
    requires { Between form file.now sizes from next bytes.now }
{
    to.write_all(bytes)
}

// All units, part by part, up to a write that fails.
fn write_parts<W: Write>(
    text: &mut [u8],
    file: &[u8],
    form: Form,
    to: &mut W,
    sizes: Sizes,
    o: Outcome,
    events: &[u8],
    answers: &[u16],
    picture: &[u8],
    rows: &[u64],
) -> io::Result<()>
    requires { Output form file.now sizes (units_of form o events.now answers.now picture.now rows.now) }
{
    let end = count(form, o, events);
    let mut from: usize = 0;
    while from < end {
        let part = next_part(text, form, o, events, answers, picture, rows, from);
        let held = part.held;
        let next = part.next;
        if next == from {
            return Err(Error::from(ErrorKind::WriteZero));
        }
        emit(file, form, to, sizes, from, next, &text[..held])?;
        from = next;
    }
    Ok(())
}

// What the capture came to, whose events end there.
pub(crate) fn write<W: Write>(
    file: &[u8],
    end: usize,
    form: Form,
    to: &mut W,
    sizes: Sizes,
    o: Outcome,
    answers: &[u16],
    lent: &Lent<'_>,
) -> io::Result<()>
    requires end_value { end ≡ events_end file.now }
    requires output { Output form file.now sizes
        (units_of form o (events_of file.now) answers.now (held lent.now).picture (held lent.now).rows) }
{
    let mut text = [0u8; ROOM];
    let events = &file[..end];
    write_parts(
        &mut text,
        file,
        form,
        to,
        sizes,
        o,
        events,
        answers,
        lent.picture,
        lent.rows,
    )
}
