// What a dump came to, to an output. A dump has no reads, so no event is lent on.
ghost use Rattle.std.specs.Prelude.{◌≡◌, List, [], ℕ, ◌-◌};
ghost use Rattle.output.specs.Units.{units_of};
ghost use Rattle.output.specs.Parts.{units_from};

use output::{Form, Outcome, count, next_part};
use std::io;
use std::io::{Error, ErrorKind, Write};

// The bytes of the buffer: most outputs take one write.
const ROOM: usize = 8_192;

// Writes the bytes, which are the output from one unit up to another, and answers whether they could
// be written. What they are of is named for the condition alone.
fn emit<W: Write>(
    form: Form,
    to: &mut W,
    o: Outcome,
    picture: &[u8],
    rows: &[u64],
    from: usize,
    next: usize,
    bytes: &[u8],
) -> io::Result<()>
    requires { bytes.now ≡ units_from from (next - from) (units_of form o [] [] picture.now rows.now) }
{
    to.write_all(bytes)
}

// All units, part by part, up to a write that fails.
fn write_parts<W: Write>(
    text: &mut [u8],
    form: Form,
    to: &mut W,
    o: Outcome,
    picture: &[u8],
    rows: &[u64],
) -> io::Result<()> {
    let end = count(form, o, b"");
    let mut from: usize = 0;
    // A step is a part long, which is as much as the buffer takes: no plainer by an iterator.
    while from < end {
        let part = next_part(text, form, o, b"", &[], picture, rows, from);
        let held = part.held;
        let next = part.next;
        if next == from {
            return Err(Error::from(ErrorKind::WriteZero));
        }
        emit(form, to, o, picture, rows, from, next, &text[..held])?;
        from = next;
    }
    Ok(())
}

pub(crate) fn write<W: Write>(
    form: Form,
    to: &mut W,
    o: Outcome,
    picture: &[u8],
    rows: &[u64],
) -> io::Result<()> {
    let mut text = [0u8; ROOM];
    write_parts(&mut text, form, to, o, picture, rows)
}
