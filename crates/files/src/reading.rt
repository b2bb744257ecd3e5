// Files by name, and lines of standard input. What fails is said on standard error by name.
ghost use Rattle.std.specs.Prelude.{◌≡◌, IfOk, IfSome, IsUtf8};
ghost use Rattle.files.specs.Reading as rule;

use crate::naming::{path, tell};
use input::read_all;
use std::io::Read;
use std::rt::Files;
use std::{fs, io};

// A line of an input.
#[derive(Clone, Copy, Debug, PartialEq, Eq)]
pub enum Line {
    // So many bytes, without its end.
    Whole(usize),
    TooLong,
}

// What reading a file gave: so many bytes at the buffer's start; and how many there are in all,
// where that is more.
#[derive(Clone, Copy, Debug, PartialEq, Eq)]
pub struct Got {
    pub held: usize,
    pub bytes: u64,
}

// One byte, or the end of the input.
fn byte<I: Read>(input: &mut I) -> io::Result<Option<u8>> {
    let mut one = [0u8; 1];
    let n = input.read(&mut one)?;
    Ok(one[..n].first().copied())
}

// The input ends behind so many bytes of a line.
fn line_of(held: usize) -> Option<Line>
    ensures { result ≡ rule.line_of held }
{
    if held == 0 {
        None
    } else {
        Some(Line::Whole(held))
    }
}

// The rest of a line that is too long. Nothing says that an input ends, so the turns are counted.
fn pass_line<I: Read>(input: &mut I) -> io::Result<Line>
    ensures { IfOk result (λ line. line ≡ Line.TooLong) }
{
    for _ in 0..u64::MAX {
        if matches!(byte(input)?, None | Some(b'\n')) {
            break;
        }
    }
    Ok(Line::TooLong)
}

// Behind the bytes of a line that fill their space.
fn past_full<I: Read>(input: &mut I, held: usize) -> io::Result<Option<Line>>
    ensures { rule.Ends held result }
{
    match byte(input)? {
        None => Ok(line_of(held)),
        Some(b'\n') => Ok(Some(Line::Whole(held))),
        Some(_) => Ok(Some(pass_line(input)?)),
    }
}

// The next line of an input, if there is one; of one that is too long the rest is passed over.
pub fn read_line<I: Read>(input: &mut I, line: &mut [u8]) -> io::Result<Option<Line>>
    ensures { rule.ReadsLine result line.old line.new }
{
    for (held, place) in line.iter_mut().enumerate() {
        match byte(input)? {
            None => return Ok(line_of(held)),
            Some(b'\n') => return Ok(Some(Line::Whole(held))),
            Some(b) => *place = b,
        }
    }
    past_full(input, line.len())
}

// How many bytes are left of an input, by reading them; the turns are counted as above.
fn rest<I: Read>(input: &mut I) -> u64 {
    let mut space = [0u8; 65536];
    let mut count: u64 = 0;
    for _ in 0..u64::MAX {
        let n = input.read(&mut space).unwrap_or(0);
        if n == 0 {
            break;
        }
        count = count.saturating_add(n as u64);
    }
    count
}

// The bytes of an input; nothing where a read failed, which was said.
fn read_from<R: Eprint, I: Read>(
    rt: &R,
    input: &mut I,
    name: &[u8],
    buffer: &mut [u8],
) -> Option<Got>
    ensures { IfSome result (λ got. rule.Gives got buffer.new) }
{
    match read_all(input, buffer) {
        Ok(held) => {
            let more = if held < buffer.len() { 0 } else { rest(input) };
            Some(Got {
                held,
                bytes: (held as u64).saturating_add(more),
            })
        }
        Err(error) => {
            tell(rt, name, error);
            None
        }
    }
}

// `-` is standard input.
pub fn is_input(name: &[u8]) -> bool
    ensures { result ≡ rule.is_input name.now }
{
    matches!(name, [b'-'])
}

// The file of that name.
pub fn open_read<R: Files>(rt: &R, name: &[u8]) -> io::Result<R::File>
    ensures { IfOk result (λ file. IsUtf8 name.now) }
{
    let path = path(name)?;
    fs::open(rt, path)
}

// The bytes of a file; `-` is standard input. Nothing where it could not be opened or read, which was
// said.
pub fn read<R: Files + io::Input + Eprint>(rt: &R, name: &[u8], buffer: &mut [u8]) -> Option<Got>
    ensures { IfSome result (λ got. rule.Gives got buffer.new) }
{
    if is_input(name) {
        let mut input = rt.reader();
        return read_from(rt, &mut input, b"standard input", buffer);
    }
    match open_read(rt, name) {
        Ok(mut file) => read_from(rt, &mut file, name, buffer),
        Err(error) => {
            tell(rt, name, error);
            None
        }
    }
}
