// The bytes of an input, read to its end: a read that fails is told from the end.
#![tactic(auto)]

ghost use Rattle.std.specs.Prelude.{◌≡◌, take, IfOk};
ghost use Rattle.input.specs.Within.{IsPrefixLen};

use std::io;
use std::io::Read;

// How many bytes stand at the start of the buffer: all of the input, or as many as there is space
// for. The error is why the system refused a read.
pub fn read_all<R: Read>(input: &mut R, buffer: &mut [u8]) -> io::Result<usize>
    ensures { IfOk result (λ n. IsPrefixLen n buffer.new) }
{
    let mut held: usize = 0;
    while held < buffer.len() {
        let n = input.read(&mut buffer[held..])?;
        if n == 0 {
            return Ok(held);
        }
        held += n;
    }
    Ok(held)
}

// An input that a failing read ends.
#[derive(Drop)]
struct Lenient<'a, R> {
    input: &'a mut R,
}

impl<R: Read> Read for Lenient<'_, R> {
    fn read(&mut self, buf: &mut [u8]) -> io::Result<usize> {
        Ok(self.input.read(buf).unwrap_or(0))
    }
}

// How many bytes stand at the start of the buffer once it is full or the input has ended: a read that
// fails ends it too.
pub fn read_full<R: Read>(input: &mut R, buffer: &mut [u8]) -> usize
    ensures { IsPrefixLen result buffer.new }
{
    read_all(&mut Lenient { input }, buffer).unwrap_or(0)
}

// The first n items, or all where there are not so many.
pub fn front<T>(items: &[T], n: usize) -> &[T]
    ensures { result.now ≡ take n items.now }
{
    items.get(..n).unwrap_or(items)
}
