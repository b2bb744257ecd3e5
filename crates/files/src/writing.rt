// Where a job writes: the file of that name, or standard output where the name is empty.
ghost use Rattle.std.specs.Prelude.{◌≡◌, IfOk, IsUtf8, is_ok};
ghost use Rattle.files.specs.Writing.{Opens};

use crate::naming::{path, tell};
use crate::stream::Stream;
use std::io::{Error, Printer};
use std::rt::Files;
use std::{fs, io};

// The file of that name, empty: one that is there is emptied.
pub fn create<R: Files>(rt: &R, name: &[u8]) -> io::Result<R::File>
    ensures { IfOk result (λ file. IsUtf8 name.now) }
{
    let path = path(name)?;
    fs::create(rt, path)
}

// What is written to; nothing where the file could not be opened, which was said.
pub fn open<'a, R: Files + Print + Eprint>(
    rt: &'a R,
    name: &[u8],
) -> Option<Stream<Printer<'a, R>, R::File>>
    ensures { Opens name.now result }
{
    if name.is_empty() {
        return Some(Stream::Standard(io::writer(rt)));
    }
    match create(rt, name) {
        Ok(file) => Some(Stream::Named(file)),
        Err(error) => {
            tell(rt, name, error);
            None
        }
    }
}

// Says that a write failed.
fn fail<R: Eprint>(rt: &R, name: &[u8], error: Error) {
    if name.is_empty() {
        tell(rt, b"standard output", error);
        return;
    }
    tell(rt, name, error);
}

// The end of what is written. Whether all of it could be is handed back, and said where it is not so.
pub fn close<R: Eprint, S: Drop, F: Drop>(
    rt: &R,
    name: &[u8],
    to: Stream<S, F>,
    written: io::Result<()>,
) -> bool
    ensures { result ≡ is_ok written }
{
    drop(to);
    match written {
        Ok(()) => true,
        Err(error) => {
            fail(rt, name, error);
            false
        }
    }
}
