// A name as a path, and what fails, said on standard error by name.
ghost use Rattle.std.specs.Prelude.{◌≡◌, IsUtf8, MatchResult};

use std::fmt::Write;
use std::io::{Error, ErrorKind};
use std::str::from_utf8;
use std::{fmt, io};

// A name as it is said: what is no text of it stands as U+FFFD.
#[derive(Clone, Copy)]
pub struct Shown<'a> {
    pub name: &'a [u8],
}

impl fmt::Display for Shown<'_> {
    fn fmt<W: fmt::Write>(&self, f: &mut fmt::Formatter<W>) -> fmt::Result {
        for chunk in self.name.utf8_chunks() {
            f.write_str(chunk.valid())?;
            if !chunk.invalid().is_empty() {
                f.write_str("\u{FFFD}")?;
            }
        }
        Ok(())
    }
}

// A path is text: the name, if it is UTF-8. No file has another name.
pub fn path(name: &[u8]) -> io::Result<&str>
    ensures { MatchResult result (λ path. (path.now ≡ name.now) × IsUtf8 name.now)
        (λ error. ¬ (IsUtf8 name.now)) }
{
    match from_utf8(name) {
        Ok(text) => Ok(text),
        Err(_) => Err(Error::new(ErrorKind::InvalidFilename, "the name is not UTF-8")),
    }
}

// Writes on what it is given but for the system's number of an error, which std puts behind the words.
#[derive(Drop)]
struct Unnumbered<'a, W: fmt::Write> {
    to: &'a mut W,
    ended: bool,
}

impl<W: fmt::Write> fmt::Write for Unnumbered<'_, W> {
    fn write_str(&mut self, s: &str) -> fmt::Result {
        if s == " (os error " {
            self.ended = true;
        }
        if self.ended {
            return Ok(());
        }
        self.to.write_str(s)
    }
}

// Why something failed, in the system's words alone.
#[derive(Clone, Copy)]
struct Words {
    error: Error,
}

impl fmt::Display for Words {
    fn fmt<W: fmt::Write>(&self, f: &mut fmt::Formatter<W>) -> fmt::Result {
        let mut to = Unnumbered {
            to: f,
            ended: false,
        };
        write!(to, "{}", self.error)
    }
}

// A line on standard error: what failed, and why.
pub fn tell<R: Eprint>(rt: &R, name: &[u8], error: Error) {
    let shown = Shown { name };
    let words = Words { error };
    let _ = eprintln!(rt; "{shown}: {words}");
}
