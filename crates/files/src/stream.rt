// A standard stream, or a file of a name.
use std::io;
use std::io::{Read, Write};

#[derive(Drop)]
pub enum Stream<S, F> {
    Standard(S),
    Named(F),
}

impl<S: Read, F: Read> Read for Stream<S, F> {
    fn read(&mut self, buf: &mut [u8]) -> io::Result<usize> {
        match self {
            Stream::Standard(stream) => stream.read(buf),
            Stream::Named(file) => file.read(buf),
        }
    }
}

impl<S: Write, F: Write> Write for Stream<S, F> {
    fn write(&mut self, buf: &[u8]) -> io::Result<usize> {
        match self {
            Stream::Standard(stream) => stream.write(buf),
            Stream::Named(file) => file.write(buf),
        }
    }

    fn flush(&mut self) -> io::Result<()> {
        match self {
            Stream::Standard(stream) => stream.flush(),
            Stream::Named(file) => file.flush(),
        }
    }
}
