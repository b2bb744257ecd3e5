// One program with a word for each job: `jollanqe help` says all of them. With no word it reads jobs
// from standard input, one a line.
#![tactic(auto)]

mod buffers;
mod comparing;
mod help;
mod job;
mod pictures;
mod refusals;
mod replay;
mod task;
mod words;

use buffers::Buffers;
use controller::Lent;
use diagnostic_log::ROWS;
use files::{Line, read_line, tell};
use input::front;
use job::Job;
use showing::INPUT;
use std::env::FillError;
use std::fs::{File, OpenOptions};
use std::io::{Error, Input, Read};
use std::os::fd::AsRawFd;
use std::rt::{Env, Files};
use std::{fs, io};
use text::Text;

// The pixels of the largest panel, 800 by 600.
const PIXELS: usize = 480_000;

// The bytes of a job's line.
const LINE: usize = 8_192;

// Room for a word of such a line and for what is put beside it, so that no name is cut short.
pub(crate) const ROOM: usize = LINE + 64;

// The next line of standard input, in which blanks stand between the words: they become zeros, as
// between arguments.
fn next_line<I: Read>(input: &mut I, line: &mut [u8]) -> io::Result<Option<Line>> {
    let got = read_line(input, line);
    for b in line.iter_mut() {
        *b = words::unblank(*b);
    }
    got
}

// The next job of standard input, and whether there was one.
fn next_job<R: Files + Input + Print + Eprint, I: Read>(
    rt: &R,
    input: &mut I,
    line: &mut [u8],
    buffers: &mut Buffers<'_>,
) -> bool {
    match next_line(input, line) {
        Ok(Some(Line::Whole(n))) => {
            let job = Job {
                line: front(line, n),
                in_batch: true,
            };
            job::run(rt, job, buffers);
            true
        }
        Ok(Some(Line::TooLong)) => {
            let _ = eprintln!(rt; "a line is longer than 8,192 bytes");
            true
        }
        Ok(None) => false,
        Err(error) => {
            tell(rt, b"standard input", error);
            false
        }
    }
}

// The jobs of standard input, in turn. Nothing says that an input ends, so the turns are counted.
fn batch<R: Files + Input + Print + Eprint, I: Read>(
    rt: &R,
    input: &mut I,
    line: &mut [u8],
    buffers: &mut Buffers<'_>,
) {
    for _ in 0..u64::MAX {
        if !next_job(rt, input, line, buffers) {
            return;
        }
    }
}

// The null device where it got the place of a standard stream that was closed: one that cannot be
// read for the input, one that cannot be written for the others, so that using it fails as before.
fn held_place(rt: &HostRuntime) -> Option<File> {
    if let Ok(unread) = OpenOptions::new().append(true).open(rt, "/dev/null") {
        if unread.as_raw_fd() == 0 {
            return Some(unread);
        }
    }
    if let Ok(unwritten) = fs::open(rt, "/dev/null") {
        if unwritten.as_raw_fd() <= 2 {
            return Some(unwritten);
        }
    }
    None
}

// No file that a job opens may take the place of a standard stream: what is said on it would be
// written there. What is handed back holds the places.
fn hold_streams(rt: &HostRuntime) -> [Option<File>; 3] {
    let first = held_place(rt);
    if first.is_none() {
        return [first, None, None];
    }
    let second = held_place(rt);
    if second.is_none() {
        return [first, second, None];
    }
    let third = held_place(rt);
    [first, second, third]
}

// Whether the program was started with no word.
fn is_batch<R: Env>(rt: &R) -> bool {
    let mut space = [0u8; 1];
    match rt.arg(1, &mut space) {
        Ok(_) => false,
        Err(FillError::NotPresent) => true,
        Err(FillError::TooLong) => false,
    }
}

// ENAMETOOLONG.
const TOO_LONG: i32 = 36;

// The arguments as a line, a zero behind each; the answer is how many bytes it has. None of a word
// that is empty or does not fit.
fn gather<R: Env + Eprint>(rt: &R, line: &mut [u8]) -> usize {
    let mut space = [0u8; 4096];
    let mut text = Text::new(line);
    for i in 1..usize::MAX {
        let n = match rt.arg(i, &mut space) {
            Ok(n) => n,
            Err(FillError::NotPresent) => return text.held(),
            Err(FillError::TooLong) => {
                tell(rt, b"arguments", Error::from_raw_os_error(TOO_LONG));
                return 0;
            }
        };
        if n == 0 {
            help::wanted(rt, "one of the words is empty");
            return 0;
        }
        text.put(front(&space, n));
        text.byte(0);
        if text.is_full() {
            help::wanted(rt, "the words have more than 8,190 bytes together");
            return 0;
        }
    }
    text.held()
}

fn main(rt: HostRuntime) {
    let mut line = [0u8; LINE];
    let mut file = [0u8; INPUT];
    let mut other = [0u8; INPUT];
    let mut old = [0u8; 60000];
    let mut new = [0u8; 60000];
    let mut states = [0i64; PIXELS];
    let mut picture = [0u8; PIXELS];
    let mut other_picture = [0u8; PIXELS];
    let mut rows = [0u64; ROWS];
    let mut other_rows = [0u64; ROWS];
    let _held = hold_streams(&rt);
    let mut buffers = Buffers {
        file: &mut file,
        other: &mut other,
        lent: Lent {
            old: &mut old,
            new: &mut new,
            states: &mut states,
            picture: &mut picture,
            rows: &mut rows,
        },
        other_picture: &mut other_picture,
        other_rows: &mut other_rows,
    };
    if is_batch(&rt) {
        let mut input = rt.reader();
        batch(&rt, &mut input, &mut line, &mut buffers);
        return;
    }
    let n = gather(&rt, &mut line);
    let job = Job {
        line: front(&line, n),
        in_batch: false,
    };
    job::run(&rt, job, &mut buffers);
}
