// A task on one capture: its lines, its last picture, all its pictures, its cuts, or its
// configuration.
use crate::comparing::config_at;
use crate::replay::{Stopped, Watch, replay};
use crate::{pictures, refusals};
use controller::Lent;
use files::tell;
use input::front;
use shades::Tone;
use showing::{Form, show, tested};
use std::io;
use std::io::Write;
use std::rt::Files;

#[derive(Clone, Copy)]
pub(crate) enum Task<'a> {
    Show(Tone),
    Watch(Watch<'a>),
    // The 312 bytes, as they stand.
    Config,
}

// Whether the output could be written, or what failed was said already.
fn unwritten(ended: Result<(), Stopped>) -> io::Result<()> {
    match ended {
        Err(Stopped::Unwritten(error)) => Err(error),
        Ok(()) | Err(Stopped::Said) => Ok(()),
    }
}

// The configuration of a capture that is not turned back.
fn write_config<W: Write>(capture: &[u8], to: &mut W) -> io::Result<()> {
    let c = capture::read(capture);
    to.write_all(config_at(capture, c.end))
}

// A capture that is not turned back, to an output; the answer is whether that could be written.
fn write<R: Files + Eprint, W: Write>(
    rt: &R,
    task: Task<'_>,
    capture: &[u8],
    to: &mut W,
    lent: &mut Lent<'_>,
) -> io::Result<()> {
    match task {
        Task::Show(tone) => show(capture, tone, to, lent),
        Task::Watch(watch) => unwritten(replay(rt, watch, capture, to, lent)),
        Task::Config => write_config(capture, to),
    }
}

// Its folder, if it has one, and its output are made only here, once nothing turns the capture back.
fn perform<R: Files + Print + Eprint>(
    rt: &R,
    task: Task<'_>,
    capture: &[u8],
    out: &[u8],
    lent: &mut Lent<'_>,
) {
    if let Task::Watch(Watch::Pictures(dir)) = task {
        if !pictures::make(rt, dir) {
            return;
        }
    }
    if let Some(mut to) = files::open(rt, out) {
        let written = write(rt, task, capture, &mut to, lent);
        files::close(rt, out, to, written);
    }
}

// A capture of so many bytes in all, of which the first ones were read.
fn judge<R: Files + Print + Eprint>(
    rt: &R,
    task: Task<'_>,
    name: &[u8],
    capture: &[u8],
    bytes: u64,
    out: &[u8],
    lent: &mut Lent<'_>,
) {
    let Err(refused) = tested(Form::Lines, capture) else {
        return perform(rt, task, capture, out, lent);
    };
    let lines = Tone {
        form: Form::Lines,
        top: None,
    };
    let mut to = io::writer(rt);
    if let Err(error) = show(capture, lines, &mut to, lent) {
        tell(rt, b"standard output", error);
    }
    refusals::tell(rt, name, capture, bytes, refused);
}

// The capture of that name, whose bytes are read into the file.
pub(crate) fn run<R: Files + io::Input + Print + Eprint>(
    rt: &R,
    task: Task<'_>,
    name: &[u8],
    out: &[u8],
    file: &mut [u8],
    lent: &mut Lent<'_>,
) {
    if let Some(got) = files::read(rt, name, file) {
        judge(rt, task, name, front(file, got.held), got.bytes, out, lent);
    }
}
