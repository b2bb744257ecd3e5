// One job: a word, its files, and where it writes.
use crate::buffers::Buffers;
use crate::replay::Watch;
use crate::task::Task;
use crate::words::{count, top_in, word};
use crate::{comparing, help, task};
use files::is_input;
use shades::Tone;
use showing::Form;
use std::io::Input;
use std::rt::Files;

#[derive(Clone, Copy)]
pub(crate) enum Word {
    Help,
    // A task on one capture.
    Task(Task<'static>),
    // Its last picture, perhaps at a top.
    Picture(Form),
    Pictures,
    Compare,
    Dump,
    Unknown,
}

// Why the words say nothing of what is written of a dump, or of a picture.
#[derive(Clone, Copy, Debug, PartialEq, Eq)]
enum ToneError {
    // There is no such word, or too many or too few.
    Wrong,
    // A top that is none, or that a PNG file cannot have.
    NoTop,
    NoPng,
}

// As the panel has it: the lines, or the 8-bit picture.
fn plain(form: Form) -> Tone {
    Tone { form, top: None }
}

fn sort(w: &[u8]) -> Word {
    match w {
        b"help" => Word::Help,
        b"lines" => Word::Task(Task::Show(plain(Form::Lines))),
        b"pgm" => Word::Picture(Form::Graymap),
        b"png" => Word::Picture(Form::Png),
        b"cuts" => Word::Task(Task::Watch(Watch::Cuts)),
        b"config" => Word::Task(Task::Config),
        b"pictures" => Word::Pictures,
        b"compare" => Word::Compare,
        b"vcd" => Word::Dump,
        _ => Word::Unknown,
    }
}

// A job's line, and whether it is one of the batch.
#[derive(Clone, Copy)]
pub(crate) struct Job<'a> {
    pub(crate) line: &'a [u8],
    pub(crate) in_batch: bool,
}

impl<'a> Job<'a> {
    fn word(self, k: usize) -> &'a [u8] {
        word(self.line, k)
    }

    // How many words a job of the batch has before `> NAME`, if that ends it.
    fn before_target(self) -> usize {
        let n = count(self.line);
        if self.in_batch && 3 <= n && self.word(n - 2) == b">".as_slice() {
            return n - 2;
        }
        n
    }

    // The name behind `>`; empty where there is none.
    fn target(self) -> &'a [u8] {
        let n = count(self.line);
        if self.before_target() < n {
            return self.word(n - 1);
        }
        b""
    }

    // Whether a job of the batch names standard input, which is the batch itself.
    fn takes_batch<R: Eprint>(self, rt: &R, name: &[u8]) -> bool {
        let taken = self.in_batch && is_input(name);
        if taken {
            help::wanted(rt, "standard input is the batch itself: name a file");
        }
        taken
    }

    // Whether two files and an output cannot be those of one job.
    fn clash<R: Eprint>(self, rt: &R, a: &[u8], b: &[u8]) -> bool {
        let out = self.target();
        self.takes_batch(rt, a)
            || self.takes_batch(rt, b)
            || both_input(rt, a, b)
            || writes_over(rt, a, out)
            || writes_over(rt, b, out)
    }
}

// Whether a job would write over a file that it reads.
fn writes_over<R: Eprint>(rt: &R, name: &[u8], out: &[u8]) -> bool {
    if name == out {
        help::wanted(rt, "an input would be written over: name another file");
        return true;
    }
    false
}

// Whether both files are standard input, which can be read once.
fn both_input<R: Eprint>(rt: &R, a: &[u8], b: &[u8]) -> bool {
    let both = is_input(a) && is_input(b);
    if both {
        help::wanted(rt, "standard input can be one of the two files, not both");
    }
    both
}

// A form at this top: a PNG file's white is 255, for which 0 stands, or 65,535.
fn at_top(form: Form, top: u16) -> Result<Tone, ToneError> {
    let tone = Tone {
        form,
        top: Some(top),
    };
    match (form, top) {
        (Form::Png, 0 | 255 | 65_535) => Ok(tone),
        (Form::Png, _) => Err(ToneError::NoPng),
        _ => Ok(tone),
    }
}

// A picture by the n words of a line, of which number `at` is the top, if there is one.
fn tone(form: Form, line: &[u8], n: usize, at: usize) -> Result<Tone, ToneError> {
    if n == at {
        return Ok(plain(form));
    }
    if n < at || 1 < n - at {
        return Err(ToneError::Wrong);
    }
    at_top(form, top_in(word(line, at)).ok_or(ToneError::NoTop)?)
}

// A word of one file.
fn one_file<R: Files + Input + Print + Eprint>(
    rt: &R,
    task: Task<'_>,
    job: Job<'_>,
    buffers: &mut Buffers<'_>,
) {
    if job.before_target() != 2 {
        help::wants_file(rt, job.word(0));
        return;
    }
    with_file(rt, task, job, buffers);
}

// The picture of one file, perhaps at a top.
fn one_picture<R: Files + Input + Print + Eprint>(
    rt: &R,
    form: Form,
    job: Job<'_>,
    buffers: &mut Buffers<'_>,
) {
    match tone(form, job.line, job.before_target(), 2) {
        Ok(tone) => with_file(rt, Task::Show(tone), job, buffers),
        Err(ToneError::Wrong) => help::wants_picture(rt, job.word(0)),
        Err(ToneError::NoTop) => help::wants_top(rt),
        Err(ToneError::NoPng) => help::no_png(rt),
    }
}

// The file that a line names.
fn with_file<R: Files + Input + Print + Eprint>(
    rt: &R,
    task: Task<'_>,
    job: Job<'_>,
    buffers: &mut Buffers<'_>,
) {
    let name = job.word(1);
    let out = job.target();
    if job.takes_batch(rt, name) || writes_over(rt, name, out) {
        return;
    }
    task::run(rt, task, name, out, buffers.file, &mut buffers.lent);
}

// A file and a folder.
fn into_folder<R: Files + Input + Print + Eprint>(rt: &R, job: Job<'_>, buffers: &mut Buffers<'_>) {
    if job.before_target() != 3 {
        help::wanted(
            rt,
            "pictures wants a file and a folder, as in: jollanqe pictures night.capture night",
        );
        return;
    }
    with_file(rt, Task::Watch(Watch::Pictures(job.word(2))), job, buffers);
}

// Two files.
fn two_files<R: Files + Input + Print + Eprint>(rt: &R, job: Job<'_>, buffers: &mut Buffers<'_>) {
    if job.before_target() != 3 {
        help::wanted(
            rt,
            "compare wants two files, as in: jollanqe compare good.capture bad.capture",
        );
        return;
    }
    let a = job.word(1);
    let b = job.word(2);
    if !job.clash(rt, a, b) {
        let lent = &mut buffers.lent;
        comparing::run(
            rt,
            a,
            b,
            job.target(),
            buffers.file,
            buffers.other,
            lent.old,
            lent.new,
            lent.states,
            lent.picture,
            buffers.other_picture,
            lent.rows,
            buffers.other_rows,
        );
    }
}

// What `vcd` writes, by the n words of its line: the lines where none stands behind its two files.
fn choose(line: &[u8], n: usize) -> Result<Tone, ToneError> {
    match (n, word(line, 3)) {
        (0..=2, _) => Err(ToneError::Wrong),
        (3, _) => Ok(plain(Form::Lines)),
        (_, b"pgm") => tone(Form::Graymap, line, n, 4),
        (_, b"png") => tone(Form::Png, line, n, 4),
        (4, b"lines") => Ok(plain(Form::Lines)),
        _ => Err(ToneError::Wrong),
    }
}

// A configuration and a dump.
fn dump<R: Files + Input + Print + Eprint>(rt: &R, job: Job<'_>, buffers: &mut Buffers<'_>) {
    let tone = match choose(job.line, job.before_target()) {
        Ok(tone) => tone,
        Err(ToneError::Wrong) => return help::wants_dump(rt),
        Err(ToneError::NoTop) => return help::wants_top(rt),
        Err(ToneError::NoPng) => return help::no_png(rt),
    };
    let config = job.word(1);
    let name = job.word(2);
    if job.clash(rt, config, name) {
        return;
    }
    dumping::run(
        rt,
        config,
        name,
        tone,
        job.target(),
        buffers.file,
        buffers.other,
        &mut buffers.lent,
    );
}

// `help` stands alone.
fn say_help<R: Print + Eprint>(rt: &R, line: &[u8]) {
    if count(line) == 1 {
        help::say(rt);
        return;
    }
    help::wanted(rt, "help stands alone, and writes to standard output");
}

// The job of a line.
pub(crate) fn run<R: Files + Input + Print + Eprint>(
    rt: &R,
    job: Job<'_>,
    buffers: &mut Buffers<'_>,
) {
    if count(job.line) == 0 {
        return;
    }
    let first = job.word(0);
    match sort(first) {
        Word::Help => say_help(rt, job.line),
        Word::Task(task) => one_file(rt, task, job, buffers),
        Word::Picture(form) => one_picture(rt, form, job, buffers),
        Word::Pictures => into_folder(rt, job, buffers),
        Word::Compare => two_files(rt, job, buffers),
        Word::Dump => dump(rt, job, buffers),
        Word::Unknown => help::no_word(rt, first),
    }
}
