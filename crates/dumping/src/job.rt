// One job: the panel of a configuration after a dump.
ghost use Rattle.std.specs.Prelude.{◌≡◌, length};
ghost use Rattle.controller.specs.Lent.{before, after, Keeps};
ghost use Rattle.dumping.specs.Played.{Ran, SameLengths};

use crate::playing::{Came, play};
use crate::telling::{ROOM, bad_config, bad_dump, no_config, say};
use crate::writing::write;
use base::Refusal;
use capture::{config_of, pixels};
use controller::{Lent, Uc8253};
use files::{Stream, is_input, open_read, tell};
use input::front;
use outcome::came_by;
use output::{Form, Outcome};
use shades::Tone;
use std::io;
use std::io::{Read, Write};
use std::rt::Files;
use text::Text;
use uc8253::zeros;

// The bytes of a configuration; and one more, so that a larger file is seen to be larger.
const CONFIG: usize = 312;

const CONFIG_ROOM: usize = 313;

// What keeps the declarations and a word behind them.
const KEPT: usize = 1_048_576;

// The names of the configuration and the dump; what is written of the panel, and the name of where to.
#[derive(Clone, Copy)]
struct Job<'a> {
    config_name: &'a [u8],
    name: &'a [u8],
    tone: Tone,
    out: &'a [u8],
}

// What is written of a record, by the number of what turned it back, 0 for none.
fn outcome(number: u8, p: Uc8253) -> Outcome {
    Outcome {
        came: came_by(number),
        log: p.log,
        image: p.image,
    }
}

// `refused` and the number, on standard output.
fn refuse<R: Print + Eprint>(rt: &R, refused: Refusal) {
    let o = outcome(refused.number(), zeros());
    let mut to = io::writer(rt);
    if let Err(error) = write(Form::Lines, &mut to, o, b"", &[0]) {
        tell(rt, b"standard output", error);
    }
}

// The lines, or the picture, at a top of its own or as it is; the panel has the front of what is lent.
fn write_by<W: Write>(
    tone: Tone,
    to: &mut W,
    config: &[u8],
    p: Uc8253,
    lent: &Lent<'_>,
) -> io::Result<()> {
    let count = pixels(config_of(config));
    if let Some(top) = tone.top {
        return shades::write(tone.form, top, to, p, front(lent.states, count));
    }
    let o = outcome(0, p);
    write(tone.form, to, o, front(lent.picture, count), lent.rows)
}

// The panel after a dump that is not turned back; its output is made only here.
fn show<R: Files + Print + Eprint>(
    rt: &R,
    job: Job<'_>,
    config: &[u8],
    p: Uc8253,
    lent: &Lent<'_>,
) {
    if let Some(mut to) = files::open(rt, job.out) {
        let written = write_by(job.tone, &mut to, config, p, lent);
        files::close(rt, job.out, to, written);
    }
}

// 11 and 12 are of the dump, the others of the configuration.
fn turn_back<R: Print + Eprint>(rt: &R, job: Job<'_>, config: &[u8], refused: Refusal, why: &[u8]) {
    refuse(rt, refused);
    match refused {
        Refusal::MalformedDump | Refusal::WrongSignals => bad_dump(rt, job.name, refused, why),
        _ => bad_config(rt, job.config_name, config, refused),
    }
}

// The input of that name.
fn open<R: Files + io::Input>(rt: &R, name: &[u8]) -> io::Result<Stream<R::Reader, R::File>> {
    if is_input(name) {
        return Ok(Stream::Standard(rt.reader()));
    }
    let file = open_read(rt, name)?;
    Ok(Stream::Named(file))
}

// An input; where a read fails, that is said.
#[derive(Drop)]
struct Told<'a, R, I> {
    rt: &'a R,
    name: &'a [u8],
    input: I,
}

impl<R: Eprint, I: Read> Read for Told<'_, R, I> {
    fn read(&mut self, buf: &mut [u8]) -> io::Result<usize> {
        match self.input.read(buf) {
            Ok(n) => Ok(n),
            Err(error) => {
                tell(self.rt, self.name, error);
                Err(error)
            }
        }
    }
}

// What an input is called where a read of it fails.
fn called(name: &[u8]) -> &[u8] {
    if is_input(name) {
        return b"standard input";
    }
    name
}

// What a configuration and a dump came to.
fn answer<R: Files + Print + Eprint>(
    rt: &R,
    job: Job<'_>,
    came: Came,
    config: &[u8],
    why: &[u8],
    p: Uc8253,
    lent: &Lent<'_>,
) {
    match came {
        Came::Judged(None) => show(rt, job, config, p, lent),
        Came::Judged(Some(refused)) => turn_back(rt, job, config, refused, why),
        Came::HeadTooLong => say(
            rt,
            job.name,
            b"the declarations and a word behind them have more than 1,048,576 bytes: not read",
        ),
        Came::WordTooLong => say(rt, job.name, b"a word has more than 65,537 bytes: not read"),
        // a read that failed was said where it failed
        Came::Unread => {}
    }
}

// A dump that is open.
fn with_dump<R: Files + Print + Eprint, I: Read>(
    rt: &R,
    job: Job<'_>,
    config: &[u8],
    input: &mut I,
    chunk: &mut [u8],
    word: &mut [u8],
    kept: &mut [u8],
    lent: &mut Lent<'_>,
) -> Came
    requires { length config.now ≡ 312 }
    ensures ran { Ran result (length kept.new) (length word.new) (before lent) (after lent) }
    ensures lengths { SameLengths lent }
    ensures same { Keeps lent }
{
    let mut buffer = [0u8; ROOM];
    let mut why = Text::new(&mut buffer);
    let d = play(config, input, chunk, &mut why, kept, word, lent);
    answer(rt, job, d.came, config, why.written(), d.chip, lent);
    d.came
}

// What keeps the declarations is lent here.
fn with_kept<R: Files + Print + Eprint, I: Read>(
    rt: &R,
    job: Job<'_>,
    config: &[u8],
    input: &mut I,
    chunk: &mut [u8],
    word: &mut [u8],
    lent: &mut Lent<'_>,
) -> Came
    requires { length config.now ≡ 312 }
    ensures ran { Ran result 1_048_576 (length word.new) (before lent) (after lent) }
    ensures lengths { SameLengths lent }
    ensures same { Keeps lent }
{
    let mut kept = [0u8; KEPT];
    with_dump(rt, job, config, input, chunk, word, &mut kept, lent)
}

// A configuration of the right length.
fn with_config<R: Files + io::Input + Print + Eprint>(
    rt: &R,
    job: Job<'_>,
    config: &[u8],
    chunk: &mut [u8],
    word: &mut [u8],
    lent: &mut Lent<'_>,
) -> Came
    requires { length config.now ≡ 312 }
    ensures ran { Ran result 1_048_576 (length word.new) (before lent) (after lent) }
    ensures lengths { SameLengths lent }
    ensures same { Keeps lent }
{
    let name = job.name;
    match open(rt, name) {
        Ok(input) => {
            let mut told = Told {
                rt,
                name: called(name),
                input,
            };
            with_kept(rt, job, config, &mut told, chunk, word, lent)
        }
        Err(error) => {
            tell(rt, name, error);
            Came::Unread
        }
    }
}

// The configuration and the dump of these names; `-` is standard input. A configuration of a wrong
// length is turned back before the dump is read. What they came to is said, and handed back.
pub fn run<R: Files + io::Input + Print + Eprint>(
    rt: &R,
    config_name: &[u8],
    name: &[u8],
    tone: Tone,
    out: &[u8],
    chunk: &mut [u8],
    word: &mut [u8],
    lent: &mut Lent<'_>,
) -> Came
    ensures ran { Ran result 1_048_576 (length word.new) (before lent) (after lent) }
    ensures lengths { SameLengths lent }
    ensures same { Keeps lent }
{
    let mut config = [0u8; CONFIG_ROOM];
    let Some(got) = files::read(rt, config_name, &mut config) else {
        return Came::Unread;
    };
    let c = front(&config, got.held);
    if c.len() == CONFIG {
        let job = Job {
            config_name,
            name,
            tone,
            out,
        };
        return with_config(rt, job, c, chunk, word, lent);
    }
    refuse(rt, Refusal::BrokenCapture);
    no_config(rt, config_name, got.bytes);
    Came::Judged(Some(Refusal::BrokenCapture))
}
