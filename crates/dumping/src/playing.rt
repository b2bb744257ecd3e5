// A configuration and a dump, in the front of what is lent.
ghost use Rattle.std.specs.Prelude.{◌≡◌, length};
ghost use Rattle.controller.specs.World.{buffers, world};
ghost use Rattle.controller.specs.Lent.{before, after, Keeps};
ghost use Rattle.dumping.specs.Played as rule;

use crate::reading::read_dump;
use base::Refusal;
use capture::{config_of, pixels};
use controller::{Lent, Uc8253};
use std::io::Read;
use text::Text;
use uc8253::zeros;
use vcd::Fault;
use vcd_playing::make;
use vcd_reading::Limit;

// What a configuration and a dump came to: one of four, no Option or Result.
#[derive(Clone, Copy)]
pub enum Came {
    // By the first refusal that is met, if any is.
    Judged(Option<Refusal>),
    // A limit of the program: the dump was not read to its end.
    HeadTooLong,
    WordTooLong,
    // One of the two could not be read.
    Unread,
}

// The record after the last call.
#[derive(Clone, Copy)]
pub(crate) struct Dumped {
    pub(crate) chip: Uc8253,
    pub(crate) came: Came,
}

// 11 and 12 come before what turns the configuration back.
fn refusal(judged: Result<(), Fault>, made: Option<Refusal>) -> Option<Refusal>
    ensures { result ≡ rule.refusal_by judged made }
{
    match judged {
        Ok(()) => made,
        Err(Fault::Malformed) => Some(Refusal::MalformedDump),
        Err(Fault::Unsignalled) => Some(Refusal::WrongSignals),
    }
}

fn came_of(ending: Option<Result<Result<(), Fault>, Limit>>, made: Option<Refusal>) -> Came
    ensures { result ≡ rule.came_by ending made }
{
    match ending {
        Some(Ok(judged)) => Came::Judged(refusal(judged, made)),
        Some(Err(Limit::HeadTooLong)) => Came::HeadTooLong,
        Some(Err(Limit::WordTooLong)) => Came::WordTooLong,
        None => Came::Unread,
    }
}

// In buffers of the panel's size. A configuration that is turned back gives the record of zeros, which
// turns back every call, so that the dump is read to its end for 11 and 12. Why the dump is turned back,
// if it is, is put into a text. The slices are apart as in `play_front`.
fn play_in<I: Read>(
    config: &[u8],
    input: &mut I,
    chunk: &mut [u8],
    why: &mut Text<'_>,
    kept: &mut [u8],
    word: &mut [u8],
    old: &mut [u8],
    new: &mut [u8],
    states: &mut [i64],
    picture: &mut [u8],
    rows: &mut [u64],
) -> Dumped
    requires { length config.now ≡ 312 }
    ensures { rule.Dumps result config.now (length kept.new) (length word.new)
        (buffers old.old new.old states.old picture.old rows.old)
        (world result.chip (buffers old.new new.new states.new picture.new rows.new)) }
{
    let mut lent = Lent {
        old,
        new,
        states,
        picture,
        rows,
    };
    let made = make(config, &mut lent);
    let p = made.unwrap_or(zeros());
    let c = read_dump(p, input, chunk, why, kept, word, &mut lent);
    Dumped {
        chip: c.chip,
        came: came_of(c.ending, made.err()),
    }
}

// In the front of the slices, one by one: that each keeps its length is known of slices, and not of what
// is lent as one.
fn play_front<I: Read>(
    config: &[u8],
    input: &mut I,
    chunk: &mut [u8],
    why: &mut Text<'_>,
    kept: &mut [u8],
    word: &mut [u8],
    old: &mut [u8],
    new: &mut [u8],
    states: &mut [i64],
    picture: &mut [u8],
    rows: &mut [u64],
) -> Dumped
    requires { length config.now ≡ 312 }
    ensures { rule.Dumps result config.now (length kept.new) (length word.new)
        (rule.fitted config.now (buffers old.old new.old states.old picture.old rows.old))
        (world result.chip (rule.fitted config.now (buffers old.new new.new states.new picture.new rows.new))) }
{
    let most = pixels(config_of(config));
    let n = most.min(states.len());
    let q = most.min(picture.len());
    play_in(
        config,
        input,
        chunk,
        why,
        kept,
        word,
        old,
        new,
        &mut states[..n],
        &mut picture[..q],
        rows,
    )
}

// In the front of what is lent.
pub(crate) fn play<I: Read>(
    config: &[u8],
    input: &mut I,
    chunk: &mut [u8],
    why: &mut Text<'_>,
    kept: &mut [u8],
    word: &mut [u8],
    lent: &mut Lent<'_>,
) -> Dumped
    requires { length config.now ≡ 312 }
    ensures dumps { rule.Dumps result config.now (length kept.new) (length word.new)
        (rule.fitted config.now (before lent))
        (world result.chip (rule.fitted config.now (after lent))) }
    ensures lengths { rule.SameLengths lent }
    ensures same { Keeps lent }
{
    let (old, new, states, picture, rows) = (
        &mut *lent.old,
        &mut *lent.new,
        &mut *lent.states,
        &mut *lent.picture,
        &mut *lent.rows,
    );
    play_front(
        config, input, chunk, why, kept, word, old, new, states, picture, rows,
    )
}
