// A capture's events one by one: the refreshes that reset cuts, or every picture that is published.
use crate::pictures;
use capture::EVENT_BYTES;
use controller::{Lent, Uc8253};
use events::{Event, event_at, step};
use input::front;
use std::io;
use std::io::{Error, Write};
use std::rt::Files;
use text::Text;
use uc8253::{power_on, zeros};

#[derive(Clone, Copy)]
pub(crate) enum Watch<'a> {
    Cuts,
    // Into the folder of that name.
    Pictures(&'a [u8]),
}

// Why a replay stopped.
#[derive(Clone, Copy)]
pub(crate) enum Stopped {
    // A write to the output failed, and why.
    Unwritten(Error),
    // A picture's file failed, which was said.
    Said,
}

impl From<Error> for Stopped {
    fn from(error: Error) -> Stopped {
        Stopped::Unwritten(error)
    }
}

// The line of a cut, if the event is one.
fn say_cut<W: Write>(p: Uc8253, event: Event, to: &mut W) -> io::Result<()> {
    match cuts::cut_by(p, event) {
        Some(cut) => {
            let mut room = [0u8; 128];
            let mut text = Text::new(&mut room);
            cuts::line(&mut text, cut);
            to.write_all(text.written())
        }
        None => Ok(()),
    }
}

// The picture that a call published, if it did, before another one is drawn over it. A call publishes
// at most one: a refresh that its time ended is not there to be cut.
fn keep_picture<R: Files + Eprint, W: Write>(
    rt: &R,
    p: Uc8253,
    generation: u64,
    dir: &[u8],
    to: &mut W,
    picture: &[u8],
) -> Result<(), Stopped> {
    let image = p.image;
    if image.generation == generation {
        return Ok(());
    }
    if !pictures::keep(rt, image, dir, picture) {
        return Err(Stopped::Said);
    }
    pictures::say(image, to, picture)?;
    Ok(())
}

// A cut is asked before the event's call; a picture after it, with the generation that it had.
fn meet<R: Files + Eprint, W: Write>(
    rt: &R,
    watch: Watch<'_>,
    p: Uc8253,
    event: Event,
    to: &mut W,
    lent: &mut Lent<'_>,
) -> Result<Uc8253, Stopped> {
    if let Watch::Cuts = watch {
        say_cut(p, event, to)?;
    }
    let chip = step(p, event, lent).chip;
    if let Watch::Pictures(dir) = watch {
        keep_picture(rt, chip, p.image.generation, dir, to, lent.picture)?;
    }
    Ok(chip)
}

// In buffers of the panel's size: there no making of a capture that passed its tests is turned back.
fn replay_in<R: Files + Eprint, W: Write>(
    rt: &R,
    watch: Watch<'_>,
    file: &[u8],
    to: &mut W,
    lent: &mut Lent<'_>,
) -> Result<(), Stopped> {
    let c = capture::read(file);
    let events = front(file, c.end);
    let mut chip = power_on(c.config, lent).unwrap_or(zeros());
    for i in 0..events.len() / EVENT_BYTES {
        chip = meet(rt, watch, chip, event_at(events, i), to, lent)?;
    }
    Ok(())
}

// A capture that passed its tests, in the front of what is lent.
pub(crate) fn replay<R: Files + Eprint, W: Write>(
    rt: &R,
    watch: Watch<'_>,
    file: &[u8],
    to: &mut W,
    lent: &mut Lent<'_>,
) -> Result<(), Stopped> {
    let pixels = capture::pixels(capture::config(file));
    let n = pixels.min(lent.states.len());
    let q = pixels.min(lent.picture.len());
    let (old, new, states, picture, rows) = (
        &mut *lent.old,
        &mut *lent.new,
        &mut *lent.states,
        &mut *lent.picture,
        &mut *lent.rows,
    );
    let mut fitted = Lent {
        old,
        new,
        states: &mut states[..n],
        picture: &mut picture[..q],
        rows,
    };
    replay_in(rt, watch, file, to, &mut fitted)
}
