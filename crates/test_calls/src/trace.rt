// A trace: a capture's panel made, and its events one by one, with the Rust's answers after each on
// standard input.
use crate::answers::{ANSWERS, Answers, Tally, Which, ours, theirs};
use crate::digest;
use base::number_of;
use capture::{Capture, EVENT_BYTES, MOST_PIXELS, read};
use controller::{Lent, Uc8253};
use diagnostic_log::ROWS;
use events::{Event, event_at, step};
use input::read_full;
use ram::PLANE;
use std::io::Read;
use uc8253::{power_on, zeros};

// The planes are digested after so many events.
const DIGEST_EVERY: usize = 16;

// The next answers of the input.
fn next_answers<I: Read>(input: &mut I) -> Answers {
    let mut bytes = [0u8; ANSWERS];
    let n = read_full(input, &mut bytes);
    theirs(&bytes, n)
}

// The planes are digested after every 16th event and after the last.
fn is_digested(i: usize, count: usize) -> bool {
    i % DIGEST_EVERY == DIGEST_EVERY - 1 || i + 1 == count
}

// OLD, then NEW.
fn digest_if(digested: bool, lent: &Lent<'_>) -> u64 {
    if !digested {
        return 0;
    }
    let first = digest::digested(digest::OFFSET, lent.old);
    u64::from(digest::digested(first, lent.new))
}

// The event of index i, and its answers.
fn meet<R: Print, I: Read>(
    rt: &R,
    input: &mut I,
    t: &mut Tally,
    p: Uc8253,
    i: usize,
    event: Event,
    digested: bool,
    lent: &mut Lent<'_>,
) -> Uc8253 {
    let s = step(p, event, lent);
    let here = ours(
        s.chip,
        event.time,
        s.refused,
        s.answer,
        digest_if(digested, lent),
    );
    t.compare(rt, i as u64, here, next_answers(input));
    s.chip
}

// The first events of the capture, so many.
fn meet_all<R: Print, I: Read>(
    rt: &R,
    input: &mut I,
    t: &mut Tally,
    p: Uc8253,
    file: &[u8],
    count: usize,
    lent: &mut Lent<'_>,
) {
    let mut chip = p;
    for i in 0..count {
        let digested = is_digested(i, count);
        chip = meet(rt, input, t, chip, i, event_at(file, i), digested, lent);
    }
}

// A capture that is not refused, in buffers of its panel's size.
fn retrace_in<R: Print, I: Read>(
    rt: &R,
    input: &mut I,
    t: &mut Tally,
    file: &[u8],
    c: Capture,
    lent: &mut Lent<'_>,
) {
    let made = power_on(c.config, lent);
    let refused = number_of(made.err());
    t.hold(rt, 0, Which::Refused, u64::from(refused), 0);
    let chip = made.unwrap_or(zeros());
    meet_all(rt, input, t, chip, file, c.end / EVENT_BYTES, lent);
}

// The trace of a capture. One that is refused has no events; a panel for which there is no room is
// refused by its making.
pub(crate) fn retrace<R: Print, I: Read>(rt: &R, input: &mut I, t: &mut Tally, file: &[u8]) {
    let c = read(file);
    if c.refused.is_some() {
        t.hold(rt, 0, Which::Refused, u64::from(number_of(c.refused)), 0);
        return;
    }
    let mut old = [0u8; PLANE];
    let mut new = [0u8; PLANE];
    let mut states = [0i64; MOST_PIXELS];
    let mut picture = [0u8; MOST_PIXELS];
    let mut rows = [0u64; ROWS];
    let n = capture::pixels(c.config).min(MOST_PIXELS);
    let mut lent = Lent {
        old: &mut old,
        new: &mut new,
        states: &mut states[..n],
        picture: &mut picture[..n],
        rows: &mut rows,
    };
    retrace_in(rt, input, t, file, c, &mut lent);
}
