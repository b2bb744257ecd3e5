// What the controller shows after an event, ours and the Rust's, as numbers that are compared one by
// one.
use crate::report;
use base::{Refusal, number_of};
use capture::little;
use controller::Uc8253;
use uc8253::{busy_pin, next_deadline};

// The bytes of the answers after an event.
pub(crate) const ANSWERS: usize = 24;

// So many differences have a line.
const SHOWN: u64 = 20;

// The values of 16 and of 32 bits.
const HALF: u64 = 65_536;

const WORD: u64 = 4_294_967_296;

// Which answer.
#[derive(Clone, Copy)]
pub enum Which {
    // The bytes of the answers that the input has.
    Stored,
    // The number of a refusal: the Rust refuses nothing that is played.
    Refused,
    Read,
    Busy,
    // Whether there is a deadline.
    Due,
    Deadline,
    Rows,
    Dropped,
    Generation,
    Planes,
}

#[derive(Clone, Copy)]
pub struct Answers {
    pub stored: u64,
    pub refused: u64,
    pub read: u64,
    pub busy: u64,
    pub due: u64,
    pub deadline: u64,
    pub rows: u64,
    pub dropped: u64,
    pub generation: u64,
    // 0 where no digest is taken.
    pub planes: u64,
}

// What was compared so far, and how many answers differ.
#[derive(Clone, Copy)]
pub struct Tally {
    pub traces: u64,
    pub events: u64,
    pub differ: u64,
}

// Ours, after an event at that time which was turned back or not and read what it read: the first refusal
// of its three calls.
pub(crate) fn ours(
    p: Uc8253,
    at: u64,
    refused: Option<Refusal>,
    read: u16,
    planes: u64,
) -> Answers {
    let busy = busy_pin(p, at);
    let deadline = next_deadline(p);
    let due = deadline.unwrap_or(None);
    Answers {
        stored: ANSWERS as u64,
        refused: u64::from(number_of(refused.or(busy.err()).or(deadline.err()))),
        read: u64::from(read),
        busy: u64::from(busy.unwrap_or(false)),
        due: u64::from(due.is_some()),
        deadline: due.unwrap_or(0),
        rows: u64::from(p.log.stored),
        dropped: p.log.dropped % HALF,
        generation: p.image.generation % WORD,
        planes,
    }
}

// The Rust's, of which the input had so many bytes.
pub(crate) fn theirs(bytes: &[u8], stored: usize) -> Answers {
    Answers {
        stored: stored as u64,
        refused: 0,
        read: little(bytes, 0, 2),
        busy: little(bytes, 2, 1),
        due: little(bytes, 3, 1),
        deadline: little(bytes, 4, 8),
        rows: little(bytes, 12, 2),
        dropped: little(bytes, 14, 2),
        generation: little(bytes, 16, 4),
        planes: little(bytes, 20, 4),
    }
}

impl Tally {
    // An answer of the trace that is under way, after its event of that index.
    pub(crate) fn hold<R: Print>(
        &mut self,
        rt: &R,
        event: u64,
        which: Which,
        ours: u64,
        theirs: u64,
    ) {
        if ours == theirs {
            return;
        }
        if self.differ < SHOWN {
            report::difference(rt, self.traces, event, which, ours, theirs);
        }
        self.differ = self.differ.saturating_add(1);
    }

    // All answers after an event.
    pub(crate) fn compare<R: Print>(&mut self, rt: &R, event: u64, ours: Answers, theirs: Answers) {
        for (which, here, there) in [
            (Which::Stored, ours.stored, theirs.stored),
            (Which::Refused, ours.refused, theirs.refused),
            (Which::Read, ours.read, theirs.read),
            (Which::Busy, ours.busy, theirs.busy),
            (Which::Due, ours.due, theirs.due),
            (Which::Deadline, ours.deadline, theirs.deadline),
            (Which::Rows, ours.rows, theirs.rows),
            (Which::Dropped, ours.dropped, theirs.dropped),
            (Which::Generation, ours.generation, theirs.generation),
            (Which::Planes, ours.planes, theirs.planes),
        ] {
            self.hold(rt, event, which, here, there);
        }
        self.events = self.events.saturating_add(1);
    }
}
