// Words of a simulation through the controller, with the calls that they make.
ghost use Rattle.controller.specs.World.{world};
ghost use Rattle.controller.specs.Lent.{before, after, Keeps};
ghost use Rattle.vcd_simulation.specs.Feed.{codes_by};
ghost use Rattle.vcd_playing.specs.Words as rule;

use controller::{Lent, Uc8253};
use events::run;
use vcd_declarations::Head;
use vcd_simulation::{Body, feed};

// The bytes of events that are gathered before they are run.
const ROOM: usize = 10_000;

// The events of a word, and those of one word before it: where so many bytes are free, all was read.
const FREE: usize = 20;

// The record and the body after some words, and the place behind the last of them.
#[derive(Clone, Copy)]
pub struct Turn {
    pub chip: Uc8253,
    pub body: Body,
    pub next: usize,
}

// The words of some bytes from a place on, after those of a head; the last of them only where a
// blank or the dump's end closes it.
pub fn play_words(
    p: Uc8253,
    head: &[u8],
    h: Head,
    bytes: &[u8],
    at: usize,
    last: bool,
    b: Body,
    lent: &mut Lent<'_>,
) -> Turn
    ensures plays { rule.Plays (codes_by head.now h) bytes.now at last b result
        (world p (before lent)) (world result.chip (after lent)) }
    ensures kept { Keeps lent }
{
    let mut out = [0u8; ROOM];
    let mut t = Turn {
        chip: p,
        body: b,
        next: at,
    };
    // no plainer: a turn takes as many words as there is room for, so there is no index to count
    while t.next < bytes.len() {
        let f = feed(head, h, bytes, t.next, last, t.body, &mut out);
        let ran = run(t.chip, &out[..f.held], &mut [], lent);
        t = Turn {
            chip: ran.chip,
            body: f.body,
            next: f.next,
        };
        if f.held <= ROOM - FREE {
            return t;
        }
    }
    t
}
