// The end of a dump that was read part by part.
ghost use Rattle.std.specs.Prelude.{List, ℕ};
ghost use Rattle.controller.specs.World.{World, buffers, world};
ghost use Rattle.controller.specs.Lent.{before, after, Keeps};
ghost use Rattle.vcd_reading.specs.Reading as rule;
ghost use Rattle.vcd_reading.specs.InnerStep.{ClosesWords};
ghost use Rattle.vcd_simulation.specs.Feed.{codes_by};

use crate::reader::{Reader, Stage};
use controller::{Lent, Uc8253};
use vcd::{Fault, verdict};
use vcd_declarations::{Begun, declarations};
use vcd_playing::{finish, play_words};
use vcd_simulation::{Body, begun};

// Why a dump was not read to its end.
#[derive(Clone, Copy)]
pub enum Limit {
    HeadTooLong,
    WordTooLong,
}

// The record after the last call, and what the dump came to: what turns it back, if anything does.
#[derive(Clone, Copy)]
pub struct Closed {
    pub chip: Uc8253,
    pub ending: Result<Result<(), Fault>, Limit>,
}

// The last words, the advance at the end, and what turns the dump back.
fn close_words(
    b: Begun,
    head: &[u8],
    bytes: &[u8],
    at: usize,
    body: Body,
    p: Uc8253,
    lent: &mut Lent<'_>,
) -> Closed
    ensures closes { ClosesWords (codes_by head.now b.head) b bytes.now at body result
        (world p (before lent)) (world result.chip (after lent)) }
    ensures same { Keeps lent }
{
    let t = play_words(p, head, b.head, bytes, at, true, body, lent);
    let chip = finish(t.chip, t.body, lent);
    let ending = Ok(verdict(b, t.body));
    Closed { chip, ending }
}

// By the stage.
fn close_by(r: Reader, p: Uc8253, kept: &[u8], word: &[u8], lent: &mut Lent<'_>) -> Closed
    ensures closes { (d : List ℕ) (w : World)
        → rule.Stands d r kept.now word.now w (world p (before lent))
        → rule.Closes r.stage d result w (world p (before lent)) (world result.chip (after lent)) }
    ensures same { Keeps lent }
{
    let head = &kept[..r.held.min(kept.len())];
    match r.stage {
        Stage::Heading => {
            let b = declarations(head);
            close_words(b, head, head, b.next, begun(), p, lent)
        }
        Stage::Playing => {
            let open = &word[..r.carried.min(word.len())];
            close_words(r.begun, head, open, 0, r.body, p, lent)
        }
        Stage::HeadTooLong => Closed {
            chip: p,
            ending: Err(Limit::HeadTooLong),
        },
        Stage::WordTooLong => Closed {
            chip: p,
            ending: Err(Limit::WordTooLong),
        },
    }
}

// The slices are apart: that each keeps its length is known of slices, and not of what is lent as one.
fn close_in(
    r: Reader,
    p: Uc8253,
    kept: &[u8],
    word: &[u8],
    old: &mut [u8],
    new: &mut [u8],
    states: &mut [i64],
    picture: &mut [u8],
    rows: &mut [u64],
) -> Closed
    ensures { (d : List ℕ) (w : World)
        → rule.Stands d r kept.now word.now w
        (world p (buffers old.old new.old states.old picture.old rows.old))
        → rule.Closes r.stage d result w
        (world p (buffers old.old new.old states.old picture.old rows.old))
        (world result.chip (buffers old.new new.new states.new picture.new rows.new)) }
{
    let mut lent = Lent {
        old,
        new,
        states,
        picture,
        rows,
    };
    close_by(r, p, kept, word, &mut lent)
}

// No part follows.
pub fn close(r: Reader, p: Uc8253, kept: &[u8], word: &[u8], lent: &mut Lent<'_>) -> Closed
    ensures closes { (d : List ℕ) (w : World)
        → rule.Stands d r kept.now word.now w (world p (before lent))
        → rule.Closes r.stage d result w (world p (before lent)) (world result.chip (after lent)) }
    ensures lengths { rule.SameLengths lent }
    ensures same { Keeps lent }
{
    let (old, new, states, picture, rows) = (
        &mut *lent.old,
        &mut *lent.new,
        &mut *lent.states,
        &mut *lent.picture,
        &mut *lent.rows,
    );
    close_in(r, p, kept, word, old, new, states, picture, rows)
}
