// What is known of a dump after some parts of it.
ghost use Rattle.std.specs.Prelude.{List, [], ℕ};
ghost use Rattle.controller.specs.World.{World};
ghost use Rattle.vcd_reading.specs.Reading as rule;

use vcd_declarations::{Begun, declarations};
use vcd_simulation::Body;

#[derive(Clone, Copy)]
pub enum Stage {
    // All bytes so far are kept.
    Heading,
    // The declarations are over.
    Playing,
    // The declarations and a word behind them are longer than what keeps them.
    HeadTooLong,
    // A word is longer than what keeps one that is open.
    WordTooLong,
}

// How much of its two buffers counts stands here: no heap, so they are lent anew with each part.
#[derive(Clone, Copy)]
pub struct Reader {
    pub stage: Stage,
    // The first bytes that are kept, and what their declarations say.
    pub held: usize,
    pub begun: Begun,
    // After the words that are closed, and the bytes of the one that is open.
    pub body: Body,
    pub carried: usize,
}

// Before the first part.
pub fn start() -> Reader
    ensures { (kept word : List ℕ) (w : World) → rule.Stands [] result kept word w w }
{
    Reader {
        stage: Stage::Heading,
        held: 0,
        begun: declarations(b""),
        body: vcd_simulation::begun(),
        carried: 0,
    }
}
