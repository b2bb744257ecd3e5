// The glass over lent buffers (mod.rs: new, finish): the states and the picture, an entry for each
// pixel.
#![tactic(auto)]

ghost use Rattle.std.specs.Prelude.{◌≡◌, true, ◌*◌, ◌≤◌, ◌<◌, ltb, length, replicate};
ghost use Rattle.base.specs.Integer.{up};
ghost use Rattle.base.specs.Pick.{pick};
ghost use Rattle.glass.specs.Gray.{top_of, gray_at, gray_of};
ghost use Rattle.pixels.specs.States.{most, state_held, is_state, every_state};
ghost use Rattle.pixels.specs.Drive.{driven};
ghost use Rattle.pixels.specs.InnerReady.{ready_of, Bounded, moved_ready, slot_of};
ghost use Rattle.pixels.specs.Draw.{drawn_at, drawn};
ghost use Rattle.pixels.specs.InnerGuess.{threshold_of, Thresholds, white, Scaled, Prepared};

use base::KK;
use glass::{Transfer, Transfers, gray, gray_at, top_of};

// The largest state that an i64 holds: 2^63 - 1.
const MOST: u64 = 0x7FFF_FFFF_FFFF_FFFF;

// A move that takes every state past every other: 2^63.
const PAST: u64 = 0x8000_0000_0000_0000;

// Where no transfer of the four stands: a number and no Option, as the definition `slot_of` has it.
const NO_SLOT: usize = 4;

// A threshold for each grey, and for the one past white.
const THRESHOLDS: usize = 257;

// A grey, and white, which is 255, in the units of a guess, 2^-54.
const UNIT: u64 = 0x40_0000_0000_0000;

const WHITE: u64 = 0x3FC0_0000_0000_0000;

// A grey in the units of a guess at any top, 2^-46.
const FINE: u64 = 0x4000_0000_0000;

// What is left of a swing after a right guess, divided by twice the top, lies below.
const FAR: u64 = 0x4_0000;

// How far a state lies above zero.
fn above(z: i64) -> u64
    ensures { result ≡ up z }
{
    z.max(0) as u64
}

// A state as the buffer holds it.
fn held(x: u64) -> i64
    ensures { result ≡ state_held x }
{
    x.min(MOST) as i64
}

// Every state becomes one.
pub fn fill_states(states: &mut [i64], state: u64)
    ensures { states.new ≡ replicate (length states.old) (state_held state) }
{
    states.fill(held(state));
}

// A transfer made ready for states up to 2^63 - 1: `plus` is added to a state, the sum is held to
// low ..= high, and `minus` is taken from it. One of plus and minus is 0, and the ends are raised
// by minus, so no sign is tested.
#[derive(Clone, Copy)]
struct Ready {
    plus: u64,
    minus: u64,
    low: u64,
    high: u64,
}

impl Ready {
    #[tactic(auto, unfolding(crate::specs::InnerReady::ready_of))]
    fn new(t: Transfer) -> Ready
        ensures { result ≡ ready_of t }
    {
        let plus = t.up.saturating_sub(t.down).min(PAST);
        let minus = t.down.saturating_sub(t.up).min(PAST);
        Ready {
            plus,
            minus,
            low: t.lo.min(MOST) + minus,
            high: t.hi.min(MOST) + minus,
        }
    }

    // The state that a state becomes.
    #[tactic(auto, unfolding(crate::specs::InnerReady::moved_ready))]
    fn apply(self, z: i64) -> i64
        requires { Bounded self }
        ensures { result ≡ moved_ready self z }
    {
        ((above(z) + self.plus).min(self.high).max(self.low) - self.minus) as i64
    }
}

// Where a table number's transfer stands among the four; past them where it has none.
#[tactic(auto, unfolding(crate::specs::Drive::by_number))]
fn slot(number: u8) -> usize
    ensures { (result ≡ slot_of number) × (result < 5) }
{
    match number {
        1..=KK => number as usize - 1,
        _ => NO_SLOT,
    }
}

// The state y that a move gives, where the slot is a transfer's, else the state z as it was.
fn if_driven(slot: usize, y: i64, z: i64) -> i64
    ensures { result ≡ pick (ltb slot 4) y z }
{
    if slot < NO_SLOT { y } else { z }
}

// Every state moves by the transfer of its table number. Another number leaves it, and so does a
// missing one. Numbers come in no order, so a pixel's transfer is looked up, with no branch.
pub fn drive(states: &mut [i64], numbers: &[u8], t: Transfers)
    ensures { states.new ≡ driven t.ww t.kw t.wk t.kk numbers.now states.old }
{
    let ts = [
        Ready::new(t.ww),
        Ready::new(t.kw),
        Ready::new(t.wk),
        Ready::new(t.kk),
        Ready::new(t.kk),
    ];
    let n = states.len().min(numbers.len());
    for i in 0..n {
        let z = states[i];
        let k = slot(numbers[i]);
        states[i] = if_driven(k, ts[k].apply(z), z);
    }
}

// The least state of grey q or a lighter one, by split quotients, held to 64 bits.
fn threshold(q: u64, swing: u64) -> u64
    requires { q ≤ 256 }
    ensures { result ≡ threshold_of q swing }
{
    let m = (2 * q).saturating_sub(1);
    m.saturating_mul(swing / 510)
        .saturating_add((m * (swing % 510) + 509) / 510)
}

fn thresholds(swing: u64) -> [u64; THRESHOLDS]
    ensures { Thresholds swing result 257 }
{
    let mut from = [0u64; THRESHOLDS];
    for q in 0..THRESHOLDS {
        from[q] = threshold(q as u64, swing);
    }
    from
}

// How a grey is guessed: the leading bits of the state, at most `most`, times the factor are the
// grey in the units of the guess.
#[derive(Clone, Copy)]
struct Scale {
    shift: u32,
    most: u64,
    factor: u64,
}

// The bits that a number has past 32.
fn excess(x: u64) -> u32
    ensures { result ≤ 32 }
{
    32u32.saturating_sub(x.leading_zeros())
}

// White in units of a guess, divided by the number that stands for it.
fn factor(most: u64, white: u64) -> u64
    ensures { most * result ≤ white }
{
    if most == 0 { 0 } else { white / most }
}

impl Scale {
    fn new(swing: u64, white: u64) -> Scale
        ensures { Scaled result white }
    {
        let shift = excess(swing);
        let most = swing >> shift;
        let factor = factor(most, white);
        Scale {
            shift,
            most,
            factor,
        }
    }
}

// The grey of a state. It is guessed by a multiplication, the thresholds tell whether the guess is
// right, and only where it is not the grey is divided for.
fn shade(x: u64, swing: u64, scale: Scale, from: &[u64]) -> u8
    requires { Scaled scale white × Thresholds swing from.now 257 }
    ensures { result ≡ gray_of x swing }
{
    let a = x >> scale.shift;
    if a <= scale.most {
        let q = ((a * scale.factor + UNIT / 2) / UNIT) as usize;
        if from[q] <= x && x < from[q + 1] {
            return q as u8;
        }
    }
    gray(x, swing)
}

// The picture of the states; entries past the shorter of the two stay.
pub fn draw(picture: &mut [u8], states: &[i64], swing: u64)
    ensures { picture.new ≡ drawn swing states.now picture.old }
{
    let n = picture.len().min(states.len());
    let from = thresholds(swing);
    let scale = Scale::new(swing, WHITE);
    for i in 0..n {
        picture[i] = shade(above(states[i]), swing, scale, &from);
    }
}

// What greys at a top want, worked out once for all pixels: the swing is `whole` times `double`,
// which is twice the top, and `rest`.
#[derive(Clone, Copy)]
struct Wide {
    swing: u64,
    top: u16,
    double: u64,
    whole: u64,
    rest: u64,
    scale: Scale,
}

impl Wide {
    fn new(swing: u64, top: u16) -> Wide
        ensures { Prepared swing (top_of top) result }
    {
        let white = top_of(top);
        let double = 2 * white as u64;
        let scale = Scale::new(swing, white as u64 * FINE);
        Wide {
            swing,
            top: white,
            double,
            whole: swing / double,
            rest: swing % double,
            scale,
        }
    }
}

// Whether a guess is the grey: twice the guess in swings lies at most a swing above twice the top in
// states, and less than a swing below. All is divided by twice the top, and so fits 64 bits.
fn is_grey(q: u64, x: u64, w: Wide) -> bool
    requires { Prepared w.swing w.top w × (q ≤ w.top) × (x ≤ most) }
    ensures { result ≡ true → gray_at w.top x w.swing ≡ q }
{
    let reached = x + w.whole;
    let wanted = 2 * q * w.whole;
    if reached < wanted {
        return false;
    }
    let over = reached - wanted;
    let part = 2 * q * w.rest;
    if w.double * over.min(FAR) + w.rest < part {
        return false;
    }
    if over < 2 * w.whole {
        return true;
    }
    let past = over - 2 * w.whole;
    past < FAR && w.double * past < part + w.rest
}

// The grey of a state at a top, guessed as `shade` does and tested without a table.
fn shade_wide(x: u64, w: Wide) -> u16
    requires { Prepared w.swing w.top w × (x ≤ most) }
    ensures { result ≡ gray_at w.top x w.swing }
{
    let a = x >> w.scale.shift;
    if a <= w.scale.most {
        let q = (a * w.scale.factor + FINE / 2) / FINE;
        if is_grey(q, x, w) {
            return q as u16;
        }
    }
    gray_at(x, w.swing, w.top)
}

// The picture of the states at a top, of which 0 stands for 255; entries past the shorter of the two
// stay.
pub fn draw_wide(picture: &mut [u16], states: &[i64], swing: u64, top: u16)
    ensures { picture.new ≡ drawn_at (top_of top) swing states.now picture.old }
{
    let n = picture.len().min(states.len());
    let w = Wide::new(swing, top);
    for i in 0..n {
        picture[i] = shade_wide(above(states[i]), w);
    }
}

// Whether a number lies in 0 ..= swing.
fn is_state(z: i64, swing: u64) -> bool
    ensures { result ≡ is_state swing z }
{
    0 <= z && above(z) <= swing
}

// Whether every state lies in 0 ..= swing.
pub fn all_states(states: &[i64], swing: u64) -> bool
    ensures { result ≡ every_state swing states.now }
{
    let mut all = true;
    for z in states {
        all &= is_state(*z, swing);
    }
    all
}
