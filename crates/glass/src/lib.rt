// The glass of an e-paper panel (glass.rs): its optics, the head of the picture published after a
// refresh, and the arithmetic that moves a pixel's optical state.
//
// A state lies between black (0) and white (the full swing). A frame adds its drive and holds the
// sum to that range; a run of frames is again one translation that is held, a `Transfer`.
#![tactic(auto)]

ghost use Rattle.std.specs.Prelude.{◌≡◌, ◌≤◌, ◌<◌, ◌+◌, ◌-◌, ◌*◌, ◌%◌, ◌^◌, min};
ghost use Rattle.base.specs.Word.{top};
ghost use Rattle.glass.specs.Gray.{level_of, gray_of, top_of, gray_at};
ghost use Rattle.glass.specs.InnerDivision.{Carried};
ghost use Rattle.glass.specs.Transfer.{act, identity_of, shift_of, then_of};
ghost use Rattle.glass.specs.Optics.{x3};

// How the glass answers the waveform.
#[repr(C)]
#[derive(Clone, Copy)]
pub struct Optics {
    // The drive from black to white, in millivolts times nanoseconds.
    pub full_swing: u64,
    // A positive pixel voltage (source above VCOM) darkens the pixel.
    pub positive_drives_black: bool,
    // The grey of every pixel at power-on, 0 black to 255 white.
    pub initial_gray: u8,
}

impl Optics {
    // The X3's glass: 6 V s from black to white, white at power-on.
    pub fn xteink_x3() -> Optics
        ensures { result ≡ x3 }
    {
        Optics {
            full_swing: 6_000_000_000_000,
            positive_drives_black: true,
            initial_gray: 255,
        }
    }
}

// What a published picture comes from.
#[derive(Clone, Copy)]
pub enum RefreshKind {
    // The glass at power-on, before any refresh (generation 0).
    PowerOn,
    // A refresh that drives every pixel.
    Full,
    // A refresh that leaves some pixel alone.
    Partial,
}

// A picture without its pixels, which lie in a lent buffer.
#[derive(Clone, Copy)]
pub struct PanelImage {
    pub width: u16,
    pub height: u16,
    // 0 at power-on, then one more for every refresh published.
    pub generation: u64,
    pub kind: RefreshKind,
    // A reset cut the refresh short.
    pub interrupted: bool,
    pub started: u64,
    pub at: u64,
}

// x + up - down, held to 0 ..= 2^64 - 1.
fn moved(x: u64, up: u64, down: u64) -> u64
    ensures { result ≡ min (x + up - down) top }
{
    if x < down {
        up.saturating_sub(down - x)
    } else {
        (x - down).saturating_add(up)
    }
}

// a + b - (c + d), held to 0 ..= 2^64 - 1.
fn net(a: u64, b: u64, c: u64, d: u64) -> u64
    ensures { result ≡ min (a + b - (c + d)) top }
{
    if a < c {
        b.saturating_sub(d).saturating_sub(c - a)
    } else {
        moved(a - c, b, d)
    }
}

// What a run of frames does to a state: it adds up, takes down away and holds to lo ..= hi.
#[derive(Clone, Copy)]
pub struct Transfer {
    pub up: u64,
    pub down: u64,
    pub lo: u64,
    pub hi: u64,
}

impl Transfer {
    // Leaves every state of 0 ..= swing where it is.
    pub fn identity(swing: u64) -> Transfer
        ensures { result ≡ identity_of swing }
    {
        Transfer {
            up: 0,
            down: 0,
            lo: 0,
            hi: swing,
        }
    }

    // Moves every state by up - down, stopping at 0 and swing.
    pub fn shift(up: u64, down: u64, swing: u64) -> Transfer
        ensures { result ≡ shift_of up down swing }
    {
        Transfer {
            up,
            down,
            lo: 0,
            hi: swing,
        }
    }

    // The state that a state becomes.
    pub fn apply(self, state: u64) -> u64
        ensures { result ≡ act self state }
    {
        moved(state, self.up, self.down).min(self.hi).max(self.lo)
    }

    // This run, and then the next: held to lo ..= hi and moved, a state is moved first and held to
    // where the two ends go, so one transfer serves for both.
    pub fn then(self, next: Transfer) -> Transfer
        ensures { result ≡ then_of self next }
    {
        Transfer {
            up: net(self.up, next.up, self.down, next.down),
            down: net(self.down, next.down, self.up, next.up),
            lo: next.apply(self.lo),
            hi: next.apply(self.hi),
        }
    }
}

// The transfers of the four tables that drive pixels: white stays white, black to white, white to
// black, black stays black.
#[derive(Clone, Copy)]
pub struct Transfers {
    pub ww: Transfer,
    pub kw: Transfer,
    pub wk: Transfer,
    pub kk: Transfer,
}

// The state of a grey: swing * gray / 255 by split quotients, since the product may pass 64 bits.
pub fn level(gray: u8, swing: u64) -> u64
    ensures { result ≡ level_of gray swing }
{
    let g = gray as u64;
    swing / 255 * g + swing % 255 * g / 255
}

// A sum of two numbers below the swing, as a carry and what is left below the swing.
#[derive(Clone, Copy)]
struct Sum {
    carry: u64,
    rest: u64,
}

fn carried(a: u64, b: u64, swing: u64) -> Sum
    requires { (a < swing) × (b < swing) }
    ensures { Carried a b swing result }
{
    if a < swing - b {
        Sum {
            carry: 0,
            rest: a + b,
        }
    } else {
        Sum {
            carry: 1,
            rest: a - (swing - b),
        }
    }
}

// The state, where the last binary digit of n is 1; else nothing.
fn counted(n: u64, state: u64) -> u64
    ensures { result ≡ n % 2 * state }
{
    if n % 2 == 1 { state } else { 0 }
}

// The grey by long division of top * state, digit by digit of the top: each turn doubles what is left
// and adds the state where the digit is 1.
fn gray_wide(state: u64, swing: u64, top: u64, digits: u32) -> u64
    requires { (state < swing) × (top < 2 ^ digits) × (digits ≤ 16) }
    ensures { result ≡ gray_at top state swing }
{
    let mut q: u64 = 0;
    let mut r: u64 = 0;
    for left in (0..digits).rev() {
        let twice = carried(r, r, swing);
        let more = carried(twice.rest, counted(top >> left, state), swing);
        q = 2 * q + twice.carry + more.carry;
        r = more.rest;
    }
    if r < swing - r { q } else { q + 1 }
}

// The grey of a state, to the nearest, halves up. Below a swing of 2^54 the numbers of the formula
// fit 64 bits.
pub fn gray(state: u64, swing: u64) -> u8
    ensures { result ≡ gray_of state swing }
{
    if swing <= state {
        return if swing == 0 { 0 } else { 255 };
    }
    if swing < 0x40_0000_0000_0000 {
        ((510 * state + swing) / (2 * swing)) as u8
    } else {
        gray_wide(state, swing, 255, 8) as u8
    }
}

// The top of a picture: 0 stands for 255.
pub fn top_of(top: u16) -> u16
    ensures { result ≡ top_of top }
{
    if top == 0 { 255 } else { top }
}

// The same from 0 to a top. Below a swing of 2^47 the numbers of the formula fit 64 bits.
pub fn gray_at(state: u64, swing: u64, top: u16) -> u16
    ensures { result ≡ gray_at (top_of top) state swing }
{
    let white = top_of(top);
    if swing <= state {
        return if swing == 0 { 0 } else { white };
    }
    if swing < 0x8000_0000_0000 {
        ((2 * white as u64 * state + swing) / (2 * swing)) as u16
    } else {
        gray_wide(state, swing, white as u64, 16) as u16
    }
}
