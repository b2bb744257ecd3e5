// The parameters of the controller and of the glass that it drives (config.rs): the X3's own
// values, and what turns a configuration back.
#![tactic(auto)]

ghost use Rattle.std.specs.Prelude.{◌≡◌};
ghost use Rattle.config.specs.X3.{ds53, periods_to, x3_panel, x3_timing, x3, x3_uc8279d};
ghost use Rattle.base.specs.RefusalNumbers.{number_in};
ghost use Rattle.config.specs.Refusal.{empty_panel, oversized_panel, swing_refused, period_refused, rate_refused, some_zero, refusal};

use base::Refusal;
use clock::{BILLION, rate_refused};
use glass::Optics;

// Sources of the controller: the width of each RAM plane, in pixels (DS79: 800 × 600).
pub const RAM_SOURCES: u16 = 800;
// Gates of the controller: the height of each RAM plane, in rows.
pub const RAM_GATES: u16 = 600;
// Bytes of a waveform LUT that the model reads in KW mode: seven groups of six bytes (DS79).
pub const LUT_BYTES: usize = 42;
// The most bytes that a LUT command takes: ten groups of six (DS79, LUTC and the KWR LUTs).
pub const LUT_MAX_BYTES: u16 = 60;
// Frame-rate codes of `PLL` (0x30): five bits.
pub const FRAME_RATE_CODES: usize = 32;
// The last of them.
const LAST_CODE: u8 = 31;

const MICROSECOND: u64 = 1_000;

const MILLISECOND: u64 = 1_000_000;

// The largest full swing: 2^63 - 1, the largest signed 64-bit number.
const MOST_SWING: u64 = 0x7FFF_FFFF_FFFF_FFFF;

// Which controller of the X3's two batches the model plays.
#[derive(Clone, Copy)]
pub enum Variant {
    // The first batch: its commands have the layout of the UC8179 (DS79), it drives nothing on a
    // read, and `CDI` takes two bytes.
    Uc8253,
    // The later batch: it answers `REV` with 0x66 in its third byte, and `CDI` takes one byte
    // (DS53's layout).
    Uc8279d,
}

// How the glass's pixels sit on the controller's lines.
#[repr(C)]
#[derive(Clone, Copy)]
pub struct Uc8253Geometry {
    // Sources wired to the glass, from S0: its width.
    pub sources: u16,
    // Gates wired to the glass, from G0: its height.
    pub gates: u16,
    // The image's top row is the last gate (`G[gates - 1]`), its bottom row G0.
    pub rows_reversed: bool,
    // The image's left column is the last source.
    pub columns_reversed: bool,
}

impl Uc8253Geometry {
    // The X3's glass: 792 sources by 528 gates.
    //
    // ASSUMPTION: the glass's scan direction is in no source. Rows reversed (G0 at the bottom of
    // the image) and a quarter turn clockwise in the case show the firmware's picture upright.
    pub fn xteink_x3() -> Uc8253Geometry
        ensures { result ≡ x3_panel }
    {
        Uc8253Geometry {
            sources: 792,
            gates: 528,
            rows_reversed: true,
            columns_reversed: false,
        }
    }
}

// How long each operation keeps `BUSY_N` low, in nanoseconds, and the frame period of each `PLL`
// code. Every value that no datasheet gives is an ASSUMPTION.
#[repr(C)]
#[derive(Clone, Copy)]
pub struct Uc8253Timing {
    // `PON` until every supply is up: about 127 ms, measured on an X3.
    pub power_on: u64,
    // `POF`. ASSUMPTION: 30 ms; no source measures it.
    pub power_off: u64,
    // `DSLP` with its check code. ASSUMPTION: 1 ms.
    pub deep_sleep: u64,
    // A soft reset (`PSR` with `RST_N` 0): at least 50 µs (DS53).
    pub soft_reset: u64,
    // After `RST_N` rises: "more than 1 ms" of initialisation, commands ignored (DS79).
    pub hardware_reset: u64,
    // The period of one frame for each code of `PLL`. ASSUMPTION: DS53's table; code 9, the X3's,
    // is 50 Hz there, and DS79 gives it 80 Hz.
    pub frame_period: [u64; FRAME_RATE_CODES],
    // The rate of the board's own clock, in Hz: every other time is a count of its cycles (2026-05).
    pub rate: u64,
}

// The frame period of a `PLL` code by DS53's table.
pub fn ds53_frame_period(code: u8) -> u64
    ensures { result ≡ ds53 code }
{
    if code == LAST_CODE {
        return 1_000 * MILLISECOND / 200;
    }
    1_000 * MILLISECOND / (5 * (code as u64 + 1))
}

// The frame period of each code.
fn ds53_frame_periods() -> [u64; FRAME_RATE_CODES]
    ensures { result ≡ periods_to 32 }
{
    let mut periods = [0; FRAME_RATE_CODES];
    for code in 0..FRAME_RATE_CODES {
        periods[code] = ds53_frame_period(code as u8);
    }
    periods
}

impl Uc8253Timing {
    // The X3's times.
    pub fn xteink_x3() -> Uc8253Timing
        ensures { result ≡ x3_timing }
    {
        let frame_period = ds53_frame_periods();
        Uc8253Timing {
            power_on: 127 * MILLISECOND,
            power_off: 30 * MILLISECOND,
            deep_sleep: MILLISECOND,
            soft_reset: 50 * MICROSECOND,
            hardware_reset: MILLISECOND,
            frame_period,
            rate: BILLION,
        }
    }
}

// Everything that a model is built from.
#[derive(Clone, Copy)]
pub struct Uc8253Config {
    pub variant: Variant,
    pub panel: Uc8253Geometry,
    pub optics: Optics,
    pub timing: Uc8253Timing,
    // What the internal sensor reads (`TSC` of the UC8279d): a signed number of degrees Celsius,
    // as its eight bits.
    pub ambient_celsius: u8,
    // Rule 2 of VCOM at making: its table runs by its own frames (2026-08).
    pub vcom_by_frame: bool,
}

// Whether one of the periods is 0.
fn some_zero(periods: [u64; FRAME_RATE_CODES]) -> bool
    ensures { result ≡ some_zero periods 32 }
{
    for i in 0..FRAME_RATE_CODES {
        if periods[i] == 0 {
            return true;
        }
    }
    false
}

impl Uc8253Config {
    // The X3 of the first batch, at 25 °C.
    pub fn xteink_x3() -> Uc8253Config
        ensures { result ≡ x3 }
    {
        let panel = Uc8253Geometry::xteink_x3();
        let optics = Optics::xteink_x3();
        let timing = Uc8253Timing::xteink_x3();
        Uc8253Config {
            variant: Variant::Uc8253,
            panel,
            optics,
            timing,
            ambient_celsius: 25,
            vcom_by_frame: false,
        }
    }

    // The X3 of the later batch: the same glass behind a UC8279d.
    pub fn xteink_x3_uc8279d() -> Uc8253Config
        ensures { result ≡ x3_uc8279d }
    {
        Uc8253Config {
            variant: Variant::Uc8279d,
            ..Uc8253Config::xteink_x3()
        }
    }

    // 1: sources or gates is 0.
    fn empty_panel(self) -> bool
        ensures { result ≡ empty_panel self }
    {
        self.panel.sources == 0 || self.panel.gates == 0
    }

    // 2: sources > 800 or gates > 600.
    fn oversized_panel(self) -> bool
        ensures { result ≡ oversized_panel self }
    {
        self.panel.sources > RAM_SOURCES || self.panel.gates > RAM_GATES
    }

    // 3: full swing is 0 or above 2^63 - 1.
    fn swing_refused(self) -> bool
        ensures { result ≡ swing_refused self }
    {
        self.optics.full_swing == 0 || self.optics.full_swing > MOST_SWING
    }

    // 4: one of the 32 periods is 0.
    fn period_refused(self) -> bool
        ensures { result ≡ period_refused self }
    {
        let timing = self.timing;
        let periods = timing.frame_period;
        some_zero(periods)
    }

    // 13: the rate is 0 or above 1,000,000,000 Hz.
    fn clock_refused(self) -> bool
        ensures { result ≡ rate_refused self }
    {
        rate_refused(self.timing.rate)
    }

    // The first of refusals 1 to 4 and 13 that the configuration meets, if it meets one.
    pub fn validate(self) -> Result<(), Refusal>
        ensures { number_in result ≡ refusal self }
    {
        if self.empty_panel() {
            return Err(Refusal::EmptyPanel);
        }
        if self.oversized_panel() {
            return Err(Refusal::OversizedPanel);
        }
        if self.swing_refused() {
            return Err(Refusal::Swing);
        }
        if self.period_refused() {
            return Err(Refusal::FramePeriod);
        }
        if self.clock_refused() {
            return Err(Refusal::ClockRate);
        }
        Ok(())
    }
}
