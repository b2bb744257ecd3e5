// What turns a later call back: refusal 6, a part at a time, the lengths of 5, and whether the call
// ends a refresh, for 7.
ghost use Rattle.std.specs.Prelude.{◌≡◌};
ghost use Rattle.controller.specs.TurnedBack as tests;
ghost use Rattle.controller.specs.Lent.{held};

use config::Uc8253Config;
use controller::{Current, Lent, Operation, Power, Stage, Uc8253, Work};
use diagnostic_log::ROWS;
use ram::PLANE;
use registers::{Area, Pair, Registers};
use waveform::Levels;

// The last column and row of the RAM, and the largest of ten bits.
const LAST_COLUMN: u16 = 799;

const LAST_ROW: u16 = 599;

const TEN_BITS: u16 = 1_023;

// The largest supply level: 15 V.
const MOST_LEVEL: u16 = 15_000;

const MOST_ROWS: u16 = 1_024;

#[tactic(auto, unfolding(controller::specs::TurnedBack::bad_config))]
fn bad_config(config: Uc8253Config) -> bool
    ensures { result ≡ tests.bad_config config }
{
    config.validate().is_err()
}

#[tactic(auto, unfolding(controller::specs::TurnedBack::bad_area))]
fn bad_area(a: Area) -> bool
    ensures { result ≡ tests.bad_area a }
{
    LAST_COLUMN < a.x0 || LAST_ROW < a.y0 || LAST_COLUMN < a.x1 || LAST_ROW < a.y1
}

#[tactic(auto, unfolding(controller::specs::TurnedBack::bad_pair))]
fn bad_pair(p: Pair) -> bool
    ensures { result ≡ tests.bad_pair p }
{
    TEN_BITS < p.h || TEN_BITS < p.v
}

#[tactic(auto, unfolding(controller::specs::TurnedBack::bad_registers))]
fn bad_registers(r: Registers) -> bool
    ensures { result ≡ tests.bad_registers r }
{
    bad_area(r.window) || bad_pair(r.resolution) || bad_pair(r.start)
}

// The cursor of a live command.
fn bad_stage(s: Stage) -> bool
    ensures { result ≡ tests.bad_stage s }
{
    match s.current {
        Current::Idle | Current::Ignoring => false,
        Current::Active(a) => LAST_COLUMN < a.cursor.x || LAST_ROW + 1 < a.cursor.y,
    }
}

#[tactic(auto, unfolding(controller::specs::TurnedBack::bad_levels))]
fn bad_levels(l: Levels) -> bool
    ensures { result ≡ tests.bad_levels l }
{
    MOST_LEVEL < l.vdh || MOST_LEVEL < l.vdl || MOST_LEVEL < l.vdhr
}

// The area, period and levels of a live refresh.
fn bad_work(o: Operation, period: u64, levels: Levels) -> bool
    ensures { result ≡ tests.bad_work o.work period levels }
{
    match o.work {
        Work::Refresh(r) => bad_area(r.area) || period == 0 || bad_levels(levels),
        _ => false,
    }
}

// 6: a record outside the listed ranges.
#[tactic(auto, unfolding(controller::specs::TurnedBack::foreign_record))]
pub fn foreign(p: Uc8253) -> bool
    ensures { result ≡ tests.foreign_record p }
{
    bad_config(p.config)
        || bad_registers(p.regs)
        || bad_stage(p.stage)
        || bad_work(p.operation, p.waveform.frame_ns, p.waveform.levels)
        || MOST_ROWS < p.log.stored
}

// 5: the lengths of the lent buffers.
#[tactic(auto, unfolding(controller::specs::TurnedBack::lengths_fit))]
pub fn lengths_fit(
    config: Uc8253Config,
    old: usize,
    new: usize,
    states: usize,
    picture: usize,
    rows: usize,
) -> bool
    ensures { result ≡ tests.lengths_fit config old new states picture rows }
{
    let pixels = usize::from(config.panel.sources) * usize::from(config.panel.gates);
    old == PLANE && new == PLANE && states == pixels && picture == pixels && rows == ROWS
}

// The same of all that a call is lent.
pub fn lent_fits(config: Uc8253Config, lent: &Lent<'_>) -> bool
    ensures { result ≡ tests.lent_fits config (held lent.now) }
{
    lengths_fit(
        config,
        lent.old.len(),
        lent.new.len(),
        lent.states.len(),
        lent.picture.len(),
        lent.rows.len(),
    )
}

fn cuts(power: Power, asserted: bool) -> bool
    ensures { result ≡ tests.cuts power asserted }
{
    asserted && !matches!(power, Power::InReset)
}

// Whether a call at a time, which may assert reset, ends a refresh.
#[tactic(auto, unfolding(controller::specs::TurnedBack::ends_refresh))]
pub fn ends_refresh(p: Uc8253, at: u64, asserted: bool) -> bool
    ensures { result ≡ tests.ends_refresh asserted at p }
{
    matches!(p.operation.work, Work::Refresh(_))
        && (p.operation.until <= p.now.max(at) || cuts(p.mode.power, asserted))
}
